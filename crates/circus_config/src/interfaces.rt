// The interfaces of a file, or the least fault of the pass that reads it.
ghost use Rattle.std.specs.Prelude.{◌≡◌, ◌++◌, [], ◌∷◌, map, None, OnOk, IfOk, IfNone};
ghost use Rattle.circus_syntax.specs.InterfaceTree.{interface_of};
ghost use Rattle.circus_fault.specs.Least.{least_from};
ghost use Rattle.circus_fault.specs.Seen.Tables.{known_of};
ghost use Rattle.circus_fault.specs.Known.{add_name};
ghost use Rattle.circus_idl.specs.Faults as idl;
ghost use Rattle.circus_idl.specs.declared.interface.Interface.{Interface};
ghost use Rattle.circus_idl.specs.Means.{Means};
ghost use Rattle.circus_config.specs.Rank.{rank_of};
ghost use Rattle.circus_config.specs.Told.{interface_told};
ghost use Rattle.circus_config.specs.Reading.{name_faults, read_faults};
ghost use Rattle.circus_config.specs.Program.{EachMeans};
ghost use Rattle.circus_config.specs.Seen.{least_fault};

use crate::ProgramCause;
use crate::least::Least;
use crate::told::of_interface;
use circus_check::Interfaces;
use circus_fault::Names;
use circus_limits::MOST_INTERFACES;
use circus_syntax::{InterfaceText, Stop};
use circus_value::NoMemory;
use std::alloc::Global;

// The name of an interface, of which so many stand before it.
fn name<'a>(
    least: &mut Least,
    names: &mut Names<'a>,
    number: usize,
    text: &'a InterfaceText,
) -> Result<(), NoMemory>
    ensures found { OnOk result
        (least_fault least.new ≡ least_from rank_of (least_fault least.old)
        (name_faults (known_of names.old) number (interface_of text.now))) }
    ensures added { OnOk result
        (known_of names.new ≡ add_name text.now.name.name number (known_of names.old)) }
{
    let earlier = names.insert(text.name.name.as_slice(), number)?;
    least.note(earlier.is_some(), text.name.at, ProgramCause::Repeated);
    least.note(
        number == MOST_INTERFACES,
        text.name.at,
        ProgramCause::TooMany,
    );
    Ok(())
}

// The rules of an interface, which is made where it has no fault and reading didn't stop.
fn rules(
    alloc: Global,
    least: &mut Least,
    made: &mut Interfaces,
    stop: &Option<Stop>,
    text: &InterfaceText,
) -> Result<(), NoMemory>
    ensures found { OnOk result
        (least_fault least.new ≡ least_from rank_of (least_fault least.old)
        (map interface_told (idl.read_faults stop.now (interface_of text.now)))) }
    ensures meant { OnOk result
        (IfNone least.new.found
        ((i : Interface) × (made.new ≡ made.old ++ i ∷ []) × Means (interface_of text.now) i)) }
{
    match circus_idl::check_interface(alloc, text, stop) {
        Ok(interface) => {
            made.push(interface)?;
            Ok(())
        }
        Err(fault) => {
            least.keep(of_interface(fault)?);
            Ok(())
        }
    }
}

/// The least fault of the pass that reads, of where reading stopped and of the interfaces; and these where there is none.
pub fn interfaces(
    alloc: Global,
    texts: &[InterfaceText],
    stop: &Option<Stop>,
) -> Result<(Least, Interfaces), NoMemory>
    ensures found { IfOk result (λ read.
        least_fault read.0
        ≡ least_from rank_of None (read_faults stop.now (map interface_of texts.now))) }
    ensures means { IfOk result (λ read.
        IfNone read.0.found (EachMeans (map interface_of texts.now) read.1)) }
{
    let mut least = Least::of_stop(stop);
    let mut names = Names::new(alloc);
    let mut made = Interfaces::new(alloc);
    for (number, text) in texts.iter().enumerate() {
        name(&mut least, &mut names, number, text)?;
        rules(alloc, &mut least, &mut made, stop, text)?;
    }
    Ok((least, made))
}
