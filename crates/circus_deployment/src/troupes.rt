// The faults of troupes.
ghost use Rattle.std.specs.Prelude.{◌≡◌, map, option_map, option_copied, OnOk, IfOk};
ghost use Rattle.circus_fault.specs.Least.{least_from};
ghost use Rattle.circus_fault.specs.Known.{nobody, add_name};
ghost use Rattle.circus_fault.specs.Seen.Tables.{known_of};
ghost use Rattle.circus_syntax.specs.declared.named.Named.{Named};
ghost use Rattle.circus_lang.specs.ModuleTree.{module_of};
ghost use Rattle.circus_deployment.specs.Rank.{rank_of};
ghost use Rattle.circus_deployment.specs.Nodes.{module_numbers, troupe_numbers};
ghost use Rattle.circus_deployment.specs.Faults.{needed_faults, crowd_faults, troupe_faults, troupes_faults, first_without_troupe};

use crate::cause::Cause;
use circus_fault::{Best, Names};
use circus_lang::ModuleText;
use circus_limits::{MOST_MEMBERS, MOST_NEEDED};
use circus_syntax::Named;
use circus_troupe::{HostText, KindText, TroupeText, WrittenKind};
use circus_value::NoMemory;
use std::alloc::Global;

// The number behind LEAST.
fn check_least(best: &mut Best<Cause>, kind: KindText)
    ensures { best.new.fault ≡ least_from rank_of best.old.fault (needed_faults kind.kind) }
{
    if let WrittenKind::AtLeast(number) = kind.kind {
        best.note_out_of(MOST_NEEDED, number, Cause::OutOfRange);
    }
}

// A founder that is one too many, if there is one.
fn crowd(best: &mut Best<Cause>, host: Option<&HostText>)
    ensures { best.new.fault
        ≡ least_from rank_of best.old.fault (crowd_faults (option_copied host.entry)) }
{
    if let Some(host) = host {
        best.note(true, host.name.at, Cause::TooMany);
    }
}

fn troupe<'a>(
    best: &mut Best<Cause>,
    modules: &Names,
    troupes: &mut Names<'a>,
    number: usize,
    text: &'a TroupeText,
) -> Result<(), NoMemory>
    ensures found { OnOk result
        (best.new.fault ≡ least_from rank_of best.old.fault
        (troupe_faults (known_of modules.now) (known_of troupes.old) text.now)) }
    ensures added { OnOk result
        (known_of troupes.new ≡ add_name text.now.name.name number (known_of troupes.old)) }
{
    let name = text.name.name.as_slice();
    let earlier = troupes.insert(name, number)?;
    best.note(modules.get(name).is_none(), text.name.at, Cause::Unknown);
    best.note(earlier.is_some(), text.name.at, Cause::Repeated);
    check_least(best, text.calls);
    check_least(best, text.replies);
    crowd(best, text.members.get(MOST_MEMBERS));
    Ok(())
}

/// The troupes of modules: each of a module and the only one, and each number in its range. It answers their numbers by
/// their names.
pub fn check_troupes<'a>(
    alloc: Global,
    best: &mut Best<Cause>,
    modules: &Names,
    texts: &'a [TroupeText],
) -> Result<Names<'a>, NoMemory>
    ensures found { OnOk result
        (best.new.fault ≡ least_from rank_of best.old.fault
        (troupes_faults (known_of modules.now) nobody 0 texts.now)) }
    ensures numbered { IfOk result (λ troupes. known_of troupes ≡ troupe_numbers texts.now) }
{
    let mut troupes = Names::new(alloc);
    for (number, text) in texts.iter().enumerate() {
        troupe(best, modules, &mut troupes, number, text)?;
    }
    Ok(troupes)
}

/// The numbers of modules by their names.
pub fn module_numbers(alloc: Global, modules: &[ModuleText]) -> Result<Names<'_>, NoMemory>
    ensures { IfOk result (λ numbers.
        known_of numbers ≡ module_numbers (map module_of modules.now)) }
{
    let mut numbers = Names::new(alloc);
    for (number, text) in modules.iter().enumerate() {
        numbers.insert(text.name.name.as_slice(), number)?;
    }
    Ok(numbers)
}

/// The name of the first module that has no troupe.
pub fn first_without_troupe<'a>(modules: &'a [ModuleText], troupes: &Names) -> Option<&'a Named>
    ensures { option_map (λ (n : Named). n.name) (option_copied result)
        ≡ first_without_troupe (known_of troupes.now) (map module_of modules.now) }
{
    for text in modules {
        if troupes.get(text.name.name.as_slice()).is_none() {
            return Some(&text.name);
        }
    }
    None
}
