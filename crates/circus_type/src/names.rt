// Names and numbers behind those that stand before them.
ghost use Rattle.std.specs.Prelude.{◌≡◌, OnOk};
ghost use Rattle.circus_fault.specs.Least.{least_from};
ghost use Rattle.circus_fault.specs.Known.{also_number};
ghost use Rattle.circus_fault.specs.Seen.Tables.{holds_name, holds_number};
ghost use Rattle.circus_type.specs.Inside.{repeated_name, repeated_number, above, also_name};

use crate::{TypeCause, WithTypeCauses};
use circus_fault::{Best, Names, NumberSet};
use circus_syntax::{Named, Numeral};
use circus_value::NoMemory;

/// Adds a name to those that stand earlier, one of which it may repeat.
pub fn meet_name<'a, C: WithTypeCauses>(
    names: &mut Names<'a>,
    best: &mut Best<C>,
    name: &'a Named,
) -> Result<(), NoMemory>
    ensures found { OnOk result
        (best.new.fault ≡ least_from C.rank best.old.fault
        (repeated_name C.embed (holds_name names.old) name.now)) }
    ensures added { OnOk result
        (holds_name names.new ≡ also_name name.now.name (holds_name names.old)) }
{
    let earlier = names.insert(name.name.as_slice(), 0)?;
    best.note(earlier.is_some(), name.at, C::of_type(TypeCause::Repeated));
    Ok(())
}

/// Adds a number to those that stand earlier, one of which it may repeat.
pub fn meet_number<C: WithTypeCauses>(
    numbers: &mut NumberSet,
    best: &mut Best<C>,
    number: Numeral,
) -> Result<(), NoMemory>
    ensures found { OnOk result
        (best.new.fault ≡ least_from C.rank best.old.fault
        (repeated_number C.embed (holds_number numbers.old) number)) }
    ensures added { OnOk result
        (holds_number numbers.new ≡ also_number number.value (holds_number numbers.old)) }
{
    let is_new = numbers.insert(number.value)?;
    best.note(!is_new, number.at, C::of_type(TypeCause::Repeated));
    Ok(())
}

/// Finds a number that is above a limit.
pub fn note_above<C: WithTypeCauses>(best: &mut Best<C>, limit: u64, number: Numeral)
    ensures { best.new.fault ≡ least_from C.rank best.old.fault (above C.embed limit number) }
{
    best.note(
        number.value > limit,
        number.at,
        C::of_type(TypeCause::OutOfRange),
    );
}
