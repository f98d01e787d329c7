// The least fault of a placing.
ghost use Rattle.std.specs.Prelude.{◌≡◌, None, OnOk, IfOk};
ghost use Rattle.circus_fault.specs.Least.{least_from};
ghost use Rattle.circus_fault.specs.Known.{nobody, add_name};
ghost use Rattle.circus_fault.specs.Seen.Tables.{known_of};
ghost use Rattle.circus_place.specs.Written.{written_of, placing_of};
ghost use Rattle.circus_place.specs.Rank.{rank_of};
ghost use Rattle.circus_place.specs.Faults.{repeat_faults, repeated_names, attribute_names, machine_faults, machines_faults, numbers_of, operand_faults, condition_faults, unknown_names, present_faults, read_faults};

use crate::{AttributeText, ConditionText, MachineText, OperandText, PlaceCause, PlacingText};
use circus_fault::{Best, Names};
use circus_syntax::{Named, Nameds, Numeral, Stop};
use circus_value::NoMemory;
use std::alloc::Global;

/// How many machines there may be (docs/LANGUAGE.md, "Placing").
pub const MOST_MACHINES: usize = 24;

/// How many members may be placed.
pub const MOST_MEMBERS: u64 = 5;

// A name with a number besides those that stand before it, one of which it may repeat.
fn meet<'a>(
    best: &mut Best<PlaceCause>,
    names: &mut Names<'a>,
    name: &'a Named,
    number: usize,
) -> Result<(), NoMemory>
    ensures found { OnOk result
        (best.new.fault ≡ least_from rank_of best.old.fault
        (repeat_faults (known_of names.old) name.now)) }
    ensures added { OnOk result
        (known_of names.new ≡ add_name name.now.name number (known_of names.old)) }
{
    let earlier = names.insert(name.name.as_slice(), number)?;
    best.note(earlier.is_some(), name.at, PlaceCause::Repeated);
    Ok(())
}

fn attributes(
    alloc: Global,
    best: &mut Best<PlaceCause>,
    attributes: &[AttributeText],
) -> Result<(), NoMemory>
    ensures { OnOk result
        (best.new.fault ≡ least_from rank_of best.old.fault
        (repeated_names nobody (attribute_names attributes.now))) }
{
    let mut names = Names::new(alloc);
    for attribute in attributes {
        meet(best, &mut names, &attribute.name, 0)?;
    }
    Ok(())
}

// Names that stand twice.
fn check_repeats(alloc: Global, best: &mut Best<PlaceCause>, all: &[Named]) -> Result<(), NoMemory>
    ensures { OnOk result
        (best.new.fault ≡ least_from rank_of best.old.fault (repeated_names nobody all.now)) }
{
    let mut names = Names::new(alloc);
    for name in all {
        meet(best, &mut names, name, 0)?;
    }
    Ok(())
}

// Names that are those of no machines.
fn check_unknown(best: &mut Best<PlaceCause>, machines: &Names, names: &[Named])
    ensures { best.new.fault
        ≡ least_from rank_of best.old.fault (unknown_names (known_of machines.now) names.now) }
{
    for name in names {
        let known = machines.get(name.name.as_slice());
        best.note(known.is_none(), name.at, PlaceCause::UnknownName);
    }
}

fn machine<'a>(
    alloc: Global,
    best: &mut Best<PlaceCause>,
    names: &mut Names<'a>,
    number: usize,
    machine: &'a MachineText,
) -> Result<(), NoMemory>
    ensures found { OnOk result
        (best.new.fault ≡ least_from rank_of best.old.fault
        (machine_faults (known_of names.old) number machine.now)) }
    ensures added { OnOk result
        (known_of names.new ≡ add_name machine.now.name.name number (known_of names.old)) }
{
    meet(best, names, &machine.name, number)?;
    best.note(
        number == MOST_MACHINES,
        machine.name.at,
        PlaceCause::TooMany,
    );
    attributes(alloc, best, machine.attributes.as_slice())
}

// The machines, and their numbers by their names.
fn machines<'a>(
    alloc: Global,
    best: &mut Best<PlaceCause>,
    machines: &'a [MachineText],
) -> Result<Names<'a>, NoMemory>
    ensures found { OnOk result
        (best.new.fault ≡ least_from rank_of best.old.fault
        (machines_faults nobody 0 machines.now)) }
    ensures numbered { IfOk result (λ names. known_of names ≡ numbers_of machines.now) }
{
    let mut names = Names::new(alloc);
    for (number, item) in machines.iter().enumerate() {
        machine(alloc, best, &mut names, number, item)?;
    }
    Ok(names)
}

fn operand(best: &mut Best<PlaceCause>, members: u64, operand: &OperandText)
    ensures { best.new.fault
        ≡ least_from rank_of best.old.fault (operand_faults members operand.now) }
{
    if let OperandText::Attribute(member, _) = operand {
        best.note_out_of(members, *member, PlaceCause::OutOfRange);
    }
}

#[cycle(checking)]
#[tactic(auto, using(circus_fault::proofs::LeastMore::least_then))]
fn condition(best: &mut Best<PlaceCause>, members: u64, whole: &ConditionText)
    ensures { best.new.fault
        ≡ least_from rank_of best.old.fault (condition_faults members (written_of whole.now)) }
{
    match whole {
        ConditionText::Or(left, right) | ConditionText::And(left, right) => {
            condition(best, members, left);
            condition(best, members, right);
        }
        ConditionText::Not(inner) | ConditionText::Group(inner) => condition(best, members, inner),
        ConditionText::Differ(_) => {}
        ConditionText::Compare(_, left, right) => {
            operand(best, members, left);
            operand(best, members, right);
        }
        ConditionText::Holds(inner) => operand(best, members, inner),
    }
}

#[tactic(auto, using(circus_fault::proofs::LeastMore::least_then))]
fn check_present(
    alloc: Global,
    best: &mut Best<PlaceCause>,
    machines: &Names,
    names: &Option<Nameds>,
) -> Result<(), NoMemory>
    ensures { OnOk result
        (best.new.fault ≡ least_from rank_of best.old.fault
        (present_faults (known_of machines.now) names.now)) }
{
    if let Some(names) = names {
        check_unknown(best, machines, names.as_slice());
        check_repeats(alloc, best, names.as_slice())?;
    }
    Ok(())
}

/// The least fault of a placing and of where reading it stopped, and the numbers of its machines by their names
/// (docs/LANGUAGE.md, "Placing").
pub fn check<'a>(
    alloc: Global,
    text: &'a PlacingText,
    stop: &Option<Stop>,
) -> Result<(Best<PlaceCause>, Names<'a>), NoMemory>
    ensures found { IfOk result (λ checked.
        checked.0.fault ≡ least_from rank_of None (read_faults stop.now (placing_of text.now))) }
    ensures numbered { IfOk result (λ checked. known_of checked.1 ≡ numbers_of text.now.machines) }
{
    let mut best = Best::of_stop(stop, PlaceCause::Syntax, PlaceCause::Deep);
    let names = machines(alloc, &mut best, text.machines.as_slice())?;
    best.note_out_of(MOST_MEMBERS, text.members, PlaceCause::OutOfRange);
    condition(&mut best, text.members.value, &text.condition);
    check_present(alloc, &mut best, &names, &text.present)?;
    Ok((best, names))
}
