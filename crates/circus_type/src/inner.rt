// The faults inside of a type, its size aside.
ghost use Rattle.std.specs.Prelude.{◌≡◌, OnOk, map};
ghost use Rattle.circus_syntax.specs.TypeTree.{group_trees, arm_trees};
ghost use Rattle.circus_syntax.specs.TypeOf.{tree_of, group_of, arm_of};
ghost use Rattle.circus_fault.specs.Least.{least_from};
ghost use Rattle.circus_fault.specs.Known.{also_number, no_number};
ghost use Rattle.circus_fault.specs.Seen.Tables.{holds_name, holds_number};
ghost use Rattle.circus_type.specs.Inside.{also_name, also_names, no_name, label_faults, labels_faults, arm_labels, repeated_names, group_names};
ghost use Rattle.circus_type.specs.Inside as faults;

use crate::limits::GREATEST_WORD;
use crate::names::{meet_name, meet_number, note_above};
use crate::{TypeCause, TypeNames, WithTypeCauses};
use circus_fault::{Best, Names, NumberSet};
use circus_syntax::{ArmText, GroupText, LabelText, Named, Numeral, TypeKind, TypeName, TypeText};
use circus_value::NoMemory;
use std::alloc::Global;

// A label behind others.
fn meet_label<'a, C: WithTypeCauses>(
    names: &mut Names<'a>,
    numbers: &mut NumberSet,
    best: &mut Best<C>,
    name: &'a Named,
    number: Numeral,
) -> Result<(), NoMemory>
    ensures found { OnOk result
        (best.new.fault ≡ least_from C.rank best.old.fault
        (label_faults C.embed (holds_name names.old) (holds_number numbers.old) name.now number)) }
    ensures names { OnOk result
        (holds_name names.new ≡ also_name name.now.name (holds_name names.old)) }
    ensures numbers { OnOk result
        (holds_number numbers.new ≡ also_number number.value (holds_number numbers.old)) }
{
    meet_name(names, best, name)?;
    meet_number(numbers, best, number)?;
    note_above(best, GREATEST_WORD, number);
    Ok(())
}

fn labels<C: WithTypeCauses>(
    alloc: Global,
    best: &mut Best<C>,
    labels: &[LabelText],
) -> Result<(), NoMemory>
    ensures { OnOk result
        (best.new.fault ≡ least_from C.rank best.old.fault
        (labels_faults C.embed no_name no_number labels.now)) }
{
    let mut names = Names::new(alloc);
    let mut numbers = NumberSet::new(alloc);
    for label in labels {
        meet_label(&mut names, &mut numbers, best, &label.name, label.number)?;
    }
    Ok(())
}

fn arm_labels<C: WithTypeCauses>(
    alloc: Global,
    best: &mut Best<C>,
    arms: &[ArmText],
) -> Result<(), NoMemory>
    ensures { OnOk result
        (best.new.fault ≡ least_from C.rank best.old.fault
        (labels_faults C.embed no_name no_number (arm_labels (arm_trees (map arm_of arms.now))))) }
{
    let mut names = Names::new(alloc);
    let mut numbers = NumberSet::new(alloc);
    for arm in arms {
        meet_label(&mut names, &mut numbers, best, &arm.name, arm.number)?;
    }
    Ok(())
}

// Names behind others.
fn meet_names<'a, C: WithTypeCauses>(
    names: &mut Names<'a>,
    best: &mut Best<C>,
    group: &'a [Named],
) -> Result<(), NoMemory>
    ensures found { OnOk result
        (best.new.fault ≡ least_from C.rank best.old.fault
        (repeated_names C.embed (holds_name names.old) group.now)) }
    ensures added { OnOk result
        (holds_name names.new ≡ also_names group.now (holds_name names.old)) }
{
    for name in group {
        meet_name(names, best, name)?;
    }
    Ok(())
}

/// The names of fields that stand in a list before.
pub fn field_names<C: WithTypeCauses>(
    alloc: Global,
    best: &mut Best<C>,
    groups: &[GroupText],
) -> Result<(), NoMemory>
    ensures { OnOk result
        (best.new.fault ≡ least_from C.rank best.old.fault
        (repeated_names C.embed no_name (group_names (group_trees (map group_of groups.now))))) }
{
    let mut names = Names::new(alloc);
    for group in groups {
        meet_names(&mut names, best, group.names.as_slice())?;
    }
    Ok(())
}

fn note_unknown<N: TypeNames, C: WithTypeCauses>(names: &N, best: &mut Best<C>, name: &TypeName)
    ensures { best.new.fault
        ≡ least_from C.rank best.old.fault
        (faults.unknown_faults C.embed (N.unknown_place names.now name.now)) }
{
    if let Some(place) = names.unknown_place(name) {
        best.note(true, place, C::of_type(TypeCause::Unknown));
    }
}

/// Finds the faults inside of a type.
#[cycle(inside)]
pub fn check_inside<N: TypeNames, C: WithTypeCauses>(
    alloc: Global,
    names: &N,
    best: &mut Best<C>,
    shape: &TypeText,
) -> Result<(), NoMemory>
    ensures { OnOk result
        (best.new.fault ≡ least_from C.rank best.old.fault
        (faults.inside C.embed (N.unknown_place names.now) (tree_of shape.now))) }
{
    match &shape.kind {
        TypeKind::Enumeration(list) => labels(alloc, best, list.as_slice()),
        TypeKind::Array(len, element) => {
            best.note(
                len.value == 0 || len.value > GREATEST_WORD,
                len.at,
                C::of_type(TypeCause::OutOfRange),
            );
            check_inside(alloc, names, best, element.shape())
        }
        TypeKind::Sequence(bound, element) => {
            bound_inside(best, bound);
            check_inside(alloc, names, best, element.shape())
        }
        TypeKind::Record(groups) => {
            best.note(
                groups.is_empty(),
                shape.at,
                C::of_type(TypeCause::OutOfRange),
            );
            field_names(alloc, best, groups.as_slice())?;
            inside_groups(alloc, names, best, groups.as_slice())
        }
        TypeKind::Choice(arms) => {
            arm_labels(alloc, best, arms.as_slice())?;
            inside_arms(alloc, names, best, arms.as_slice())
        }
        TypeKind::Called(name) => {
            note_unknown(names, best, name);
            Ok(())
        }
        _ => Ok(()),
    }
}

fn bound_inside<C: WithTypeCauses>(best: &mut Best<C>, bound: &Option<Numeral>)
    ensures { best.new.fault
        ≡ least_from C.rank best.old.fault (faults.bound_faults C.embed bound.now) }
{
    if let Some(bound) = bound {
        note_above(best, GREATEST_WORD, *bound);
    }
}

/// Finds the faults inside of the types of fields.
#[cycle(inside)]
pub fn inside_groups<N: TypeNames, C: WithTypeCauses>(
    alloc: Global,
    names: &N,
    best: &mut Best<C>,
    groups: &[GroupText],
) -> Result<(), NoMemory>
    ensures { OnOk result
        (best.new.fault ≡ least_from C.rank best.old.fault
        (faults.inside_groups C.embed (N.unknown_place names.now)
        (group_trees (map group_of groups.now)))) }
{
    for group in groups {
        check_inside(alloc, names, best, &group.shape)?;
    }
    Ok(())
}

#[cycle(inside)]
fn inside_arms<N: TypeNames, C: WithTypeCauses>(
    alloc: Global,
    names: &N,
    best: &mut Best<C>,
    arms: &[ArmText],
) -> Result<(), NoMemory>
    ensures { OnOk result
        (best.new.fault ≡ least_from C.rank best.old.fault
        (faults.inside_arms C.embed (N.unknown_place names.now)
        (arm_trees (map arm_of arms.now)))) }
{
    for arm in arms {
        if !is_empty_record(&arm.shape) {
            check_inside(alloc, names, best, &arm.shape)?;
        }
    }
    Ok(())
}

fn is_empty_record(shape: &TypeText) -> bool
    ensures { result ≡ faults.is_empty_record (tree_of shape.now) }
{
    match &shape.kind {
        TypeKind::Record(groups) => groups.is_empty(),
        _ => false,
    }
}
