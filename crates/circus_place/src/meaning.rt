// The placing that a text means.
ghost use Rattle.std.specs.Prelude.{◌≡◌, map, min, IfOk};
ghost use Rattle.circus_place.specs.ConditionTree.{tree_of};
ghost use Rattle.circus_place.specs.Obeys.{most_members};
ghost use Rattle.circus_fault.specs.Seen.Tables.{known_of};
ghost use Rattle.circus_place.specs.Written.{written_of};
ghost use Rattle.circus_place.specs.Means.{constant_meant, attribute_meant, machine_meant};
ghost use Rattle.circus_place.specs.Seen.Cut.{operand_cut, condition_cut, name_cut, present_cut};

use crate::check::{MOST_MACHINES, MOST_MEMBERS};
use crate::{
    Attribute, AttributeText, Attributes, Condition, ConditionText, Constant, ConstantText,
    Machine, MachineText, Machines, Operand, OperandText, Placing, PlacingText,
};
use circus_fault::Names;
use circus_syntax::{Named, Nameds, Numeral};
use circus_value::{Duplicate, NoMemory, Numbers};
use std::alloc::Global;

fn constant(text: &ConstantText) -> Result<Constant, NoMemory>
    ensures { IfOk result (λ meant. meant ≡ constant_meant text.now) }
{
    Ok(match text {
        ConstantText::Number(number) => Constant::Number(number.value),
        ConstantText::Text(content, _) => Constant::Text(content.copy()?),
        ConstantText::Truth(truth) => Constant::Truth(*truth),
    })
}

fn attribute(text: &AttributeText) -> Result<Attribute, NoMemory>
    ensures { IfOk result (λ meant. meant ≡ attribute_meant text.now) }
{
    Ok(Attribute {
        name: text.name.name.copy()?,
        constant: constant(&text.constant)?,
    })
}

fn attributes(alloc: Global, texts: &[AttributeText]) -> Result<Attributes, NoMemory>
    ensures { IfOk result (λ meant. meant ≡ map attribute_meant texts.now) }
{
    let mut attributes = Attributes::new(alloc);
    for text in texts {
        attributes.push(attribute(text)?)?;
    }
    Ok(attributes)
}

fn machine(alloc: Global, text: &MachineText) -> Result<Machine, NoMemory>
    ensures { IfOk result (λ meant. meant ≡ machine_meant text.now) }
{
    Ok(Machine {
        name: text.name.name.copy()?,
        attributes: attributes(alloc, text.attributes.as_slice())?,
    })
}

fn machines(alloc: Global, texts: &[MachineText]) -> Result<Machines, NoMemory>
    ensures { IfOk result (λ meant. meant ≡ map machine_meant texts.now) }
{
    let mut machines = Machines::new(alloc);
    for text in texts {
        machines.push(machine(alloc, text)?)?;
    }
    Ok(machines)
}

// A number of members, or of one of them.
fn member(number: Numeral) -> u16
    ensures { result ≡ min number.value most_members }
{
    number.value.min(MOST_MEMBERS) as u16
}

fn operand(text: &OperandText) -> Result<Operand, NoMemory>
    ensures { IfOk result (λ meant. meant ≡ operand_cut text.now) }
{
    Ok(match text {
        OperandText::Attribute(number, name) => {
            Operand::Attribute(member(*number), name.name.copy()?)
        }
        OperandText::Fixed(text) => Operand::Fixed(constant(text)?),
    })
}

#[cycle(meaning)]
fn condition(alloc: Global, text: &ConditionText) -> Result<Condition, NoMemory>
    ensures { IfOk result (λ meant. tree_of meant ≡ condition_cut (written_of text.now)) }
{
    Ok(match text {
        ConditionText::Or(left, right) => Condition::Or(part(alloc, left)?, part(alloc, right)?),
        ConditionText::And(left, right) => Condition::And(part(alloc, left)?, part(alloc, right)?),
        ConditionText::Not(inner) => Condition::Not(part(alloc, inner)?),
        ConditionText::Group(inner) => condition(alloc, inner)?,
        ConditionText::Differ(name) => Condition::Differ(name.name.copy()?),
        ConditionText::Compare(comparison, left, right) => {
            Condition::Compare(*comparison, operand(left)?, operand(right)?)
        }
        ConditionText::Holds(inner) => Condition::Holds(operand(inner)?),
    })
}

#[cycle(meaning)]
fn part(alloc: Global, text: &ConditionText) -> Result<Box<Condition>, NoMemory>
    ensures { IfOk result (λ meant. tree_of meant.value ≡ condition_cut (written_of text.now)) }
{
    Ok(Box::new(alloc, condition(alloc, text)?)?)
}

// The numbers of the machines of these names.
fn numbers(alloc: Global, machines: &Names, names: &[Named]) -> Result<Numbers, NoMemory>
    ensures { IfOk result (λ numbers. numbers ≡ map (name_cut (known_of machines.now)) names.now) }
{
    let mut numbers = Numbers::new(alloc);
    for name in names {
        let number = machines.get(name.name.as_slice()).unwrap_or(0);
        numbers.push(number.min(MOST_MACHINES) as u16)?;
    }
    Ok(numbers)
}

fn numbers_present(
    alloc: Global,
    machines: &Names,
    names: &Option<Nameds>,
) -> Result<Numbers, NoMemory>
    ensures { IfOk result (λ numbers. numbers ≡ present_cut (known_of machines.now) names.now) }
{
    match names {
        Some(names) => numbers(alloc, machines, names.as_slice()),
        None => Ok(Numbers::new(alloc)),
    }
}

/// The placing that a text means which has no fault, whose machines have these numbers by their names. A number
/// that is too great is the greatest that it may be.
pub fn meaning(alloc: Global, text: &PlacingText, names: &Names) -> Result<Placing, NoMemory>
    ensures machines { IfOk result (λ placing.
        placing.machines ≡ map machine_meant text.now.machines) }
    ensures members { IfOk result (λ placing.
        placing.members ≡ min text.now.members.value most_members) }
    ensures condition { IfOk result (λ placing.
        tree_of placing.condition ≡ condition_cut (written_of text.now.condition)) }
    ensures present { IfOk result (λ placing.
        placing.present ≡ present_cut (known_of names.now) text.now.present) }
{
    Ok(Placing {
        machines: machines(alloc, text.machines.as_slice())?,
        members: member(text.members),
        condition: condition(alloc, &text.condition)?,
        present: numbers_present(alloc, names, &text.present)?,
    })
}
