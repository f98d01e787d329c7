// Writing values by their operations.
ghost use Rattle.std.specs.Prelude.{◌≡◌, ◌<◌, ◌++◌, true, length, OnOk};
ghost use Rattle.circus_value.specs.ShapeTree.{ShapeTree, FieldTrees, ArmTrees};
ghost use Rattle.circus_value.specs.ValueOf as values;
ghost use Rattle.circus_value.specs.ValueTree as tree;
ghost use Rattle.circus_value.specs.ValueTree.{value_trees};
ghost use Rattle.circus_value.specs.Fits.{fits, every, is_sequence, is_choice, arm_fits};
ghost use Rattle.circus_external.specs.Spelling.{spelling, spelling_of_all, fields_admit};
ghost use Rattle.circus_stub.specs.Seen.Standing.{Stands, FieldsStand, ArmsStand};

use crate::place::{arm_place, place_behind};
use crate::{Operation, kinds};
use circus_external::{write_content, write_long, write_word};
use circus_value::{Message, NoMemory, Value, Values};

/// Appends the spellings of values, one after another, whose operations are these. After `NoMemory` part of
/// them may stand at the end.
pub(crate) fn write_all(
    values: &Values,
    operations: &[Operation],
    out: &mut Message,
) -> Result<(), NoMemory>
    requires { (fields : FieldTrees) × FieldsStand operations.now 0 (length operations.now) fields
        × (fields_admit fields values.now ≡ true) }
    ensures { OnOk result (out.new ≡ out.old ++ spelling_of_all values.now) }
{
    write_values(values, operations, 0, operations.len(), out)
}

// The value whose operations begin at `place`. After `NoMemory` part of its spelling may stand at the end.
#[cycle(writing)]
fn write_value(
    value: &Value,
    operations: &[Operation],
    place: usize,
    out: &mut Message,
) -> Result<(), NoMemory>
    requires { (shape : ShapeTree) × Stands operations.now place shape
        × (fits shape (values.tree_of value.now) ≡ true) }
    ensures { OnOk result (out.new ≡ out.old ++ spelling (values.tree_of value.now)) }
{
    match &operations[place] {
        Operation::Boolean => write_word(u16::from(kinds::truth(value)), out),
        Operation::Cardinal => write_word(kinds::cardinal(value), out),
        Operation::LongCardinal => write_long(kinds::long_cardinal(value), out),
        Operation::Integer => write_word(kinds::integer(value).cast_unsigned(), out),
        Operation::LongInteger => write_long(kinds::long_integer(value).cast_unsigned(), out),
        Operation::Text => write_text(kinds::text(value), out),
        Operation::Enumeration(_) => write_word(kinds::label(value), out),
        Operation::Array { .. } => write_items(kinds::array(value), operations, place + 1, out),
        Operation::Sequence { bound, .. } => {
            write_sequence(kinds::sequence(value), *bound, operations, place + 1, out)
        }
        Operation::Record { end, .. } => {
            write_values(kinds::parts(value), operations, place + 1, *end, out)
        }
        Operation::Choice { end, .. } => {
            let (number, chosen) = kinds::choice(value);
            write_choice(number, chosen, operations, place + 1, *end, out)
        }
        Operation::Arm { .. } => unreachable!(),
    }
}

fn write_text(bytes: &[u8], out: &mut Message) -> Result<(), NoMemory>
    requires { length bytes.now < 65536 }
    ensures { OnOk result (out.new ≡ out.old ++ spelling (tree.text bytes.now)) }
{
    write_word(bytes.len() as u16, out)?;
    write_content(bytes, out)
}

// Values with the same operations.
#[cycle(writing)]
fn write_items(
    items: &Values,
    operations: &[Operation],
    place: usize,
    out: &mut Message,
) -> Result<(), NoMemory>
    requires { (shape : ShapeTree) × Stands operations.now place shape
        × (every (fits shape) (value_trees items.now) ≡ true) }
    ensures { OnOk result (out.new ≡ out.old ++ spelling_of_all items.now) }
{
    for item in items.as_slice() {
        write_value(item, operations, place, out)?;
    }
    Ok(())
}

// A word for the number of values, which is at most a bound, and the values.
#[cycle(writing)]
fn write_sequence(
    items: &Values,
    bound: u16,
    operations: &[Operation],
    place: usize,
    out: &mut Message,
) -> Result<(), NoMemory>
    requires { (shape : ShapeTree) × Stands operations.now place shape
        × (is_sequence bound (fits shape) (tree.sequence (value_trees items.now)) ≡ true) }
    ensures { OnOk result (out.new ≡ out.old ++ spelling (tree.sequence (value_trees items.now))) }
{
    let count = items.len();
    prove!(count <= usize::from(bound));
    write_word(count as u16, out)?;
    write_items(items, operations, place, out)
}

// The values whose operations stand from `place` up to `end`.
#[cycle(writing)]
fn write_values(
    values: &Values,
    operations: &[Operation],
    place: usize,
    end: usize,
    out: &mut Message,
) -> Result<(), NoMemory>
    requires { (fields : FieldTrees) × FieldsStand operations.now place end fields
        × (fields_admit fields values.now ≡ true) }
    ensures { OnOk result (out.new ≡ out.old ++ spelling_of_all values.now) }
{
    let mut operation = place;
    for value in values.as_slice() {
        prove!(operation < end);
        write_value(value, operations, operation, out)?;
        operation = place_behind(operations, operation);
    }
    Ok(())
}

// An arm's number, and the value of the first arm with that number.
#[cycle(writing)]
fn write_choice(
    number: u16,
    value: &Value,
    operations: &[Operation],
    place: usize,
    end: usize,
    out: &mut Message,
) -> Result<(), NoMemory>
    requires { (arms : ArmTrees) × ArmsStand operations.now place end arms
        × (is_choice (arm_fits arms) (tree.choice number (values.tree_of value.now)) ≡ true) }
    ensures { OnOk result
        (out.new ≡ out.old ++ spelling (tree.choice number (values.tree_of value.now))) }
{
    match arm_place(operations, place, end, number) {
        Some(part) => {
            write_word(number, out)?;
            write_value(value, operations, part, out)
        }
        None => unreachable!(),
    }
}
