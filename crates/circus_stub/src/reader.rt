// Reading values by their operations.
ghost use Rattle.std.specs.Prelude.{◌≡◌, ◌≤◌, ◌==◌, length, drop};
ghost use Rattle.std.specs.List.{list_any};
ghost use Rattle.circus_value.specs.ShapeTree.{ShapeTree, FieldTrees, ArmTrees};
ghost use Rattle.circus_value.specs.ValueOf as values;
ghost use Rattle.circus_external.specs.Seen.Given.{Gives};
ghost use Rattle.circus_external.specs.Reading.{one_word, count_within, items_read, sequence_read, reading, fields_reading, choice_read};
ghost use Rattle.circus_stub.specs.Seen.Standing.{Stands, FieldsStand, ArmsStand, listed_value};

use crate::Operation;
use crate::place::{arm_place, place_behind};
use circus_external::{ByteSource, ExternalFault, read_from, read_word};
use circus_value::{Chosen, Shape, Value, Values, is_among};
use std::alloc::Global;

// The value whose operations begin at `place`, of the bytes from `at` on, and the place behind its bytes.
#[cycle(reading)]
fn read_value<S: ByteSource>(
    alloc: Global,
    source: &S,
    at: usize,
    operations: &[Operation],
    place: usize,
) -> Result<(Value, usize), ExternalFault>
    requires within { at ≤ length (S.octets source.now) }
    requires standing { (shape : ShapeTree) × Stands operations.now place shape }
    ensures { (shape : ShapeTree) → Stands operations.now place shape
        → Gives values.tree_of (S.octets source.now) result
        (reading shape at (drop at (S.octets source.now))) }
{
    match &operations[place] {
        Operation::Boolean => read_from(alloc, source, at, &Shape::Boolean),
        Operation::Cardinal => read_from(alloc, source, at, &Shape::Cardinal),
        Operation::LongCardinal => read_from(alloc, source, at, &Shape::LongCardinal),
        Operation::Integer => read_from(alloc, source, at, &Shape::Integer),
        Operation::LongInteger => read_from(alloc, source, at, &Shape::LongInteger),
        Operation::Text => read_from(alloc, source, at, &Shape::Text),
        Operation::Enumeration(numbers) => read_listed(source, at, numbers.as_slice()),
        Operation::Array { len, .. } => {
            let (items, next) = read_items(alloc, source, at, *len, operations, place + 1)?;
            Ok((Value::Array(items), next))
        }
        Operation::Sequence { bound, .. } => {
            let (items, next) = read_sequence(alloc, source, at, *bound, operations, place + 1)?;
            Ok((Value::Sequence(items), next))
        }
        Operation::Record { end, .. } => {
            let (items, next) = read_values(alloc, source, at, operations, place + 1, *end)?;
            Ok((Value::Record(items), next))
        }
        Operation::Choice { end, .. } => read_choice(
            alloc,
            source,
            at,
            operations,
            place + 1,
            *end,
        ),
        Operation::Arm { .. } => unreachable!(),
    }
}

fn read_listed<S: ByteSource>(
    source: &S,
    at: usize,
    numbers: &[u16],
) -> Result<(Value, usize), ExternalFault>
    requires { at ≤ length (S.octets source.now) }
    ensures { Gives values.tree_of (S.octets source.now) result
        (one_word (listed_value numbers.now) at (drop at (S.octets source.now))) }
{
    let (number, next) = read_word(source, at)?;
    if is_among(numbers, number) {
        Ok((Value::Enumeration(number), next))
    } else {
        Err(ExternalFault::NotAValue(at as u64))
    }
}

// A number of items, at most a bound.
fn read_count<S: ByteSource>(
    source: &S,
    at: usize,
    bound: u16,
) -> Result<(u16, usize), ExternalFault>
    requires { at ≤ length (S.octets source.now) }
    ensures { Gives (λ n.
        n) (S.octets source.now) result
        (one_word (count_within bound) at (drop at (S.octets source.now))) }
{
    let (count, next) = read_word(source, at)?;
    if count <= bound {
        Ok((count, next))
    } else {
        Err(ExternalFault::NotAValue(at as u64))
    }
}

// So many values with the same operations.
#[cycle(reading)]
fn read_items<S: ByteSource>(
    alloc: Global,
    source: &S,
    at: usize,
    count: u16,
    operations: &[Operation],
    place: usize,
) -> Result<(Values, usize), ExternalFault>
    requires within { at ≤ length (S.octets source.now) }
    requires standing { (shape : ShapeTree) × Stands operations.now place shape }
    ensures { (shape : ShapeTree) → Stands operations.now place shape
        → Gives (λ ts. ts) (S.octets source.now) result
        (items_read (reading shape) count at (drop at (S.octets source.now))) }
{
    let mut items = Values::new(alloc);
    let mut here = at;
    for _ in 0..count {
        let (item, next) = read_value(alloc, source, here, operations, place)?;
        items.push(item)?;
        here = next;
    }
    Ok((items, here))
}

// A word for the number of values, at most a bound, and the values.
#[cycle(reading)]
fn read_sequence<S: ByteSource>(
    alloc: Global,
    source: &S,
    at: usize,
    bound: u16,
    operations: &[Operation],
    place: usize,
) -> Result<(Values, usize), ExternalFault>
    requires within { at ≤ length (S.octets source.now) }
    requires standing { (shape : ShapeTree) × Stands operations.now place shape }
    ensures { (shape : ShapeTree) → Stands operations.now place shape
        → Gives (λ ts. ts) (S.octets source.now) result
        (sequence_read (reading shape) bound at (drop at (S.octets source.now))) }
{
    let (count, next) = read_count(source, at, bound)?;
    read_items(alloc, source, next, count, operations, place)
}

/// The values whose operations stand from `place` up to `end`, of the bytes from `at` on, and the place
/// behind their bytes.
#[cycle(reading)]
pub(crate) fn read_values<S: ByteSource>(
    alloc: Global,
    source: &S,
    at: usize,
    operations: &[Operation],
    place: usize,
    end: usize,
) -> Result<(Values, usize), ExternalFault>
    requires within { at ≤ length (S.octets source.now) }
    requires standing { (fields : FieldTrees) × FieldsStand operations.now place end fields }
    ensures { (fields : FieldTrees) → FieldsStand operations.now place end fields
        → Gives (λ ts. ts) (S.octets source.now) result
        (fields_reading fields at (drop at (S.octets source.now))) }
{
    let mut items = Values::new(alloc);
    let mut here = at;
    let mut operation = place;
    while operation < end {
        let (item, next) = read_value(alloc, source, here, operations, operation)?;
        items.push(item)?;
        here = next;
        operation = place_behind(operations, operation);
    }
    Ok((items, here))
}

// An arm's number and the value of the first arm with that number.
#[cycle(reading)]
fn read_choice<S: ByteSource>(
    alloc: Global,
    source: &S,
    at: usize,
    operations: &[Operation],
    place: usize,
    end: usize,
) -> Result<(Value, usize), ExternalFault>
    requires within { at ≤ length (S.octets source.now) }
    requires standing { (arms : ArmTrees) × ArmsStand operations.now place end arms }
    ensures { (arms : ArmTrees) → ArmsStand operations.now place end arms
        → Gives values.tree_of (S.octets source.now) result
        (choice_read arms at (drop at (S.octets source.now))) }
{
    let (number, next) = read_word(source, at)?;
    match arm_place(operations, place, end, number) {
        Some(part) => {
            let (value, behind) = read_value(alloc, source, next, operations, part)?;
            Ok((Value::Choice(number, Chosen::new(alloc, value)?), behind))
        }
        None => Err(ExternalFault::NotAValue(at as u64)),
    }
}
