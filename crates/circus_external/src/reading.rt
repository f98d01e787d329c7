// Reading values, by their shapes.
ghost use Rattle.std.specs.Prelude.{◌≡◌, ◌≤◌, ◌-◌, ◌/◌, ◌==◌, length, drop};
ghost use Rattle.std.specs.List.{list_any};
ghost use Rattle.circus_value.specs.ValueOf as values;
ghost use Rattle.circus_value.specs.ShapeOf as shapes;
ghost use Rattle.circus_value.specs.ShapeTree.{field_trees, arm_trees};
ghost use Rattle.circus_external.specs.Seen.Given.{Gives};
ghost use Rattle.circus_external.specs.Reading.{one_word, two_words, text_read, truth_of, label_of, items_read, sequence_read, reading, fields_reading, choice_read};

use crate::piece::{read_content, read_long, read_word};
use crate::{ByteSource, ExternalFault};
use circus_value::{
    Arms, Chosen, Fields, Label, Shape, Text, Value, Values, ValuesBuilder, has_label,
};
use std::alloc::Global;

/// The value of a shape whose bytes stand at a place, and the place behind them (docs/FORMATS.md,
/// "External data"). The first fault from left to right decides: `Short`, `NotAValue` and `BadPad` as
/// `read` has them, with places counted from the source's front, and `NoMemory`.
#[cycle(reading)]
pub fn read_from<S: ByteSource>(
    alloc: Global,
    source: &S,
    at: usize,
    shape: &Shape,
) -> Result<(Value, usize), ExternalFault>
    requires { at ≤ length (S.octets source.now) }
    ensures { Gives values.tree_of (S.octets source.now) result
        (reading (shapes.tree_of shape.now) at (drop at (S.octets source.now))) }
{
    match shape {
        Shape::Boolean => read_truth(source, at),
        Shape::Cardinal => {
            let (number, next) = read_word(source, at)?;
            Ok((Value::Cardinal(number), next))
        }
        Shape::LongCardinal => {
            let (number, next) = read_long(source, at)?;
            Ok((Value::LongCardinal(number), next))
        }
        Shape::Integer => {
            let (number, next) = read_word(source, at)?;
            Ok((Value::Integer(number.cast_signed()), next))
        }
        Shape::LongInteger => {
            let (number, next) = read_long(source, at)?;
            Ok((Value::LongInteger(number.cast_signed()), next))
        }
        Shape::Text => {
            let (text, next) = read_text(alloc, source, at)?;
            Ok((Value::Text(text), next))
        }
        Shape::Enumeration(labels) => read_label(source, at, labels.as_slice()),
        Shape::Array(len, element) => {
            let (items, next) = read_items(alloc, source, at, *len, element.shape())?;
            Ok((Value::Array(items), next))
        }
        Shape::Sequence(bound, element) => {
            let (items, next) = read_sequence(alloc, source, at, *bound, element.shape())?;
            Ok((Value::Sequence(items), next))
        }
        Shape::Record(fields) => {
            let (items, next) = read_fields(alloc, source, at, fields)?;
            Ok((Value::Record(items), next))
        }
        Shape::Choice(arms) => read_choice(alloc, source, at, arms),
    }
}

fn read_truth<S: ByteSource>(source: &S, at: usize) -> Result<(Value, usize), ExternalFault>
    requires { at ≤ length (S.octets source.now) }
    ensures { Gives values.tree_of (S.octets source.now) result
        (one_word truth_of at (drop at (S.octets source.now))) }
{
    match read_word(source, at)? {
        (0, next) => Ok((Value::Boolean(false), next)),
        (1, next) => Ok((Value::Boolean(true), next)),
        _ => Err(ExternalFault::NotAValue(at as u64)),
    }
}

fn read_label<S: ByteSource>(
    source: &S,
    at: usize,
    labels: &[Label],
) -> Result<(Value, usize), ExternalFault>
    requires { at ≤ length (S.octets source.now) }
    ensures { Gives values.tree_of (S.octets source.now) result
        (one_word (label_of labels.now) at (drop at (S.octets source.now))) }
{
    let (number, next) = read_word(source, at)?;
    if has_label(labels, number) {
        Ok((Value::Enumeration(number), next))
    } else {
        Err(ExternalFault::NotAValue(at as u64))
    }
}

fn read_text<S: ByteSource>(
    alloc: Global,
    source: &S,
    at: usize,
) -> Result<(Text, usize), ExternalFault>
    requires { at ≤ length (S.octets source.now) }
    ensures { Gives (λ octets.
        octets) (S.octets source.now) result (text_read at (drop at (S.octets source.now))) }
{
    let (number, next) = read_word(source, at)?;
    let (octets, next) = read_content(alloc, source, next, number)?;
    Ok((Text::of(alloc, octets)?, next))
}

// So many values of one shape.
#[cycle(reading)]
fn read_items<S: ByteSource>(
    alloc: Global,
    source: &S,
    at: usize,
    count: u16,
    shape: &Shape,
) -> Result<(Values, usize), ExternalFault>
    requires { at ≤ length (S.octets source.now) }
    ensures { Gives (λ ts.
        ts) (S.octets source.now) result
        (items_read (reading (shapes.tree_of shape.now)) count at (drop at (S.octets source.now))) }
{
    let mut items = ValuesBuilder::with_capacity(alloc, room_for(source, at, count))?;
    let mut place = at;
    for _ in 0..count {
        let (item, next) = read_from(alloc, source, place, shape)?;
        items.push(item)?;
        place = next;
    }
    Ok((items.finish()?, place))
}

// How many values room is taken for where so many are said to stand at a place: no more than the bytes that are left can
// spell, of which each value has two at least. Values without bytes, as records without fields, grow the list as they come.
fn room_for<S: ByteSource>(source: &S, at: usize, count: u16) -> usize
    requires { at ≤ length (S.octets source.now) }
    ensures said { result ≤ count }
    ensures left { result ≤ (length (S.octets source.now) - at) / 2 }
{
    usize::from(count).min((source.len() - at) / 2)
}

// A word for the number of values, at most a bound, and the values.
#[cycle(reading)]
fn read_sequence<S: ByteSource>(
    alloc: Global,
    source: &S,
    at: usize,
    bound: u16,
    shape: &Shape,
) -> Result<(Values, usize), ExternalFault>
    requires { at ≤ length (S.octets source.now) }
    ensures { Gives (λ ts.
        ts) (S.octets source.now) result
        (sequence_read (reading (shapes.tree_of shape.now)) bound at
        (drop at (S.octets source.now))) }
{
    let (count, next) = read_word(source, at)?;
    if count > bound {
        return Err(ExternalFault::NotAValue(at as u64));
    }
    read_items(alloc, source, next, count, shape)
}

/// One value for each field, whose bytes stand at a place one after another, and the place behind them
/// (docs/FORMATS.md, "External data"). The faults are those of `read_from`, at the first field that has one.
#[cycle(reading)]
pub fn read_fields<S: ByteSource>(
    alloc: Global,
    source: &S,
    at: usize,
    fields: &Fields,
) -> Result<(Values, usize), ExternalFault>
    requires { at ≤ length (S.octets source.now) }
    ensures { Gives (λ ts.
        ts) (S.octets source.now) result
        (fields_reading (field_trees fields.now) at (drop at (S.octets source.now))) }
{
    let mut items = ValuesBuilder::with_capacity(alloc, fields.as_slice().len())?;
    let mut place = at;
    for field in fields.as_slice() {
        let (item, next) = read_from(alloc, source, place, &field.shape)?;
        items.push(item)?;
        place = next;
    }
    Ok((items.finish()?, place))
}

// An arm's number and a value of the first arm with that number.
#[cycle(reading)]
fn read_choice<S: ByteSource>(
    alloc: Global,
    source: &S,
    at: usize,
    arms: &Arms,
) -> Result<(Value, usize), ExternalFault>
    requires { at ≤ length (S.octets source.now) }
    ensures { Gives values.tree_of (S.octets source.now) result
        (choice_read (arm_trees arms.now) at (drop at (S.octets source.now))) }
{
    let (number, next) = read_word(source, at)?;
    match arms.shape_of(number) {
        Some(shape) => {
            let (value, end) = read_from(alloc, source, next, shape)?;
            Ok((Value::Choice(number, Chosen::new(alloc, value)?), end))
        }
        None => Err(ExternalFault::NotAValue(at as u64)),
    }
}
