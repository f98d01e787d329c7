// Values, by their shapes.
ghost use Rattle.std.specs.Prelude.{◌≡◌, ◌≤◌, [], length, drop, codes};
ghost use Rattle.circus_value.specs.ShapeOf.{tree_of};
ghost use Rattle.circus_value.specs.ShapeTree.{field_trees, arm_trees};
ghost use Rattle.circus_value_text.specs.Reading.{label_read, items_read, items_within, reading, list_reading, fields_reading, choice_read, arm_reading};
ghost use Rattle.circus_value_text.specs.Seen.Given.{GivesAt, GivesValueAt, mark_behind, next_read, stands, array_read, sequence_read, chosen_read};

use crate::Unread;
use crate::piece::{
    behind_mark, pass, read_integer, read_long, read_long_integer, read_text, read_truth, read_word,
};
use circus_value::{Arms, Chosen, Fields, Label, Shape, Text, Value, Values, has_label};
use std::alloc::Global;

const COMMA: &[u8] = b", ";

const NOTHING: &[u8] = b"";

const HASH: &[u8] = b"#";

const OPEN_BRACE: &[u8] = b"{";

const CLOSE_BRACE: &[u8] = b"}";

const OPEN_BRACKET: &[u8] = b"[";

const CLOSE_BRACKET: &[u8] = b"]";

const OPEN_PARENTHESIS: &[u8] = b"(";

const CLOSE_PARENTHESIS: &[u8] = b")";

/// The value of a shape whose text stands at a place, and the place behind it (docs/FORMATS.md, "Texts"). A number has all
/// digits that stand there. `Unlike` where no such text stands there, and `NoMemory`.
#[cycle(reading)]
pub fn read_value(
    alloc: Global,
    text: &[u8],
    at: usize,
    shape: &Shape,
) -> Result<(Value, usize), Unread>
    requires { at ≤ length text.now }
    ensures { GivesValueAt text.now at result (reading (tree_of shape.now)) }
{
    match shape {
        Shape::Boolean => {
            let (truth, next) = read_truth(text, at)?;
            Ok((Value::Boolean(truth), next))
        }
        Shape::Cardinal => {
            let (number, next) = read_word(text, at)?;
            Ok((Value::Cardinal(number), next))
        }
        Shape::LongCardinal => {
            let (number, next) = read_long(text, at)?;
            Ok((Value::LongCardinal(number), next))
        }
        Shape::Integer => {
            let (number, next) = read_integer(text, at)?;
            Ok((Value::Integer(number), next))
        }
        Shape::LongInteger => {
            let (number, next) = read_long_integer(text, at)?;
            Ok((Value::LongInteger(number), next))
        }
        Shape::Text => {
            let (octets, next) = read_text(alloc, text, at)?;
            Ok((Value::Text(Text::of(alloc, octets)?), next))
        }
        Shape::Enumeration(labels) => read_label(text, at, labels.as_slice()),
        Shape::Array(len, element) => {
            let (items, next) = read_array(alloc, text, at, *len, element.shape())?;
            Ok((Value::Array(items), next))
        }
        Shape::Sequence(bound, element) => {
            let (items, next) = read_sequence(alloc, text, at, *bound, element.shape())?;
            Ok((Value::Sequence(items), next))
        }
        Shape::Record(fields) => {
            let (items, next) = read_list(alloc, text, at, fields)?;
            Ok((Value::Record(items), next))
        }
        Shape::Choice(arms) => read_choice(alloc, text, at, arms),
    }
}

fn read_label(text: &[u8], at: usize, labels: &[Label]) -> Result<(Value, usize), Unread>
    requires { at ≤ length text.now }
    ensures { GivesValueAt text.now at result (label_read labels.now) }
{
    let inner = pass(text, at, HASH)?;
    let (number, next) = read_word(text, inner)?;
    if has_label(labels, number) {
        Ok((Value::Enumeration(number), next))
    } else {
        Err(Unread::Unlike)
    }
}

// What stands before the next value, behind these.
fn mark_behind(items: &Values) -> &'static [u8]
    ensures { result.now ≡ mark_behind items.now }
{
    if items.is_empty() { NOTHING } else { COMMA }
}

// Whether a closing brace stands at a place.
fn ends_there(text: &[u8], at: usize) -> bool
    requires { at ≤ length text.now }
    ensures { result ≡ stands (codes "}") (drop at text.now) }
{
    behind_mark(text, at, CLOSE_BRACE).is_some()
}

// A value, behind the mark that stands between it and these.
#[cycle(reading)]
fn read_next(
    alloc: Global,
    text: &[u8],
    at: usize,
    items: &Values,
    shape: &Shape,
) -> Result<(Value, usize), Unread>
    requires { at ≤ length text.now }
    ensures { GivesValueAt text.now at result (next_read items.now (reading (tree_of shape.now))) }
{
    let inner = pass(text, at, mark_behind(items))?;
    read_value(alloc, text, inner, shape)
}

// So many values of one shape in braces, with a comma between two.
#[cycle(reading)]
fn read_array(
    alloc: Global,
    text: &[u8],
    at: usize,
    count: u16,
    shape: &Shape,
) -> Result<(Values, usize), Unread>
    requires { at ≤ length text.now }
    ensures { GivesAt text.now at result (array_read (reading (tree_of shape.now)) count) }
{
    let inner = pass(text, at, OPEN_BRACE)?;
    let (items, end) = read_items(alloc, text, inner, count, shape)?;
    Ok((items, pass(text, end, CLOSE_BRACE)?))
}

// So many values of one shape, with a comma between two.
#[cycle(reading)]
fn read_items(
    alloc: Global,
    text: &[u8],
    at: usize,
    count: u16,
    shape: &Shape,
) -> Result<(Values, usize), Unread>
    requires { at ≤ length text.now }
    ensures { GivesAt text.now at result (items_read (reading (tree_of shape.now)) count []) }
{
    let mut items = Values::new(alloc);
    let mut place = at;
    for _ in 0..count {
        let (item, next) = read_next(alloc, text, place, &items, shape)?;
        items.push(item)?;
        place = next;
    }
    Ok((items, place))
}

// At most so many values of one shape in braces, with a comma between two.
#[cycle(reading)]
fn read_sequence(
    alloc: Global,
    text: &[u8],
    at: usize,
    bound: u16,
    shape: &Shape,
) -> Result<(Values, usize), Unread>
    requires { at ≤ length text.now }
    ensures { GivesAt text.now at result (sequence_read (reading (tree_of shape.now)) bound) }
{
    let inner = pass(text, at, OPEN_BRACE)?;
    let (items, end) = read_items_within(alloc, text, inner, bound, shape)?;
    Ok((items, pass(text, end, CLOSE_BRACE)?))
}

// At most so many values of one shape, with a comma between two, up to a closing brace.
#[cycle(reading)]
fn read_items_within(
    alloc: Global,
    text: &[u8],
    at: usize,
    bound: u16,
    shape: &Shape,
) -> Result<(Values, usize), Unread>
    requires { at ≤ length text.now }
    ensures { GivesAt text.now at result (items_within (reading (tree_of shape.now)) bound []) }
{
    let mut items = Values::new(alloc);
    let mut place = at;
    for _ in 0..bound {
        if ends_there(text, place) {
            return Ok((items, place));
        }
        let (item, next) = read_next(alloc, text, place, &items, shape)?;
        items.push(item)?;
        place = next;
    }
    Ok((items, place))
}

/// One value for each field, whose texts stand at a place in brackets, with a comma between two, and the place behind them
/// (docs/FORMATS.md, "Texts"). The faults are those of `read_value`.
#[cycle(reading)]
pub fn read_list(
    alloc: Global,
    text: &[u8],
    at: usize,
    fields: &Fields,
) -> Result<(Values, usize), Unread>
    requires { at ≤ length text.now }
    ensures { GivesAt text.now at result (list_reading (field_trees fields.now)) }
{
    let inner = pass(text, at, OPEN_BRACKET)?;
    let (items, end) = read_fields(alloc, text, inner, fields)?;
    Ok((items, pass(text, end, CLOSE_BRACKET)?))
}

// One value for each field, with a comma between two.
#[cycle(reading)]
fn read_fields(
    alloc: Global,
    text: &[u8],
    at: usize,
    fields: &Fields,
) -> Result<(Values, usize), Unread>
    requires { at ≤ length text.now }
    ensures { GivesAt text.now at result (fields_reading (field_trees fields.now) []) }
{
    let mut items = Values::new(alloc);
    let mut place = at;
    for field in fields.as_slice() {
        let (item, next) = read_next(alloc, text, place, &items, &field.shape)?;
        items.push(item)?;
        place = next;
    }
    Ok((items, place))
}

// An arm's number, and in parentheses a value of the first arm with that number.
#[cycle(reading)]
fn read_choice(alloc: Global, text: &[u8], at: usize, arms: &Arms) -> Result<(Value, usize), Unread>
    requires { at ≤ length text.now }
    ensures { GivesValueAt text.now at result (choice_read (arm_trees arms.now)) }
{
    let (number, next) = read_word(text, at)?;
    read_chosen(alloc, text, next, number, arms)
}

// A value of the first arm with a number, in parentheses.
#[cycle(reading)]
fn read_chosen(
    alloc: Global,
    text: &[u8],
    at: usize,
    number: u16,
    arms: &Arms,
) -> Result<(Value, usize), Unread>
    requires { at ≤ length text.now }
    ensures { GivesValueAt text.now at result (chosen_read (arm_trees arms.now) number) }
{
    let inner = pass(text, at, OPEN_PARENTHESIS)?;
    let (value, end) = read_arm(alloc, text, inner, number, arms)?;
    Ok((value, pass(text, end, CLOSE_PARENTHESIS)?))
}

// A value of the first arm with a number.
#[cycle(reading)]
fn read_arm(
    alloc: Global,
    text: &[u8],
    at: usize,
    number: u16,
    arms: &Arms,
) -> Result<(Value, usize), Unread>
    requires { at ≤ length text.now }
    ensures { GivesValueAt text.now at result (arm_reading (arm_trees arms.now) number) }
{
    match arms.shape_of(number) {
        Some(shape) => {
            let (value, end) = read_value(alloc, text, at, shape)?;
            Ok((Value::Choice(number, Chosen::new(alloc, value)?), end))
        }
        None => Err(Unread::Unlike),
    }
}
