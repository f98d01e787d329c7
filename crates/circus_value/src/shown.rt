// The texts of values and outcomes.
ghost use Rattle.std.specs.Prelude.{◌≡◌, ◌++◌, ◌∷◌, ◌<◌, [], Some, IfOk, OnOk, string_bytes};
ghost use Rattle.circus_value.specs.ValueOf.{tree_of};
ghost use Rattle.circus_value.specs.ValueTree.{value_trees};
ghost use Rattle.circus_value.specs.Shown.{truth_text, is_plain, hexadecimal_digit, shown_byte, shown_bytes, text_of_value, shown_items, shown_list};
ghost use Rattle.circus_value.specs.OutcomeText.{outcome_text};

use crate::{ListOf, NoMemory, Octets, Outcome, Value, Values};
use itoa::{Buffer, Integer};
use std::alloc::Global;
use std::fmt;
use std::fmt::Display;

/// The text of a value, by the rules of docs/FORMATS.md. `NoMemory` is the one fault.
pub fn show(alloc: Global, value: &Value) -> Result<Octets, NoMemory>
    ensures { IfOk result (λ text. text ≡ text_of_value (tree_of value.now)) }
{
    let mut text = String::new(alloc);
    append_value(&mut text, value)?;
    Ok(ListOf::of(text.into_bytes()))
}

impl ListOf<u8> {
    /// The bytes of a text. `NoMemory` is the one fault.
    pub fn from_text(alloc: Global, text: &str) -> Result<Self, NoMemory>
        ensures { IfOk result (λ octets. octets ≡ text.now) }
    {
        let mut octets = ListOf::new(alloc);
        for byte in text.as_bytes() {
            octets.push(*byte)?;
        }
        Ok(octets)
    }
}

// Adds a value. After `NoMemory` part of it may stand there.
#[cycle(value_text)]
fn append_value(text: &mut String, value: &Value) -> Result<(), NoMemory>
    ensures { OnOk result (string_bytes text.new
        ≡ string_bytes text.old ++ text_of_value (tree_of value.now)) }
{
    match value {
        Value::Boolean(truth) => text.push_str(truth_text(*truth)),
        Value::Cardinal(number) => append_number(text, *number),
        Value::LongCardinal(number) => append_number(text, *number),
        Value::Integer(number) => append_number(text, *number),
        Value::LongInteger(number) => append_number(text, *number),
        Value::Text(bytes) => append_text(text, bytes.as_slice()),
        Value::Enumeration(number) => {
            text.push_str("#")?;
            append_number(text, *number)
        }
        Value::Array(items) | Value::Sequence(items) => {
            text.push_str("{")?;
            append_items(text, items)?;
            text.push_str("}")
        }
        Value::Record(items) => append_list(text, items),
        Value::Choice(number, chosen) => {
            append_number(text, *number)?;
            text.push_str("(")?;
            append_value(text, chosen.value())?;
            text.push_str(")")
        }
    }
}

/// Adds a list, or a state, to a text: `[a, b]`. After `NoMemory` part of it may stand there.
#[cycle(value_text)]
pub fn append_list(text: &mut String, values: &Values) -> Result<(), NoMemory>
    ensures { OnOk result (string_bytes text.new ≡ string_bytes text.old ++ shown_list values.now) }
{
    text.push_str("[")?;
    append_items(text, values)?;
    text.push_str("]")
}

// Adds the values with a comma and a space between two.
#[cycle(value_text)]
fn append_items(text: &mut String, items: &Values) -> Result<(), NoMemory>
    ensures { OnOk result (string_bytes text.new
        ≡ string_bytes text.old ++ shown_items (value_trees items.now)) }
{
    let Some((first, others)) = items.as_slice().split_first() else {
        return Ok(());
    };
    append_value(text, first)?;
    for item in others {
        text.push_str(", ")?;
        append_value(text, item)?;
    }
    Ok(())
}

// Adds a number.
fn append_number<I: Integer>(text: &mut String, number: I) -> Result<(), NoMemory>
    ensures { OnOk result (string_bytes text.new ≡ string_bytes text.old ++ I.text number) }
{
    let mut digits = Buffer::new();
    text.push_str(digits.format(number))
}

fn truth_text(truth: bool) -> &'static str
    ensures { result.now ≡ truth_text truth }
{
    if truth { "TRUE" } else { "FALSE" }
}

// Adds the bytes in quotes.
fn append_text(text: &mut String, bytes: &[u8]) -> Result<(), NoMemory>
    ensures { OnOk result (string_bytes text.new
        ≡ string_bytes text.old ++ (34 ∷ (shown_bytes bytes.now ++ 34 ∷ []))) }
{
    text.push_str("\"")?;
    for byte in bytes {
        append_byte(text, *byte)?;
    }
    text.push_str("\"")
}

fn append_byte(text: &mut String, byte: u8) -> Result<(), NoMemory>
    ensures { OnOk result (string_bytes text.new ≡ string_bytes text.old ++ shown_byte byte) }
{
    if is_plain(byte) {
        text.push(char::from(byte))
    } else {
        text.push_str("\\")?;
        text.push(char::from(hexadecimal_digit(byte / 16)))?;
        text.push(char::from(hexadecimal_digit(byte % 16)))
    }
}

// Whether the byte stands for itself.
fn is_plain(byte: u8) -> bool
    ensures { result ≡ is_plain byte }
{
    (32..=126).contains(&byte) && byte != b'"' && byte != b'\\'
}

fn hexadecimal_digit(number: u8) -> u8
    requires { number < 16 }
    ensures value { result ≡ hexadecimal_digit number }
    ensures ascii { result < 128 }
{
    if number < 10 {
        b'0' + number
    } else {
        b'a' - 10 + number
    }
}

/// Writes a list, or a state: `[a, b]`.
impl fmt::Display for Values {
    ghost output = { λ values. Some (shown_list values) };

    fn fmt<W: fmt::Write>(&self, f: &mut fmt::Formatter<W>) -> fmt::Result {
        let mut text = String::new(self.alloc());
        match append_list(&mut text, self) {
            Ok(()) => f.write_str(text.as_str()),
            Err(_) => Err(fmt::Error),
        }
    }
}

/// Writes `returned LIST` or `raised NUMBER LIST`.
impl fmt::Display for Outcome {
    ghost output = { λ outcome. Some (outcome_text outcome) };

    fn fmt<W: fmt::Write>(&self, f: &mut fmt::Formatter<W>) -> fmt::Result {
        match self {
            Outcome::Returned(results) => write!(f, "returned {results}"),
            Outcome::Raised(error, values) => write!(f, "raised {error} {values}"),
        }
    }
}
