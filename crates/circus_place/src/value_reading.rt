// Reading names and values.
ghost use Rattle.std.specs.Prelude.{◌≡◌, true, false, IfOk, MatchOption};
ghost use Rattle.circus_syntax.specs.Reader.{next, sees};
ghost use Rattle.circus_syntax.specs.Placed.{Placed};
ghost use Rattle.circus_place.specs.Seen.Reading.{is_own_name, own_name, own_names, constant_by, a_constant, number_or_attribute, an_operand, seen_comparison, rest_of_relation};

use crate::start::{ValueStart, value_start};
use crate::words::is_placing_word;
use crate::{Comparison, ConstantText, OperandText};
use circus_syntax::{Named, Nameds, Reader, StopCause};
use circus_text::TokenKind;
use circus_value::{Name, NoMemory};

/// The next token's bytes, if it is a name of a placing.
pub fn next_name<'a>(reader: &Reader<'a>) -> Option<&'a [u8]>
    ensures { MatchOption result (sees is_own_name reader.now ≡ false)
        (λ bytes. (t : Placed) × (next reader.now ≡ Some t) × (is_own_name t ≡ true)
        × (bytes.now ≡ t.bytes)) }
{
    match reader.next_token() {
        Some((TokenKind::Word, bytes)) if !is_placing_word(bytes) => Some(bytes),
        _ => None,
    }
}

/// Reads a name, or stops and answers `x`.
#[tactic(auto, unfolding(crate::specs::Seen::Reading::own_name))]
pub fn own_name(reader: &mut Reader) -> Result<Named, NoMemory>
    ensures { IfOk result (λ read. own_name reader.old ≡ (read, reader.new)) }
{
    let at = reader.place();
    let mut name = Name::new(reader.alloc());
    match next_name(reader) {
        Some(bytes) => {
            name.append(bytes)?;
            reader.skip();
        }
        None => {
            name.append(b"x")?;
            reader.stop_here(StopCause::Unexpected);
        }
    }
    Ok(Named { name, at })
}

/// Reads one name or more with commas between them, or stops.
#[tactic(auto, unfolding(crate::specs::Seen::Reading::own_names))]
pub fn names(reader: &mut Reader) -> Result<Nameds, NoMemory>
    ensures { IfOk result (λ read. own_names reader.old ≡ (read, reader.new)) }
{
    let mut names = Nameds::new(reader.alloc());
    names.push(own_name(reader)?)?;
    while reader.sees_sign(b",") {
        reader.sign(b",");
        names.push(own_name(reader)?)?;
    }
    Ok(names)
}

fn constant_by(reader: &mut Reader, start: ValueStart) -> Result<ConstantText, NoMemory>
    ensures { IfOk result (λ read. constant_by start reader.old ≡ (read, reader.new)) }
{
    match start {
        ValueStart::Number => Ok(ConstantText::Number(reader.number())),
        ValueStart::Text => {
            let at = reader.place();
            Ok(ConstantText::Text(reader.text()?, at))
        }
        ValueStart::True => {
            reader.word(b"TRUE");
            Ok(ConstantText::Truth(true))
        }
        ValueStart::False => {
            reader.word(b"FALSE");
            Ok(ConstantText::Truth(false))
        }
    }
}

/// Reads a constant, or stops.
#[tactic(auto, unfolding(crate::specs::Seen::Reading::a_constant))]
pub fn constant(reader: &mut Reader) -> Result<ConstantText, NoMemory>
    ensures { IfOk result (λ read. a_constant reader.old ≡ (read, reader.new)) }
{
    let start = value_start(reader);
    constant_by(reader, start)
}

#[tactic(auto, unfolding(crate::specs::Seen::Reading::number_or_attribute))]
fn number_or_attribute(reader: &mut Reader) -> Result<OperandText, NoMemory>
    ensures { IfOk result (λ read. number_or_attribute reader.old ≡ (read, reader.new)) }
{
    let number = reader.number();
    if reader.sees_sign(b".") {
        reader.sign(b".");
        Ok(OperandText::Attribute(number, own_name(reader)?))
    } else {
        Ok(OperandText::Fixed(ConstantText::Number(number)))
    }
}

/// Reads an attribute of a member or a constant, or stops.
#[tactic(auto, unfolding(crate::specs::Seen::Reading::an_operand))]
pub fn operand(reader: &mut Reader) -> Result<OperandText, NoMemory>
    ensures { IfOk result (λ read. an_operand reader.old ≡ (read, reader.new)) }
{
    match value_start(reader) {
        ValueStart::Number => number_or_attribute(reader),
        start => Ok(OperandText::Fixed(constant_by(reader, start)?)),
    }
}

// Which comparison the next token is.
#[tactic(auto, unfolding(crate::specs::Seen::Reading::seen_comparison))]
fn comparison(reader: &Reader) -> Option<Comparison>
    ensures { result ≡ seen_comparison (next reader.now) }
{
    if reader.sees_sign(b"=") {
        Some(Comparison::Equal)
    } else if reader.sees_sign(b"<>") {
        Some(Comparison::Unequal)
    } else if reader.sees_sign(b"<") {
        Some(Comparison::Less)
    } else if reader.sees_sign(b"<=") {
        Some(Comparison::AtMost)
    } else if reader.sees_sign(b">") {
        Some(Comparison::Greater)
    } else if reader.sees_sign(b">=") {
        Some(Comparison::AtLeast)
    } else {
        None
    }
}

/// A comparison and its right side, if there is one.
#[tactic(auto, unfolding(crate::specs::Seen::Reading::rest_of_relation))]
pub fn rest_of_relation(reader: &mut Reader) -> Result<Option<(Comparison, OperandText)>, NoMemory>
    ensures { IfOk result (λ read. rest_of_relation reader.old ≡ (read, reader.new)) }
{
    match comparison(reader) {
        Some(comparison) => {
            reader.skip();
            Ok(Some((comparison, operand(reader)?)))
        }
        None => Ok(None),
    }
}
