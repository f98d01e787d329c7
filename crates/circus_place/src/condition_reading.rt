// Reading conditions.
ghost use Rattle.std.specs.Prelude.{◌≡◌, IfOk};
ghost use Rattle.circus_place.specs.Written.{written_of};
ghost use Rattle.circus_place.specs.Written as written;
ghost use Rattle.circus_place.specs.Seen.Reading.{relation, differ_test, too_deep, negation, group_behind_not, group_or_relation, conjunct, condition, with_further_and, with_further_or};

use crate::start::{AloneStart, alone_start};
use crate::value_reading::{operand, own_name, rest_of_relation};
use crate::{ConditionText, ConstantText, OperandText};
use circus_syntax::{Numeral, Reader, StopCause};
use circus_value::NoMemory;

#[tactic(auto, unfolding(crate::specs::Seen::Reading::relation))]
fn relation(reader: &mut Reader) -> Result<ConditionText, NoMemory>
    ensures { IfOk result (λ read. relation reader.old ≡ (written_of read, reader.new)) }
{
    let left = operand(reader)?;
    match rest_of_relation(reader)? {
        Some((comparison, right)) => Ok(ConditionText::Compare(comparison, left, right)),
        None => Ok(ConditionText::Holds(left)),
    }
}

#[tactic(auto, unfolding(crate::specs::Seen::Reading::differ_test))]
fn differ_test(reader: &mut Reader) -> Result<ConditionText, NoMemory>
    ensures { IfOk result (λ read. differ_test reader.old ≡ (written_of read, reader.new)) }
{
    reader.word(b"ALL");
    reader.word(b"DIFFER");
    Ok(ConditionText::Differ(own_name(reader)?))
}

// Stops where a level is too many. What is missing is filled in.
#[tactic(auto, unfolding(crate::specs::Seen::Reading::too_deep))]
fn too_deep(reader: &mut Reader) -> ConditionText
    ensures { too_deep reader.old ≡ (written_of result, reader.new) }
{
    let at = reader.place();
    reader.stop_here(StopCause::TooDeep);
    ConditionText::Holds(OperandText::Fixed(ConstantText::Number(Numeral { value: 0, at })))
}

#[cycle(conditions)]
fn negation(reader: &mut Reader, levels: u8) -> Result<ConditionText, NoMemory>
    ensures { IfOk result (λ read. negation levels reader.old ≡ (written_of read, reader.new)) }
{
    match alone_start(reader) {
        AloneStart::Not => group_behind_not(reader, levels),
        AloneStart::Group => group(reader, levels),
        AloneStart::Differ => differ_test(reader),
        AloneStart::Relation => relation(reader),
    }
}

#[cycle(conditions)]
fn group_behind_not(reader: &mut Reader, levels: u8) -> Result<ConditionText, NoMemory>
    ensures { IfOk result (λ read.
        group_behind_not levels reader.old ≡ (written_of read, reader.new)) }
{
    if levels == 0 {
        return Ok(too_deep(reader));
    }
    reader.word(b"NOT");
    let inner = negation(reader, levels - 1)?;
    Ok(ConditionText::Not(Box::new(reader.alloc(), inner)?))
}

#[cycle(conditions)]
fn group(reader: &mut Reader, levels: u8) -> Result<ConditionText, NoMemory>
    ensures { IfOk result (λ read.
        group_or_relation levels reader.old ≡ (written_of read, reader.new)) }
{
    if levels == 0 {
        return Ok(too_deep(reader));
    }
    reader.sign(b"(");
    let inner = condition(reader, levels - 1)?;
    reader.sign(b")");
    Ok(ConditionText::Group(Box::new(reader.alloc(), inner)?))
}

#[cycle(conditions)]
fn conjunct(reader: &mut Reader, levels: u8) -> Result<ConditionText, NoMemory>
    ensures { IfOk result (λ read. conjunct levels reader.old ≡ (written_of read, reader.new)) }
{
    let first = negation(reader, levels)?;
    if !reader.sees_word(b"AND") {
        return Ok(first);
    }
    reader.word(b"AND");
    let second = negation(reader, levels)?;
    let both = and(reader, first, second)?;
    further_and(reader, both, levels)
}

// The parts behind the further operators of a chain, each a level deeper.
#[cycle(conditions)]
fn further_and(
    reader: &mut Reader,
    left: ConditionText,
    levels: u8,
) -> Result<ConditionText, NoMemory>
    ensures { IfOk result (λ read.
        with_further_and levels (written_of left) reader.old ≡ (written_of read, reader.new)) }
{
    if !reader.sees_word(b"AND") {
        return Ok(left);
    }
    if levels == 0 {
        reader.stop_here(StopCause::TooDeep);
        return Ok(left);
    }
    reader.word(b"AND");
    let right = negation(reader, levels - 1)?;
    let both = and(reader, left, right)?;
    further_and(reader, both, levels - 1)
}

fn and(
    reader: &Reader,
    left: ConditionText,
    right: ConditionText,
) -> Result<ConditionText, NoMemory>
    ensures { IfOk result (λ made.
        written_of made ≡ written.and (written_of left) (written_of right)) }
{
    let alloc = reader.alloc();
    Ok(ConditionText::And(Box::new(alloc, left)?, Box::new(alloc, right)?))
}

/// Reads a condition, or stops.
#[cycle(conditions)]
pub fn condition(reader: &mut Reader, levels: u8) -> Result<ConditionText, NoMemory>
    ensures { IfOk result (λ read. condition levels reader.old ≡ (written_of read, reader.new)) }
{
    let first = conjunct(reader, levels)?;
    if !reader.sees_word(b"OR") {
        return Ok(first);
    }
    reader.word(b"OR");
    let second = conjunct(reader, levels)?;
    let either = or(reader, first, second)?;
    further_or(reader, either, levels)
}

#[cycle(conditions)]
fn further_or(
    reader: &mut Reader,
    left: ConditionText,
    levels: u8,
) -> Result<ConditionText, NoMemory>
    ensures { IfOk result (λ read.
        with_further_or levels (written_of left) reader.old ≡ (written_of read, reader.new)) }
{
    if !reader.sees_word(b"OR") {
        return Ok(left);
    }
    if levels == 0 {
        reader.stop_here(StopCause::TooDeep);
        return Ok(left);
    }
    reader.word(b"OR");
    let right = conjunct(reader, levels - 1)?;
    let either = or(reader, left, right)?;
    further_or(reader, either, levels - 1)
}

fn or(reader: &Reader, left: ConditionText, right: ConditionText) -> Result<ConditionText, NoMemory>
    ensures { IfOk result (λ made.
        written_of made ≡ written.or (written_of left) (written_of right)) }
{
    let alloc = reader.alloc();
    Ok(ConditionText::Or(Box::new(alloc, left)?, Box::new(alloc, right)?))
}
