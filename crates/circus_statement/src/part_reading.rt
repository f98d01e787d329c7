// Reading what statements are made of.
ghost use Rattle.std.specs.Prelude.{◌≡◌, map, option_map, IfOk};
ghost use Rattle.circus_syntax.specs.Reader.{place};
ghost use Rattle.circus_expression.specs.ExpressionOf.{place_of};
ghost use Rattle.circus_expression.specs.Standing.{show_as};
ghost use Rattle.circus_expression.specs.Standing as expression;
ghost use Rattle.circus_statement.specs.StatementOf.{into_of};
ghost use Rattle.circus_statement.specs.StatementStanding.{places_stand_for, into_stands_for, call_stands_for, handled_stands_for};
ghost use Rattle.circus_statement.specs.StatementReading.{required_list, places_within, places, into, into_if_any, call_head, handler_head, handled_places, list_end};

use crate::{IntoText, PlaceTexts};
use circus_expression::{Expressions, list_text, place_text};
use circus_syntax::{Named, Reader, StopCause};
use circus_value::NoMemory;

/// A list of expressions, or a stop where its bracket is missing.
pub fn required_list(reader: &mut Reader<'_>, levels: u8) -> Result<Expressions, NoMemory>
    ensures { IfOk result (λ read.
        show_as (map expression.stands_for) (required_list levels reader.old)
        ≡ (read, reader.new)) }
{
    if reader.sees_sign(b"[") {
        return list_text(reader, levels);
    }
    reader.stop_here(StopCause::Unexpected);
    Ok(Expressions::new(reader.alloc()))
}

fn places_within(reader: &mut Reader<'_>, levels: u8) -> Result<PlaceTexts, NoMemory>
    ensures { IfOk result (λ read.
        show_as places_stand_for (places_within levels reader.old)
        ≡ (map place_of read, reader.new)) }
{
    let mut places = PlaceTexts::new(reader.alloc());
    if reader.sees_sign(b"]") {
        return Ok(places);
    }
    places.push(place_text(reader, levels)?)?;
    while reader.sees_sign(b",") {
        reader.sign(b",");
        places.push(place_text(reader, levels)?)?;
    }
    Ok(places)
}

/// Places in brackets.
pub fn places(reader: &mut Reader<'_>, levels: u8) -> Result<PlaceTexts, NoMemory>
    ensures { IfOk result (λ read.
        show_as places_stand_for (places levels reader.old) ≡ (map place_of read, reader.new)) }
{
    reader.sign(b"[");
    let places = places_within(reader, levels)?;
    reader.sign(b"]");
    Ok(places)
}

fn into(reader: &mut Reader<'_>, levels: u8) -> Result<IntoText, NoMemory>
    ensures { IfOk result (λ read.
        show_as into_stands_for (into levels reader.old) ≡ (into_of read, reader.new)) }
{
    let at = reader.place();
    reader.word(b"INTO");
    let places = places(reader, levels)?;
    Ok(IntoText { at, places })
}

/// Where results go, if the next token says so.
pub fn into_if_any(reader: &mut Reader<'_>, levels: u8) -> Result<Option<IntoText>, NoMemory>
    ensures { IfOk result (λ read.
        show_as (option_map into_stands_for) (into_if_any levels reader.old)
        ≡ (option_map into_of read, reader.new)) }
{
    if reader.sees_word(b"INTO") {
        Ok(Some(into(reader, levels)?))
    } else {
        Ok(None)
    }
}

/// Where an error's values go, if a bracket is the next token.
pub fn handled_places(reader: &mut Reader<'_>, levels: u8) -> Result<Option<PlaceTexts>, NoMemory>
    ensures { IfOk result (λ read.
        show_as (option_map places_stand_for) (handled_places levels reader.old)
        ≡ (option_map (map place_of) read, reader.new)) }
{
    if reader.sees_sign(b"[") {
        Ok(Some(places(reader, levels)?))
    } else {
        Ok(None)
    }
}

/// The end of a list of statements.
pub fn list_end(reader: &mut Reader<'_>)
    ensures { list_end reader.old ≡ (tt, reader.new) }
{
    reader.word(b"END");
    reader.sign(b";");
}
