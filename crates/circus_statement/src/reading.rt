// Reading statements.
ghost use Rattle.std.specs.Prelude.{◌≡◌, map, option_map, IfOk};
ghost use Rattle.circus_syntax.specs.Reader.{place};
ghost use Rattle.circus_expression.specs.ExpressionOf.{place_of};
ghost use Rattle.circus_expression.specs.Standing.{show_as};
ghost use Rattle.circus_statement.specs.StatementOf.{tree_of, kind_tree, handler_of, into_of};
ghost use Rattle.circus_statement.specs.StatementStanding.{stands_for, handler_stands_for, head_stands_for, handled_stands_for};
ghost use Rattle.circus_statement.specs.StatementReading.{block, opened_block, else_block, statement, statement_from, handler, handlers, handler_head, call_head};

use crate::part_reading::{handled_places, into_if_any, list_end, required_list};
use crate::seeing::{sees_statement, statement_start};
use crate::{
    CallText, Handler, Handlers, IntoText, PlaceTexts, Statement, StatementKind, StatementStart,
    Statements,
};
use circus_expression::{Expressions, expression_text, place_text};
use circus_syntax::{Named, Reader, StopCause};
use circus_value::NoMemory;

/// Reads a word and the list of statements that it opens, which is a level, or stops: `TooDeep` at the first token that
/// opens a level too many, and at the first other token with which none goes on (docs/LANGUAGE.md, "Statements").
#[cycle(reading)]
pub fn statements_text(
    reader: &mut Reader<'_>,
    lead: &[u8],
    levels: u8,
) -> Result<Statements, NoMemory>
    ensures { IfOk result (λ read.
        show_as (map stands_for) (block levels lead.now reader.old) ≡ (read, reader.new)) }
{
    if reader.sees_word(lead) {
        return block_behind(reader, lead, levels);
    }
    reader.stop_here(StopCause::Unexpected);
    Ok(Statements::new(reader.alloc()))
}

#[cycle(reading)]
fn block_behind(reader: &mut Reader<'_>, lead: &[u8], levels: u8) -> Result<Statements, NoMemory>
    ensures { IfOk result (λ read.
        show_as (map stands_for) (opened_block levels lead.now reader.old) ≡ (read, reader.new)) }
{
    let mut statements = Statements::new(reader.alloc());
    if levels == 0 {
        reader.stop_here(StopCause::TooDeep);
        return Ok(statements);
    }
    reader.word(lead);
    while sees_statement(reader) {
        statements.push(statement(reader, levels - 1)?)?;
    }
    Ok(statements)
}

#[cycle(reading)]
fn statement(reader: &mut Reader<'_>, levels: u8) -> Result<Statement, NoMemory>
    ensures { IfOk result (λ read.
        show_as stands_for (statement levels reader.old) ≡ (tree_of read, reader.new)) }
{
    let at = reader.place();
    let kind = statement_kind(reader, levels)?;
    Ok(Statement { at, kind })
}

#[cycle(reading)]
fn statement_kind(reader: &mut Reader<'_>, levels: u8) -> Result<StatementKind, NoMemory>
    ensures { IfOk result (λ kind.
        show_as stands_for (statement levels reader.old)
        ≡ (kind_tree (place reader.old) kind, reader.new)) }
{
    match statement_start(reader) {
        StatementStart::Assign => assignment(reader, levels),
        StatementStart::If => choice(reader, levels),
        StatementStart::While => repetition(reader, levels),
        StatementStart::Append => addition(reader, levels),
        StatementStart::Call => call(reader, levels),
        StatementStart::Return => end(reader, levels),
        StatementStart::Raise => failure(reader, levels),
    }
}

fn assignment(reader: &mut Reader<'_>, levels: u8) -> Result<StatementKind, NoMemory>
    ensures { IfOk result (λ kind.
        show_as stands_for (statement_from levels StatementStart.Assign reader.old)
        ≡ (kind_tree (place reader.old) kind, reader.new)) }
{
    let place = place_text(reader, levels)?;
    reader.sign(b":=");
    let value = expression_text(reader, levels)?;
    reader.sign(b";");
    Ok(StatementKind::Assign(place, value))
}

#[cycle(reading)]
fn choice(reader: &mut Reader<'_>, levels: u8) -> Result<StatementKind, NoMemory>
    ensures { IfOk result (λ kind.
        show_as stands_for (statement_from levels StatementStart.If reader.old)
        ≡ (kind_tree (place reader.old) kind, reader.new)) }
{
    reader.word(b"IF");
    let condition = expression_text(reader, levels)?;
    let chosen = statements_text(reader, b"THEN", levels)?;
    let other = else_part(reader, levels)?;
    list_end(reader);
    Ok(StatementKind::If(condition, chosen, other))
}

#[cycle(reading)]
fn else_part(reader: &mut Reader<'_>, levels: u8) -> Result<Option<Statements>, NoMemory>
    ensures { IfOk result (λ read.
        show_as (option_map (map stands_for)) (else_block levels reader.old) ≡ (read, reader.new)) }
{
    if reader.sees_word(b"ELSE") {
        Ok(Some(statements_text(reader, b"ELSE", levels)?))
    } else {
        Ok(None)
    }
}

#[cycle(reading)]
fn repetition(reader: &mut Reader<'_>, levels: u8) -> Result<StatementKind, NoMemory>
    ensures { IfOk result (λ kind.
        show_as stands_for (statement_from levels StatementStart.While reader.old)
        ≡ (kind_tree (place reader.old) kind, reader.new)) }
{
    reader.word(b"WHILE");
    let condition = expression_text(reader, levels)?;
    let repeated = statements_text(reader, b"DO", levels)?;
    list_end(reader);
    Ok(StatementKind::While(condition, repeated))
}

fn addition(reader: &mut Reader<'_>, levels: u8) -> Result<StatementKind, NoMemory>
    ensures { IfOk result (λ kind.
        show_as stands_for (statement_from levels StatementStart.Append reader.old)
        ≡ (kind_tree (place reader.old) kind, reader.new)) }
{
    reader.word(b"APPEND");
    let value = expression_text(reader, levels)?;
    reader.word(b"TO");
    let place = place_text(reader, levels)?;
    reader.sign(b";");
    Ok(StatementKind::Append(value, place))
}

#[cycle(reading)]
fn call(reader: &mut Reader<'_>, levels: u8) -> Result<StatementKind, NoMemory>
    ensures { IfOk result (λ kind.
        show_as stands_for (statement_from levels StatementStart.Call reader.old)
        ≡ (kind_tree (place reader.old) kind, reader.new)) }
{
    let (callee, procedure, arguments, into) = call_head(reader, levels)?;
    let handlers = handlers(reader, levels)?;
    reader.sign(b";");
    Ok(StatementKind::Call(CallText {
        module: callee,
        procedure,
        arguments,
        into,
        handlers,
    }))
}

// A call, without its handlers.
fn call_head(
    reader: &mut Reader<'_>,
    levels: u8,
) -> Result<(Named, Named, Expressions, Option<IntoText>), NoMemory>
    ensures { IfOk result (λ read. show_as head_stands_for (call_head levels reader.old)
        ≡ (
          (
            place reader.old,
            record {
              «module» = read.0;
              procedure = read.1;
              arguments = read.2;
              into = option_map into_of
                  read.3;
            },
          ),
          reader.new,
        )) }
{
    reader.word(b"CALL");
    let callee = reader.name()?;
    reader.sign(b".");
    let procedure = reader.name()?;
    let arguments = required_list(reader, levels)?;
    let into = into_if_any(reader, levels)?;
    Ok((callee, procedure, arguments, into))
}

#[cycle(reading)]
fn handlers(reader: &mut Reader<'_>, levels: u8) -> Result<Handlers, NoMemory>
    ensures { IfOk result (λ read.
        show_as (map handler_stands_for) (handlers levels reader.old) ≡ (read, reader.new)) }
{
    let mut handlers = Handlers::new(reader.alloc());
    while reader.sees_word(b"ON") {
        handlers.push(handler(reader, levels)?)?;
    }
    Ok(handlers)
}

#[cycle(reading)]
fn handler(reader: &mut Reader<'_>, levels: u8) -> Result<Handler, NoMemory>
    ensures { IfOk result (λ read.
        show_as handler_stands_for (handler levels reader.old) ≡ (handler_of read, reader.new)) }
{
    reader.word(b"ON");
    let at = reader.place();
    let (error, places) = handler_head(reader, levels)?;
    let statements = statements_text(reader, b"BEGIN", levels)?;
    reader.word(b"END");
    Ok(Handler {
        at,
        error,
        places,
        statements,
    })
}

// The error that a handler is for, with the places of its values, or every other one.
fn handler_head(
    reader: &mut Reader<'_>,
    levels: u8,
) -> Result<(Option<Named>, Option<PlaceTexts>), NoMemory>
    ensures { IfOk result (λ read. show_as handled_stands_for (handler_head levels reader.old)
        ≡ (
          record {
            at = place reader.old;
            error = read.0;
            places = option_map
                (map place_of) read.1;
          },
          reader.new,
        )) }
{
    if reader.sees_word(b"OTHER") {
        reader.word(b"OTHER");
        return Ok((None, None));
    }
    let error = reader.name()?;
    let places = handled_places(reader, levels)?;
    Ok((Some(error), places))
}

fn end(reader: &mut Reader<'_>, levels: u8) -> Result<StatementKind, NoMemory>
    ensures { IfOk result (λ kind.
        show_as stands_for (statement_from levels StatementStart.Return reader.old)
        ≡ (kind_tree (place reader.old) kind, reader.new)) }
{
    reader.word(b"RETURN");
    let results = required_list(reader, levels)?;
    reader.sign(b";");
    Ok(StatementKind::Return(results))
}

fn failure(reader: &mut Reader<'_>, levels: u8) -> Result<StatementKind, NoMemory>
    ensures { IfOk result (λ kind.
        show_as stands_for (statement_from levels StatementStart.Raise reader.old)
        ≡ (kind_tree (place reader.old) kind, reader.new)) }
{
    reader.word(b"RAISE");
    let error = reader.name()?;
    let values = required_list(reader, levels)?;
    reader.sign(b";");
    Ok(StatementKind::Raise(error, values))
}
