// Values and outcomes, by what a module declares.
ghost use Rattle.std.specs.Prelude.{◌≡◌, ◌≤◌, [], length, drop, option_copied};
ghost use Rattle.circus_value_text.specs.Seen.Given.{Gives, GivesAt, GivesValueAt, IsPassed, mark_behind};
ghost use Rattle.circus_audit.specs.Seen.Values as values;

use circus_model::{
    ErrorShape, ErrorShapes, Import, Imports, LanguageError, ProcedureShape, procedure_numbered,
};
use circus_value::{Outcome, Shape, Shapes, Value, Values};
use circus_value_text::{Unread, behind_mark, pass, read_value, read_word};
use std::alloc::Global;

const NOTHING: &[u8] = b"";

const COMMA: &[u8] = b", ";

const OPEN: &[u8] = b"[";

const CLOSE: &[u8] = b"]";

const RETURNED: &[u8] = b"returned ";

const RAISED: &[u8] = b"raised ";

const SPACE: &[u8] = b" ";

const NO_VALUES: &[u8] = b"[]";

// What stands before the next value, behind these.
fn mark_before(items: &Values) -> &'static [u8]
    ensures { result.now ≡ mark_behind items.now }
{
    if items.is_empty() { NOTHING } else { COMMA }
}

// A value, behind the mark that stands between it and these.
fn read_next(
    alloc: Global,
    text: &[u8],
    at: usize,
    items: &Values,
    shape: &Shape,
) -> Result<(Value, usize), Unread>
    requires { at ≤ length text.now }
    ensures { GivesValueAt text.now at result
        (values.value_behind (mark_behind items.now) shape.now) }
{
    let inner = pass(text, at, mark_before(items))?;
    read_value(alloc, text, inner, shape)
}

// One value for each shape, with a comma between two.
fn read_shapes(
    alloc: Global,
    text: &[u8],
    at: usize,
    shapes: &Shapes,
) -> Result<(Values, usize), Unread>
    requires { at ≤ length text.now }
    ensures { GivesAt text.now at result (values.shapes_read shapes.now []) }
{
    let mut items = Values::new(alloc);
    let mut place = at;
    for shape in shapes.as_slice() {
        let (item, next) = read_next(alloc, text, place, &items, shape)?;
        items.push(item)?;
        place = next;
    }
    Ok((items, place))
}

// One value for each shape, which stand at a place in brackets, and the place behind them.
fn read_values(
    alloc: Global,
    text: &[u8],
    at: usize,
    shapes: &Shapes,
) -> Result<(Values, usize), Unread>
    requires { at ≤ length text.now }
    ensures { GivesAt text.now at result (values.values_read shapes.now) }
{
    let inner = pass(text, at, OPEN)?;
    let (items, end) = read_shapes(alloc, text, inner, shapes)?;
    Ok((items, pass(text, end, CLOSE)?))
}

/// Values behind a mark, one for each shape, in brackets, and the place behind them.
pub(crate) fn values_behind(
    alloc: Global,
    text: &[u8],
    at: usize,
    mark: &[u8],
    shapes: &Shapes,
) -> Result<(Values, usize), Unread>
    requires { at ≤ length text.now }
    ensures { GivesAt text.now at result (values.values_behind mark.now shapes.now) }
{
    let inner = pass(text, at, mark)?;
    read_values(alloc, text, inner, shapes)
}

// The place behind an error of the language, which has no values.
fn behind_bare(text: &[u8], at: usize, number: u16) -> Option<usize>
    requires { at ≤ length text.now }
    ensures { IsPassed text.now result (values.bare_error number (drop at text.now)) }
{
    if LanguageError::of_number(number).is_some() {
        behind_mark(text, at, NO_VALUES)
    } else {
        None
    }
}

fn error_numbered(errors: &ErrorShapes, number: u16) -> Option<&ErrorShape>
    ensures { option_copied result ≡ values.error_numbered errors.now number }
{
    errors
        .as_slice()
        .iter()
        .find(|error| error.number == number)
}

// The values of the error with a number that is reported.
fn read_reported(
    alloc: Global,
    text: &[u8],
    at: usize,
    errors: &ErrorShapes,
    number: u16,
) -> Result<(Outcome, usize), Unread>
    requires { at ≤ length text.now }
    ensures { Gives (λ o.
        o) text.now result
        (values.reported_read number (drop at text.now) (values.error_numbered errors.now number)) }
{
    match error_numbered(errors, number) {
        Some(error) => {
            let (values, next) = read_values(alloc, text, at, &error.arguments)?;
            Ok((Outcome::Raised(number, values), next))
        }
        None => Err(Unread::Unlike),
    }
}

// The values of the error with a number.
fn read_error(
    alloc: Global,
    text: &[u8],
    at: usize,
    errors: &ErrorShapes,
    number: u16,
) -> Result<(Outcome, usize), Unread>
    requires { at ≤ length text.now }
    ensures { GivesAt text.now at result (values.error_read errors.now number) }
{
    match behind_bare(text, at, number) {
        Some(next) => Ok((Outcome::Raised(number, Values::new(alloc)), next)),
        None => read_reported(alloc, text, at, errors, number),
    }
}

// An error's number, and its values.
fn read_raised(
    alloc: Global,
    text: &[u8],
    at: usize,
    errors: &ErrorShapes,
) -> Result<(Outcome, usize), Unread>
    requires { at ≤ length text.now }
    ensures { GivesAt text.now at result (values.raised_read errors.now) }
{
    let (number, next) = read_word(text, at)?;
    let inner = pass(text, next, SPACE)?;
    read_error(alloc, text, inner, errors, number)
}

// The outcome of a procedure that stands at a place, and the place behind it.
fn read_outcome(
    alloc: Global,
    text: &[u8],
    at: usize,
    procedure: &ProcedureShape,
) -> Result<(Outcome, usize), Unread>
    requires { at ≤ length text.now }
    ensures { GivesAt text.now at result (values.outcome_read procedure.now) }
{
    match behind_mark(text, at, RETURNED) {
        Some(inner) => {
            let (results, next) = read_values(alloc, text, inner, &procedure.results)?;
            Ok((Outcome::Returned(results), next))
        }
        None => {
            let inner = pass(text, at, RAISED)?;
            read_raised(alloc, text, inner, &procedure.errors)
        }
    }
}

/// The outcome of a procedure behind a blank, and the place behind it.
pub(crate) fn outcome_behind(
    alloc: Global,
    text: &[u8],
    at: usize,
    procedure: &ProcedureShape,
) -> Result<(Outcome, usize), Unread>
    requires { at ≤ length text.now }
    ensures { GivesAt text.now at result (values.outcome_behind procedure.now) }
{
    let inner = pass(text, at, SPACE)?;
    read_outcome(alloc, text, inner, procedure)
}

fn import_of(imports: &Imports, callee: u16) -> Option<&Import>
    ensures { option_copied result ≡ values.import_numbered imports.now callee }
{
    imports
        .as_slice()
        .iter()
        .find(|import| import.module == callee)
}

/// The procedure of an import with a number. It takes no memory.
pub(crate) fn imported_procedure(
    imports: &Imports,
    callee: u16,
    number: u16,
) -> Option<&ProcedureShape>
    ensures { option_copied result ≡ values.procedure_of_import imports.now callee number }
{
    procedure_numbered(&import_of(imports, callee)?.procedures, number)
}
