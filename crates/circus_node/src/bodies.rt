// The values behind the header of a message.
ghost use Rattle.std.specs.Prelude.{◌≡◌, ◌≤◌, ◌==◌, true, length, find, is_some, IfOk, IfSome, option_copied};
ghost use Rattle.circus_value.specs.declared.outcome.Outcome.TheVariants.{Raised};
ghost use Rattle.circus_model.specs.Lawful.{IsState, outcome_fits};
ghost use Rattle.circus_model.specs.declared.signature.ErrorShape.{ErrorShape as Reported};
ghost use Rattle.circus_node.specs.Bodies as bodies;
ghost use Rattle.circus_node.specs.Seen.Can.{AreOf};

use circus_external::{ExternalFault, word_at};
use circus_model::{ErrorShape, LanguageError, ProcedureShape, Signature};
use circus_transfer::{TransferFault, end_of_values, read_values, restore};
use circus_value::{NoMemory, Outcome, Parts, Shapes, State, Values, values_size};
use std::alloc::Global;

// The most bytes of a message in parts.
const LONGEST_MESSAGE: usize = 16_777_216;

/// One value for each shape, which the bytes from a place on spell. `None` where they don't, or are more than the most.
pub(crate) fn values_at(
    alloc: Global,
    shapes: &Shapes,
    most: usize,
    at: usize,
    message: &Parts,
) -> Result<Option<Values>, NoMemory>
    requires { at ≤ length message.now }
    ensures read { IfOk result (λ values.
        values ≡ bodies.values_at shapes.now most at message.now) }
    ensures fit { IfOk result (λ values. IfSome values (AreOf shapes.now most)) }
{
    if message.len() - at > most {
        return Ok(None);
    }
    let bytes = message.joined()?;
    match read_values(alloc, &bytes.as_slice(), at, shapes) {
        Ok((values, end)) => Ok((end == message.len()).then_some(values)),
        Err(ExternalFault::NoMemory) => Err(NoMemory {}),
        Err(_) => Ok(None),
    }
}

/// Whether the bytes from a place on spell one value for each shape, and are no more than the most: whether `values_at` finds
/// values. No list is made of them.
pub(crate) fn are_values_at(
    alloc: Global,
    shapes: &Shapes,
    most: usize,
    at: usize,
    message: &Parts,
) -> Result<bool, NoMemory>
    requires { at ≤ length message.now }
    ensures found { IfOk result (λ are.
        are ≡ is_some (bodies.values_at shapes.now most at message.now)) }
    ensures fit { IfOk result (λ are.
        IfSome (bodies.values_at shapes.now most at message.now) (AreOf shapes.now most)) }
{
    let len = message.len();
    if len - at > most {
        return Ok(false);
    }
    let bytes = message.joined()?;
    match end_of_values(alloc, &bytes.as_slice(), at, shapes) {
        Ok(end) => Ok(end == len),
        Err(ExternalFault::NoMemory) => Err(NoMemory {}),
        Err(_) => Ok(false),
    }
}

fn error_shape(procedure: &ProcedureShape, number: u16) -> Option<&ErrorShape>
    ensures { option_copied result
        ≡ find (λ (e : Reported). e.number == number) procedure.now.errors }
{
    procedure
        .errors
        .as_slice()
        .iter()
        .find(|error| error.number == number)
}

/// The outcome of a procedure that the bytes from a place on are. `None` where they are none.
pub(crate) fn outcome_at(
    alloc: Global,
    procedure: &ProcedureShape,
    most: usize,
    at: usize,
    message: &Parts,
) -> Result<Option<Outcome>, NoMemory>
    ensures read { IfOk result (λ outcome.
        outcome ≡ bodies.outcome_at procedure.now most at message.now) }
    ensures fits { IfOk result (λ outcome.
        IfSome outcome (λ o. outcome_fits procedure.now o ≡ true)) }
{
    let Some(kind) = word_at(message, at) else {
        return Ok(None);
    };
    match kind {
        0 => results_at(alloc, procedure, most, at + 2, message),
        1 => error_at(alloc, procedure, most, at + 2, message),
        _ => Ok(None),
    }
}

fn results_at(
    alloc: Global,
    procedure: &ProcedureShape,
    most: usize,
    at: usize,
    message: &Parts,
) -> Result<Option<Outcome>, NoMemory>
    requires { at ≤ length message.now }
    ensures read { IfOk result (λ outcome.
        outcome ≡ bodies.results_at procedure.now most at message.now) }
    ensures fits { IfOk result (λ outcome.
        IfSome outcome (λ o. outcome_fits procedure.now o ≡ true)) }
{
    let results = values_at(alloc, &procedure.results, most, at, message)?;
    Ok(results.map(Outcome::Returned))
}

// An error's number at a place, and behind it the error's values.
fn error_at(
    alloc: Global,
    procedure: &ProcedureShape,
    most: usize,
    at: usize,
    message: &Parts,
) -> Result<Option<Outcome>, NoMemory>
    ensures read { IfOk result (λ outcome.
        outcome ≡ bodies.error_at procedure.now most at message.now) }
    ensures fits { IfOk result (λ outcome.
        IfSome outcome (λ o. outcome_fits procedure.now o ≡ true)) }
{
    let Some(number) = word_at(message, at) else {
        return Ok(None);
    };
    let values = raised_values(alloc, procedure, number, most, at + 2, message)?;
    Ok(values.map(|values| Outcome::Raised(number, values)))
}

// The values at a place with which a procedure raises the error of a number.
fn raised_values(
    alloc: Global,
    procedure: &ProcedureShape,
    number: u16,
    most: usize,
    at: usize,
    message: &Parts,
) -> Result<Option<Values>, NoMemory>
    requires { at ≤ length message.now }
    ensures read { IfOk result (λ values.
        values ≡ bodies.raised_values procedure.now number most at message.now) }
    ensures fit { IfOk result (λ values.
        IfSome values (λ vs. outcome_fits procedure.now (Raised number vs) ≡ true)) }
{
    match error_shape(procedure, number) {
        Some(error) => values_at(alloc, &error.arguments, most, at, message),
        None if LanguageError::has(number) => {
            values_at(alloc, &Shapes::new(alloc), most, at, message)
        }
        None => Ok(None),
    }
}

/// The state that a message hands over to a module with this signature, and how many calls led to it. `None` where it
/// hands over none that the module may have.
pub(crate) fn restored_in(
    alloc: Global,
    signature: &Signature,
    message: &Parts,
) -> Result<Option<(State, u32)>, NoMemory>
    ensures read { IfOk result (λ restored.
        restored ≡ bodies.restored_in signature.now.variables signature.now.limit message.now) }
    ensures state { IfOk result (λ restored. IfSome restored (λ r. IsState signature.now r.0)) }
{
    prove!(message.len() <= LONGEST_MESSAGE);
    let bytes = message.joined()?;
    match restore(alloc, bytes.as_slice(), &signature.variables) {
        Ok((state, count)) => {
            let within = values_size(&state) <= u64::from(signature.limit);
            Ok(within.then_some((state, count)))
        }
        Err(TransferFault::NoMemory) => Err(NoMemory {}),
        Err(_) => Ok(None),
    }
}
