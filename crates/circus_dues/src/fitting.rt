// What a module's procedures may be given, and what those of its imports may reply.
ghost use Rattle.std.specs.Prelude.{◌≡◌, ◌≤◌, ◌==◌, find, option_copied};
ghost use Rattle.std.specs.Bool.{Decides};
ghost use Rattle.circus_value.specs.Fits as fit;
ghost use Rattle.circus_limits.specs.Limits.{most_bytes};
ghost use Rattle.circus_model.specs.Lawful as lawful;
ghost use Rattle.circus_model.specs.Lawful.{IsState};
ghost use Rattle.circus_model.specs.declared.signature.ErrorShape.{ErrorShape as Reported};
ghost use Rattle.circus_model.specs.declared.signature.Import.{Import as Imported};
ghost use Rattle.circus_dues.specs.Seen.Following.{IsTaken};

use circus_limits::MOST_BYTES;
use circus_model::{
    ErrorShape, ErrorShapes, Import, Imports, LanguageError, ProcedureShape, Signature,
    procedure_numbered,
};
use circus_value::{Outcome, Shapes, State, Values, fits, values_size};

/// Whether a module may have this state. It takes no memory.
pub(crate) fn is_state(signature: &Signature, state: &State) -> bool
    ensures { Decides result (IsState signature.now state.now) }
{
    all_fit(&signature.variables, state) && values_size(state) <= u64::from(signature.limit)
}

/// Whether a procedure takes these arguments. It takes no memory.
pub(crate) fn is_taken(signature: &Signature, procedure: u16, arguments: &Values) -> bool
    ensures { Decides result (IsTaken signature.now procedure arguments.now) }
{
    arguments_fit(signature, procedure, arguments)
        && values_size(arguments) <= u64::from(MOST_BYTES)
}

fn arguments_fit(signature: &Signature, procedure: u16, arguments: &Values) -> bool
    ensures { result ≡ lawful.arguments_fit signature.now.procedures procedure arguments.now }
{
    match procedure_numbered(&signature.procedures, procedure) {
        Some(shape) => all_fit(&shape.arguments, arguments),
        None => false,
    }
}

/// Whether the procedure of an import may reply so. It takes no memory.
pub(crate) fn import_answers(
    imports: &Imports,
    callee: u16,
    procedure: u16,
    outcome: &Outcome,
) -> bool
    ensures { result ≡ lawful.import_answers imports.now callee procedure outcome.now }
{
    match import_of(imports, callee) {
        Some(import) => match procedure_numbered(&import.procedures, procedure) {
            Some(shape) => outcome_fits(shape, outcome),
            None => false,
        },
        None => false,
    }
}

fn import_of(imports: &Imports, callee: u16) -> Option<&Import>
    ensures { option_copied result ≡ find (λ (i : Imported). i.«module» == callee) imports.now }
{
    imports
        .as_slice()
        .iter()
        .find(|import| import.module == callee)
}

fn outcome_fits(procedure: &ProcedureShape, outcome: &Outcome) -> bool
    ensures { result ≡ lawful.outcome_fits procedure.now outcome.now }
{
    match outcome {
        Outcome::Returned(results) => all_fit(&procedure.results, results),
        Outcome::Raised(number, values) => {
            is_reported(&procedure.errors, *number, values)
                || is_raised_by_language(*number, values)
        }
    }
}

fn is_reported(errors: &ErrorShapes, number: u16, values: &Values) -> bool
    ensures { result ≡ lawful.is_reported errors.now number values.now }
{
    match error_numbered(errors, number) {
        Some(error) => all_fit(&error.arguments, values),
        None => false,
    }
}

fn error_numbered(errors: &ErrorShapes, number: u16) -> Option<&ErrorShape>
    ensures { option_copied result ≡ find (λ (e : Reported). e.number == number) errors.now }
{
    errors
        .as_slice()
        .iter()
        .find(|error| error.number == number)
}

// An error of the language has no values.
fn is_raised_by_language(number: u16, values: &Values) -> bool
    ensures { result ≡ lawful.is_raised_by_language number values.now }
{
    values.is_empty() && LanguageError::has(number)
}

// Whether there is one value for each shape, which fits it.
fn all_fit(shapes: &Shapes, values: &Values) -> bool
    ensures { result ≡ fit.all_fit shapes.now values.now }
{
    if shapes.len() != values.len() {
        return false;
    }
    let shapes = shapes.as_slice();
    for (place, value) in values.as_slice().iter().enumerate() {
        if !fits(value, &shapes[place]) {
            return false;
        }
    }
    true
}
