// The arguments of a call.
ghost use Rattle.std.specs.Prelude.{◌≡◌, IfOk};
ghost use Rattle.circus_member_rules.specs.Messages as messages;

use circus_external::ExternalFault;
use circus_model::{ProcedureShapes, procedure_numbered};
use circus_transfer::read_values;
use circus_value::{NoMemory, Parts, Values};
use std::alloc::Global;

/// The arguments of a procedure that bytes spell: none where they spell none. `NoMemory` where memory runs out.
pub fn arguments_in(
    alloc: Global,
    procedures: &ProcedureShapes,
    number: u16,
    body: &Parts,
) -> Result<Values, NoMemory>
    ensures { IfOk result (λ values.
        values ≡ messages.arguments_in procedures.now number body.now) }
{
    let Some(procedure) = procedure_numbered(procedures, number) else {
        return Ok(Values::new(alloc));
    };
    match read_values(alloc, body, 0, &procedure.arguments) {
        Ok((arguments, _)) => Ok(arguments),
        Err(ExternalFault::NoMemory) => Err(NoMemory {}),
        Err(_) => Ok(Values::new(alloc)),
    }
}
