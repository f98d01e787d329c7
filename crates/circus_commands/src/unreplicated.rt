// The history of a program when nothing is replicated.
ghost use Rattle.std.specs.Prelude.{◌≡◌, IfOk};
ghost use Rattle.circus_config.specs.Program.{IsPlan};
ghost use Rattle.circus_commands.specs.Program.{history_in, history_lines, IsEndOfProgram};
ghost use Rattle.circus_commands.specs.Seen.Upshot.{end_of_upshot, CanBeWritten};

use crate::refused::plan_of;
use crate::{Performance, Upshot};
use circus_config::Plan;
use circus_model::run_alone;
use circus_modules::modules_of;
use circus_value::NoMemory;
use std::alloc::Global;

// What the modules of a plan perform.
fn perform(alloc: Global, plan: Plan) -> Result<Performance, NoMemory>
    requires { IsPlan plan }
    ensures names { IfOk result (λ performance. performance.names ≡ plan.names) }
    ensures history { IfOk result (λ performance. performance.history ≡ history_in plan) }
{
    let limit = plan.limit();
    let Plan {
        deployment: _,
        names,
        checked,
    } = plan;
    let (_, modules) = modules_of(alloc, limit, checked)?;
    let history = run_alone(alloc, modules.as_slice())?;
    Ok(Performance { names, history })
}

/// What comes of a program that is run unreplicated.
pub fn end_of_unreplicated(alloc: Global, bytes: &[u8]) -> Result<Upshot, NoMemory>
    ensures ending { IfOk result (λ upshot.
        IsEndOfProgram history_lines bytes.now (end_of_upshot upshot)) }
    ensures ready { IfOk result CanBeWritten }
{
    match plan_of(alloc, bytes)? {
        Ok(plan) => Ok(Upshot::History(perform(alloc, plan)?)),
        Err(refused) => Ok(Upshot::Text(refused)),
    }
}
