// A replay that may begin.
ghost use Rattle.std.specs.Prelude.{◌≡◌, ◌≤◌, All, IsTrue, length, IfOk, IfErr};
ghost use Rattle.circus_config.specs.Program.{IsPlan};
ghost use Rattle.circus_commands.specs.Status.{is_end};
ghost use Rattle.circus_commands.specs.Seen.Ending.{ending_of};
ghost use Rattle.circus_schedule.specs.Answer.{most_lines};
ghost use Rattle.circus_schedule.specs.Meaning.{NamesBelow};
ghost use Rattle.circus_program.specs.Replay.{shown_of, IsEndOfReplay};
ghost use Rattle.circus_program.specs.Seen.Ready.{end_of_ready, procedures_shown, IsReady};

use crate::schedule_refused::end_of_schedule;
use crate::shown::Shown;
use circus_commands::Ending;
use circus_config::Plan;
use circus_picture::{ModuleProcedures, procedures_in};
use circus_schedule::{Lines, ScheduleFault, read_schedule};
use circus_simulation::{Simulated, boot_plan};
use circus_value::NoMemory;
use std::alloc::{AllocError, Global};

/// A world at boot, with the lines that it is to take, and, where their picture is to be drawn, the procedures of its modules.
#[derive(Drop)]
pub struct Ready {
    pub simulated: Simulated,
    pub lines: Lines,
    pub procedures: Option<ModuleProcedures>,
}

/// What comes first of a plan and a schedule of which this is shown: the replay may begin, or has ended.
pub fn prepare(
    alloc: Global,
    plan: Plan,
    schedule: &[u8],
    shown: Shown,
) -> Result<Result<Ready, Ending>, NoMemory>
    requires { IsPlan plan }
    ensures ready { IfOk result (λ first. IfOk first IsReady) }
    ensures end { IfOk result (λ first.
        IfOk first (λ ready. IsEndOfReplay shown plan schedule.now (end_of_ready ready))) }
    ensures ended { IfOk result (λ first.
        IfErr first (λ ending. IsEndOfReplay shown plan schedule.now (ending_of ending))) }
    ensures status { IfOk result (λ first. IfErr first (λ ending. IsTrue (is_end ending.status))) }
{
    match read_schedule(alloc, schedule, &plan.deployment) {
        Ok(lines) => boot(alloc, plan, lines, shown),
        Err(ScheduleFault::NoMemory) => Err(AllocError),
        Err(fault) => Ok(Err(end_of_schedule(alloc, &fault)?)),
    }
}

// The world of a plan at boot, with lines of which this is shown.
fn boot(
    alloc: Global,
    plan: Plan,
    lines: Lines,
    shown: Shown,
) -> Result<Result<Ready, Ending>, NoMemory>
    requires plan { IsPlan plan }
    requires below { All (NamesBelow (length plan.deployment.nodes)) lines }
    requires few { length lines ≤ most_lines }
    ensures ready { IfOk result (λ first. IfOk first IsReady) }
    ensures end { IfOk result (λ first.
        IfOk first (λ ready. end_of_ready ready ≡ shown_of shown plan lines)) }
    ensures ended { IfOk result (λ first.
        IfErr first (λ ending. ending_of ending ≡ shown_of shown plan lines)) }
    ensures status { IfOk result (λ first. IfErr first (λ ending. IsTrue (is_end ending.status))) }
{
    let procedures = procedures_shown(alloc, &plan, shown)?;
    match boot_plan(alloc, plan)? {
        Ok(simulated) => Ok(Ok(Ready {
            simulated,
            lines,
            procedures,
        })),
        Err(ending) => Ok(Err(ending)),
    }
}

// The procedures of the modules of a plan, where a picture is shown.
fn procedures_shown(
    alloc: Global,
    plan: &Plan,
    shown: Shown,
) -> Result<Option<ModuleProcedures>, NoMemory>
    ensures { IfOk result (λ procedures. procedures ≡ procedures_shown shown plan.now) }
{
    match shown {
        Shown::Report => Ok(None),
        Shown::Picture => Ok(Some(procedures_in(alloc, plan)?)),
    }
}
