// A sample of a program.
ghost use Rattle.std.specs.Prelude.{◌≡◌, IsTrue, IfOk};
ghost use Rattle.circus_config.specs.Program.{IsPlan};
ghost use Rattle.circus_commands.specs.Status.{is_end};
ghost use Rattle.circus_commands.specs.Seen.Ending.{ending_of};
ghost use Rattle.circus_record.specs.Naming.{names_of};
ghost use Rattle.circus_simulation.specs.Sample.{sample_in, sample_of};
ghost use Rattle.circus_simulation.specs.Seen.Simulated.{world_of, IsFresh};

use crate::{SampleFault, Simulated, boot_plan, sample, show_sample};
use circus_commands::{Ending, Status, end_of_spent};
use circus_config::Plan;
use circus_value::NoMemory;
use std::alloc::{AllocError, Global};

/// What comes of so many steps that a seed draws (docs/FORMATS.md, "Samples"): the summary, or that a node has no number
/// left for another one. `NoMemory` is the one fault.
pub fn sample_plan(alloc: Global, plan: Plan, seed: u64, steps: u32) -> Result<Ending, NoMemory>
    requires { IsPlan plan }
    ensures ending { IfOk result (λ ending. ending_of ending ≡ sample_of plan seed steps) }
    ensures status { IfOk result (λ ending. IsTrue (is_end ending.status)) }
{
    match boot_plan(alloc, plan)? {
        Ok(simulated) => sample_world(alloc, simulated, seed, steps),
        Err(ending) => Ok(ending),
    }
}

// What comes of a sample of a world that has just booted.
fn sample_world(
    alloc: Global,
    simulated: Simulated,
    seed: u64,
    steps: u32,
) -> Result<Ending, NoMemory>
    requires { IsFresh simulated }
    ensures ending { IfOk result (λ ending. ending_of ending
        ≡ sample_in (names_of simulated.hosts simulated.names) seed steps
        (world_of simulated.world)) }
    ensures status { IfOk result (λ ending. IsTrue (is_end ending.status)) }
{
    let Simulated {
        world,
        hosts,
        names: _,
    } = simulated;
    match sample(alloc, world, seed, steps) {
        Ok(world) => Ok(Ending {
            status: Status::Done,
            text: show_sample(alloc, &world, steps)?,
        }),
        Err(SampleFault::NoMemory) => Err(AllocError),
        Err(SampleFault::Spent(node, peer)) => end_of_spent(alloc, &hosts, node, peer),
    }
}
