// The lines of a sample of a program.
ghost use Rattle.std.specs.Prelude.{◌≡◌, [], All, IsAscii, IsTrue, IfOk};
ghost use Rattle.circus_config.specs.Program.{IsPlan};
ghost use Rattle.circus_commands.specs.Status.{is_end};
ghost use Rattle.circus_commands.specs.Seen.Ending.{ending_of};
ghost use Rattle.circus_record.specs.Naming.{host_name, names_of};
ghost use Rattle.circus_schedule.specs.ScheduleText.{IsShort};
ghost use Rattle.circus_simulation.specs.Schedule.{lines_in, lines_of_sample, schedule_in, schedule_of};
ghost use Rattle.circus_simulation.specs.Schedule as drawing;
ghost use Rattle.circus_simulation.specs.Seen.Simulated.{world_of, IsFresh};

use crate::{SampleFault, Simulated, boot_plan, sample_lines, show_lines};
use circus_collate::Hosts;
use circus_commands::{Ending, Status, end_of_spent};
use circus_config::Plan;
use circus_record::ProgramNames;
use circus_schedule::Lines;
use circus_value::NoMemory;
use std::alloc::{AllocError, Global};

/// What comes of writing the lines that a seed draws, so many (docs/FORMATS.md, "Samples"): their text, or that a node has no
/// number left for another one in their steps. `NoMemory` is the one fault.
pub fn draw_plan(alloc: Global, plan: Plan, seed: u64, steps: u32) -> Result<Ending, NoMemory>
    requires { IsPlan plan }
    ensures ending { IfOk result (λ ending. ending_of ending ≡ schedule_of plan seed steps) }
    ensures status { IfOk result (λ ending. IsTrue (is_end ending.status)) }

    // What is written can be read: datagrams have numbers that a line may have.
    ensures short { IfOk result (λ ending. ending.status ≡ Status.Done
        → All IsShort (lines_of_sample plan seed steps)) }
{
    match boot_plan(alloc, plan)? {
        Ok(simulated) => draw_world(alloc, simulated, seed, steps),
        Err(ending) => Ok(ending),
    }
}

// What comes of the lines of a sample of a world that has just booted.
fn draw_world(
    alloc: Global,
    simulated: Simulated,
    seed: u64,
    steps: u32,
) -> Result<Ending, NoMemory>
    requires { IsFresh simulated }
    ensures ending { IfOk result (λ ending. ending_of ending
        ≡ schedule_in (names_of simulated.hosts simulated.names) seed steps
        (world_of simulated.world)) }
    ensures status { IfOk result (λ ending. IsTrue (is_end ending.status)) }
    ensures short { IfOk result (λ ending. ending.status ≡ Status.Done
        → All IsShort (lines_in seed steps (world_of simulated.world))) }
{
    let Simulated {
        world,
        hosts,
        names: _,
    } = simulated;
    match sample_lines(alloc, world, seed, steps) {
        Ok(lines) => end_of_drawing(alloc, &hosts, &lines),
        Err(SampleFault::NoMemory) => Err(AllocError),
        Err(SampleFault::Spent(node, peer)) => end_of_spent(alloc, &hosts, node, peer),
    }
}

// The end whose text is that of lines.
fn end_of_drawing(alloc: Global, hosts: &Hosts, lines: &Lines) -> Result<Ending, NoMemory>
    requires { All (λ h. IsAscii (host_name h)) hosts.now }
    ensures ending { IfOk result (λ ending. ending_of ending
        ≡ drawing.end_of_drawing (names_of hosts.now []) lines.now) }
    ensures status { IfOk result (λ ending. ending.status ≡ Status.Done) }
    ensures short { IfOk result (λ _. All IsShort lines.now) }
{
    let names = ProgramNames::new(hosts.as_slice(), &[]);
    Ok(Ending {
        status: Status::Done,
        text: show_lines(alloc, &names, lines.as_slice())?,
    })
}
