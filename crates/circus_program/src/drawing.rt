// A picture, which is drawn once all lines are stepped.
ghost use Rattle.std.specs.Prelude.{◌≡◌, ◌<◌, ◌≤◌, ◌+◌, All, IsAscii, IfOk, Some, length};
ghost use Rattle.circus_record.specs.Naming.{host_name, names_of};
ghost use Rattle.circus_schedule.specs.Answer.{most_lines};
ghost use Rattle.circus_schedule.specs.Meaning.{NamesBelow};
ghost use Rattle.circus_picture.specs.Picture.{picture_text};
ghost use Rattle.circus_simulation.specs.Seen.Simulated.{world_of, IsFresh};
ghost use Rattle.circus_program.specs.Replay.{picture_lines};
ghost use Rattle.circus_program.specs.Seen.Put.{IsPut, IsPutEnd};
ghost use Rattle.circus_program.specs.Seen.Ready.{end_by};
ghost use Rattle.circus_program.specs.Seen.Followed.{IsOneStep, IsFollowed};

use crate::ended::{end_of_lines, end_of_stop};
use circus_collate::Hosts;
use circus_commands::Status;
use circus_config::ModuleNames;
use circus_model::Module;
use circus_outside::Sink;
use circus_picture::{ModuleProcedures, put_picture};
use circus_report::RunFault;
use circus_schedule::Line;
use circus_simulation::Simulated;
use circus_world::{World, WorldFault};
use std::alloc::Global;

// Why lines end at the line of a number.
#[derive(Clone, Copy)]
struct Cut {
    number: u64,
    fault: RunFault,
}

/// Steps the lines and puts their picture, and answers the status of that where all was written.
pub fn draw<K: Sink>(
    alloc: Global,
    simulated: Simulated,
    lines: &[Line],
    procedures: &ModuleProcedures,
    sink: &mut K,
) -> Status
    requires fresh { IsFresh simulated }
    requires below { All (NamesBelow (length simulated.hosts)) lines.now }
    requires few { length lines.now ≤ most_lines }
    ensures { IsPutEnd
        (end_by (Some procedures.now) (names_of simulated.hosts simulated.names) lines.now
        (world_of simulated.world))
        (K.written sink.old) (K.written sink.new) (K.faults sink.old) (K.faults sink.new) result }
{
    let Simulated {
        world,
        hosts,
        names,
    } = simulated;
    draw_world(alloc, world, &hosts, &names, lines, procedures, sink)
}

// Draws them from a world that has booted.
fn draw_world<M: Module, K: Sink>(
    alloc: Global,
    world: World<M>,
    hosts: &Hosts,
    names: &ModuleNames,
    lines: &[Line],
    procedures: &ModuleProcedures,
    sink: &mut K,
) -> Status
    requires hosts { hosts.now ≡ world.deployment.nodes }
    requires ascii { All (λ h. IsAscii (host_name h)) hosts.now }
    requires named { All IsAscii names.now }
    requires below { All (NamesBelow (length world.nodes)) lines.now }
    requires few { world.steps + length lines.now < 18446744073709551615 }
    ensures { IsPutEnd
        (picture_lines M.declared M.turn
        (names_of hosts.now names.now) procedures.now lines.now world)
        (K.written sink.old) (K.written sink.new) (K.faults sink.old) (K.faults sink.new) result }
{
    match step_all(world, lines) {
        Ok(world) => show(alloc, &world, lines, names, procedures, sink),
        Err(cut) => end_of_lines(alloc, hosts, cut.number, cut.fault, sink),
    }
}

// Steps all lines.
fn step_all<M: Module>(mut world: World<M>, lines: &[Line]) -> Result<World<M>, Cut>
    requires below { All (NamesBelow (length world.nodes)) lines.now }
    requires few { world.steps + length lines.now < 18446744073709551615 }
    ensures followed { IsFollowed M.declared M.turn lines.now world result }
    ensures deployed { IfOk result (λ last. last.deployment ≡ world.deployment) }
{
    for (place, line) in lines.iter().enumerate() {
        world = match step(world, line) {
            Ok(world) => world,
            Err(fault) => {
                return Err(Cut {
                    number: place as u64 + 1,
                    fault,
                });
            }
        };
    }
    Ok(world)
}

// Steps a line.
fn step<M: Module>(world: World<M>, line: &Line) -> Result<World<M>, RunFault>
    requires named { NamesBelow (length world.nodes) line.now }
    requires few { world.steps < 18446744073709551615 }
    ensures { IsOneStep M.declared M.turn line.now world result }
{
    match world.step(line) {
        Ok(world) => Ok(world),
        Err(WorldFault::Illegal(_, cause)) => Err(RunFault::Illegal(cause)),
        Err(WorldFault::NoMemory) => Err(RunFault::NoMemory),
        Err(WorldFault::Spent(node, peer)) => Err(RunFault::Spent(node, peer)),
    }
}

// Puts the picture of the lines that led to this world.
fn show<M: Module, K: Sink>(
    alloc: Global,
    world: &World<M>,
    lines: &[Line],
    names: &ModuleNames,
    procedures: &ModuleProcedures,
    sink: &mut K,
) -> Status
    requires nodes { All (λ h. IsAscii (host_name h)) world.now.deployment.nodes }
    requires modules { All IsAscii names.now }
    ensures { IsPut Status.Done
        (picture_text (names_of world.now.deployment.nodes names.now) procedures.now lines.now
        world.now)
        (K.written sink.old) (K.written sink.new) (K.faults sink.old) (K.faults sink.new) result }
{
    match put_picture(alloc, world, lines, names, procedures, sink) {
        Ok(()) => Status::Done,
        Err(fault) => end_of_stop(fault),
    }
}
