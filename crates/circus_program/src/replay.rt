// A replay, whose report is written as it goes.
ghost use Rattle.std.specs.Prelude.{◌≡◌, ◌<◌, ◌≤◌, ◌+◌, All, IsAscii, None, length};
ghost use Rattle.circus_record.specs.Naming.{host_name, names_of};
ghost use Rattle.circus_schedule.specs.Answer.{most_lines};
ghost use Rattle.circus_schedule.specs.Meaning.{NamesBelow};
ghost use Rattle.circus_simulation.specs.Seen.Simulated.{world_of, IsFresh};
ghost use Rattle.circus_program.specs.Replay.{replay_lines};
ghost use Rattle.circus_program.specs.Seen.Put.{IsPutEnd};
ghost use Rattle.circus_program.specs.Seen.Ready.{end_by, end_of_ready, IsReady};

use crate::drawing::draw;
use crate::ended::{end_of_lines, end_of_stop};
use crate::ready::Ready;
use circus_collate::Hosts;
use circus_commands::Status;
use circus_config::ModuleNames;
use circus_model::Module;
use circus_outside::Sink;
use circus_report::Running;
use circus_schedule::Line;
use circus_simulation::Simulated;
use std::alloc::Global;

/// Runs a replay to its end, and answers the status of that where all was written.
pub fn replay<K: Sink>(alloc: Global, ready: Ready, sink: &mut K) -> Status
    requires { IsReady ready }
    ensures { IsPutEnd (end_of_ready ready) (K.written sink.old) (K.written sink.new)
        (K.faults sink.old) (K.faults sink.new) result }
{
    let Ready {
        simulated,
        lines,
        procedures,
    } = ready;
    match procedures {
        None => report(alloc, simulated, lines.as_slice(), sink),
        Some(procedures) => draw(alloc, simulated, lines.as_slice(), &procedures, sink),
    }
}

// Writes the report of lines as they are stepped.
fn report<K: Sink>(alloc: Global, simulated: Simulated, lines: &[Line], sink: &mut K) -> Status
    requires fresh { IsFresh simulated }
    requires below { All (NamesBelow (length simulated.hosts)) lines.now }
    requires few { length lines.now ≤ most_lines }
    ensures { IsPutEnd
        (end_by None (names_of simulated.hosts simulated.names) lines.now
        (world_of simulated.world))
        (K.written sink.old) (K.written sink.new) (K.faults sink.old) (K.faults sink.new) result }
{
    let Simulated {
        world,
        hosts,
        names,
    } = simulated;
    match Running::begin(alloc, world, sink) {
        Ok(running) => follow(alloc, running, &hosts, &names, lines, sink),
        Err(fault) => end_of_stop(fault),
    }
}

// The lines of a replay, one by one, and what stands behind them.
fn follow<M: Module, K: Sink>(
    alloc: Global,
    mut running: Running<M>,
    hosts: &Hosts,
    names: &ModuleNames,
    lines: &[Line],
    sink: &mut K,
) -> Status
    requires hosts { hosts.now ≡ running.deployment.nodes }
    requires ascii { All (λ h. IsAscii (host_name h)) hosts.now }
    requires named { All IsAscii names.now }
    requires nodes { length running.nodes ≡ length hosts.now }
    requires below { All (NamesBelow (length hosts.now)) lines.now }
    requires few { running.steps + length lines.now < 18446744073709551615 }
    ensures { IsPutEnd
        (replay_lines M.declared M.turn (names_of hosts.now names.now) 1 lines.now running)
        (K.written sink.old) (K.written sink.new) (K.faults sink.old) (K.faults sink.new) result }
{
    for (place, line) in lines.iter().enumerate() {
        running = match running.line(line, sink) {
            Ok(running) => running,
            Err(fault) => return end_of_lines(alloc, hosts, place as u64 + 1, fault, sink),
        };
    }
    match running.finish(alloc, names, sink) {
        Ok(()) => Status::Done,
        Err(fault) => end_of_stop(fault),
    }
}
