// A replay that writes its report as it goes.
ghost use Rattle.std.specs.Prelude.{◌≡◌, ◌<◌, ◌≤◌, All, IsAscii, IfOk, OnOk, IsErrOf, Some, length, slice_get};
ghost use Rattle.circus_outside.specs.Faults.{Rose};
ghost use Rattle.circus_record.specs.Naming.{host_name, names_of};
ghost use Rattle.circus_schedule.specs.Meaning.{NamesBelow};
ghost use Rattle.circus_world.specs.WorldState.{Standing};
ghost use Rattle.circus_report.specs.Report.{rest_text, ring_text, member_at, members_lines};
ghost use Rattle.circus_report.specs.Run as run;

use crate::put::{PutFault, put_line, put_lines};
use crate::sent::write_sent;
use crate::text::{REPORT, append_member, append_ring};
use circus_collate::Host;
use circus_model::Module;
use circus_outside::Sink;
use circus_record::{Naming, ProgramNames};
use circus_value::{ListOf, Name, NoMemory};
use circus_world::{Line, LineCause, World, WorldFault};
use std::alloc::Global;
use std::marker::Model;
use thiserror::Error;

/// Why a replay ends before its last line.
#[derive(Clone, Copy, Debug, PartialEq, Eq, Drop, Error)]
pub enum RunFault {
    /// The sink refused a piece. What was put in the call is a beginning of what it would have put.
    #[error("the sink failed")]
    SinkFailed,

    /// The line may not be stepped. Nothing was put in the call.
    #[error("the line may not be stepped")]
    Illegal(LineCause),

    /// The first node has no number left for a call to the second. Nothing was put in the call.
    #[error("node {0} has no number left for node {1}")]
    Spent(u16, u16),

    /// Memory ran out. What was put in the call is a beginning of what it would have put.
    #[error("out of memory")]
    NoMemory,
}

impl From<NoMemory> for RunFault {
    ghost use Rattle.std.specs.Prelude.{◌≡◌};
    ghost use Rattle.circus_report.specs.declared.running.RunFault.TheVariants.{NoMemory};

    ghost from_gives = { λ _ fault. fault ≡ NoMemory };

    fn from(_refused: NoMemory) -> Self {
        RunFault::NoMemory
    }
}

impl From<PutFault> for RunFault {
    ghost use Rattle.std.specs.Prelude.{◌≡◌};
    ghost use Rattle.circus_report.specs.Run.{fault_of};

    ghost from_gives = { λ from fault. fault ≡ fault_of from };

    fn from(fault: PutFault) -> Self {
        match fault {
            PutFault::Sink => RunFault::SinkFailed,
            PutFault::Memory => RunFault::NoMemory,
        }
    }
}

/// A replay whose report is written up to what was sent so far (docs/FORMATS.md, "Report"). Clauses see the world that it
/// keeps.
#[derive(Drop)]
pub struct Running<M: Module> {
    world: World<M>,
    // Where the line of a datagram is written before it is put. It stays from step to step.
    room: Vec<u8>,
}

impl<M: Module> Model for Running<M> {
    ghost use Rattle.circus_world.specs.WorldState.{WorldState};
    ghost use Rattle.circus_world.specs.Seen.WorldCode.{world_code};

    ghost Value = { WorldState M };

    ghost coded = { world_code M.code };

    ghost view = { λ a. a.world };
}

impl<M: Module> Running<M> {
    /// Puts the report's first line and the lines of what was sent at boot. The world is one that has just booted.
    ///
    /// `SinkFailed` only where the sink's count of faults rose, and `NoMemory`; after both, what was put is a beginning of
    /// these lines.
    pub fn begin<K: Sink>(alloc: Global, world: World<M>, sink: &mut K) -> Result<Self, RunFault>
        ensures put { run.IsPut (run.beginning world) (K.written sink.old)
            (K.written sink.new) result }
        ensures same { IfOk result (λ running. running ≡ world) }
        ensures rose { IsErrOf result RunFault.SinkFailed
            → Rose (K.faults sink.old) (K.faults sink.new) }
        ensures count { OnOk result (K.faults sink.new ≡ K.faults sink.old) }
    {
        let mut room = Vec::new(alloc);
        put_line(sink, REPORT.as_bytes())?;
        put_sent(&mut room, &world, 0, sink)?;
        Ok(Running { world, room })
    }

    /// Steps a line, and puts exactly the lines of what was sent in it, before it returns. Its conditions are those of
    /// `World::step`.
    ///
    /// `Illegal` and `Spent` as `World::step` answers them, where nothing was put; `SinkFailed` only where the sink's count of
    /// faults rose, and `NoMemory`.
    pub fn line<K: Sink>(self, line: &Line, sink: &mut K) -> Result<Self, RunFault>
        requires named { NamesBelow (length self.nodes) line.now }
        requires few { self.steps < 18446744073709551615 }
        ensures run { run.IsRun M.declared M.turn line.now self (K.written sink.old)
            (K.written sink.new) result }
        ensures rose { IsErrOf result RunFault.SinkFailed
            → Rose (K.faults sink.old) (K.faults sink.new) }
        ensures count { run.IsCounted result (K.faults sink.old) (K.faults sink.new) }
    {
        let before = self.world.sent().len();
        let world = match self.world.step(line) {
            Ok(world) => world,
            Err(WorldFault::Illegal(_, cause)) => return Err(RunFault::Illegal(cause)),
            Err(WorldFault::NoMemory) => return Err(RunFault::NoMemory),
            Err(WorldFault::Spent(node, peer)) => return Err(RunFault::Spent(node, peer)),
        };
        let mut room = self.room;
        put_sent(&mut room, &world, before, sink)?;
        Ok(Running { world, room })
    }

    /// Puts the lines behind those of what was sent, by the names of the modules in module order.
    ///
    /// `SinkFailed` only where the sink's count of faults rose, and `NoMemory`; after both, what was put is a beginning of
    /// these lines.
    pub fn finish<K: Sink>(
        self,
        alloc: Global,
        names: &ListOf<Name>,
        sink: &mut K,
    ) -> Result<(), RunFault>
        requires nodes { All (λ h. IsAscii (host_name h)) self.deployment.nodes }
        requires modules { All IsAscii names.now }
        ensures put { run.IsPut (rest_text (names_of self.deployment.nodes names.now) self)
            (K.written sink.old) (K.written sink.new) result }
        ensures rose { IsErrOf result RunFault.SinkFailed
            → Rose (K.faults sink.old) (K.faults sink.new) }
        ensures count { OnOk result (K.faults sink.new ≡ K.faults sink.old) }
    {
        let world = &self.world;
        let names = ProgramNames::new(world.deployment().nodes.as_slice(), names.as_slice());
        put_ring(alloc, &names, world, sink)?;
        put_members(alloc, &names, world, sink)
    }

    /// The world that it keeps. It takes no memory.
    pub fn world(&self) -> &World<M>
        ensures { result.now ≡ self.now }
    {
        &self.world
    }
}

// Puts the lines of what was sent, from this number on, each of which is written in the room.
fn put_sent<M: Module, K: Sink>(
    room: &mut Vec<u8>,
    world: &World<M>,
    from: usize,
    sink: &mut K,
) -> Result<(), RunFault>
    requires { from ≤ length world.now.sent }
    ensures put { run.IsPut (run.sent_from from world.now) (K.written sink.old)
        (K.written sink.new) result }
    ensures rose { IsErrOf result RunFault.SinkFailed
        → Rose (K.faults sink.old) (K.faults sink.new) }
    ensures count { OnOk result (K.faults sink.new ≡ K.faults sink.old) }
{
    let nodes = world.deployment().nodes.as_slice();
    let sent = world.sent();
    for number in from..sent.len() {
        let start = write_sent(room, nodes, number as u64, &sent.at(number))?;
        put_line(sink, &room.as_slice()[start..])?;
    }
    Ok(())
}

// Puts the lines of the Ringmaster and of the views that it keeps.
fn put_ring<M: Module, N: Naming, K: Sink>(
    alloc: Global,
    names: &N,
    world: &World<M>,
    sink: &mut K,
) -> Result<(), RunFault>
    ensures put { run.IsPut (ring_text (N.names names.now) world.now) (K.written sink.old)
        (K.written sink.new) result }
    ensures rose { IsErrOf result RunFault.SinkFailed
        → Rose (K.faults sink.old) (K.faults sink.new) }
    ensures count { OnOk result (K.faults sink.new ≡ K.faults sink.old) }
{
    let mut text = String::new(alloc);
    append_ring(&mut text, names, world)?;
    put_lines(sink, text.as_bytes())?;
    Ok(())
}

// Puts the lines of the members, in the order of their nodes, one member after the other.
fn put_members<M: Module, N: Naming, K: Sink>(
    alloc: Global,
    names: &N,
    world: &World<M>,
    sink: &mut K,
) -> Result<(), RunFault>
    ensures put { run.IsPut
        (members_lines (N.names names.now) 0 world.now.deployment.nodes world.now.nodes)
        (K.written sink.old) (K.written sink.new) result }
    ensures rose { IsErrOf result RunFault.SinkFailed
        → Rose (K.faults sink.old) (K.faults sink.new) }
    ensures count { OnOk result (K.faults sink.new ≡ K.faults sink.old) }
{
    for (node, host) in world.deployment().nodes.as_slice().iter().enumerate() {
        put_member(alloc, names, world, node as u16, host, sink)?;
    }
    Ok(())
}

// Puts the lines of the member that a node hosts, if it hosts one.
fn put_member<M: Module, N: Naming, K: Sink>(
    alloc: Global,
    names: &N,
    world: &World<M>,
    node: u16,
    host: &Host,
    sink: &mut K,
) -> Result<(), RunFault>
    requires { node < length world.now.nodes }
    ensures put { (s : Standing M) → slice_get world.now.nodes node ≡ Some s
        → run.IsPut (member_at (N.names names.now) node host.now s) (K.written sink.old)
        (K.written sink.new) result }
    ensures rose { IsErrOf result RunFault.SinkFailed
        → Rose (K.faults sink.old) (K.faults sink.new) }
    ensures count { OnOk result (K.faults sink.new ≡ K.faults sink.old) }
{
    let mut text = String::new(alloc);
    append_member(&mut text, names, world, node, host)?;
    put_lines(sink, text.as_bytes())?;
    Ok(())
}
