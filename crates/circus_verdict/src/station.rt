// The pairs of a node, to which the events of a record come.
ghost use Rattle.std.specs.Prelude.{◌≡◌, ℕ, ◌<◌, List, All, length, IfOk, OnOk};
ghost use Rattle.circus_collate.specs.Deployment.{IsDeployment};
ghost use Rattle.circus_collate.specs.declared.deployment.Deployment.{Deployment as Deployed};
ghost use Rattle.circus_wire.specs.Wire.{Remains, IsOther};
ghost use Rattle.circus_wire.specs.WireActs.{WireAct, WireActs, begun};
ghost use Rattle.circus_member_rules.specs.declared.occurrence.Purpose.{Purpose as MadeFor};
ghost use Rattle.circus_world_theory.specs.Histories.{beginning_of};
ghost use Rattle.circus_world_theory.specs.NodeActs.{with_all, came_by};
ghost use Rattle.circus_headline_theory.specs.Peers.{GoesToPeer};
ghost use Rattle.circus_headline_theory.specs.Trace.{gives_for_all};
ghost use Rattle.circus_verdict.specs.Seen.Living.{ComesSo};
ghost use Rattle.circus_verdict.specs.Seen.Station as stations;
ghost use Rattle.circus_verdict.specs.Seen.Station.{IsFormatted, AreOf, StandFor, MayComeTo, IsOwed, IsHanded};

use bytes::Bytes;
use circus_collate::Deployment;
use circus_member_rules::{Effects, Purpose};
use circus_node::{Event, Gives, StepFault, add_all_gives, add_gives, hand_all};
use circus_value::{ListOf, NoMemory, Nodes};
use circus_wire::{Heard, Wire};
use std::alloc::Global;

/// The pairs of a node with the other ones, in a format.
#[derive(Drop)]
pub(crate) struct Pairs {
    alloc: Global,
    pub format: u8,
    pub wire: Wire<Purpose>,
}

/// What comes of an event before anything is made of it: what is sent at once, whom a tick suspects, and what is heard of
/// a datagram. Of another event nothing is heard, as of a datagram that completes no message.
#[derive(Drop)]
pub(crate) struct Came {
    pub gives: Gives,
    pub suspects: Nodes,
    pub heard: Heard<Purpose>,
}

impl Pairs {
    /// Those of a node of a program before anything has happened.
    pub fn new(alloc: Global, deployment: &Deployment, node: u16) -> Result<Self, NoMemory>
        requires deployment { IsDeployment deployment.now }
        requires node { node < length deployment.now.nodes }
        ensures format { IfOk result IsFormatted }
        ensures own { IfOk result (AreOf deployment.now node) }
        ensures stand { IfOk result (StandFor deployment.now node begun) }
    {
        let format = deployment.format;
        let wire = Wire::new(alloc, node, deployment.nodes.len(), format)?;
        Ok(Pairs {
            alloc,
            format,
            wire,
        })
    }

    /// An event comes. After `NoMemory` it may have come to some pairs.
    pub fn take(&mut self, event: &Event) -> Result<Came, NoMemory>
        requires { MayComeTo self.old.wire event.now }
        ensures came { (d : Deployed) (node : ℕ) (acts : WireActs MadeFor)
            → StandFor d node acts self.old → ComesSo d node event.now
            → IfOk result (IsOwed d node acts event.now) }
        ensures stand { (d : Deployed) (node : ℕ) (acts : WireActs MadeFor)
            → StandFor d node acts self.old → ComesSo d node event.now
            → OnOk result (StandFor d node (with_all acts (came_by event.now)) self.new) }
        ensures format { IsFormatted self.old → IsFormatted self.new }
        ensures remains { Remains self.old.wire self.new.wire }
    {
        self.bring(event)
    }

    // By what the pairs know.
    fn bring(&mut self, event: &Event) -> Result<Came, NoMemory>
        requires { MayComeTo self.old.wire event.now }
        ensures came { IfOk result (λ came. came ≡ stations.came_to self.old.wire event.now) }
        ensures wire { OnOk result (self.new.wire ≡ stations.wire_behind self.old.wire event.now) }
        ensures format { self.new.format ≡ self.old.format }
        ensures remains { Remains self.old.wire self.new.wire }
    {
        match event {
            Event::Datagram(from, bytes) => self.hear(*from, bytes),
            Event::Tick => self.tick(),
            Event::Down(node) => {
                self.wire.stop(*node);
                Ok(self.nothing())
            }
            Event::Join => Ok(self.nothing()),
        }
    }

    fn nothing(&self) -> Came
        ensures { result ≡ stations.nothing_came }
    {
        Came {
            gives: Gives::new(self.alloc),
            suspects: ListOf::new(self.alloc),
            heard: Heard::Taken,
        }
    }

    fn hear(&mut self, from: u16, bytes: &Bytes) -> Result<Came, NoMemory>
        requires { IsOther self.old.wire from }
        ensures came { IfOk result (λ came.
            came ≡ stations.datagram_came self.old.wire from bytes.now) }
        ensures wire { OnOk result
            (self.new.wire ≡ stations.behind_datagram self.old.wire from bytes.now) }
        ensures format { self.new.format ≡ self.old.format }
        ensures remains { Remains self.old.wire self.new.wire }
    {
        let delivery = self.wire.deliver(from, bytes.as_slice())?;
        let mut gives = Gives::new(self.alloc);
        add_gives(delivery.sent, &mut gives)?;
        Ok(Came {
            gives,
            suspects: ListOf::new(self.alloc),
            heard: delivery.heard,
        })
    }

    fn tick(&mut self) -> Result<Came, NoMemory>
        ensures came { IfOk result (λ came. came ≡ stations.tick_came self.old.wire) }
        ensures wire { OnOk result (self.new.wire ≡ stations.behind_tick self.old.wire) }
        ensures format { self.new.format ≡ self.old.format }
        ensures remains { Remains self.old.wire self.new.wire }
    {
        let (batches, suspects) = self.wire.tick()?;
        let mut gives = Gives::new(self.alloc);
        add_all_gives(batches, &mut gives)?;
        Ok(Came {
            gives,
            suspects,
            heard: Heard::Taken,
        })
    }

    /// What is made behind what came is handed over in its order, and what is sent is added. `Spent` exactly where a call
    /// of it has no number. After a fault some of it may have been handed over.
    pub fn hand(&mut self, made: Effects, gives: &mut Gives) -> Result<(), StepFault>
        requires { IsFormatted self.old }
        ensures handed { (d : Deployed) (node : ℕ) (acts : WireActs MadeFor)
            (came : List (WireAct MadeFor)) → StandFor d node (with_all acts came) self.old
            → gives.old ≡ gives_for_all (beginning_of d node) acts came
            → All (GoesToPeer (beginning_of d node)) made
            → IsHanded d node acts came made result self.new gives.new }
        ensures format { IsFormatted self.new }
        ensures remains { Remains self.old.wire self.new.wire }
    {
        hand_all(self.format, &mut self.wire, made, gives)
    }
}
