// A node while it is served.
ghost use Rattle.std.specs.Prelude.{◌≡◌, [], All, IfOk};
ghost use Rattle.circus_collate.specs.Deployment.{IsDeployment};
ghost use Rattle.circus_wire.specs.Wire.{IsOther};
ghost use Rattle.circus_node.specs.Node.{IsNodeOf};
ghost use Rattle.circus_node.specs.Step.{CanCome};
ghost use Rattle.circus_serve.specs.Outside.{tells_of};
ghost use Rattle.circus_serve.specs.Serving as model;
ghost use Rattle.circus_serve.specs.Seen.Counting.{ServeCounts};
ghost use Rattle.circus_serve.specs.Seen.Going.{served_of, HasGone};

use crate::{Log, ServeFault, peer_at};
use circus_collate::Deployment;
use circus_model::Module;
use circus_node::{Event, Gives, NodeCore, Outputs};
use circus_outside::{Link, TakenFrom};
use circus_transfer::Joiner;
use circus_value::{Duplicate, Message, NoMemory, Nodes};
use std::alloc::Global;

/// A node that has booted, and what happened to it.
#[derive(Drop)]
pub(crate) struct Serving<M: Module> {
    pub core: NodeCore<M>,
    pub log: Log,
}

impl<M: Module> Serving<M> {
    /// The node has booted and gives this, and a spare is told to join.
    #[tactic(none)]
    pub fn begin<L: Link>(
        alloc: Global,
        core: NodeCore<M>,
        gives: Gives,
        deployment: &Deployment,
        link: &mut L,
    ) -> Result<Self, ServeFault>
        requires { IsNodeOf deployment.now core.wire.own core }
        ensures node { IfOk result (λ serving. IsNodeOf deployment.now core.wire.own serving.core) }
        ensures gone { HasGone served_of deployment.now
            (tells_of (L.bound link.old) (L.taken link.old) (L.given link.old))
            (tells_of (L.bound link.new) (L.taken link.new) (L.given link.new))
            [] (model.begin_serving M.declared M.turn core gives) result }
        ensures counts { ServeCounts result (L.faults link.old) (L.faults link.new) }
    {
        let log = Log::begin(alloc, gives, deployment, link)?;
        let serving = Serving { core, log };
        if serving.is_spare() {
            serving.come(Event::Join, deployment, link)
        } else {
            Ok(serving)
        }
    }

    // Whether it hosts a spare that was not told to join.
    fn is_spare(&self) -> bool
        ensures { result ≡ model.is_spare self.now.core }
    {
        match self.core.member_record() {
            Some(kept) => matches!(kept.phase, Joiner::Outside),
            None => false,
        }
    }

    /// What a take answered comes to it.
    #[tactic(none)]
    pub fn take<L: Link>(
        self,
        taken: TakenFrom,
        deployment: &Deployment,
        node: u16,
        link: &mut L,
    ) -> Result<Self, ServeFault>
        requires deployment { IsDeployment deployment.now }
        requires node { IsNodeOf deployment.now node self.core }
        ensures node { IfOk result (λ serving. IsNodeOf deployment.now node serving.core) }
        ensures gone { HasGone served_of deployment.now
            (tells_of (L.bound link.old) (L.taken link.old) (L.given link.old))
            (tells_of (L.bound link.new) (L.taken link.new) (L.given link.new))
            self.log.happened
            (model.take_comes M.declared M.turn deployment.now node taken (served_of self)) result }
        ensures counts { ServeCounts result (L.faults link.old) (L.faults link.new) }
    {
        match taken {
            TakenFrom::From(port, bytes) => self.hear(port, bytes, deployment, node, link),
            TakenFrom::Nothing => self.come(Event::Tick, deployment, link),
        }
    }

    // A datagram comes from a port.
    #[tactic(none)]
    fn hear<L: Link>(
        mut self,
        port: u16,
        bytes: Message,
        deployment: &Deployment,
        node: u16,
        link: &mut L,
    ) -> Result<Self, ServeFault>
        requires deployment { IsDeployment deployment.now }
        requires node { IsNodeOf deployment.now node self.core }
        ensures node { IfOk result (λ serving. IsNodeOf deployment.now node serving.core) }
        ensures gone { HasGone served_of deployment.now
            (tells_of (L.bound link.old) (L.taken link.old) (L.given link.old))
            (tells_of (L.bound link.new) (L.taken link.new) (L.given link.new))
            self.log.happened
            (model.take_comes M.declared M.turn deployment.now node (TakenFrom.From port bytes)
            (served_of self)) result }
        ensures counts { ServeCounts result (L.faults link.old) (L.faults link.new) }
    {
        let Some(from) = peer_at(deployment, node, port) else {
            self.log.add_foreign(port, bytes)?;
            return Ok(self);
        };
        let bytes = bytes.share()?;
        self.come(Event::Datagram(from, bytes), deployment, link)
    }

    // An event comes, and behind it a declaration of each node that is suspected then.
    #[tactic(none)]
    fn come<L: Link>(
        self,
        event: Event,
        deployment: &Deployment,
        link: &mut L,
    ) -> Result<Self, ServeFault>
        requires node { IsNodeOf deployment.now self.core.wire.own self.core }
        requires event { CanCome self.core event }
        ensures node { IfOk result (λ serving.
            IsNodeOf deployment.now self.core.wire.own serving.core) }
        ensures gone { HasGone served_of deployment.now
            (tells_of (L.bound link.old) (L.taken link.old) (L.given link.old))
            (tells_of (L.bound link.new) (L.taken link.new) (L.given link.new))
            self.log.happened (model.comes M.declared M.turn event (served_of self)) result }
        ensures counts { ServeCounts result (L.faults link.old) (L.faults link.new) }
    {
        let (serving, suspects) = self.step(event, deployment, link)?;
        serving.declare_all(suspects.as_slice(), deployment, link)
    }

    // These nodes are declared to be down, one after the other.
    #[tactic(none)]
    fn declare_all<L: Link>(
        self,
        nodes: &[u16],
        deployment: &Deployment,
        link: &mut L,
    ) -> Result<Self, ServeFault>
        requires node { IsNodeOf deployment.now self.core.wire.own self.core }
        requires others { All (IsOther self.core.wire) nodes.now }
        ensures node { IfOk result (λ serving.
            IsNodeOf deployment.now self.core.wire.own serving.core) }
        ensures gone { HasGone served_of deployment.now
            (tells_of (L.bound link.old) (L.taken link.old) (L.given link.old))
            (tells_of (L.bound link.new) (L.taken link.new) (L.given link.new))
            self.log.happened
            (model.all_declared M.declared M.turn nodes.now (served_of self)) result }
        ensures counts { ServeCounts result (L.faults link.old) (L.faults link.new) }
    {
        let mut serving = self;
        for node in nodes {
            let (next, _) = serving.step(Event::Down(*node), deployment, link)?;
            serving = next;
        }
        Ok(serving)
    }

    // An event comes, what the node gives is given, and the event is noted. The nodes that are suspected then.
    #[tactic(none)]
    fn step<L: Link>(
        self,
        event: Event,
        deployment: &Deployment,
        link: &mut L,
    ) -> Result<(Self, Nodes), ServeFault>
        requires node { IsNodeOf deployment.now self.core.wire.own self.core }
        requires event { CanCome self.core event }
        ensures node { IfOk result (λ stepped.
            IsNodeOf deployment.now self.core.wire.own stepped.0.core) }
        ensures suspects { IfOk result (λ stepped.
            stepped.1 ≡ model.suspects_by M.declared M.turn event (served_of self)) }
        ensures gone { HasGone (λ stepped. served_of stepped.0) deployment.now
            (tells_of (L.bound link.old) (L.taken link.old) (L.given link.old))
            (tells_of (L.bound link.new) (L.taken link.new) (L.given link.new))
            self.log.happened (model.event_comes M.declared M.turn event (served_of self)) result }
        ensures counts { ServeCounts result (L.faults link.old) (L.faults link.new) }
    {
        let Serving { core, mut log } = self;
        let noted = copy_of(&event)?;
        let (core, outputs) = core.step(log.next, event)?;
        let Outputs {
            gives,
            suspects,
            differences,
        } = outputs;
        log.add_event(noted, gives, differences, deployment, link)?;
        Ok((Serving { core, log }, suspects))
    }
}

// The bytes are shared.
fn copy_of(event: &Event) -> Result<Event, NoMemory>
    ensures { IfOk result (λ copy. copy ≡ event.now) }
{
    Ok(match event {
        Event::Datagram(from, bytes) => Event::Datagram(*from, bytes.copy()?),
        Event::Tick => Event::Tick,
        Event::Down(node) => Event::Down(*node),
        Event::Join => Event::Join,
    })
}
