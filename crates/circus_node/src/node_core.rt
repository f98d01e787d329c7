// A node.
ghost use Rattle.std.specs.Prelude.{◌≡◌, ℕ, ◌<◌, length, map, slice_get, Option, option_copied, option_map, option_and_then, IfOk};
ghost use Rattle.circus_collate.specs.Deployment.{IsDeployment};
ghost use Rattle.circus_performing.specs.Record.{behaviour};
ghost use Rattle.circus_collate.specs.declared.deployment.Deployment.{Deployment as Deployed};
ghost use Rattle.circus_segment.specs.Segment.{reading};
ghost use Rattle.circus_wire.specs.Wire.{IsOther};
ghost use Rattle.circus_node.specs.Booting as booting;
ghost use Rattle.circus_node.specs.Step as step;
ghost use Rattle.circus_node.specs.Trace as trace;
ghost use Rattle.circus_node.specs.Trace.{Trace, StandsFor, effects_in, effects_at_boot};
ghost use Rattle.circus_node.specs.Node.{IsNodeOf, GoToOthers};
ghost use Rattle.circus_node.specs.declared.event.Event.TheVariants.{Datagram};
ghost use Rattle.circus_node.specs.GoneOn.{MemberHasGoneOn};
ghost use Rattle.circus_node.specs.Recorded.{IsRecorded};
ghost use Rattle.circus_node.specs.Seen.Kept.{IsActing};
ghost use Rattle.circus_node.specs.Seen.StationOf.{node_of, IsStation};
ghost use Rattle.circus_node.specs.NodeState.{member_record as record_of, ring_views as views_of, state_at_activation};

use crate::acting::{Acting, Consequences};
use crate::home::home_of;
use crate::station::Station;
use crate::{Event, Gives, Outputs, StepFault, troupe_at};
use circus_collate::{Deployment, Views};
use circus_model::Module;
use circus_record::MemberRecord;
use circus_value::{NoMemory, State};
use std::alloc::Global;
use std::marker::Model;

/// A node of a program: a member of a troupe, or the Ringmaster, behind pairs with all other nodes (docs/PROTOCOL.md,
/// "Order within a step").
///
/// Clauses see the program's troupes and nodes, the pairs, what the node does, and how much it has dropped;
/// `specs/Step.antt` says what a step does to them.
pub struct NodeCore<M: Module> {
    station: Box<Station>,
    acting: Acting<M>,
}

// Written out, so that dropping one is one step of a proof (docs/PROOFS.md, "Cost").
impl<M: Module> Drop for NodeCore<M> {
    fn drop(self) {
        let NodeCore {
            station: _,
            acting: _,
        } = self;
    }
}

impl<M: Module> Model for NodeCore<M> {
    ghost use Rattle.circus_node.specs.NodeState.{NodeState};
    ghost use Rattle.circus_node.specs.Seen.NodeCode.{node_code};
    ghost use Rattle.circus_node.specs.Seen.StationOf.{node_of};
    ghost use Rattle.circus_node.specs.Seen.Kept.{IsActingAt};

    ghost Value = { NodeState M };

    ghost coded = { node_code M.code };

    ghost view = { λ a. node_of a.station.value a.acting };

    ghost invariant = { λ a. IsActingAt a.station.value a.acting };
}

impl<M: Module> NodeCore<M> {
    /// A node of a program at boot, which is step 0, and what it gives: a founder of a root has entered its MAIN. The
    /// module is that of the node's troupe, and none at the Ringmaster's node; its conditions are in `CanBoot`. What it
    /// gives goes to other nodes. It stands for a trace, in which nothing has come yet (`specs/Trace.antt`).
    ///
    /// `NoMemory` where memory runs out.
    pub fn boot(
        alloc: Global,
        deployment: &Deployment,
        module: Option<M>,
        node: u16,
    ) -> Result<(Self, Outputs), StepFault>
        requires { booting.CanBoot deployment.now node (option_map M.declared «module») }
        ensures booted { step.IsEnded result
            (booting.boot_node M.declared M.turn M.first deployment.now «module» node) }
        ensures node { IfOk result (λ booted. IsNodeOf deployment.now node booted.0) }
        ensures others { IfOk result (λ booted. GoToOthers booted.0 booted.1.gives) }
        ensures rest { IfOk result (λ booted. MemberHasGoneOn booted.0.acting) }
        ensures trace { IfOk result (λ begun.
            StandsFor M.declared M.turn M.first deployment.now «module» node
            (trace.booted (effects_at_boot M.declared M.turn M.first deployment.now «module» node)
            begun.1) begun.0) }
    {
        NodeCore::begin(alloc, deployment, module, node)
    }

    /// As `boot`, with a copy of the module of the node's troupe, of modules that are one for each troupe.
    pub fn boot_of(
        alloc: Global,
        deployment: &Deployment,
        modules: &[M],
        node: u16,
    ) -> Result<(Self, Outputs), StepFault>
        requires deployment { IsDeployment deployment.now }
        requires modules { booting.AreOfTroupes deployment.now (map M.declared modules.now) }
        requires within { node < length deployment.now.nodes }
        ensures booted { booting.IsBooted M.declared M.turn M.first deployment.now modules.now node
            result }
        ensures node { IfOk result (λ booted. IsNodeOf deployment.now node booted.0) }
        ensures others { IfOk result (λ booted. GoToOthers booted.0 booted.1.gives) }
        ensures rest { IfOk result (λ booted. MemberHasGoneOn booted.0.acting) }
    {
        let hosted = copy_of(modules, troupe_at(deployment, node))?;
        NodeCore::boot(alloc, deployment, hosted, node)
    }

    /// A step, which has this number, and what the node gives in it (docs/PROTOCOL.md, "Order within a step"). What comes
    /// names another node of the program; its conditions are in `CanCome`. Each trace for which the node stood is one step
    /// longer then.
    ///
    /// After `NoMemory` and `Spent`, which names the node to which no number is left, there is no node, and nothing of
    /// the step was sent.
    pub fn step(self, at: u64, event: Event) -> Result<(Self, Outputs), StepFault>
        requires { step.CanCome self event }
        ensures stepped { step.IsEnded result (step.step_node M.declared M.turn at event self) }
        ensures node { (program : Deployed) (number : ℕ) → IsNodeOf program number self
            → IfOk result (λ stepped. IsNodeOf program number stepped.0) }
        ensures others { IfOk result (λ stepped. GoToOthers stepped.0 stepped.1.gives) }
        ensures rest { IfOk result (λ stepped. MemberHasGoneOn stepped.0.acting) }
        ensures trace { (d : Deployed) (hosted : Option M) (node : ℕ) (t : Trace)
            → StandsFor M.declared M.turn M.first d hosted node t self
            → IfOk result (λ on. StandsFor M.declared M.turn M.first d hosted node
            (trace.stepped t at event (effects_in M.declared M.turn at event self) on.1) on.0) }
    {
        self.follow(at, event)
    }

    /// As `step` with a datagram of another node, of which only what is kept is copied.
    pub fn hear(self, at: u64, from: u16, datagram: &[u8]) -> Result<(Self, Outputs), StepFault>
        requires { IsOther self.wire from }
        ensures stepped { step.IsEnded result
            (step.step_node M.declared M.turn at (Datagram from datagram.now) self) }
        ensures node { (program : Deployed) (number : ℕ) → IsNodeOf program number self
            → IfOk result (λ stepped. IsNodeOf program number stepped.0) }
        ensures others { IfOk result (λ stepped. GoToOthers stepped.0 stepped.1.gives) }
        ensures rest { IfOk result (λ stepped. MemberHasGoneOn stepped.0.acting) }
        ensures trace { (d : Deployed) (hosted : Option M) (node : ℕ) (t : Trace)
            → StandsFor M.declared M.turn M.first d hosted node t self
            → IfOk result (λ on. StandsFor M.declared M.turn M.first d hosted node
            (trace.stepped t at (Datagram from datagram.now)
            (effects_in M.declared M.turn at (Datagram from datagram.now) self) on.1) on.0) }
    {
        self.receive(at, from, datagram)
    }

    /// What the member did. `None` exactly at the Ringmaster's node. It takes no memory.
    pub fn member_record(&self) -> Option<&MemberRecord>
        ensures value { option_copied result ≡ record_of self.now.acting }
        ensures kept { IsRecorded M.declared M.turn M.first self.now.acting }
    {
        self.acting.record()
    }

    /// The state with which the member became active; before that, the first one of its module. `None` exactly at the
    /// Ringmaster's node. It takes no memory.
    pub fn activation_state(&self) -> Option<&State>
        ensures { option_copied result ≡ state_at_activation self.now.acting }
    {
        self.acting.activation_state()
    }

    /// The views that the Ringmaster keeps, one a troupe. `None` exactly at another node. It takes no memory.
    pub fn ring_views(&self) -> Option<&Views>
        ensures { option_copied result ≡ views_of self.now.acting }
    {
        self.acting.views()
    }

    /// How many datagrams counted for nothing, and how many messages that arrived were not accepted (docs/PROTOCOL.md,
    /// "Accepted messages"). It stays at the greatest. It takes no memory.
    pub fn dropped(&self) -> u64
        ensures { result ≡ self.now.dropped }
    {
        self.station.dropped
    }

    // Step 0.
    fn begin(
        alloc: Global,
        deployment: &Deployment,
        module: Option<M>,
        node: u16,
    ) -> Result<(Self, Outputs), StepFault>
        requires { booting.CanBoot deployment.now node (option_map M.declared «module») }
        ensures ended { step.IsEnded result
            (booting.boot_node M.declared M.turn M.first deployment.now «module» node) }
        ensures rest { IfOk result (λ booted. MemberHasGoneOn booted.0.acting) }
    {
        let home = home_of(alloc, deployment, node)?;
        let (acting, came) = Acting::boot(alloc, deployment, home, module)?;
        let station = Station::new(alloc, deployment, node)?;
        NodeCore::conclude(station, Gives::new(alloc), acting, came)
    }

    // A later step.
    fn follow(self, at: u64, event: Event) -> Result<(Self, Outputs), StepFault>
        requires { step.CanCome self event }
        ensures ended { step.IsEnded result (step.step_node M.declared M.turn at event self) }
        ensures rest { IfOk result (λ stepped. MemberHasGoneOn stepped.0.acting) }
    {
        match event {
            Event::Datagram(from, bytes) => self.receive(at, from, bytes.as_slice()),
            Event::Tick => self.tick(),
            Event::Down(node) => self.lose(at, node),
            Event::Join => self.join(at),
        }
    }

    // A datagram of a node comes.
    fn receive(self, at: u64, from: u16, bytes: &[u8]) -> Result<(Self, Outputs), StepFault>
        requires { IsOther self.wire from }
        ensures ended { step.IsEnded result
            (step.take_datagram M.declared M.turn at from (reading bytes.now) self) }
        ensures rest { IfOk result (λ stepped. MemberHasGoneOn stepped.0.acting) }
    {
        let NodeCore {
            mut station,
            acting,
        } = self;
        let own = &mut *station;
        let (gives, heard) = own.receive(from, bytes)?;
        let alloc = own.alloc;
        let (acting, came) = acting.hear(alloc, &own.deployment, at, from, heard)?;
        NodeCore::conclude(station, gives, acting, came)
    }

    // A tick touches the pairs alone.
    fn tick(self) -> Result<(Self, Outputs), StepFault>
        ensures ended { step.IsEnded result (step.tick_node self) }
        ensures rest { IfOk result (λ ticked. MemberHasGoneOn ticked.0.acting) }
    {
        let NodeCore {
            mut station,
            acting,
        } = self;
        let outputs = station.tick()?;
        Ok((NodeCore { station, acting }, outputs))
    }

    // A node is declared to be down: its pair stops first.
    fn lose(self, at: u64, node: u16) -> Result<(Self, Outputs), StepFault>
        requires { IsOther self.wire node }
        ensures ended { step.IsEnded result (step.declare_down M.declared M.turn at node self) }
        ensures rest { IfOk result (λ stepped. MemberHasGoneOn stepped.0.acting) }
    {
        let NodeCore {
            mut station,
            acting,
        } = self;
        let own = &mut *station;
        let alloc = own.alloc;
        own.wire.stop(node);
        let (acting, came) = acting.learn_down(alloc, at, node)?;
        NodeCore::conclude(station, Gives::new(alloc), acting, came)
    }

    // The node is told to join its troupe.
    fn join(self, at: u64) -> Result<(Self, Outputs), StepFault>
        ensures ended { step.IsEnded result (step.join_troupe M.declared M.turn at self) }
        ensures rest { IfOk result (λ stepped. MemberHasGoneOn stepped.0.acting) }
    {
        let NodeCore { station, acting } = self;
        let alloc = station.alloc;
        let (acting, came) = acting.join(alloc, at)?;
        NodeCore::conclude(station, Gives::new(alloc), acting, came)
    }

    // What came of a step is sent, behind what was given already.
    fn conclude(
        mut station: Box<Station>,
        gives: Gives,
        acting: Acting<M>,
        came: Consequences,
    ) -> Result<(Self, Outputs), StepFault>
        requires station { IsStation station.value }
        requires acting { IsActing station.value.deployment acting }
        ensures ended { step.IsEnded result
            (step.conclude_step (node_of station.value acting) gives came) }
        ensures rest { IfOk result (λ concluded. MemberHasGoneOn concluded.0.acting) }
    {
        let outputs = station.conclude(gives, came)?;
        Ok((NodeCore { station, acting }, outputs))
    }
}

// A copy of the module of a troupe.
fn copy_of<M: Module>(modules: &[M], troupe: Option<u16>) -> Result<Option<M>, NoMemory>
    ensures { IfOk result (λ copy. option_map (behaviour M.declared M.turn M.first) copy
        ≡ option_map (behaviour M.declared M.turn M.first)
        (option_and_then (slice_get modules.now) troupe)) }
{
    let Some(number) = troupe else {
        return Ok(None);
    };
    match modules.get(usize::from(number)) {
        Some(module) => Ok(Some(module.copy()?)),
        None => Ok(None),
    }
}
