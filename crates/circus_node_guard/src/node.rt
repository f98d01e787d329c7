// A node, and whether what comes to it may come.
ghost use Rattle.std.specs.Prelude.{◌≡◌, ◌<◌, length, map, Some, IfOk, IsTrue};
ghost use Rattle.circus_collate.specs.Deployment.{IsDeployment};
ghost use Rattle.circus_node.specs.Booting.{CanBoot, AreOfTroupes};
ghost use Rattle.circus_node_guard.specs.Guard.{NamesAnother};

use circus_collate::{Deployment, Views};
use circus_model::Module;
use circus_node::{Event, NodeCore, Outputs, StepFault};
use circus_record::MemberRecord;
use circus_value::ListOf;
use std::alloc::Global;
use std::marker::Model;
use thiserror::Error;

/// Why a node made no step. It is gone then.
#[derive(Debug, Drop, Error)]
pub enum GuardFault {
    /// What came names the node itself, or none of its program.
    #[error("this may not come")]
    Unexpected,

    /// The step itself had a fault.
    #[error(transparent)]
    Step(StepFault),
}

impl From<StepFault> for GuardFault {
    ghost use Rattle.std.specs.Prelude.{◌≡◌};
    ghost use Rattle.circus_node_guard.specs.declared.node.GuardFault.TheVariants.{Step};

    ghost from_gives = { λ from fault. fault ≡ Step from };

    fn from(fault: StepFault) -> Self {
        GuardFault::Step(fault)
    }
}

/// A node, and how many its program has. Clauses see its number.
pub struct GuardedNode<M: Module> {
    core: NodeCore<M>,
    own: u16,
    nodes: usize,
}

// Written out, so that dropping one is one step of a proof (docs/PROOFS.md, "Cost").
impl<M: Module> Drop for GuardedNode<M> {
    fn drop(self) {
        let GuardedNode {
            core: _,
            own: _,
            nodes: _,
        } = self;
    }
}

impl<M: Module> Model for GuardedNode<M> {
    ghost use Rattle.std.specs.Prelude.{ℕ};
    ghost use Rattle.circus_node_guard.specs.Guard.{IsNumbered};

    ghost Value = { ℕ };

    ghost view = { λ a. a.own };

    ghost invariant = { λ a. IsNumbered a.own a.nodes a.core };
}

impl<M: Module> GuardedNode<M> {
    /// A node with a module of its troupe at boot, and what it gives, or why there is none.
    pub fn boot(
        alloc: Global,
        deployment: &Deployment,
        module: M,
        own: u16,
    ) -> Result<(Self, Outputs), StepFault>
        requires { CanBoot deployment.now own (Some (M.declared «module»)) }
        ensures { IfOk result (λ booted. booted.0 ≡ own) }
    {
        let nodes = deployment.nodes.len();
        let (core, outputs) = NodeCore::boot(alloc, deployment, Some(module), own)?;
        Ok((GuardedNode { core, own, nodes }, outputs))
    }

    /// The nodes of a deployment at boot, in order, of modules that are one for each troupe, and what each gives, or why one of
    /// them is not there.
    pub fn boot_all(
        alloc: Global,
        deployment: &Deployment,
        modules: &[M],
    ) -> Result<ListOf<(Self, Outputs)>, StepFault>
        requires deployment { IsDeployment deployment.now }
        requires modules { AreOfTroupes deployment.now (map M.declared modules.now) }
    {
        let mut nodes = ListOf::new(alloc);
        for own in 0..deployment.nodes.len() {
            nodes.push(GuardedNode::boot_of(alloc, deployment, modules, own as u16)?)?;
        }
        Ok(nodes)
    }

    fn boot_of(
        alloc: Global,
        deployment: &Deployment,
        modules: &[M],
        own: u16,
    ) -> Result<(Self, Outputs), StepFault>
        requires deployment { IsDeployment deployment.now }
        requires modules { AreOfTroupes deployment.now (map M.declared modules.now) }
        requires within { own < length deployment.now.nodes }
        ensures { IfOk result (λ booted. booted.0 ≡ own) }
    {
        let nodes = deployment.nodes.len();
        let (core, outputs) = NodeCore::boot_of(alloc, deployment, modules, own)?;
        Ok((GuardedNode { core, own, nodes }, outputs))
    }

    /// Which node it is.
    pub fn number(&self) -> u16
        ensures { result ≡ self.now }
    {
        self.own
    }

    /// A step, and what the node gives in it. `Unexpected` where what comes names the node itself or none of its program.
    pub fn step(self, at: u64, event: Event) -> Result<(Self, Outputs), GuardFault>
        ensures { IfOk result (λ stepped. stepped.0 ≡ self) }
    {
        if !may_come(&event, self.own, self.nodes) {
            return Err(GuardFault::Unexpected);
        }
        let GuardedNode { core, own, nodes } = self;
        let (core, outputs) = core.step(at, event)?;
        Ok((GuardedNode { core, own, nodes }, outputs))
    }

    /// What its member did.
    pub fn record(&self) -> Option<&MemberRecord> {
        self.core.member_record()
    }

    /// What it knows of the troupes where it is the Ringmaster.
    pub fn views(&self) -> Option<&Views> {
        self.core.ring_views()
    }

    /// How much counted for nothing.
    pub fn dropped(&self) -> u64 {
        self.core.dropped()
    }
}

// Whether what comes to a node of so many names another one, where it names one.
fn may_come(event: &Event, own: u16, nodes: usize) -> bool
    ensures { IsTrue result → NamesAnother own nodes event.now }
{
    match event {
        Event::Datagram(node, _) | Event::Down(node) => {
            *node != own && usize::from(*node) < nodes
        }
        Event::Tick | Event::Join => true,
    }
}
