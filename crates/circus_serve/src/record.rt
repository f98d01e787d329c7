// A node is served over a link, and the record of it.
ghost use Rattle.std.specs.Prelude.{◌≡◌, ◌<◌, IsErrOf};
ghost use Rattle.circus_outside.specs.Faults.{Rose};
ghost use Rattle.circus_collate.specs.Deployment.{IsDeployment};
ghost use Rattle.circus_node.specs.Node.{IsNodeOf};
ghost use Rattle.circus_serve.specs.Outside.{tells_of};
ghost use Rattle.circus_serve.specs.Answers.{IsAnswer};

use crate::serving::Serving;
use crate::{Happenings, ServeFault, port_of};
use circus_collate::Deployment;
use circus_model::Module;
use circus_node::{Gives, NodeCore};
use circus_outside::Link;
use std::alloc::Global;
use std::marker::Model;

/// What happened to a served node, and the node afterwards. Clauses see both.
#[derive(Drop)]
pub struct NodeRecord<M: Module> {
    happened: Happenings,
    core: NodeCore<M>,
}

impl<M: Module> Model for NodeRecord<M> {
    ghost use Rattle.circus_serve.specs.Recorded.{Recorded};
    ghost use Rattle.circus_serve.specs.Seen.RecordCode.{recorded_code};

    ghost Value = { Recorded M };

    ghost coded = { recorded_code M.code };

    ghost view = { λ a. record { happened = a.happened; node = a.core } };
}

impl<M: Module> NodeRecord<M> {
    /// What happened, oldest first. It takes no memory.
    pub fn happenings(&self) -> &Happenings
        ensures { result.now ≡ self.now.happened }
    {
        &self.happened
    }

    /// The node afterwards. It takes no memory.
    pub fn core(&self) -> &NodeCore<M>
        ensures { result.now ≡ self.now.node }
    {
        &self.core
    }
}

/// Serves a node that has booted and gave this: binds its port, gives that, tells a spare to join, and makes so many takes.
/// A datagram of another node is an event, one of any other port is foreign, and where nothing came it is a tick; behind a
/// tick each node that is suspected then is declared to be down. What the node gives in an event is given before the next
/// one (docs/PROTOCOL.md, "A served node").
///
/// `LinkFailed` only where the link's count of faults rose; no call of the link is made behind one that failed. `Spent`
/// exactly where a step of the node is refused so; what it gave before is given then. `NoMemory` where memory runs out.
#[tactic(none)]
pub fn serve<M: Module, L: Link>(
    alloc: Global,
    core: NodeCore<M>,
    gives: Gives,
    deployment: &Deployment,
    node: u16,
    link: &mut L,
    turns: u32,
) -> Result<NodeRecord<M>, ServeFault>
    requires deployment { IsDeployment deployment.now }
    requires node { IsNodeOf deployment.now node core }
    ensures served { IsAnswer M.declared M.turn deployment.now node core gives turns
        (tells_of (L.bound link.old) (L.taken link.old) (L.given link.old))
        (tells_of (L.bound link.new) (L.taken link.new) (L.given link.new))
        result }
    ensures rose { IsErrOf result ServeFault.LinkFailed
        → Rose (L.faults link.old) (L.faults link.new) }
{
    link.bind(port_of(deployment, node))?;
    let mut serving = Serving::begin(alloc, core, gives, deployment, link)?;
    for _turn in 0..turns {
        let taken = link.take()?;
        serving = serving.take(taken, deployment, node, link)?;
    }
    let Serving { core, log } = serving;
    Ok(NodeRecord {
        happened: log.happened,
        core,
    })
}
