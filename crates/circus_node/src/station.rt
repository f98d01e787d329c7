// A node among the others: its pairs with them, and how much it has dropped.
ghost use Rattle.std.specs.Prelude.{◌<◌, length, IfOk};
ghost use Rattle.circus_collate.specs.Deployment.{IsDeployment};
ghost use Rattle.circus_segment.specs.Segment.{reading};
ghost use Rattle.circus_wire.specs.Wire.{IsOther};
ghost use Rattle.circus_node.specs.Seen.StationOf as stations;

use crate::acting::Consequences;
use crate::sending::{add_all_gives, add_gives, hand_all};
use crate::{Gives, Outputs, StepFault};
use circus_collate::Deployment;
use circus_member_rules::Purpose;
use circus_value::{Duplicate, ListOf, NoMemory};
use circus_wire::{Heard, Wire};
use std::alloc::Global;

/// The program's troupes and nodes, the pairs with the other nodes, and a count.
pub(crate) struct Station {
    pub alloc: Global,
    pub deployment: Deployment,
    pub node: u16,
    pub wire: Wire<Purpose>,
    /// How many datagrams counted for nothing, and how many messages that arrived were not accepted.
    pub dropped: u64,
}

// Written out, so that dropping one is one step of a proof (docs/PROOFS.md, "Cost").
impl Drop for Station {
    fn drop(self) {
        let Station {
            alloc: _,
            deployment: _,
            node: _,
            wire: _,
            dropped: _,
        } = self;
    }
}

impl Station {
    /// That of a node before anything has happened, in a box, so that a step moves a word (docs/PROOFS.md, "Speed").
    pub fn new(alloc: Global, deployment: &Deployment, node: u16) -> Result<Box<Self>, NoMemory>
        requires deployment { IsDeployment deployment.now }
        requires node { node < length deployment.now.nodes }
        ensures { IfOk result (λ station. stations.IsFresh deployment.now node station.value) }
    {
        let station = Station {
            alloc,
            deployment: deployment.copy()?,
            node,
            wire: Wire::new(alloc, node, deployment.nodes.len(), deployment.format)?,
            dropped: 0,
        };
        Ok(Box::new(alloc, station)?)
    }

    /// A datagram of another node comes: what is sent at once, and what is heard. After `NoMemory` it may have been taken.
    pub fn receive(&mut self, from: u16, bytes: &[u8]) -> Result<(Gives, Heard<Purpose>), NoMemory>
        requires { IsOther self.old.wire from }
        ensures { IfOk result (stations.HasReceived from (reading bytes.now) self.old self.new) }
    {
        let delivery = self.wire.deliver(from, bytes)?;
        let mut gives = Gives::new(self.alloc);
        add_gives(delivery.sent, &mut gives)?;
        Ok((gives, delivery.heard))
    }

    /// What came of a step is sent, behind what was given already. After a fault some of it may have been handed over.
    pub fn conclude(&mut self, mut gives: Gives, came: Consequences) -> Result<Outputs, StepFault>
        requires { stations.IsStation self.old }
        ensures { stations.IsConcluded result self.old self.new gives came }
    {
        let Consequences {
            effects,
            differences,
            dropped,
        } = came;
        hand_all(self.deployment.format, &mut self.wire, effects, &mut gives)?;
        if dropped {
            self.dropped = self.dropped.saturating_add(1);
        }
        Ok(Outputs {
            gives,
            suspects: ListOf::new(self.alloc),
            differences,
        })
    }

    /// A tick comes. After `NoMemory` it may have come to some pairs.
    pub fn tick(&mut self) -> Result<Outputs, StepFault>
        ensures { stations.IsTicked result self.old self.new }
    {
        let (batches, suspects) = self.wire.tick()?;
        let mut gives = Gives::new(self.alloc);
        add_all_gives(batches, &mut gives)?;
        Ok(Outputs {
            gives,
            suspects,
            differences: ListOf::new(self.alloc),
        })
    }
}
