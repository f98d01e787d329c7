// What comes to a node, and what it gives.
ghost use Rattle.std.specs.Prelude.{◌≡◌};

use bytes::Bytes;
use circus_member_rules::Difference;
use circus_value::{ListOf, Message, NoMemory, Nodes};
use circus_wire::WireFault;
use std::alloc::Global;
use thiserror::Error;

/// What comes to a node. Its conditions are in `CanCome`.
#[derive(Debug, Drop)]
pub enum Event {
    /// A datagram of another node.
    Datagram(u16, Bytes),
    /// Some time has passed.
    Tick,
    /// Another node is declared to be down.
    Down(u16),
    /// The node is told to join its troupe.
    Join,
}

/// A datagram to a node.
#[derive(Debug, Drop)]
pub struct Give {
    pub to: u16,
    pub bytes: Message,
}

/// Datagrams in the order of sending.
pub type Gives = ListOf<Give>;

/// Replies that differ from the first one to the same ask.
pub type Differences = ListOf<Difference>;

/// What a node gives in a step.
#[derive(Debug, Drop)]
pub struct Outputs {
    pub gives: Gives,
    /// The nodes that are suspected now to be down, in node order.
    pub suspects: Nodes,
    pub differences: Differences,
}

/// Why a step has no node afterwards. Nothing of the step was sent.
#[derive(Clone, Copy, Debug, PartialEq, Eq, Drop, Error)]
pub enum StepFault {
    /// Memory ran out.
    #[error("out of memory")]
    NoMemory,

    /// The next call to this node would have number 4,294,967,295, which is never used (docs/PROTOCOL.md, "Paired
    /// messages").
    #[error("no number is left for node {0}")]
    Spent(u16),
}

impl From<NoMemory> for StepFault {
    ghost use Rattle.circus_node.specs.declared.event.StepFault.TheVariants.{NoMemory};

    ghost from_gives = { λ _ fault. fault ≡ NoMemory };

    fn from(_refused: NoMemory) -> Self {
        StepFault::NoMemory
    }
}

impl From<WireFault> for StepFault {
    ghost use Rattle.circus_node.specs.Seen.Faults.{fault_of};

    ghost from_gives = { λ from fault. fault ≡ fault_of from };

    fn from(fault: WireFault) -> Self {
        match fault {
            WireFault::NoMemory => StepFault::NoMemory,
            WireFault::Spent(node) => StepFault::Spent(node),
        }
    }
}
