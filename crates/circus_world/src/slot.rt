// A node in the world.
ghost use Rattle.std.specs.Prelude.{◌≡◌, false};
ghost use Rattle.circus_world.specs.Seen.Made.{IsMade, CanMake};

use circus_model::Module;
use circus_node::{Event, Gives, NodeCore, StepFault};

/// A node as it is, or was when it crashed.
#[derive(Drop)]
pub(crate) struct Slot<M: Module> {
    /// None only while the node makes a step.
    pub core: Option<NodeCore<M>>,
    /// The step in which it crashed.
    pub crashed: Option<u64>,
    /// Whether it was told to join its troupe.
    pub joins: bool,
}

impl<M: Module> Slot<M> {
    /// That of a node at boot.
    pub fn of(core: NodeCore<M>) -> Self
        ensures { result ≡ record { core = Some core; crashed = None; joins = false } }
    {
        Slot {
            core: Some(core),
            crashed: None,
            joins: false,
        }
    }

    /// The node makes a step, and what it gives. After a fault there is no node.
    pub fn make_step(&mut self, at: u64, event: Event) -> Result<Gives, StepFault>
        requires { CanMake event self.old }
        ensures { IsMade M.declared M.turn at event self.old self.new result }
    {
        let Some(core) = self.core.take() else {
            unreachable!();
        };
        let (core, outputs) = core.step(at, event)?;
        self.core = Some(core);
        Ok(outputs.gives)
    }

    /// As `make_step` with a datagram of another node.
    pub fn hear(&mut self, at: u64, from: u16, datagram: &[u8]) -> Result<Gives, StepFault>
        requires { CanMake (Event.Datagram from datagram.now) self.old }
        ensures { IsMade M.declared M.turn at (Event.Datagram from datagram.now) self.old
            self.new result }
    {
        let Some(core) = self.core.take() else {
            unreachable!();
        };
        let (core, outputs) = core.hear(at, from, datagram)?;
        self.core = Some(core);
        Ok(outputs.gives)
    }
}
