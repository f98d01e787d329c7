// The phases of a node on its way into a troupe.
ghost use Rattle.std.specs.Prelude.{◌≡◌};

use circus_collate::{RingResult, Table};
use circus_value::{Duplicate, NoMemory};

/// How far a node is on its way into its troupe (docs/PROTOCOL.md, "Joining").
#[derive(Clone, Copy, Debug, PartialEq, Eq, Drop)]
pub enum Joiner {
    /// A spare that isn't joining.
    Outside,
    /// It has asked the Ringmaster to be taken in.
    Asking,
    /// It was taken in, with this incarnation of the view, and asks for a state.
    Fetching(u32),
    /// It is a member that performs the calls from this one on itself.
    Active(u32),
}

impl Joiner {
    ghost use Rattle.circus_transfer.specs.Joining as joining;

    /// Once the node is told to join: one that is outside asks. It takes no memory.
    pub fn join(self) -> Joiner
        ensures { result ≡ joining.after_join self }
    {
        match self {
            Joiner::Outside => Joiner::Asking,
            other => other,
        }
    }

    /// Once the Ringmaster answered the Join: one that asks fetches a state where the result is `Done`, and is
    /// outside again where it is another one. It takes no memory.
    pub fn table(self, table: &Table) -> Joiner
        ensures { result ≡ joining.after_table table.now self }
    {
        match (self, table.result) {
            (Joiner::Asking, RingResult::Done) => Joiner::Fetching(table.view.incarnation),
            (Joiner::Asking, _) => Joiner::Outside,
            (other, _) => other,
        }
    }

    /// Once a snapshot with a count came: one that fetches a state is active from that count on. It takes no
    /// memory.
    pub fn state(self, count: u32) -> Joiner
        ensures { result ≡ joining.after_state count self }
    {
        match self {
            Joiner::Fetching(_) => Joiner::Active(count),
            other => other,
        }
    }
}

impl Duplicate for Joiner {
    fn copy(&self) -> Result<Self, NoMemory> {
        Ok(*self)
    }
}
