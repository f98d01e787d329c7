// What carries datagrams between ports.
ghost use Rattle.std.specs.Prelude.{◌≡◌, ◌≤◌, Option, List, ℕ, IfOk};
ghost use Rattle.circus_outside.specs.Link.{Taken, LinkCounts, IsCut, ports_after, takes_after, given_after};
ghost use Rattle.circus_outside.specs.declared.link.LinkFault.TheVariants.{NoMemory};

use circus_value::{Duplicate, Message, NoMemory};
use thiserror::Error;

/// The longest datagram that a link answers, in bytes.
pub const LONGEST_DATAGRAM: usize = 2_048;

/// What a link answers to a take.
#[derive(Debug, Drop)]
pub enum TakenFrom {
    /// A datagram from this port, its first 2,048 bytes where it is longer.
    From(u16, Message),
    /// No datagram came.
    Nothing,
}

impl Duplicate for TakenFrom {
    fn copy(&self) -> Result<Self, NoMemory> {
        match self {
            TakenFrom::From(port, bytes) => Ok(TakenFrom::From(*port, bytes.copy()?)),
            TakenFrom::Nothing => Ok(TakenFrom::Nothing),
        }
    }
}

/// Why a link didn't do what it was asked for.
#[derive(Debug, Drop, Error)]
pub enum LinkFault {
    /// There is no memory for the call.
    #[error("out of memory")]
    NoMemory,
    /// The link failed.
    #[error("link fault")]
    Failed,
}

impl From<NoMemory> for LinkFault {
    ghost from_gives = { λ _ fault. fault ≡ NoMemory };

    fn from(_: NoMemory) -> Self {
        LinkFault::NoMemory
    }
}

/// What carries datagrams between ports. docs/ARCHITECTURE.md, "The world outside", has the
/// rules.
pub trait Link {
    /// Where the link tells it, the ports that `bind` was asked for so far, in order: those of failed
    /// calls too, but not of those that found no memory.
    ghost bound: { Self → Option (List ℕ) };

    /// Where the link tells it, what each `take` answered so far, in order, `NoMemory` aside.
    ghost taken: { Self → Option (List Taken) };

    /// Where the link tells it, the datagrams that it was given so far, in order: the port that each
    /// went to, and its bytes.
    ghost given: { Self → Option (List (ℕ × List ℕ)) };

    /// How many calls have failed, as `faults` answers.
    ghost faults: { Self → ℕ };

    /// Binds the link to a port of its own. `Failed` where it can't; the count of faults then rises,
    /// unless it stands at its greatest value. After `NoMemory` the link is unchanged.
    fn bind(&mut self, port: u16) -> Result<(), LinkFault>
        ensures bound { bound self.new ≡ ports_after result (bound self.old) port }
        ensures taken { taken self.new ≡ taken self.old }
        ensures given { given self.new ≡ given self.old }
        ensures counts { LinkCounts result (faults self.old) (faults self.new) }
        ensures never_falls { faults self.old ≤ faults self.new };

    /// The next datagram, cut at 2,048 bytes, with the port that it came from, or `Nothing` where none
    /// came. `Failed` where the link fails; the count of faults then rises, unless it stands at its
    /// greatest value. After `NoMemory` the link is unchanged.
    fn take(&mut self) -> Result<TakenFrom, LinkFault>
        ensures cut { IfOk result IsCut }
        ensures taken { taken self.new ≡ takes_after result (taken self.old) }
        ensures bound { bound self.new ≡ bound self.old }
        ensures given { given self.new ≡ given self.old }
        ensures counts { LinkCounts result (faults self.old) (faults self.new) }
        ensures never_falls { faults self.old ≤ faults self.new };

    /// Sends a datagram to a port. `Failed` where the link fails; nothing is then given, and the count
    /// of faults rises, unless it stands at its greatest value. After `NoMemory` the link is unchanged.
    fn give(&mut self, port: u16, bytes: &[u8]) -> Result<(), LinkFault>
        ensures given { given self.new ≡ given_after result (given self.old) port bytes.now }
        ensures bound { bound self.new ≡ bound self.old }
        ensures taken { taken self.new ≡ taken self.old }
        ensures counts { LinkCounts result (faults self.old) (faults self.new) }
        ensures never_falls { faults self.old ≤ faults self.new };

    /// How many calls have failed. It stands still at 18,446,744,073,709,551,615. It takes no memory.
    fn faults(&self) -> u64
        ensures { result ≡ faults self.now };
}
