// What takes the bytes that are written.
ghost use Rattle.std.specs.Prelude.{◌≡◌, ◌<◌, ◌≤◌, Option, Ok, List, ℕ, length, take, IfOk, OnOk, OnErr};
ghost use Rattle.circus_outside.specs.Sink.{SinkCounts, HasGivenOn};
ghost use Rattle.circus_outside.specs.Told.{told_more};
ghost use Rattle.circus_outside.specs.declared.sink.SinkFault.TheVariants.{NoMemory};

use circus_value::NoMemory;
use thiserror::Error;

/// Why a sink takes none of a piece.
#[derive(Debug, Drop, Error)]
pub enum SinkFault {
    /// There is no memory for the piece.
    #[error("out of memory")]
    NoMemory,
    /// The sink failed, or took none of a piece that isn't empty.
    #[error("sink fault")]
    Failed,
}

impl From<NoMemory> for SinkFault {
    ghost from_gives = { λ _ fault. fault ≡ NoMemory };

    fn from(_: NoMemory) -> Self {
        SinkFault::NoMemory
    }
}

/// What takes the bytes that are written. docs/ARCHITECTURE.md, "The world outside", has the
/// rules.
pub trait Sink {
    /// Where the sink tells it, the bytes written so far.
    ghost written: { Self → Option (List ℕ) };

    /// Where the sink tells it, the bytes that it has taken and not given on.
    ghost gathered: { Self → Option (List ℕ) };

    /// How many calls have failed, as `faults` answers.
    ghost faults: { Self → ℕ };

    /// Takes a piece from its front and answers how many bytes it took: at least 1 of a piece that
    /// isn't empty, and 0 of an empty one. `Failed` where it took none; the count of faults then rises,
    /// unless it stands at its greatest value. After `NoMemory` the sink is unchanged.
    fn put(&mut self, bytes: &[u8]) -> Result<usize, SinkFault>
        ensures part { IfOk result (λ n. n ≤ length bytes.now) }
        ensures progress { IfOk result (λ n. 0 < length bytes.now → 0 < n) }
        ensures empty { length bytes.now ≡ 0 → result ≡ Ok 0 }
        ensures written { IfOk result (λ n.
            written self.new ≡ told_more (written self.old) (take n bytes.now)) }
        ensures refused { OnErr result (written self.new ≡ written self.old) }
        ensures counts { SinkCounts result (faults self.old) (faults self.new) }
        ensures never_falls { faults self.old ≤ faults self.new };

    /// Gives on all that it has gathered, behind the last piece. `Failed` only where the count of faults then rises, as
    /// in `put`.
    fn finish(&mut self) -> Result<(), SinkFault>
        ensures written { written self.new ≡ written self.old }
        ensures given_on { OnOk result (HasGivenOn (gathered self.new)) }
        ensures counts { SinkCounts result (faults self.old) (faults self.new) }
        ensures never_falls { faults self.old ≤ faults self.new };

    /// How many calls have failed. It stands still at 18,446,744,073,709,551,615. It takes no memory.
    fn faults(&self) -> u64
        ensures { result ≡ faults self.now };
}
