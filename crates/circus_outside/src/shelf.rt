// Files that are fetched by name.
ghost use Rattle.std.specs.Prelude.{◌≡◌, ◌≤◌, Option, Some, List, ℕ, length, IfOk, IfSome};
ghost use Rattle.circus_outside.specs.Limits.{longest_contents};
ghost use Rattle.circus_outside.specs.Shelf.{ShelfCounts, names_after};
ghost use Rattle.circus_outside.specs.declared.shelf.ShelfFault.TheVariants.{NoMemory};

use circus_value::{Message, NoMemory};
use thiserror::Error;

/// Why a shelf answers no contents.
#[derive(Debug, Drop, Error)]
pub enum ShelfFault {
    /// There is no memory for the contents.
    #[error("out of memory")]
    NoMemory,
    /// The shelf failed, has no such file, or has one of more than 16,777,216 bytes.
    #[error("shelf fault")]
    Failed,
}

impl From<NoMemory> for ShelfFault {
    ghost from_gives = { λ _ fault. fault ≡ NoMemory };

    fn from(_: NoMemory) -> Self {
        ShelfFault::NoMemory
    }
}

/// Files that are fetched by name. docs/ARCHITECTURE.md, "The world outside", has the
/// rules.
pub trait Shelf {
    /// Where the shelf tells it, the contents of each name, or `None` where there is no such file.
    ghost contents: { Self → Option (List ℕ → Option (List ℕ)) };

    /// Where the shelf tells it, the names asked for so far, in order: those of failed calls too, but
    /// not of those that found no memory.
    ghost fetched: { Self → Option (List (List ℕ)) };

    /// How many calls have failed, as `faults` answers.
    ghost faults: { Self → ℕ };

    /// The contents of a file, at most 16,777,216 bytes. `Failed` where the shelf fails, has no such
    /// file or has a longer one; the count of faults then rises, unless it stands at its greatest
    /// value. After `NoMemory` the shelf is unchanged.
    fn fetch(&mut self, name: &str) -> Result<Message, ShelfFault>
        ensures told { IfOk result (λ bytes.
            IfSome (contents self.old) (λ told. told name.now ≡ Some bytes)) }
        ensures size { IfOk result (λ bytes. length bytes ≤ longest_contents) }
        ensures contents { contents self.new ≡ contents self.old }
        ensures fetched { fetched self.new ≡ names_after result (fetched self.old) name.now }
        ensures counts { ShelfCounts result (faults self.old) (faults self.new) }
        ensures never_falls { faults self.old ≤ faults self.new };

    /// How many calls have failed. It stands still at 18,446,744,073,709,551,615. It takes no memory.
    fn faults(&self) -> u64
        ensures { result ≡ faults self.now };
}
