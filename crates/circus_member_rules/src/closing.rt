// Which asks a step closes.
ghost use Rattle.std.specs.Prelude.{◌≡◌};
ghost use Rattle.circus_member_rules.specs.OpenAsks.{is_waiting};
ghost use Rattle.circus_member_rules.specs.Seen.Closing as closing;

use crate::open_asks::OpenAsks;
use crate::{AskName, Occurrence};
use circus_fanout::Known;

/// What a step concerns of the asks, besides the one that waited for its value.
#[derive(Clone, Copy, Drop)]
pub enum Concern {
    /// This one alone.
    One(AskName),
    Nothing,
    Each,
}

/// What an occurrence concerns of them. It takes no memory.
pub fn concern_of(occurrence: &Occurrence) -> Concern
    ensures { result ≡ closing.concern_of occurrence.now }
{
    match occurrence {
        Occurrence::Replied { name, .. }
        | Occurrence::IsStale { name, .. }
        | Occurrence::IsBefore { name, .. } => Concern::One(*name),
        Occurrence::Told { .. } | Occurrence::Declared(_) => Concern::Each,
        Occurrence::Asked { .. }
        | Occurrence::Fetched { .. }
        | Occurrence::Restored { .. }
        | Occurrence::Joins => Concern::Nothing,
    }
}

/// Closes those that a step concerns and that are settled, and the one that waited before it, but not the one that waits
/// (docs/PROTOCOL.md, "Calls out"). It takes no memory.
pub fn close_by(
    asks: &mut OpenAsks,
    known: &Known,
    waits: Option<AskName>,
    concern: Concern,
    waited: Option<AskName>,
)
    ensures { asks.new ≡ closing.close_by known.now (is_waiting waits) concern waited asks.old }
{
    close_concerned(asks, known, waits, concern);
    if let Some(name) = waited {
        close_one(asks, known, waits, name);
    }
}

fn close_concerned(asks: &mut OpenAsks, known: &Known, waits: Option<AskName>, concern: Concern)
    ensures { asks.new ≡ closing.close_concerned known.now (is_waiting waits) concern asks.old }
{
    match concern {
        Concern::One(name) => close_one(asks, known, waits, name),
        Concern::Nothing => {}
        Concern::Each => asks.close_all(known, waits),
    }
}

// Closes one that doesn't wait for its value.
fn close_one(asks: &mut OpenAsks, known: &Known, waits: Option<AskName>, name: AskName)
    ensures { asks.new ≡ closing.close_one known.now (is_waiting waits) name asks.old }
{
    if waits != Some(name) {
        asks.close(known, name);
    }
}
