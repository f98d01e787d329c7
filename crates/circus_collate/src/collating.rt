// What a collator answers.
ghost use Rattle.std.specs.Prelude.{◌≡◌};
ghost use Rattle.circus_collate.specs.Expecting.{nodes_of};
ghost use Rattle.circus_collate.specs.Collating as collating;

use crate::giving::{all_have_said, first_difference};
use crate::{Expected, Kind, Said, place_given};
use circus_value::{Duplicate, NoMemory, Nodes};

/// What comes of what was said. Places are counted from 0, in order of arrival.
#[derive(Clone, Copy, Debug, PartialEq, Eq, Drop)]
pub enum Collated {
    /// More has to come.
    Waiting,
    /// The value at a place is given.
    Answer(usize),
    /// No value will be given: those at two places differ.
    Differ(usize, usize),
}

/// What a collator answers to what was said, where the same members are expected to say any value
/// (docs/PROTOCOL.md, "Collators"). It takes no memory.
///
/// `Answer` names the first place that counts for the value: among the expected members under `Majority` and
/// `AtLeast`, else place 0. `Differ` names place 0 and the first place that differs from it: under `Unanimous`
/// where two values differ, under `Majority` and `AtLeast` where moreover each expected member that isn't down has
/// said something and no value has the majority or the number.
pub fn collate<V: Eq>(
    kind: Kind,
    expected: &Expected<'_>,
    down: &Nodes,
    said: &[Said<V>],
) -> Collated
    ensures { result ≡ collating.collate V.eq (nodes_of expected.now) down.now said.now kind }
{
    if let Some(place) = place_given(kind, expected, down, said) {
        return Collated::Answer(place);
    }
    match dispute(kind, expected, down, said) {
        Some(other) => Collated::Differ(0, other),
        None => Collated::Waiting,
    }
}

// The place of another value than the first, where those that are expected can't come to one.
#[tactic(auto, unfolding(crate::specs::Collating::dispute))]
fn dispute<V: Eq>(
    kind: Kind,
    expected: &Expected<'_>,
    down: &Nodes,
    said: &[Said<V>],
) -> Option<usize>
    ensures { result ≡ collating.dispute V.eq (nodes_of expected.now) down.now said.now kind }
{
    match kind {
        Kind::First | Kind::Watchdog => None,
        Kind::Unanimous => first_difference(said),
        Kind::Majority | Kind::AtLeast(_) => {
            if all_have_said(said, down, expected) {
                first_difference(said)
            } else {
                None
            }
        }
    }
}

impl Duplicate for Collated {
    fn copy(&self) -> Result<Self, NoMemory> {
        Ok(*self)
    }
}
