// Which value is taken from what several nodes said.
ghost use Rattle.std.specs.Prelude.{◌≡◌, ◌<◌, ◌||◌, not, false, length, IfSome};
ghost use Rattle.std.specs.List.{list_any};
ghost use Rattle.std.specs.Option.{option_map_or};
ghost use Rattle.circus_value.specs.Among.{is_among};
ghost use Rattle.circus_collate.specs.Expecting.{nodes_of, performs};
ghost use Rattle.circus_collate.specs.Giving as giving;

use crate::{Entry, Expectation, Expected, Kind};
use circus_value::{Nodes, is_among};

/// What arrived from a node.
#[derive(Debug, Drop)]
pub struct Said<V> {
    pub node: u16,
    pub value: V,
}

/// The place of the value that a collator gives of what was said, in order of arrival, or `None` where it gives
/// none (docs/PROTOCOL.md, "Collators"). It takes no memory.
///
/// Under `Majority` and `AtLeast` it is the first place that counts for the value. There what a node said first
/// counts alone, where the node is expected to say that value.
pub fn place_given<V: Eq, E: Expectation<V>>(
    kind: Kind,
    expectation: &E,
    down: &Nodes,
    said: &[Said<V>],
) -> Option<usize>
    ensures { result ≡ giving.place_of_value V.eq (E.nodes expectation.now) said.now kind down.now }
{
    match kind {
        Kind::First | Kind::Watchdog => first_place(said),
        Kind::Unanimous => unanimous_place(expectation, down, said),
        Kind::Majority => majority(expectation, said),
        Kind::AtLeast(number) => at_least(expectation, said, number),
    }
}

#[tactic(auto, unfolding(crate::specs::Giving::first))]
fn first_place<V>(said: &[Said<V>]) -> Option<usize>
    ensures { result ≡ giving.first said.now }
{
    if said.is_empty() { None } else { Some(0) }
}

#[tactic(auto, unfolding(crate::specs::Giving::unanimous))]
fn unanimous_place<V: Eq, E: Expectation<V>>(
    expectation: &E,
    down: &Nodes,
    said: &[Said<V>],
) -> Option<usize>
    ensures { result ≡ giving.unanimous V.eq (E.nodes expectation.now) said.now down.now }
{
    let earliest = said.first()?;
    let expected = expectation.of(&earliest.value);
    if all_have_said(said, down, &expected) && first_difference(said).is_none() {
        Some(0)
    } else {
        None
    }
}

// The first that counts of those whose value has a majority.
#[tactic(auto, unfolding(crate::specs::Giving::majority))]
fn majority<V: Eq, E: Expectation<V>>(expectation: &E, said: &[Said<V>]) -> Option<usize>
    ensures { result ≡ giving.majority V.eq (E.nodes expectation.now) said.now }
{
    for place in 0..said.len() {
        if counts(expectation, said, place) && has_majority(expectation, said, place) {
            return Some(place);
        }
    }
    None
}

// The first that counts of those with the value that was said so often first.
#[tactic(auto, unfolding(crate::specs::Giving::at_least))]
fn at_least<V: Eq, E: Expectation<V>>(
    expectation: &E,
    said: &[Said<V>],
    number: u16,
) -> Option<usize>
    ensures { result ≡ giving.at_least V.eq (E.nodes expectation.now) said.now number }
{
    let last = reaching_place(expectation, said, number)?;
    for place in 0..said.len() {
        if counts(expectation, said, place) && have_equal(said, last, place) {
            return Some(place);
        }
    }
    None
}

// The arrival by which first a value has been said so often.
#[tactic(auto, unfolding(crate::specs::Giving::reached))]
fn reaching_place<V: Eq, E: Expectation<V>>(
    expectation: &E,
    said: &[Said<V>],
    number: u16,
) -> Option<usize>
    ensures value { result ≡ giving.reached V.eq (E.nodes expectation.now) said.now number }
    ensures within { IfSome result (λ place. place < length said.now) }
{
    for place in 0..said.len() {
        if counts(expectation, said, place) && has_number(expectation, said, number, place) {
            return Some(place);
        }
    }
    None
}

// Whether what was said at a place is the first of its node, which is expected to say it.
#[tactic(auto, unfolding(crate::specs::Giving::counts))]
fn counts<V, E: Expectation<V>>(expectation: &E, said: &[Said<V>], place: usize) -> bool
    requires { place < length said.now }
    ensures { result ≡ giving.counts (E.nodes expectation.now) said.now place }
{
    let Said { node, value } = &said[place];
    expectation.of(value).has(*node) && !has_said(&said[..place], *node)
}

#[tactic(auto, unfolding(crate::specs::Giving::has_majority))]
fn has_majority<V: Eq, E: Expectation<V>>(expectation: &E, said: &[Said<V>], place: usize) -> bool
    requires { place < length said.now }
    ensures { result ≡ giving.has_majority V.eq (E.nodes expectation.now) said.now place }
{
    let value = &said[place].value;
    let expected = expectation.of(value);
    let votes = votes(said, &expected, value);
    expected.len() - votes < votes
}

// Whether so many said the value at a place first, up to that place.
#[tactic(auto, unfolding(crate::specs::Giving::has_number))]
fn has_number<V: Eq, E: Expectation<V>>(
    expectation: &E,
    said: &[Said<V>],
    number: u16,
    place: usize,
) -> bool
    requires { place < length said.now }
    ensures { result ≡ giving.has_number V.eq (E.nodes expectation.now) said.now number place }
{
    let value = &said[place].value;
    let expected = expectation.of(value);
    usize::from(number) <= votes(&said[..=place], &expected, value)
}

// How many of those that are expected said a value first.
#[tactic(auto, using(crate::proofs::Entries::count_expected), unfolding(crate::specs::Giving::votes))]
fn votes<V: Eq>(said: &[Said<V>], expected: &Expected<'_>, value: &V) -> usize
    ensures { result ≡ giving.votes V.eq said.now (nodes_of expected.now) value.now }
{
    let entries = expected.view.entries.as_slice();
    entries
        .iter()
        .filter(|entry| expected.expects(entry) && says_first(said, entry.node, value))
        .count()
}

// Whether a value is the first that a node said.
#[tactic(auto, unfolding(crate::specs::Giving::first_from))]
fn says_first<V: Eq>(said: &[Said<V>], node: u16, value: &V) -> bool
    ensures { result ≡ option_map_or (V.eq value.now) (giving.first_from said.now node) false }
{
    for s in said {
        if s.node == node {
            return *value == s.value;
        }
    }
    false
}

fn has_said<V>(said: &[Said<V>], node: u16) -> bool
    ensures { result ≡ list_any (giving.is_from node) said.now }
{
    said.iter().any(|s| s.node == node)
}

/// Whether each member that is expected and isn't down has said something.
#[tactic(auto, using(crate::proofs::Entries::all_expected), unfolding(crate::specs::Giving::all_have_said))]
pub(crate) fn all_have_said<V>(said: &[Said<V>], down: &Nodes, expected: &Expected<'_>) -> bool
    ensures { result ≡ giving.all_have_said said.now down.now (nodes_of expected.now) }
{
    let entries = expected.view.entries.as_slice();
    for entry in entries {
        if !is_done(said, down, expected, entry) {
            return false;
        }
    }
    true
}

// Whether a member isn't expected, is down, or has said something.
fn is_done<V>(said: &[Said<V>], down: &Nodes, expected: &Expected<'_>, entry: &Entry) -> bool
    ensures { result
        ≡ (not (performs entry.now.since expected.now.index) ||
        (is_among down.now entry.now.node || list_any (giving.is_from entry.now.node) said.now)) }
{
    !expected.expects(entry) || is_among(down.as_slice(), entry.node) || has_said(said, entry.node)
}

// Whether the values at two places are equal.
#[tactic(auto, unfolding(crate::specs::Giving::have_equal))]
fn have_equal<V: Eq>(said: &[Said<V>], one: usize, other: usize) -> bool
    requires one { one < length said.now }
    requires other { other < length said.now }
    ensures { result ≡ giving.have_equal V.eq said.now one other }
{
    said[one].value == said[other].value
}

/// The first place at which another value was said than at place 0.
#[tactic(auto, unfolding(crate::specs::Giving::first_difference))]
pub(crate) fn first_difference<V: Eq>(said: &[Said<V>]) -> Option<usize>
    ensures { result ≡ giving.first_difference V.eq said.now }
{
    for place in 0..said.len() {
        if !have_equal(said, 0, place) {
            return Some(place);
        }
    }
    None
}
