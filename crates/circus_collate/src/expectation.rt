// Whose word counts for a value.
ghost use Rattle.std.specs.Prelude.{◌≡◌, ℕ, ◌&&◌, ◌==◌, List, length};
ghost use Rattle.circus_collate.specs.Expecting as expecting;
ghost use Rattle.circus_value.specs.Among.{is_among};

use crate::{Entry, Expected, Since};

/// Who is expected to say which value.
pub trait Expectation<V> {
    /// The nodes of the members that are expected to say a value.
    ghost nodes: { Self → V → List ℕ };

    /// The members that are expected to say a value. It takes no memory.
    fn of<'a>(&'a self, value: &V) -> Expected<'a>
        ensures { expecting.nodes_of result ≡ nodes self.now value.now };
}

/// The same members are expected to say any value.
impl<V> Expectation<V> for Expected<'_> {
    ghost nodes = { λ expected value. expecting.nodes_of expected };

    fn of<'a>(&'a self, _value: &V) -> Expected<'a> {
        *self
    }
}

impl Since {
    // Whether a member performs an index itself.
    fn performs(self, index: u32) -> bool
        ensures { result ≡ expecting.performs self index }
    {
        match self {
            Since::Joining => false,
            Since::From(first) => first <= index,
        }
    }
}

impl Expected<'_> {
    /// Whether a member of the view is expected.
    pub(crate) fn expects(&self, entry: &Entry) -> bool
        ensures { result ≡ expecting.performs entry.now.since self.now.index }
    {
        entry.since.performs(self.index)
    }

    /// How many members are expected.
    #[tactic(auto, using(crate::proofs::Entries::length_expected))]
    pub(crate) fn len(&self) -> usize
        ensures { result ≡ length (expecting.nodes_of self.now) }
    {
        let entries = self.view.entries.as_slice();
        entries.iter().filter(|entry| self.expects(entry)).count()
    }

    /// Whether a member at this node is expected.
    #[tactic(auto, using(crate::proofs::Entries::any_expected))]
    pub(crate) fn has(&self, node: u16) -> bool
        ensures { result ≡ is_among (expecting.nodes_of self.now) node }
    {
        let entries = self.view.entries.as_slice();
        for entry in entries {
            if self.is_at(entry, node) {
                return true;
            }
        }
        false
    }

    fn is_at(&self, entry: &Entry, node: u16) -> bool
        ensures { result
            ≡ (expecting.performs entry.now.since self.now.index && (entry.now.node == node)) }
    {
        self.expects(entry) && entry.node == node
    }
}
