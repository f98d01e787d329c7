// Who is a member of a troupe.
ghost use Rattle.std.specs.Prelude.{◌≡◌};
ghost use Rattle.circus_collate.specs.Expecting as expecting;

use circus_value::{Duplicate, ListOf, NoMemory};

/// From which call on a member performs calls itself.
#[derive(Clone, Copy, Debug, PartialEq, Eq, Drop)]
pub enum Since {
    /// It waits for a state.
    Joining,
    /// It performs the call of this index, and those behind it.
    From(u32),
}

/// A node that is a member of a troupe.
#[derive(Clone, Copy, Debug, PartialEq, Eq, Drop)]
pub struct Entry {
    pub node: u16,
    pub since: Since,
}

/// The members of a troupe, in the order in which they were registered.
pub type Entries = ListOf<Entry>;

/// What is known of a troupe's members (docs/PROTOCOL.md, "The Ringmaster").
#[derive(Debug, PartialEq, Eq, Drop)]
pub struct View {
    /// The number of the troupe, which is that of its module.
    pub troupe: u16,
    /// It grows with each change of the entries, from 1 on.
    pub incarnation: u32,
    /// At most 16.
    pub entries: Entries,
}

/// A view of each troupe, in module order.
pub type Views = ListOf<View>;

/// The members of a view that are expected to say a value of one index: those that perform that index
/// themselves (docs/PROTOCOL.md, "Collators").
#[derive(Clone, Copy)]
pub struct Expected<'a> {
    pub view: &'a View,
    pub index: u32,
}

impl View {
    /// Whether a node is a member. It takes no memory.
    pub fn has_node(&self, node: u16) -> bool
        ensures { result ≡ expecting.has_node self.now node }
    {
        self.entries
            .as_slice()
            .iter()
            .any(|entry| entry.node == node)
    }

    /// Who is expected to say a value of an index. It takes no memory.
    pub fn expects(&self, index: u32) -> Expected<'_>
        ensures view { result.view.now ≡ self.now }
        ensures index { result.index ≡ index }
    {
        Expected { view: self, index }
    }
}

impl Duplicate for Since {
    fn copy(&self) -> Result<Self, NoMemory> {
        Ok(*self)
    }
}

impl Duplicate for Entry {
    fn copy(&self) -> Result<Self, NoMemory> {
        Ok(*self)
    }
}

impl Duplicate for View {
    fn copy(&self) -> Result<Self, NoMemory> {
        Ok(View {
            troupe: self.troupe,
            incarnation: self.incarnation,
            entries: self.entries.copy()?,
        })
    }
}
