// The kinds of collators.
use circus_value::{Duplicate, NoMemory};

/// How one value is taken from what the members of a troupe said (docs/PROTOCOL.md, "Collators").
#[derive(Clone, Copy, Debug, PartialEq, Eq, Drop)]
pub enum Kind {
    /// The first that arrives.
    First,
    /// One that more than half of the expected members said.
    Majority,
    /// The one that all said.
    Unanimous,
    /// One that so many of the expected members said, 1 to 16.
    AtLeast(u16),
    /// The first that arrives. Later ones are compared with it.
    Watchdog,
}

impl Duplicate for Kind {
    fn copy(&self) -> Result<Self, NoMemory> {
        Ok(*self)
    }
}
