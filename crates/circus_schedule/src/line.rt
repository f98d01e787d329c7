// What a line of a schedule asks for.
use circus_value::{Duplicate, ListOf, NoMemory};

/// One step of a schedule (docs/FORMATS.md, "Schedules"). Nodes are named by their numbers.
#[derive(Clone, Copy, Debug, PartialEq, Eq)]
pub enum Line {
    /// Delivers the datagram with this number, the first sent having 0.
    Deliver(u64),
    /// Lets a tick come at a node.
    Tick(u16),
    /// Crashes a node.
    Crash(u16),
    /// Tells the second node that the first is down.
    Down(u16, u16),
    /// Tells a spare to join its troupe.
    Join(u16),
}

/// The lines of a schedule, at most 200,000.
pub type Lines = ListOf<Line>;

impl Duplicate for Line {
    fn copy(&self) -> Result<Self, NoMemory> {
        Ok(*self)
    }
}
