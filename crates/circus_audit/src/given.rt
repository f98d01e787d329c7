// What a record of a node says.
use circus_collate::Views;
use circus_node::{Differences, Event, Gives};
use circus_record::MemberRecord;
use circus_value::ListOf;

/// An event, with what the node gave and which replies differed then. There is no event exactly where the node booted.
#[derive(Debug, Drop)]
pub struct GivenEvent {
    pub event: Option<Event>,
    pub gives: Gives,
    pub differences: Differences,
}

/// Events, oldest first.
pub type GivenEvents = ListOf<GivenEvent>;

/// What a record of a node says: what happened, and what its member did or which views the Ringmaster has. What a line of a
/// member that isn't active doesn't tell is 0 or empty.
#[derive(Debug, Drop)]
pub struct Given {
    pub node: u16,
    pub events: GivenEvents,
    /// There is none exactly for the Ringmaster's node.
    pub member: Option<MemberRecord>,
    /// They are there exactly for the Ringmaster's node.
    pub views: Option<Views>,
}
