// What happens to a served node.
use circus_node::{Differences, Event, Gives};
use circus_value::{ListOf, Message};

/// Something that happened to a served node.
#[derive(Debug, Drop)]
pub enum Happening {
    /// It booted, and gave this.
    Booted(Gives),
    /// An event came, in which it gave this, and replies differed so.
    Stepped(Event, Gives, Differences),
    /// A datagram came from a port that is no other node's, which is no event.
    Foreign(u16, Message),
}

/// What happened to a node, oldest first.
pub type Happenings = ListOf<Happening>;
