// What is known of an event before the member's lines are read.
use circus_node::{Event, Gives};
use circus_value::{ListOf, Octets};

/// Replies that differ: which ask of which run they answer, and their texts, which are read by that ask.
#[derive(Drop)]
pub(crate) struct Differing {
    pub run: u32,
    pub ask: u32,
    pub replies: Octets,
}

/// An event with what the node gave then, and the replies that differed. There is no event where the node booted.
#[derive(Drop)]
pub(crate) struct Noted {
    pub event: Option<Event>,
    pub gives: Gives,
    pub differing: ListOf<Differing>,
}

/// Events, oldest first.
pub(crate) type Notes = ListOf<Noted>;

/// What the last line behind an event was about. It stands in this order; at first there are gives.
#[derive(Clone, Copy, PartialEq, Eq, Drop)]
pub(crate) enum Kind {
    Gives,
    Differences,
    Foreign,
}

/// What happened so far: the earlier events, the last one, and which lines may stand behind it.
#[derive(Drop)]
pub(crate) struct Happened {
    pub earlier: Notes,
    pub last: Option<Noted>,
    pub kind: Kind,
}
