// What happens to a member, and what it makes of it.
use circus_collate::Table;
use circus_header::{CallHeader, Reply, Request};
use circus_value::{Caller, ListOf, Message, Parts, State};

/// Which ask of which run. Names are ordered as the asks were made.
#[derive(Clone, Copy, Debug, PartialEq, Eq, Hash, Drop)]
pub struct AskName {
    /// The index of the run.
    pub run: u32,
    /// The number of the ask in the run.
    pub ask: u16,
}

/// What a call of a member was made for.
#[derive(Clone, Copy, Debug, PartialEq, Eq, Drop)]
pub enum Purpose {
    /// An ask of this name, to this troupe.
    Ask(AskName, u16),
    /// A request to the Ringmaster.
    Ring(Request),
    /// A state is asked for.
    Fetch,
}

/// What happens to a member: a message that is accepted, a declaration, or that it is told to join its troupe
/// (docs/PROTOCOL.md, "Members").
#[derive(Drop)]
pub enum Occurrence {
    /// A call comes in.
    Asked {
        header: CallHeader,
        body: Parts,
        sender: Caller,
    },
    /// Its state is asked for, by one whose view has this incarnation.
    Fetched {
        incarnation: u32,
        sender: Caller,
    },
    /// A node replies to an ask.
    Replied {
        name: AskName,
        from: u16,
        reply: Reply,
    },
    /// To a node an ask was of an older view of its troupe than this incarnation.
    IsStale {
        name: AskName,
        server: u16,
        from: u16,
        incarnation: u32,
    },
    /// To a node an ask is before its first call.
    IsBefore {
        name: AskName,
        from: u16,
    },
    /// The Ringmaster answers a request.
    Told {
        request: Request,
        table: Table,
    },
    /// A state comes that was asked for.
    Restored {
        state: State,
        count: u32,
    },
    /// A node is declared to be down.
    Declared(u16),
    /// It is told to join.
    Joins,
}

/// What a member makes of it: a call to a node, or the return to a call.
#[derive(Drop)]
pub enum Effect {
    Call {
        to: u16,
        message: Message,
        purpose: Purpose,
    },
    Answer {
        caller: Caller,
        message: Message,
    },
}

/// In the order in which they are made.
pub type Effects = ListOf<Effect>;

/// A reply that differs from the first one to the same ask (docs/PROTOCOL.md, "Calls out").
#[derive(Debug)]
pub struct Difference {
    pub run: u32,
    pub ask: u32,
    pub first: u16,
    pub first_reply: Reply,
    pub second: u16,
    pub second_reply: Reply,
}

// Written out, so that dropping one is one step of a proof (docs/PROOFS.md, "Cost").
impl Drop for Difference {
    fn drop(self) {
        let Difference {
            run: _,
            ask: _,
            first: _,
            first_reply: _,
            second: _,
            second_reply: _,
        } = self;
    }
}
