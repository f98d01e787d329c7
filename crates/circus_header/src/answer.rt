// What a return message's header says, and what a reply is.
ghost use Rattle.std.specs.Prelude.{◌≡◌};

use circus_value::{Clock, Duplicate, NoMemory, Outcome};

/// What a return message begins with (docs/FORMATS.md, "Headers").
#[derive(Debug, Drop)]
pub enum ReturnHeader {
    /// The thread's clock behind the call, 1 to 32 counts. The outcome stands behind the header.
    Reply(Clock),
    /// The server's view has this incarnation, at least 1.
    Stale(u32),
    /// The call is before this first one.
    Before(u32),
    /// A state, with a count. It stands behind the header.
    Snapshot(u32),
    /// A view stands behind the header.
    Table,
}

/// What a procedure's run gives: the thread's clock afterwards, and what the procedure ended with.
#[derive(Debug, Drop)]
pub struct Reply {
    /// For each module, how many calls the thread has made to it.
    pub clock: Clock,
    /// The results, or an error.
    pub outcome: Outcome,
}

impl ReturnHeader {
    ghost use Rattle.circus_header.specs.ReturnFields as return_fields;

    /// Whether bytes may stand behind the header, which they may not behind `Stale` and `Before`
    /// (docs/FORMATS.md, "Headers").
    pub fn has_rest(&self) -> bool
        ensures { result ≡ return_fields.has_rest self.now }
    {
        !matches!(self, ReturnHeader::Stale(_) | ReturnHeader::Before(_))
    }
}

impl Duplicate for ReturnHeader {
    fn copy(&self) -> Result<Self, NoMemory> {
        Ok(match self {
            ReturnHeader::Reply(clock) => ReturnHeader::Reply(clock.copy()?),
            ReturnHeader::Stale(incarnation) => ReturnHeader::Stale(*incarnation),
            ReturnHeader::Before(first) => ReturnHeader::Before(*first),
            ReturnHeader::Snapshot(count) => ReturnHeader::Snapshot(*count),
            ReturnHeader::Table => ReturnHeader::Table,
        })
    }
}

impl Duplicate for Reply {
    fn copy(&self) -> Result<Self, NoMemory> {
        Ok(Reply {
            clock: self.clock.copy()?,
            outcome: self.outcome.copy()?,
        })
    }
}

impl PartialEq for Reply {
    ghost use Rattle.circus_header.specs.ReplyEquality.{reply_eq, reply_eq_per};

    ghost eq = { reply_eq };

    ghost laws = { reply_eq_per };

    fn eq(&self, other: &Self) -> bool {
        self.clock == other.clock && self.outcome == other.outcome
    }
}

impl Eq for Reply {
    ghost use Rattle.circus_header.specs.ReplyEquality.{reply_eq_equiv};

    ghost laws = { reply_eq_equiv };
}
