// Which records are the same, and what nodes give.
use crate::same::Same;
use circus_collate::{Entry, Since, View};
use circus_header::Reply;
use circus_node::{Difference, Give};
use circus_record::{AskRecord, MemberRecord, RunRecord};
use circus_transfer::Joiner;

impl Same for Give {
    fn is_same(&self, other: &Self) -> bool {
        self.to == other.to && self.bytes.is_same(&other.bytes)
    }
}

impl Same for Reply {
    fn is_same(&self, other: &Self) -> bool {
        self.clock.is_same(&other.clock) && self.outcome.is_same(&other.outcome)
    }
}

impl Same for Difference {
    fn is_same(&self, other: &Self) -> bool {
        self.run == other.run
            && self.ask == other.ask
            && self.first == other.first
            && self.first_reply.is_same(&other.first_reply)
            && self.second == other.second
            && self.second_reply.is_same(&other.second_reply)
    }
}

impl Same for Joiner {
    fn is_same(&self, other: &Self) -> bool {
        self == other
    }
}

impl Same for AskRecord {
    fn is_same(&self, other: &Self) -> bool {
        self.callee == other.callee
            && self.index == other.index
            && self.procedure == other.procedure
            && self.arguments.is_same(&other.arguments)
            && self.state.is_same(&other.state)
            && self.reply.is_same(&other.reply)
            && self.after.is_same(&other.after)
            && self.asked == other.asked
            && self.answered.is_same(&other.answered)
    }
}

impl Same for RunRecord {
    fn is_same(&self, other: &Self) -> bool {
        self.path.is_same(&other.path)
            && self.root == other.root
            && self.procedure == other.procedure
            && self.arguments.is_same(&other.arguments)
            && self.entry.is_same(&other.entry)
            && self.asks.is_same(&other.asks)
            && self.outcome.is_same(&other.outcome)
            && self.state.is_same(&other.state)
            && self.end.is_same(&other.end)
            && self.started == other.started
            && self.ended.is_same(&other.ended)
    }
}

impl Same for MemberRecord {
    fn is_same(&self, other: &Self) -> bool {
        self.phase.is_same(&other.phase)
            && self.from == other.from
            && self.active_at == other.active_at
            && self.count == other.count
            && self.runs.is_same(&other.runs)
            && self.state.is_same(&other.state)
    }
}

impl Same for Since {
    fn is_same(&self, other: &Self) -> bool {
        self == other
    }
}

impl Same for Entry {
    fn is_same(&self, other: &Self) -> bool {
        self == other
    }
}

impl Same for View {
    fn is_same(&self, other: &Self) -> bool {
        self.troupe == other.troupe
            && self.incarnation == other.incarnation
            && self.entries.is_same(&other.entries)
    }
}
