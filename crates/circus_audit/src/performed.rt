// What an active member did, so far as its lines are read.
use circus_record::{AskRecord, MemberRecord, RunRecord, RunRecords};

/// What a member performs.
#[derive(Drop)]
pub(crate) enum Current {
    Nothing,
    /// A run, all asks of which were answered.
    Run(RunRecord),
    /// A run with an ask that wasn't answered yet.
    Ask(RunRecord, AskRecord),
}

/// From which call on a member is active, since which step, its count, the runs that have ended, and what it performs.
#[derive(Drop)]
pub(crate) struct Performed {
    pub from: u32,
    pub since: u64,
    pub count: u32,
    pub runs: RunRecords,
    pub current: Current,
}

/// A member after a line: it performs on, or the line was its last one.
#[derive(Drop)]
pub(crate) enum After {
    On(Performed),
    Last(MemberRecord),
}
