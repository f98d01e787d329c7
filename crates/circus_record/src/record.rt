// What a member keeps of its calls.
use circus_transfer::Joiner;
use circus_value::{Clock, Duplicate, ListOf, NoMemory, Outcome, Path, State, Values};

/// A call that a run made. Its reply, its clock and its step are there exactly where it was answered.
#[derive(Debug)]
pub struct AskRecord {
    pub callee: u16,
    /// How many calls to the callee the thread had made before.
    pub index: u32,
    pub procedure: u16,
    pub arguments: Values,
    /// The caller's state as it asked.
    pub state: State,
    pub reply: Option<Outcome>,
    /// The thread's clock after the call.
    pub after: Option<Clock>,
    /// The step in which it was made.
    pub asked: u64,
    /// The step in which it was answered.
    pub answered: Option<u64>,
}

// Written out, so that dropping one is one step of a proof (docs/PROOFS.md, "Cost").
impl Drop for AskRecord {
    fn drop(self) {
        let AskRecord {
            callee: _,
            index: _,
            procedure: _,
            arguments: _,
            state: _,
            reply: _,
            after: _,
            asked: _,
            answered: _,
        } = self;
    }
}

/// The calls of a run, in the order in which it made them.
pub type AskRecords = ListOf<AskRecord>;

/// One execution of a procedure. Its outcome, state, clock and step at the end are there exactly where it has ended.
#[derive(Debug)]
pub struct RunRecord {
    /// The ask numbers from the root down, none for the root's own run.
    pub path: Path,
    pub root: u16,
    pub procedure: u16,
    pub arguments: Values,
    /// The thread's clock at entry.
    pub entry: Clock,
    pub asks: AskRecords,
    pub outcome: Option<Outcome>,
    /// The module's state after the run.
    pub state: Option<State>,
    /// The thread's clock at the end.
    pub end: Option<Clock>,
    /// The step in which it started.
    pub started: u64,
    /// The step in which it ended.
    pub ended: Option<u64>,
}

// Written out, so that dropping one is one step of a proof (docs/PROOFS.md, "Cost").
impl Drop for RunRecord {
    fn drop(self) {
        let RunRecord {
            path: _,
            root: _,
            procedure: _,
            arguments: _,
            entry: _,
            asks: _,
            outcome: _,
            state: _,
            end: _,
            started: _,
            ended: _,
        } = self;
    }
}

/// The runs of a member, in order.
pub type RunRecords = ListOf<RunRecord>;

/// What a member performed, and its state now.
#[derive(Debug, Drop)]
pub struct MemberRecord {
    /// How far it is on its way into its troupe.
    pub phase: Joiner,
    /// The first index that it performs.
    pub from: u32,
    /// The step in which it became active.
    pub active_at: u64,
    /// The index that it performs next.
    pub count: u32,
    /// The runs from the first index on.
    pub runs: RunRecords,
    pub state: State,
}

impl Duplicate for AskRecord {
    fn copy(&self) -> Result<Self, NoMemory> {
        Ok(AskRecord {
            callee: self.callee,
            index: self.index,
            procedure: self.procedure,
            arguments: self.arguments.copy()?,
            state: self.state.copy()?,
            reply: self.reply.copy()?,
            after: self.after.copy()?,
            asked: self.asked,
            answered: self.answered,
        })
    }
}

impl Duplicate for RunRecord {
    fn copy(&self) -> Result<Self, NoMemory> {
        Ok(RunRecord {
            path: self.path.copy()?,
            root: self.root,
            procedure: self.procedure,
            arguments: self.arguments.copy()?,
            entry: self.entry.copy()?,
            asks: self.asks.copy()?,
            outcome: self.outcome.copy()?,
            state: self.state.copy()?,
            end: self.end.copy()?,
            started: self.started,
            ended: self.ended,
        })
    }
}

impl Duplicate for MemberRecord {
    fn copy(&self) -> Result<Self, NoMemory> {
        Ok(MemberRecord {
            phase: self.phase.copy()?,
            from: self.from,
            active_at: self.active_at,
            count: self.count,
            runs: self.runs.copy()?,
            state: self.state.copy()?,
        })
    }
}
