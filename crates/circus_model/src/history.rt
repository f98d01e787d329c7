// The record of an unreplicated execution.
use circus_value::{Clock, Duplicate, ListOf, NoMemory, Outcome, Path, State, Values};

/// A call that a run made, with its reply.
#[derive(Debug, Drop)]
pub struct Ask {
    pub callee: u16,
    /// How many calls to the callee the thread had made before.
    pub index: u32,
    pub procedure: u16,
    pub arguments: Values,
    /// The caller's state as it asked.
    pub state: State,
    pub reply: Outcome,
    /// The thread's clock after the call.
    pub after: Clock,
}

/// The calls of a run, in the order in which it made them.
pub type Asks = ListOf<Ask>;

/// One execution of a procedure, from its entry to its end.
#[derive(Debug, Drop)]
pub struct Run {
    /// The ask numbers from the root down, none for the root's own run.
    pub path: Path,
    pub root: u16,
    pub procedure: u16,
    pub arguments: Values,
    /// The thread's clock at entry.
    pub entry: Clock,
    pub asks: Asks,
    pub outcome: Outcome,
    /// The module's state after the run.
    pub state: State,
    /// The thread's clock at the end.
    pub end: Clock,
}

/// The runs of a module, in order.
pub type Runs = ListOf<Run>;

/// The runs of each module, in module order.
pub type History = ListOf<Runs>;

impl Duplicate for Ask {
    fn copy(&self) -> Result<Self, NoMemory> {
        Ok(Ask {
            callee: self.callee,
            index: self.index,
            procedure: self.procedure,
            arguments: self.arguments.copy()?,
            state: self.state.copy()?,
            reply: self.reply.copy()?,
            after: self.after.copy()?,
        })
    }
}

impl Duplicate for Run {
    fn copy(&self) -> Result<Self, NoMemory> {
        Ok(Run {
            path: self.path.copy()?,
            root: self.root,
            procedure: self.procedure,
            arguments: self.arguments.copy()?,
            entry: self.entry.copy()?,
            asks: self.asks.copy()?,
            outcome: self.outcome.copy()?,
            state: self.state.copy()?,
            end: self.end.copy()?,
        })
    }
}
