// What single lines of a member say.
use circus_transfer::Joiner;
use circus_value::{Clock, Path, Values};

/// What the first line says: that the member isn't active; or from which call on it is, since which step, and its count.
#[derive(Drop)]
pub(crate) enum Phase {
    Apart(Joiner),
    Active(u32, u64, u32),
}

/// Where a run was entered: the step, the root, and the asks from there on.
#[derive(Drop)]
pub(crate) struct Entered {
    pub started: u64,
    pub root: u16,
    pub path: Path,
}

/// What a run performs, with the thread's clock at entry.
#[derive(Drop)]
pub(crate) struct Performs {
    pub procedure: u16,
    pub entry: Clock,
    pub arguments: Values,
}

/// Whom an ask asks, in which step, and its index.
#[derive(Clone, Copy, Drop)]
pub(crate) struct Asked {
    pub asked: u64,
    pub callee: u16,
    pub index: u32,
}

/// The step and the thread's clock of a reply, or of the end of a run.
#[derive(Drop)]
pub(crate) struct After {
    pub step: u64,
    pub clock: Clock,
}
