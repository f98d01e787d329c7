// How a run is entered.
use circus_value::{Clock, Path, Values};

/// What a run performs: the procedure and its arguments, on which path of which root's thread, and with which clock.
#[derive(Debug, Drop)]
pub struct RunStart {
    pub root: u16,
    /// The ask numbers from the root down, none for the root's own run.
    pub path: Path,
    pub procedure: u16,
    pub arguments: Values,
    /// The thread's clock at entry, which counts this call.
    pub clock: Clock,
}
