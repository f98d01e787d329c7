// One step of an execution.
use circus_value::{Outcome, State, Values};

/// What an execution does next: it asks another module and pauses, or it ends.
/// `state` is the module's state at that moment.
#[derive(Debug, Drop)]
pub enum Turn<P> {
    Asks {
        callee: u16,
        procedure: u16,
        arguments: Values,
        state: State,
        paused: P,
    },
    Ends {
        outcome: Outcome,
        state: State,
    },
}
