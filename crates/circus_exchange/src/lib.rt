//! One end of an exchange of calls and returns with another node, as a state and what each act does to it.
//!
//! `series` keeps values under numbers of which most follow each other, `by_call` values in order, `held` the parts of
//! messages; `progress` is how far a message has come, and `advance` how far a segment brings it. `inbox` keeps messages
//! of one kind that come in, `outbox` those that are sent, and `exchange` puts both directions together. `taken` is what
//! its calls answer.
#![tactic(auto)]

mod advance;
mod by_call;
mod exchange;
mod held;
mod inbox;
mod outbox;
mod progress;
mod series;
mod taken;

pub use advance::Advance;
pub use by_call::ByCall;
pub use exchange::{Exchange, NEVER_USED, PATIENCE, WINDOW};
pub use inbox::Inbox;
pub use outbox::Outbox;
pub use progress::Progress;
pub use taken::{Arrived, Taken, Ticked};
