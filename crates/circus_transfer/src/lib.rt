//! The state of a member, handed to one that joins its troupe.
//!
//! `snapshots` writes a state as a message, `restoring` reads it, `values` reads values of any shapes, `fault` says why
//! bytes are no snapshot, and `joiner` has the phases of a node on its way into a troupe. `laws` says what holds of all
//! snapshots.
#![tactic(auto)]

mod fault;
mod joiner;
mod laws;
mod restoring;
mod snapshots;
mod values;

pub use fault::TransferFault;
pub use joiner::Joiner;
pub use laws::snapshots_are_restored;
pub use restoring::restore;
pub use snapshots::snapshot;
pub use values::{end_of_values, read_values};
