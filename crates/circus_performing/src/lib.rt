//! What a member performs: the module that it hosts, its record, and the run that waits.
//!
//! `start` has how a run is entered, `run` what becomes of a run under way, `record` what becomes of the member's record,
//! and `performer` the member. `laws` says what holds of a record after every list of acts.
#![tactic(auto)]

mod laws;
mod performer;
mod record;
mod run;
mod start;

pub use laws::records_are_kept;
pub use performer::Performer;
pub use start::RunStart;
