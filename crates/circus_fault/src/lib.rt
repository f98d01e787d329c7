//! What the checks of texts share: the least fault, and tables of what stands before a place.
//!
//! `fault` keeps the least of the faults that are found, whose causes and their order are the caller's; a stop of
//! reading is one of them. `tables` has names with their numbers, and numbers, each filled from the front of a text on.
#![tactic(auto)]

mod fault;
mod tables;

pub use fault::{Best, Cause, Fault};
pub use tables::{Names, NumberSet};
