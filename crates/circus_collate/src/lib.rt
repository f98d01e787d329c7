//! Troupes and their views, and the rules by which one value is taken from what several members said.
//!
//! `deployment` has the troupes and nodes of a program, `view` who is a member of a troupe, `table` what the
//! Ringmaster answers. `kind` names the rules, `expectation` says whose word counts for a value, `giving` which
//! value is given and `collating` what that comes to; `laws` has what holds of every list of what was said.
#![tactic(auto)]

mod collating;
mod deployment;
mod expectation;
mod giving;
mod kind;
mod laws;
mod table;
mod view;

pub use collating::{Collated, collate};
pub use deployment::{Deployment, Host, Hosts, Troupe, Troupes};
pub use expectation::Expectation;
pub use giving::{Said, place_given};
pub use kind::Kind;
pub use laws::{
    equal_values_do_not_differ, given_values_stay, given_values_were_said,
    values_are_given_by_votes,
};
pub use table::{RingResult, Table};
pub use view::{Entries, Entry, Expected, Since, View, Views};
