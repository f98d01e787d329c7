//! Calls that come in from the members of troupes: which are answered at once, which are held, and which starts.
//!
//! `held` has a call that waits, `call_value` what is compared of it, `expectation` who is expected to make it and
//! `group` which calls are answered together. `waiting` has all calls that wait, in `slots` in order of arrival and
//! found by index through `places`. `added` has what a call gets at once, and `gather` what a member keeps of the
//! calls to it.
#![tactic(auto)]

mod added;
mod call_value;
mod expectation;
mod gather;
mod group;
mod held;
mod places;
mod slots;
mod waiting;

pub use added::Added;
pub use gather::Gather;
pub use held::HeldCall;
