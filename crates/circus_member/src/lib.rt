//! A member of a troupe as a state machine over accepted messages.
//!
//! `member_state` has what a member is, `doing` a step so far, and `member` the member, which rests between steps.
#![tactic(auto)]

mod doing;
mod member;
mod member_state;

pub use member::Member;
