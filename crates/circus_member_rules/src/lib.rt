//! The rules of a member of a troupe, one by one: what it makes of each thing that happens to it.
//!
//! `occurrence` has what happens to a member, and what it makes of that; `place` where it stands. `calls_in` has what is
//! made of calls that come in, `calls_out` what of asks, `open_asks` those that aren't closed, `closing` which of them a
//! step closes, and `joining` what is asked of the Ringmaster and of other members. `arguments` says what bytes spell, and
//! `messages` has the bytes that are sent.
//!
//! A step of a member of a troupe, plainly: its state, what happens to it, and what it is behind that.
//!
//! `specs/Step.antt` says what a step is, rule by rule, and `specs/Seen/Sound.antt` what every step keeps; the proofs are of
//! these alone. `running` has what a member's record shows of its runs.
#![tactic(auto)]

mod arguments;
mod calls_in;
mod calls_out;
mod closing;
mod joining;
mod messages;
mod occurrence;
mod open_asks;
mod place;
mod running;

pub use arguments::arguments_in;
pub use calls_in::{answer_all, begin_at, take_call, take_state_request};
pub use calls_out::{calls_of_ask, value_of_ask};
pub use closing::{Concern, close_by, concern_of};
pub use joining::{ask_for_states, givers, look_up, request_to_ring, tell_gone};
pub use messages::{body_of, reply_message};
pub use occurrence::{AskName, Difference, Effect, Effects, Occurrence, Purpose};
pub use open_asks::OpenAsks;
pub use place::{Beginning, Place};
pub use running::{
    header_of_ask, index_of_last, is_idle, main_start, name_of_last, name_of_open, reply_of_run,
    start_of_call,
};
