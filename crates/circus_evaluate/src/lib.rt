//! What expressions give, and parts of values.
//!
//! `evaluate` has what expressions give and the steps that suffixes are, `got` what is given and what stops an expression,
//! `number` what is calculated of numbers and what they are as one of a kind, and `part` parts of values: the steps that lead
//! to them, and what is put there. `laws` has what holds of every expression.
#![tactic(auto)]

mod evaluate;
mod got;
mod laws;
mod number;
mod part;

pub use evaluate::{evaluate_all, given_in, steps_of, truth_in};
pub use got::{Given, Got, NoValue};
pub use laws::expressions_give_their_sorts;
pub use number::as_kind;
pub use part::{Put, Step, part_at, put_item};
