//! Expressions and places as they are written, with the places of what stands in them, and their reading
//! from tokens.
//!
//! `operator` has what joins two expressions, `expression` the trees, `reading` their reading, `seeing` what the
//! next token is, and `starts` what a primary begins with. `laws` has what holds of every list of tokens.
#![tactic(auto)]

mod expression;
mod laws;
mod operator;
mod reading;
mod seeing;
mod starts;

pub use expression::{
    Expression, ExpressionKind, Expressions, Operand, PlaceText, Suffix, Suffixes,
};
pub use laws::{
    a_stop_is_filled_in, expressions_are_read, read_is_an_expression, stops_at_the_too_deep,
    stops_at_the_unexpected,
};
pub use operator::{Chain, Operator};
pub use reading::{expression_text, list_text, place_text};
pub use starts::PrimaryStart;
