//! Statements as they are written, with the places of what stands in them, and their reading from tokens.
//!
//! `statement` has the trees. `reading` reads statements, `part_reading` what they are made of, `seeing` tells what
//! the next token begins, and `starts` names what a statement begins with. `laws` has what holds of every list of tokens.
#![tactic(auto)]

mod laws;
mod part_reading;
mod reading;
mod seeing;
mod starts;
mod statement;

use circus_expression::PlaceText;
use circus_value::ListOf;
pub use laws::{
    a_stop_is_filled_in, read_are_statements, statements_are_read, stops_at_the_too_deep,
    stops_at_the_unexpected,
};
pub use reading::statements_text;
pub use starts::StatementStart;
pub use statement::{CallText, Handler, Handlers, IntoText, Statement, StatementKind, Statements};

/// Places in order.
pub type PlaceTexts = ListOf<PlaceText>;
