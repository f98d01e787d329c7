//! Program files as they are written, with the places of what stands in them, and their reading from tokens.
//!
//! `program_text` has the tree of a whole file. `reading` reads it, and `laws` has what holds of every list of tokens.
#![tactic(auto)]

mod laws;
mod program_text;
mod reading;

use circus_syntax::InterfaceText;
use circus_value::ListOf;
pub use laws::{
    a_stop_is_filled_in, one_program, programs_are_read, read_is_a_program, stops_at_the_too_deep,
    stops_at_the_unexpected,
};
pub use program_text::{Format, ProgramText};
pub use reading::program;

/// Interfaces in order.
pub type InterfaceTexts = ListOf<InterfaceText>;
