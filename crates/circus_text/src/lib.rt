//! The tokens of a text: words, numbers, strings and signs, or the first fault of a text that has one; and on which line a
//! place of it stands.
//!
//! `token` has a token and its kinds, and `lex_fault` the faults. `scan` reads a text, `front` finds what
//! stands at the front of one, `byte_class` tells what a byte can begin, and `number` reads digits. `laws` has
//! what holds of every text. `lines` counts lines; that words are ASCII, so that names of a text can be written, is a lemma
//! beside it.
#![tactic(auto)]

mod byte_class;
mod front;
mod laws;
mod lex_fault;
mod lines;
mod number;
mod scan;
mod token;

use circus_value::ListOf;
pub use laws::{decimal_numbers, one_answer, spaced_tokens, tokens_lie};
pub use lex_fault::LexFault;
pub use lines::line_at;
pub use scan::tokens;
pub use token::{Token, TokenKind};

/// How many bytes a text has at most.
pub const LONGEST_TEXT: usize = 1_048_576;

/// The tokens of a text, in the order in which they stand there.
pub type TokenList = ListOf<Token>;
