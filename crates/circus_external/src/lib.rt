//! Values in external form: the bytes of a value, and the value that bytes spell.
//!
//! `source` has what bytes are read from, `piece` the numbers and strings that values are spelled with, and
//! `reading` the values; `calls` has what reads bytes in one piece and in parts. `writing` spells values, `proper`
//! tells which shapes have values in all their parts, `fault` says why bytes are no value, and `laws` what holds of
//! every shape.
#![tactic(auto)]

mod calls;
mod fault;
mod laws;
mod piece;
mod proper;
mod reading;
mod source;
mod writing;

pub use calls::{read, read_parts};
pub use fault::ExternalFault;
pub use laws::{
    no_spelling_begins_another, one_answer, read_is_spelled, reading_answers, spelled_is_read,
    spellings_are_counted, spellings_are_octets,
};
pub use piece::{read_long, read_word, write_content, write_long, write_word};
pub use proper::is_proper;
pub use reading::{read_fields, read_from};
pub use source::{ByteSource, copy_range, long_at, word_at};
pub use writing::{write, write_all};
