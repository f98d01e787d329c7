//! Values, and what belongs to a thread, read back from their texts.
//!
//! `unread` says why something isn't read. `piece` reads marks, numbers and the bytes of strings, and `reading` values by
//! their shapes. `words` reads clocks, paths and bytes, and `laws` and `word_laws`
//! have what holds of every text.
#![tactic(auto)]

mod laws;
mod piece;
mod reading;
mod unread;
mod word_laws;
mod words;

pub use laws::{read_is_shown, read_list_is_shown, shown_is_read, shown_list_is_read};
pub use piece::{behind_mark, pass, read_long, read_number, read_word};
pub use reading::{read_list, read_value};
pub use unread::Unread;
pub use word_laws::{
    asks_are_read, bytes_are_read, clock_is_read, read_asks_are_shown, read_bytes_are_shown,
    read_clock_is_shown,
};
pub use words::{read_asks, read_bytes, read_clock};
