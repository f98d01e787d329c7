//! The top call: words in, status out, over a shelf, a sink and a link.
//!
//! `words` reads the command line, and `answer` fetches and decides. `second` says what a second file is, and `shown` tells a report
//! from a picture. `ready` boots the world of a replay, `replay` runs it, `drawing` draws it, `end_of_lines` puts what ends it too early,
//! and `schedule_refused` says why a line is refused. `history` puts what a program performs unreplicated. `audited` audits a
//! record. `put` writes, and `call` is the top call itself.
//! `laws` says what holds of all words and files.
#![tactic(auto)]

mod answer;
mod audited;
mod call;
mod drawing;
mod ended;
mod history;
mod laws;
mod put;
mod ready;
mod replay;
mod schedule_refused;
mod second;
mod shown;
mod words;

pub use call::circus;
pub use circus_commands::Status;
pub use laws::{
    audits_accept_served_nodes, copies_agree, ends_are_of_worlds, ends_tell_why,
    lines_are_replayed, one_thing_is_due, pictures_are_of_worlds, promises_are_kept,
    reports_are_of_worlds, served_ends_are_node_runs,
};
pub use words::{CommandForm, read_words};
