//! Schedules as they are read, and the lines that are drawn for a sample.
//!
//! `line` has what a line asks for, `schedule_fault` why a schedule is refused. `read` reads a schedule line by line:
//! `written` reads a line with the names of nodes in it, `decimal` a number and `cut` what stands before and behind a byte;
//! `node_numbers` finds nodes by their names. `sample` draws lines, and `laws` has what holds of every text.
#![tactic(auto)]

mod cut;
mod decimal;
mod laws;
mod line;
mod node_numbers;
mod read;
mod sample;
mod schedule_fault;
mod written;

pub use decimal::decimal_at_most;
pub use laws::{lines_are_read_back, nodes_are_named, one_answer, one_spelling, written_is_read};
pub use line::{Line, Lines};
pub use read::{MOST_LINES, read_schedule};
pub use sample::{Facts, next_word, sample_line};
pub use schedule_fault::ScheduleFault;
