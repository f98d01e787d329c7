//! Records of nodes, read back from their texts.
//!
//! `given` has what a record says, and `fault` why a text is none. `record` reads a record line by line, `stage` has how
//! far it is read and `staging` how it goes on by a line, and `outlook` whether it can go on at all. `words` reads names,
//! and `values` values and outcomes by what a module declares, which `signature` finds for the node's own (`setting`).
//! `noted` has what is known of events, `events` their lines and `happening` how they follow one another; `member_line`
//! and `member_lines` have the lines of a member, and `performed` and `performing` how they do; `views` has the lines of
//! views; `differing` and `differences` have the replies that differ. `laws` has what holds of every text.
#![tactic(auto)]

mod differences;
mod differing;
mod events;
mod fault;
mod given;
mod happening;
mod laws;
mod member_line;
mod member_lines;
mod noted;
mod outlook;
mod performed;
mod performing;
mod record;
mod setting;
mod signature;
mod stage;
mod staging;
mod values;
mod views;
mod words;

pub use fault::RecordFault;
pub use given::{Given, GivenEvent, GivenEvents};
pub use laws::{
    answered_line_is_bad, no_record_goes_on, one_bad_line, read_is_text, records_have_no_bad_line,
    some_record_goes_on_before, text_is_read, text_says_one_thing,
};
pub use record::read_record;
