//! The picture of a run: a row for each line of a schedule and for what members did in its step, with a column for each
//! node.
//!
//! `row` draws the columns of a row, `label` tells what a datagram is called, and `deeds` has what members did, by steps.
//! `rows` makes the rows, and `picture` puts them one by one; `procedures` has the procedures of each module by their names.
#![tactic(auto)]

mod deeds;
mod label;
mod picture;
mod procedures;
mod row;
mod rows;

pub use picture::put_picture;
pub use procedures::{ModuleProcedures, procedures_in};
