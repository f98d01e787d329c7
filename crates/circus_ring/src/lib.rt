//! The Ringmaster: a view of each troupe, changed by requests.
//!
//! `requests` has how one view is changed, `ring` the views of all troupes, and `tables` the bytes of what is answered.
//! `laws` has what holds of the views after every list of requests, and of the bytes of tables.
#![tactic(auto)]

mod laws;
mod requests;
mod ring;
mod tables;

pub use laws::{
    answers_show_the_views, no_table_begins_another, one_table, tables_are_read,
    views_are_of_their_troupes,
};
pub use ring::Ring;
pub use tables::{read_table, write_table};
