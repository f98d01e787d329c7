//! A node that is served over a link: its real datagrams, its time, what happened to it, and the text of that.
//!
//! `record` serves a node and has its record, or a fault of `fault`; `serving` has the node meanwhile. `happening` says what
//! happens to it, and `log` has what happened so far: the plain run of the node over what the link tells, and what it gives to
//! the link. `peers` says which node a port is of, and `giving` gives to the link. `laws` has what holds of every record.
//!
//! `text` has the text of a record: `happening_lines` the lines of what happened, and `differ` those of replies that differ.
#![tactic(auto)]

mod differ;
mod fault;
mod giving;
mod happening;
mod happening_lines;
mod laws;
mod log;
mod peers;
mod record;
mod serving;
mod text;

pub use fault::ServeFault;
pub use happening::{Happening, Happenings};
pub use laws::{events_are_the_nodes, records_have_all_takes, spares_are_told_to_join};
pub use log::Log;
pub use peers::{peer_at, port_of};
pub use record::{NodeRecord, serve};
pub use text::show_node;
