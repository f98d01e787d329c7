//! What Circus sees of the world outside: a shelf of files that are fetched by name, a sink that takes
//! what is written, and a link that carries datagrams. Each is a trait with a meaning, told where the
//! world tells it, and with a count of faults.
//!
//! - `shelf`, `sink` and `link` have the traits.
//! - `mem_shelf`, `mem_sink` and `mem_link` have forms in memory, whose listed calls fail. `calls` counts
//!   their calls, `file` has the files of a shelf, and `arrival` the datagrams of a link.
//! - `sure_shelf` and `sure_sink` have forms in memory that never fail.
//! - `streams` reads contents from any reader and gives pieces to any writer; `dir_shelf` and `std_sink` do so
//!   with the real files and the standard output.
//! - `udp_link` carries real datagrams.
#![tactic(auto)]

mod arrival;
mod calls;
mod dir_shelf;
mod file;
mod link;
mod mem_link;
mod mem_shelf;
mod mem_sink;
mod shelf;
mod sink;
mod std_sink;
mod streams;
mod sure_shelf;
mod sure_sink;
mod udp_link;

pub use arrival::{Arrival, Arrivals};
pub use calls::Failing;
pub use dir_shelf::DirShelf;
pub use file::{File, FileNames, Files};
pub use link::{Link, LinkFault, TakenFrom};
pub use mem_link::MemLink;
pub use mem_shelf::MemShelf;
pub use mem_sink::MemSink;
pub use shelf::{Shelf, ShelfFault};
pub use sink::{Sink, SinkFault};
pub use std_sink::StdSink;
pub use streams::{LONGEST_CONTENTS, read_contents, write_piece};
pub use sure_shelf::SureShelf;
pub use sure_sink::SureSink;
pub use udp_link::UdpLink;
