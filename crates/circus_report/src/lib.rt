//! The text of a replay: what was sent, the Ringmaster's views, and what the members did.
//!
//! `sent` has the lines of what was sent, which `fill` writes piece by piece, `views` those of the Ringmaster and its views,
//! and `text` the others.
//!
//! A replay that writes its report as it goes.
//!
//! `put` offers texts to a sink line by line, and `running` has the replay.
#![tactic(auto)]

mod fill;
mod put;
mod running;
mod sent;
mod text;
mod views;

pub use put::{PutFault, put_lines};
pub use running::{RunFault, Running};
pub use text::{REPORT, show_report, show_rest, show_sent};
pub use views::{RingmasterLine, ViewsText};
