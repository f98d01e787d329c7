//! One call to every member of a troupe: who was sent it, who answered what, and what follows.
//!
//! `asked` has who was sent the call and what became of it, `send` what is to be done next, and `fanout` the call
//! with its replies.
//!
//! What a member knows of the troupes: their views, which nodes are down, and which later views it wants.
//!
//! `known` keeps it, and `laws` says what it is after every list of notices.
#![tactic(auto)]

mod asked;
mod fanout;
mod known;
mod laws;
mod send;

pub use fanout::Fanout;
pub use known::{Known, Want, Wants};
pub use laws::{down_are_declared, views_are_the_highest, wanted_are_the_greatest};
pub use send::{Next, Send, Sends, Watched};
