//! A program on simulated machines: all its nodes, everything that they have sent, and which of them have crashed.
//!
//! `world` has the world, its boot and its step; `slot` a node in it, and `sent` what was sent. `legal` says which lines of a
//! schedule may be stepped, by `cause`, and `laws` has what holds of every world that lines lead to.
#![tactic(auto)]

mod cause;
mod laws;
mod legal;
mod sent;
mod slot;
mod world;

pub use cause::LineCause;
pub use circus_schedule::{Line, Lines};
pub use laws::{
    datagrams_go_between_nodes, steps_never_fall, what_was_sent_stays, worlds_depend_on_behaviours,
};
pub use legal::is_spare;
pub use sent::{Sent, SentList};
pub use world::{BootFault, World, WorldFault};
