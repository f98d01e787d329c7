//! A node of a program as a pure machine: datagrams, ticks, declarations and the order to join come in, and datagrams go
//! out.
//!
//! `event` has what comes to a node and what it gives, `node_core` the node and its step. `acting` is what the node does, a
//! member or the Ringmaster, and what it makes of what happens; `home` says which of them it is. `sending` hands what is
//! made to the pairs, and `station` has these. `laws` has what holds of nodes at boot, and of a member over every list of
//! what happens to it; `behaviour_laws` that what a node does depends on what its module does, and on nothing else of the
//! module.
//!
//! Which messages are accepted: `accepting` tests what a member hears, of `calls_accepted` and `returns_accepted`, by the
//! headers that `heads` reads and the values that `bodies` reads; `program` says what a node knows of the program.
#![tactic(auto)]

mod accepting;
mod acting;
mod behaviour_laws;
mod bodies;
mod calls_accepted;
mod event;
mod heads;
mod home;
mod laws;
mod node_core;
mod program;
mod returns_accepted;
mod sending;
mod station;

pub use accepting::{accept, accept_by_record};
pub use acting::answer_request;
pub use behaviour_laws::{boots_depend_on_behaviours, steps_depend_on_behaviours};
pub use calls_accepted::accept_request;
pub use circus_member_rules::Difference;
pub use event::{Differences, Event, Give, Gives, Outputs, StepFault};
pub use home::{Home, home_of};
pub use laws::{all_nodes_may_boot, members_know_what_they_noticed};
pub use node_core::NodeCore;
pub use program::troupe_at;
pub use sending::{add_all_gives, add_gives, hand_all};
