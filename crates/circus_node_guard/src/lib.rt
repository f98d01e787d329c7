//! A node that tests what comes to it, for those who drive nodes by hand.
#![tactic(auto)]

mod node;

pub use node::{GuardFault, GuardedNode};
