//! What comes of serving a node of a program.
//!
//! `named` finds a node by its name, and `served` serves one. `laws` has that this depends on what its module does alone.
#![tactic(auto)]

mod laws;
mod named;
mod served;

pub use laws::serving_depends_on_behaviours;
pub use named::{no_node, node_named};
pub use served::serve_node;
