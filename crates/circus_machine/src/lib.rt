//! Bodies of procedures run: what an execution does next is what the language means.
//!
//! `body` has bodies that are started and resumed, `code` the flat list of instructions that a body becomes, `run` goes
//! through it until the execution asks or ends, `execution` what each instruction does, and `store` the variables with
//! their sizes. `text` has modules whose procedures have bodies, `tally` a module that is no text, and `laws` what holds of
//! every body. What expressions give is `circus_evaluate`.
#![tactic(auto)]

mod body;
mod code;
mod execution;
mod laws;
mod run;
mod store;
mod tally;
mod text;

pub use body::Body;
pub use laws::{code_does_what_it_means, stored_values_keep_shapes};
pub use run::Paused;
pub use tally::{Tally, Unused};
pub use text::{Bodies, TextModule, Waiting};
