//! What is said of a record of a node: whether it is a run of the node, and whether what its member performed is what the
//! program performs when nothing is replicated.
//!
//! `verdict` says it of a program, and `node` of modules that agree: boot and joins stand where they may (`shape`), and the
//! events are lived through one by one, as the definitions say of a member (`member`, `living`) or of the Ringmaster (`ring`):
//! what comes at the pairs (`station`), what is owed for it, and whether the record tells that (`telling`). No node is run.
//! The runs of an active member are laid beside those of the history (`beside`). `same` and `same_records` tell which data
//! are the same. `laws` has what holds of every record.
#![tactic(auto)]

mod beside;
mod laws;
mod living;
mod member;
mod node;
mod ring;
mod same;
mod same_records;
mod shape;
mod station;
mod telling;
mod verdict;

pub use laws::there_is_one_verdict;
pub use verdict::{Verdict, audit};
