//! What a member did, and its text.
//!
//! `record` has what a member keeps of its runs and their asks. `line` has the lines of runs and asks, with the steps in
//! which they came or without them, which `append` adds to a text piece by piece, `naming` what nodes and modules are called,
//! and `text` the lines of a member.
#![tactic(auto)]

mod append;
mod line;
mod naming;
mod record;
mod text;

pub use line::{AskLine, EndLine, ReplyLine, RunLine};
pub use naming::{Naming, ProgramNames, node_name};
pub use record::{AskRecord, AskRecords, MemberRecord, RunRecord, RunRecords};
pub use text::{MemberText, show_member};
