//! Program files: which plan each of them means, and the line and the cause of the refusal of every other one.
//!
//! `read` goes over a file in three passes: its tokens, the interfaces with their rules in `interfaces`, and the modules and
//! the deployment in `checking`. `told` says how each fault is told; `least` keeps the least of them, and refuses a file for
//! it. `plan` has what a file means, `program_fault` why one is refused, and `laws` what holds of every file.
#![tactic(auto)]

mod checking;
mod interfaces;
mod laws;
mod least;
mod plan;
mod program_fault;
mod read;
mod told;

pub use laws::{answer_is_least, one_answer, one_reading, programs_are_plans};
pub use plan::{ModuleNames, Plan};
pub use program_fault::{ProgramCause, ProgramFault};
pub use read::read_program;
