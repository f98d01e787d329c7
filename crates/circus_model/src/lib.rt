//! What a module is to Circus, and what a program does when nothing is replicated.
//!
//! `turn` has one step of an execution, `signature` what a module declares, `module` the trait with its laws,
//! `language_error` the errors that need no report, `clock` when a thread has made all its calls, `history` the record of
//! an unreplicated execution, `alone` makes that record, and `laws` has what holds of every such record.
#![tactic(auto)]

mod alone;
mod clock;
mod history;
mod language_error;
mod laws;
mod module;
mod signature;
mod turn;

pub use alone::run_alone;
pub use clock::is_spent;
pub use history::{Ask, Asks, History, Run, Runs};
pub use language_error::LanguageError;
pub use laws::{
    asks_make_runs, clocks_never_fall, histories_have_all_modules, one_root_runs_a_module,
    paths_are_short, paths_name_runs, roots_run_once, runs_are_asked_for, runs_follow_turns,
};
pub use module::Module;
pub use signature::{
    ErrorShape, ErrorShapes, Import, Imports, ProcedureShape, ProcedureShapes, Signature,
    procedure_numbered,
};
pub use turn::Turn;
