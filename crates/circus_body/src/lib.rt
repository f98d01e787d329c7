//! Statements once their names are found: their faults, and the trees without names that they mean.
//!
//! `context` says what a body may name besides variables and types. `wants` has the faults of calls, and `statement`
//! resolves statements. `ending` says which lists of statements end on every path, and `laws` that what has no fault
//! means statements that are well formed.
//!
//! In `proofs/` it is said where the faults of types, expressions and statements stand in their text: at rising places
//! (`Rising.antt`), and each fault of a type (`TypesInText.antt`), of an expression (`ExpressionsInText.antt`) and of
//! statements (`StatementsInText.antt`) between where that part begins and where it ends.
#![tactic(auto)]

mod context;
mod ending;
mod laws;
mod statement;
mod wants;

pub use context::{Callee, Context, Offered, OfferedProcedures, Reported};
pub use ending::all_end;
pub use laws::faultless_are_well_formed;
pub use statement::resolve_statements;
