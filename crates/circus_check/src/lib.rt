//! Modules over interfaces: the rules that they obey, and what they mean once each name is found.
//!
//! `checked` has what is answered and `check_fault` what can be wrong. `checking` goes over the modules in order, `module` over
//! one but for its procedures, and `procedures` over these. `naming` says what the names of interfaces and modules stand
//! for, `known` those in an interface, `type_scope` those of types in a module; `variables` has the faults of variables
//! and their sizes, and `reach` which modules a root reaches.
#![tactic(auto)]

mod check_fault;
mod checked;
mod checking;
mod known;
mod laws;
mod module;
mod naming;
mod procedures;
mod reach;
mod surroundings;
mod type_scope;
mod variables;

pub use check_fault::CheckFault;
pub use checked::{
    Checked, CheckedBodies, CheckedBody, Interfaces, ResolvedModule, ResolvedModules,
};
pub use checking::check;
pub use laws::{
    faultless_are_well_formed, least_is_of_all, least_is_of_all_in_a_text, modules_are_in_order,
    reach_is_by_imports,
};
