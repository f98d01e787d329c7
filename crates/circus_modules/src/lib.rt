//! The modules of a checked program, as they run.
//!
//! `zero` has what variables are at first. `procedures` has what an interface declares of the modules that implement it, with
//! shapes and without names, and `signature` what modules declare; `text_modules` makes the modules.
#![tactic(auto)]

mod procedures;
mod signature;
mod text_modules;
mod zero;

pub use procedures::{procedures_of, shapes_of};
pub use signature::{interface_numbers, signature_of};
pub use text_modules::modules_of;
