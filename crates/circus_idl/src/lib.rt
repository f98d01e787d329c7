//! Interfaces of modules: what they hold, the rules that they obey, and their text.
//!
//! `interface` has an interface and its parts, and `idl_fault` what can be wrong with the text of one. `read`
//! reads one: `check` goes over its tree, `draft` makes the interface from it, `declarations` and `scope` keep what
//! is declared before a place, and `types` is the table of the types; `limits` has the limits, and `fault` why a text is
//! refused. `show` writes an interface, token by token in `writer`, with the names of errors in `errors_by_number`. `laws` has
//! what holds of every text that is shown, and of the tokens of every text.
#![tactic(auto)]

mod check;
mod declared;
mod draft;
mod errors_by_number;
mod fault;
mod idl_fault;
mod interface;
mod laws;
mod limits;
mod read;
mod scope;
mod show;
mod types;
mod writer;

pub use check::check as check_interface;
pub use errors_by_number::ErrorsByNumber;
pub use idl_fault::IdlFault;
pub use interface::{
    Declared, DeclaredError, DeclaredType, Errors, Interface, Procedure, Procedures,
};
pub use laws::{one_reading, one_refusal, shown_has_tokens, shown_is_read};
pub use read::read_interface;
pub use show::show_interface;
