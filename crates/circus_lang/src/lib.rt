//! Modules and roots as they are written, with the places of what stands in them, and their reading from tokens.
//!
//! `module_text` has the trees. `module_reading` reads what they are made of, and `read` a whole one from a token of a
//! text on; `lang_fault` says what can be wrong there. `laws` has what holds of every list of tokens.
#![tactic(auto)]

mod lang_fault;
mod laws;
mod module_reading;
mod module_text;
mod read;

pub use circus_expression::{
    Expression, ExpressionKind, Expressions, Operand, Operator, PlaceText, Suffix, Suffixes,
};
pub use circus_statement::{
    CallText, Handler, Handlers, IntoText, PlaceTexts, Statement, StatementKind, Statements,
};
use circus_value::ListOf;
pub use lang_fault::LangFault;
pub use laws::{
    a_stop_is_filled_in, modules_are_read, one_module, read_is_a_module, stops_at_the_too_deep,
    stops_at_the_unexpected,
};
pub use module_reading::{begins_module, module_or_root};
pub use module_text::{ModuleText, ProcedureText, VariableText};
pub use read::{ReadModule, read_module, read_module_text};

/// Variables in order.
pub type VariableTexts = ListOf<VariableText>;

/// Procedures in order.
pub type ProcedureTexts = ListOf<ProcedureText>;

/// Modules in order.
pub type ModuleTexts = ListOf<ModuleText>;
