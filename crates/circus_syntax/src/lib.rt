//! Syntax trees of interfaces, with the places of what stands in them, and their reading from tokens.
//!
//! `named` has names and numbers with their places, `type_text` types and the lists that they are made of,
//! and `interface_text` what an interface declares. `token_reader` has the reader of tokens, which `reading`
//! teaches types and `interface_reading` interfaces; `stopping` says where one stopped, and `reserved` which
//! words are no names. `laws` has what holds of every list of tokens.
#![tactic(auto)]

mod interface_reading;
mod interface_text;
mod laws;
mod named;
mod reading;
mod reserved;
mod stopping;
mod token_reader;
mod type_text;

use circus_value::ListOf;
pub use interface_reading::{MOST_LEVELS, Read, read_interface_text};
pub use interface_text::{DeclaredText, ErrorText, FieldsText, InterfaceText, ProcedureText};
pub use laws::{
    a_stop_is_filled_in, interfaces_are_read, one_filling, one_interface, read_is_an_interface,
    stops_at_the_too_deep, stops_at_the_unexpected, text_has_tokens,
};
pub use named::{LabelText, Named, Numeral, TypeName};
pub use reserved::{is_one_of, is_reserved_word};
pub use stopping::{Stop, StopCause};
pub use token_reader::Reader;
pub use type_text::{ArmText, ArmTexts, ElementText, GroupText, GroupTexts, TypeKind, TypeText};

/// Names in order, each with its place.
pub type Nameds = ListOf<Named>;

/// Labels of an enumeration, in order.
pub type LabelTexts = ListOf<LabelText>;

/// What an interface declares, in order.
pub type DeclaredTexts = ListOf<DeclaredText>;
