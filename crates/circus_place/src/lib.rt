//! The best choice of machines for the members of a troupe, and the reading of what is asked for.
//!
//! A placing (`placing`) has machines with their attributes, and a condition on those that are chosen (`condition`). `read`
//! reads a text: `text` has a placing as it is written, which `reading` reads from tokens, with the help of `value_reading`
//! and `condition_reading`; `start` says what the next token begins, and `words` which words name nothing. `check` finds the
//! least fault of it, and `meaning` makes the placing that it means. `place_fault` has what can be wrong with a text, and
//! `laws` says what holds of every text.
//!
//! `choice` answers the best choice. `search` goes through the choices, members in order, and leaves those that can't be the
//! best. `test` has the condition as it is asked there and `relation` what holds of each two machines; `compile` makes them,
//! and `attributes` has the attributes of a machine by their names.
#![tactic(auto)]

mod attributes;
mod check;
mod choice;
mod compile;
mod condition;
mod condition_reading;
mod laws;
mod meaning;
mod place_fault;
mod placing;
mod read;
mod reading;
mod relation;
mod search;
mod start;
mod test;
mod text;
mod value_reading;
mod words;

pub use choice::{Placement, place};
use circus_value::ListOf;
pub use condition::{Comparison, Condition, Operand};
pub use laws::one_refusal;
pub use place_fault::{PlaceCause, PlaceFault};
pub use placing::{Attribute, Constant, Machine, Placing};
pub use read::read_place;
pub use text::{AttributeText, ConditionText, ConstantText, MachineText, OperandText, PlacingText};

/// Machines in the order of the text, numbered from 0.
pub type Machines = ListOf<Machine>;

/// The attributes of a machine, in the order of the text.
pub type Attributes = ListOf<Attribute>;

/// Machines as they are written.
pub type MachineTexts = ListOf<MachineText>;

/// Attributes as they are written.
pub type AttributeTexts = ListOf<AttributeText>;
