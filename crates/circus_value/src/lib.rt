//! The values of Circus, the shapes that they fit, and the lists that all crates share.
//!
//! `list_of` has the one list type, `value` and `shape` the two trees, `text` the bytes of a text, `outcome` what a
//! procedure ends with, `caller` who made a call. `among` looks for a number in a list and `name_index` for a name, `words` spells the lists of a
//! shape so that two are compared at once, `duplicate` has the copies of plain data and `equality` what is equal.
//! `fitting` tests a value against a shape, `size` counts a value's bytes in external form, `parts` has bytes that are
//! shared in parts, `tail` those behind the first part, and `shown` and `thread_text` the texts of values, outcomes,
//! clocks and paths.
#![tactic(auto)]

mod among;
mod caller;
mod duplicate;
mod equality;
mod fitting;
mod list_of;
mod name_index;
mod outcome;
mod parts;
mod shape;
mod shown;
mod size;
mod tail;
mod text;
mod thread_text;
mod value;
mod words;

pub use among::{has_label, is_among};
pub use caller::{Caller, Callers};
pub use duplicate::Duplicate;
pub use equality::equal_is_the_same;
pub use fitting::fits;
pub use list_of::ListOf;
pub use outcome::Outcome;
pub use parts::Parts;
pub use shape::{Arm, Arms, Element, Field, Fields, Label, Labels, Shape};
pub use shown::{append_list, show};
pub use size::{external_size, values_size};
pub use text::Text;
pub use thread_text::{ClockText, PathText, name_text};
pub use value::{Chosen, Value, Values, ValuesBuilder};

/// Want of memory.
pub type NoMemory = std::alloc::AllocError;

/// Bytes of a name.
pub type Name = ListOf<u8>;

/// Bytes of a text.
pub type Octets = ListOf<u8>;

/// Bytes of a datagram, a message or a file.
pub type Message = ListOf<u8>;

/// Numbers of nodes.
pub type Nodes = ListOf<u16>;

/// Numbers of modules, procedures, errors, ports or machines.
pub type Numbers = ListOf<u16>;

/// The numbers of asks from a root down.
pub type Path = ListOf<u16>;

/// For each module, how many calls a thread has made to it.
pub type Clock = ListOf<u32>;

/// Shapes in order.
pub type Shapes = ListOf<Shape>;

/// One value for each variable of a module.
pub type State = Values;
