//! Stubs: flat lists of marshalling operations, compiled from an interface.
//!
//! `operation` has the steps, `stubs` what is compiled from an interface, and `compiler` the
//! compiler. `place` finds places in a list of operations, `reader` and `writer` read and write values by their
//! operations; `behind` has the bytes from a place on, and `kinds` what values of a known kind hold. `unpack` and
//! `pack` have the calls, `fault` says why bytes are no arguments and no outcome, `show` has the text of stubs, and
//! `laws` what holds of all of them.
#![tactic(auto)]

mod behind;
mod compiler;
mod fault;
mod kinds;
mod laws;
mod operation;
mod pack;
mod place;
mod reader;
mod show;
mod stubs;
mod unpack;
mod writer;

pub use compiler::compile;
pub use fault::StubFault;
pub use laws::{obeying_interfaces_are_proper, packed_is_unpacked, unpacked_is_packed};
pub use operation::Operation;
pub use show::{append_stubs, show_stubs};
pub use stubs::{Stubs, StubsList};

/// Operations in order.
pub type Operations = circus_value::ListOf<Operation>;
