//! Types in which names of types stand: what is wrong inside of them, how large they are, and the shapes that they mean.
//!
//! `type_names` says what names stand for, and `cause` why a type is refused, a cause among those of the texts in which
//! types stand. `inner` finds the faults inside of a type, `measuring` its size and `writing` its shape; `wholes` tests
//! whole types. `names` adds names and numbers to those before, `limits` has the limits, and `laws` what
//! holds of every type.
#![tactic(auto)]

mod cause;
mod inner;
mod laws;
mod limits;
mod measuring;
mod names;
mod type_names;
mod wholes;
mod writing;

pub use cause::{TypeCause, WithTypeCauses};
pub use inner::{check_inside, field_names, inside_groups};
pub use laws::{faultless_obeys, sizes_are_cut_off};
pub use limits::{GREATEST_WORD, MOST_PARTS, MOST_ZERO_BYTES};
pub use measuring::{Measure, measure_of_type, measured_groups, shape_measure};
pub use names::{meet_name, meet_number, note_above};
pub use type_names::TypeNames;
pub use wholes::whole;
pub use writing::{shape_of_type, word, written_groups};
