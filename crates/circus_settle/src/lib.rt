//! A simulation in which each datagram is delivered once, in the order of sending.
//!
//! `settling` delivers them, and `quietness` says whether all that was sent was delivered.
//! `summary` has what is written of a world that has settled, and `laws` what holds of every such
//! world.
#![tactic(auto)]

mod laws;
mod quietness;
mod settling;
mod summary;

pub use laws::{
    enough_deliveries_leave_nothing, settled_worlds_are_led_to, settling_depends_on_behaviours,
    settling_ends_as_steps_do,
};
pub use quietness::quiet;
pub use settling::{SettleFault, Settled, settle};
pub use summary::show_settled;
