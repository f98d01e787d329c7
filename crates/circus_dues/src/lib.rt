//! What a member owes in each step, and whether its record is in time: found from what came to it and from its record in the
//! end, as `circus_member_theory` defines it. No member is run.
#![tactic(auto)]

mod calls;
mod calls_out;
mod dues;
mod fitting;
mod following;
mod owing;
mod walk;

pub use dues::Dues;
pub use following::follows;
