//! How a command ends, and what the commands of one file come to.
//!
//! `status` has how a command ends, and `ending` an end with what is written. `refused` says why a program is refused, and
//! `spending` that a node has no call number left. `unreplicated` has the history of a program, whose pieces `text` writes,
//! `stubs` its stubs, and `placed` the best choice of a placing; `one_file` has these commands together, `upshot` what they come
//! to, and `laws` what holds of every file.
#![tactic(auto)]

mod ending;
mod laws;
mod one_file;
mod placed;
mod refused;
mod spending;
mod status;
mod stubs;
mod text;
mod unreplicated;
mod upshot;

pub use ending::Ending;
pub use laws::one_end;
pub use one_file::{OneFile, end_of};
pub use refused::plan_of;
pub use spending::end_of_spent;
pub use status::Status;
pub use text::{append_ask, append_end, append_entry, append_heading};
pub use upshot::{Performance, Upshot};
