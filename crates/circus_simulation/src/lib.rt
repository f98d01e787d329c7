//! A program whose nodes are simulated: its world at boot, and what comes of a sample, of its lines and of a settling.
//!
//! A sample is a simulation under a schedule that a seed draws: `sampling` draws and steps its lines, and `noting` keeps them;
//! `summary` has what is written of a sample, `schedule` the text of its lines, and `laws` what holds of every sample.
//!
//! `simulated` boots a plan. `sampled` draws a sample of it, `drawn` writes the lines of a sample, and `settled` delivers its
//! datagrams in the order of sending.
#![tactic(auto)]

mod drawn;
mod laws;
mod noting;
mod sampled;
mod sampling;
mod schedule;
mod settled;
mod simulated;
mod summary;

pub use drawn::draw_plan;
pub use laws::{samples_are_schedules, samples_depend_on_behaviours, worlds_boot_untouched};
pub use sampled::sample_plan;
pub use sampling::{SampleFault, sample, sample_lines};
pub use schedule::show_lines;
pub use settled::settle_plan;
pub use simulated::{Simulated, boot_plan};
pub use summary::show_sample;
