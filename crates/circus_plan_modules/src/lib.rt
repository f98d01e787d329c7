//! A program whose nodes may boot: `loaded` makes the modules of a plan, one a troupe.
#![tactic(auto)]

mod loaded;

pub use loaded::{Loaded, load};
