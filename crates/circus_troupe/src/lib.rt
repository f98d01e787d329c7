//! The Ringmaster and the troupes of a program as they are written, with the places of what stands in them, and their
//! reading from tokens.
//!
//! `deployment_text` has the trees. `deployment_reading` reads what they are made of, and `read` all of them from a token
//! of a text on. `laws` has what holds of every list of tokens.
#![tactic(auto)]

mod deployment_reading;
mod deployment_text;
mod laws;
mod read;

use circus_value::ListOf;
pub use deployment_reading::deployment;
pub use deployment_text::{
    DeploymentText, HostText, KindText, RingmasterText, TroupeText, WrittenKind,
};
pub use laws::{
    a_stop_is_filled_in, deployments_are_read, one_deployment, read_is_a_deployment,
    stops_at_the_unexpected, stops_behind_a_deployment,
};
pub use read::{ReadDeployment, read_deployment_text};

/// Hosts in order.
pub type HostTexts = ListOf<HostText>;

/// Troupes in order.
pub type TroupeTexts = ListOf<TroupeText>;
