//! The Ringmaster and the troupes of a program over its modules: the rules that they obey, and the deployment that they
//! mean.
//!
//! `checking` goes over them: `nodes` finds the faults of nodes and `troupes` those of troupes, each of a `cause`;
//! `deployment_fault` says what can be wrong. `meaning` makes the deployment.
#![tactic(auto)]

mod cause;
mod checking;
mod deployment_fault;
mod meaning;
mod nodes;
mod troupes;

pub use checking::check;
pub use deployment_fault::DeploymentFault;
