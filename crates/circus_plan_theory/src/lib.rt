//! Theory: what is true of the modules of a plan that was read of a file, and of its troupes and nodes.
//!
//! All of it is in `proofs/`.
#![tactic(auto)]
