//! The wire of a node: its pairs with the other nodes, and what each of its calls was made for.
//!
//! `wire` is what a node uses, `fault` why a call is not sent, and `delivery` what its calls answer. `peer` is the pair
//! with one other node, and what its calls were made for. `laws` says what holds after every list of acts.
#![tactic(auto)]

mod delivery;
mod fault;
mod laws;
mod peer;
mod wire;

pub use delivery::{Batch, Batches, Delivery, Heard};
pub use fault::WireFault;
pub use laws::{
    acts_send_what_pairs_owe, calls_are_numbered, messages_arrive_once,
    returns_find_their_purposes, wires_know_their_acts,
};
pub use wire::Wire;
