// What the calls of a wire answer.
use circus_pair::Datagrams;
use circus_value::{Caller, ListOf, Parts};

/// Datagrams to one node, in order of sending.
#[derive(Drop)]
pub struct Batch {
    pub to: u16,
    pub datagrams: Datagrams,
}

/// What is sent, in order.
pub type Batches = ListOf<Batch>;

/// What came of a datagram.
#[derive(Drop)]
pub enum Heard<P> {
    /// It is no segment, or one that counts for nothing.
    Dropped,
    /// It was taken, and completes no message.
    Taken,
    /// It completes this call.
    Called(Caller, Parts),
    /// It completes the return to the call of this number, which was made for this purpose.
    Returned(u32, P, Parts),
}

/// What is sent at a datagram, to the node that it came from, and what came of it.
#[derive(Drop)]
pub struct Delivery<P> {
    pub sent: Batch,
    pub heard: Heard<P>,
}
