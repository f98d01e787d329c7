// What an end answers.
use circus_segment::Datagrams;
use circus_value::Parts;

/// What a segment completed.
#[derive(Drop)]
pub enum Arrived {
    /// No message.
    Nothing,
    /// The call of this number.
    ArrivedCall(u32, Parts),
    /// The return to the call of this number.
    ArrivedReturn(u32, Parts),
}

/// What came of a datagram.
#[derive(Drop)]
pub struct Taken {
    /// What is sent, in order.
    pub datagrams: Datagrams,
    pub arrived: Arrived,
    /// Whether the segment counts for nothing.
    pub dropped: bool,
}

/// What came of a tick.
#[derive(Drop)]
pub struct Ticked {
    /// What is sent, in order.
    pub datagrams: Datagrams,
    /// Whether the other end has been silent for 8 ticks, while a call had no return.
    pub suspect: bool,
}
