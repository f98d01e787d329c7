// Why a line may not be stepped.

/// Why a line of a schedule is refused, by the numbers of its nodes (docs/FORMATS.md, "Schedules").
#[derive(Clone, Copy, Debug, PartialEq, Eq, Drop)]
pub enum LineCause {
    /// No datagram has this number; so many were sent.
    NoDatagram(u64, u64),
    /// The node has crashed.
    NotLive(u16),
    /// The node has not crashed.
    NotCrashed(u16),
    /// The node is no spare.
    NotSpare(u16),
    /// The node was told to join before.
    AlreadyJoined(u16),
}
