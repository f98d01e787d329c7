// What calls get at once.
use circus_header::Reply;

/// What a call gets at once.
#[derive(Debug, Drop)]
pub enum Added {
    /// Its index was performed, with this reply.
    Reply(Reply),
    /// It is of an older view than this required incarnation.
    Stale(u32),
    /// It is before this first index.
    Before(u32),
    /// It is held until it can be answered.
    Held,
}
