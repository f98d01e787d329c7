// What is to be done for a call to many.
use circus_value::{Duplicate, ListOf, NoMemory};

/// The call is to be sent to a node, with this incarnation of the server's view in its header.
#[derive(Clone, Copy, Debug, PartialEq, Eq, Drop)]
pub struct Send {
    pub node: u16,
    pub incarnation: u32,
}

/// In the order in which they are made.
pub type Sends = ListOf<Send>;

/// What follows where a node answers that the call was of an older view.
#[derive(Clone, Copy, Debug, PartialEq, Eq, Drop)]
pub enum Next {
    /// The call is sent to the node again.
    Send(Send),
    /// The view is older than this incarnation, and has to be looked up.
    Lookup(u32),
    /// Nothing is to be done: the node is no entry of the view, or is down.
    Leave,
}

/// Whether a reply differs from the first one, where that is watched.
#[derive(Clone, Copy, Debug, PartialEq, Eq, Drop)]
pub enum Watched {
    Quiet,
    /// Under `Watchdog`, the places of the first reply and of this one, counted from 0 in order of arrival.
    Differs(usize, usize),
}

impl Duplicate for Send {
    fn copy(&self) -> Result<Self, NoMemory> {
        Ok(*self)
    }
}

impl Duplicate for Next {
    fn copy(&self) -> Result<Self, NoMemory> {
        Ok(*self)
    }
}

impl Duplicate for Watched {
    fn copy(&self) -> Result<Self, NoMemory> {
        Ok(*self)
    }
}
