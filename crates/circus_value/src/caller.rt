// Who made a call.
use crate::{Duplicate, ListOf, NoMemory};

/// Who made a call: the node, and the number of the call among those from that node.
#[derive(Clone, Copy, Debug, PartialEq, Eq, Drop)]
pub struct Caller {
    pub node: u16,
    pub number: u32,
}

/// In the order in which their calls arrived.
pub type Callers = ListOf<Caller>;

impl Duplicate for Caller {
    fn copy(&self) -> Result<Self, NoMemory> {
        Ok(*self)
    }
}
