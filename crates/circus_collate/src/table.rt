// What the Ringmaster answers.
use crate::View;
use circus_value::{Duplicate, NoMemory};

/// How the Ringmaster takes a request (docs/PROTOCOL.md, "The Ringmaster").
#[derive(Clone, Copy, Debug, PartialEq, Eq, Drop)]
pub enum RingResult {
    Done,
    /// Nobody joins the troupe of a root.
    RootTroupe,
    /// The node is no spare of the troupe.
    NotSpare,
    /// The view has 16 entries.
    Full,
}

/// What the Ringmaster answers: how it took the request, and the troupe's view afterwards.
#[derive(Debug, PartialEq, Eq, Drop)]
pub struct Table {
    pub result: RingResult,
    pub view: View,
}

impl Duplicate for RingResult {
    fn copy(&self) -> Result<Self, NoMemory> {
        Ok(*self)
    }
}

impl Duplicate for Table {
    fn copy(&self) -> Result<Self, NoMemory> {
        Ok(Table {
            result: self.result,
            view: self.view.copy()?,
        })
    }
}
