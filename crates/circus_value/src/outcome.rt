// What a procedure ends with.
use crate::{Duplicate, NoMemory, Values};

/// The results of a procedure, or the number of an error and its values.
#[derive(Debug, Drop)]
pub enum Outcome {
    Returned(Values),
    Raised(u16, Values),
}

impl Duplicate for Outcome {
    fn copy(&self) -> Result<Self, NoMemory> {
        Ok(match self {
            Outcome::Returned(results) => Outcome::Returned(results.copy()?),
            Outcome::Raised(error, values) => Outcome::Raised(*error, values.copy()?),
        })
    }
}
