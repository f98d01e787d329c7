// Why a record isn't read.
use circus_value::NoMemory;
use thiserror::Error;

/// Why a record isn't read. Lines are counted from 1.
#[derive(Clone, Copy, Debug, PartialEq, Eq, Drop, Error)]
pub enum RecordFault {
    /// No record of a node of the program goes on with the line.
    #[error("record line {0}: bad line")]
    BadLine(u32),

    /// Memory ran out.
    #[error("out of memory")]
    NoMemory,
}

impl From<NoMemory> for RecordFault {
    ghost use Rattle.std.specs.Prelude.{◌≡◌};
    ghost use Rattle.circus_audit.specs.declared.fault.RecordFault.TheVariants.{NoMemory};

    ghost from_gives = { λ _ e. e ≡ NoMemory };

    fn from(_refused: NoMemory) -> Self {
        RecordFault::NoMemory
    }
}
