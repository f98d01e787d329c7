// Why bytes are no snapshot.
ghost use Rattle.std.specs.Prelude.{◌≡◌};

use circus_external::ExternalFault;
use circus_value::{Duplicate, NoMemory};
use thiserror::Error;

/// Why bytes are no snapshot of a state. A place is counted in bytes from the message's front
/// (docs/FORMATS.md, "Snapshots").
#[derive(Clone, Copy, Debug, PartialEq, Eq, Drop, Error)]
pub enum TransferFault {
    /// The number or the string's bytes that stand at the place are not whole.
    #[error("short at {0}")]
    Short(u64),

    /// The first word is not that of a snapshot. The place is 0.
    #[error("bad field at {0}")]
    BadField(u64),

    /// No value of the state goes on with the number at the place.
    #[error("not a value at {0}")]
    NotAValue(u64),

    /// The byte at the place ends a string of odd length and is not zero.
    #[error("bad pad at {0}")]
    BadPad(u64),

    /// Bytes stand behind the state, the first of them at the place.
    #[error("excess at {0}")]
    Excess(u64),

    /// Memory ran out.
    #[error("out of memory")]
    NoMemory,
}

impl From<NoMemory> for TransferFault {
    ghost use Rattle.circus_transfer.specs.declared.fault.TransferFault.TheVariants.{NoMemory};

    ghost from_gives = { λ _ fault. fault ≡ NoMemory };

    fn from(_refused: NoMemory) -> Self {
        TransferFault::NoMemory
    }
}

/// The fault of what stands behind the count.
impl From<ExternalFault> for TransferFault {
    ghost use Rattle.circus_transfer.specs.Faults.{fault_of};

    ghost from_gives = { λ from fault. fault ≡ fault_of from };

    fn from(fault: ExternalFault) -> Self {
        match fault {
            ExternalFault::Short(place) => TransferFault::Short(place),
            ExternalFault::NotAValue(place) => TransferFault::NotAValue(place),
            ExternalFault::BadPad(place) => TransferFault::BadPad(place),
            ExternalFault::NoMemory => TransferFault::NoMemory,
        }
    }
}

impl Duplicate for TransferFault {
    fn copy(&self) -> Result<Self, NoMemory> {
        Ok(*self)
    }
}
