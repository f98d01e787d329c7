// Why bytes are no arguments and no outcome.
use circus_external::ExternalFault;
use circus_value::NoMemory;
use thiserror::Error;

/// Why bytes are no arguments and no outcome. A place is counted in bytes from their front. Of several
/// faults the first in this order is given (docs/FORMATS.md, "Stubs").
#[derive(Debug, PartialEq, Eq, Drop, Error)]
pub enum StubFault {
    /// The interface declares no procedure with this number.
    #[error("no procedure {0}")]
    NoProcedure(u16),

    /// The arguments, or the values of the outcome, have this many bytes, which is above the limit.
    #[error("{0} bytes are too many")]
    Large(u64),

    /// The number or the string's bytes that stand at the place are not whole.
    #[error("short at {0}")]
    Short(u64),

    /// No value goes on with the number at the place.
    #[error("not a value at {0}")]
    NotAValue(u64),

    /// The byte at the place ends a string of odd length and is not zero.
    #[error("bad pad at {0}")]
    BadPad(u64),

    /// The procedure reports no error with this number, and the number is none of 60,001 to 60,009.
    #[error("no error {0}")]
    NoError(u16),

    /// At the place the values end, and the bytes do not.
    #[error("bytes in excess at {0}")]
    Excess(u64),

    /// Memory ran out.
    #[error("out of memory")]
    NoMemory,
}

impl From<NoMemory> for StubFault {
    ghost use Rattle.std.specs.Prelude.{◌≡◌};
    ghost use Rattle.circus_stub.specs.declared.fault.StubFault.TheVariants.{NoMemory};

    ghost from_gives = { λ _ fault. fault ≡ NoMemory };

    fn from(_refused: NoMemory) -> Self {
        StubFault::NoMemory
    }
}

/// What is wrong with values is wrong with the arguments or the outcome.
impl From<ExternalFault> for StubFault {
    ghost use Rattle.std.specs.Prelude.{◌≡◌};
    ghost use Rattle.circus_stub.specs.Seen.Faults.{stub_fault};

    ghost from_gives = { λ external fault. fault ≡ stub_fault external };

    fn from(fault: ExternalFault) -> Self {
        match fault {
            ExternalFault::Short(place) => StubFault::Short(place),
            ExternalFault::NotAValue(place) => StubFault::NotAValue(place),
            ExternalFault::BadPad(place) => StubFault::BadPad(place),
            ExternalFault::NoMemory => StubFault::NoMemory,
        }
    }
}
