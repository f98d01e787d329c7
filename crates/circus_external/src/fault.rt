// Why bytes are read as no value.
use circus_value::NoMemory;
use thiserror::Error;

/// Why bytes are read as no value. A place is counted in bytes from the front of all bytes
/// (docs/FORMATS.md, "External data").
#[derive(Debug, PartialEq, Eq, Drop, Error)]
pub enum ExternalFault {
    /// The number or the string's bytes that stand at the place are not whole.
    #[error("short at {0}")]
    Short(u64),

    /// No value goes on with the number at the place.
    #[error("not a value at {0}")]
    NotAValue(u64),

    /// The byte at the place ends a string of odd length and is not zero.
    #[error("bad pad at {0}")]
    BadPad(u64),

    /// Memory ran out.
    #[error("out of memory")]
    NoMemory,
}

impl From<NoMemory> for ExternalFault {
    ghost use Rattle.std.specs.Prelude.{◌≡◌};
    ghost use Rattle.circus_external.specs.declared.fault.ExternalFault.TheVariants.{NoMemory};

    ghost from_gives = { λ _ fault. fault ≡ NoMemory };

    fn from(_refused: NoMemory) -> Self {
        ExternalFault::NoMemory
    }
}
