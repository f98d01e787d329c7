// Why bytes begin with no header.
ghost use Rattle.std.specs.Prelude.{◌≡◌};

use circus_value::{Duplicate, NoMemory};
use thiserror::Error;

/// Why bytes begin with no header. A place is counted in bytes from the front (docs/FORMATS.md, "Headers").
#[derive(Clone, Copy, Debug, PartialEq, Eq, Drop, Error)]
pub enum HeaderFault {
    /// The bytes end within the field that begins at the place.
    #[error("short header at {0}")]
    Short(u64),

    /// The field at the place is out of its range, or bytes stand at the place behind a header that has
    /// nothing behind it.
    #[error("bad field at {0}")]
    BadField(u64),

    /// Memory ran out.
    #[error("out of memory")]
    NoMemory,
}

impl From<NoMemory> for HeaderFault {
    ghost use Rattle.circus_header.specs.declared.header_fault.HeaderFault.TheVariants.{NoMemory};

    ghost from_gives = { λ _ e. e ≡ NoMemory };

    fn from(_refused: NoMemory) -> Self {
        HeaderFault::NoMemory
    }
}

impl Duplicate for HeaderFault {
    fn copy(&self) -> Result<Self, NoMemory> {
        Ok(*self)
    }
}
