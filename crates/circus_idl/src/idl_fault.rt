// What is wrong with the texts of interfaces.
ghost use Rattle.std.specs.Prelude.{◌≡◌};

use circus_value::NoMemory;
use thiserror::Error;

/// What is wrong with the text of an interface. A place is counted in bytes from the text's front, and of
/// several faults the one at the least place is given, at one place the first in this order
/// (docs/LANGUAGE.md, "Interfaces").
#[derive(Debug, PartialEq, Eq, Drop, Error)]
pub enum IdlFault {
    /// No interface goes on with the token at the place, or with the text's end there.
    #[error("unexpected token at {0}")]
    Expected(u64),

    /// The token at the place opens level 65 of a type.
    #[error("nested too deep at {0}")]
    Deep(u64),

    /// The name at the place is that of no type, or no error, that is declared before it.
    #[error("unknown name at {0}")]
    Unknown(u64),

    /// The name or number at the place stands before where it has to be the only one.
    #[error("repeated name at {0}")]
    Repeated(u64),

    /// The number at the place isn't in its range, or a `RECORD` without fields stands there that is no
    /// arm of a choice.
    #[error("out of range at {0}")]
    OutOfRange(u64),

    /// A type that begins at the place, or the arguments of the procedure of that name, pass a limit.
    #[error("too large at {0}")]
    TooLarge(u64),

    /// Memory ran out.
    #[error("out of memory")]
    NoMemory,
}

impl From<NoMemory> for IdlFault {
    ghost use Rattle.circus_idl.specs.declared.idl_fault.IdlFault.TheVariants.{NoMemory};

    ghost from_gives = { λ _ e. e ≡ NoMemory };

    fn from(_refused: NoMemory) -> Self {
        IdlFault::NoMemory
    }
}
