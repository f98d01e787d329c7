// What is wrong with modules.
ghost use Rattle.std.specs.Prelude.{◌≡◌};

use circus_value::{Name, NoMemory};
use thiserror::Error;

/// What is wrong with modules. A place is counted in bytes from the text's front, and of several faults the one at the
/// least place is given, at one place the first in this order (docs/LANGUAGE.md, "Rules for modules").
#[derive(Debug, Drop, Error)]
pub enum CheckFault {
    /// The name at the place is that of nothing that it could name there.
    #[error("unknown name at {0}")]
    Unknown(u64),

    /// The name or number at the place stands before where it has to be the only one.
    #[error("repeated name at {0}")]
    Repeated(u64),

    /// The number at the place isn't in its range, or a `RECORD` without fields stands there that is no arm of a choice.
    #[error("out of range at {0}")]
    OutOfRange(u64),

    /// A variable's type that begins at the place, or the state of the module of that name, passes a limit.
    #[error("too large at {0}")]
    TooLarge(u64),

    /// What stands at the place is of another shape than is wanted there, or of another number.
    #[error("type mismatch at {0}")]
    Mistyped(u64),

    /// The procedure of this name, or MAIN, has a path that doesn't end.
    #[error("no return at {0}")]
    Unfinished(u64),

    /// The import at the place names the importing module or a later one.
    #[error("forward import at {0}")]
    Forward(u64),

    /// The root whose name stands at the place is the second that reaches a module: the module, the first root and this one
    /// by their numbers.
    #[error("shared MODULE {1} ROOT {2} ROOT {3} at {0}")]
    Shared(u64, u16, u16, u16),

    /// The module whose name stands at the place lacks a procedure of this name.
    #[error("missing procedure at {0}")]
    Missing(u64, Name),

    /// The name at the place is that of a module more than there may be.
    #[error("too many at {0}")]
    TooMany(u64),

    /// Memory ran out.
    #[error("out of memory")]
    NoMemory,
}

impl From<NoMemory> for CheckFault {
    ghost use Rattle.circus_check.specs.declared.check_fault.CheckFault.TheVariants.{NoMemory};

    ghost from_gives = { λ _ e. e ≡ NoMemory };

    fn from(_refused: NoMemory) -> Self {
        CheckFault::NoMemory
    }
}
