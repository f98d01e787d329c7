// Why program files are refused.
ghost use Rattle.std.specs.Prelude.{◌≡◌};
ghost use Rattle.circus_config.specs.Rank.{rank_of};

use circus_value::{Name, NoMemory};
use thiserror::Error;

/// Why a program file is refused, in the order in which causes at one place are given (docs/LANGUAGE.md, "Program files").
#[derive(Debug, PartialEq, Eq, Drop)]
pub enum ProgramCause {
    /// The byte can't stand there.
    BadCharacter,

    /// The string that is opened there isn't closed on its line.
    OpenString,

    /// The number is above 9,223,372,036,854,775,807.
    LongNumber,

    /// No program goes on with the token, or with the end of the file there.
    Syntax,

    /// The token opens level 65.
    Deep,

    /// The name is that of nothing that it could name there.
    UnknownName,

    /// The name or number stands before where it has to be the only one.
    Repeated,

    /// The number isn't in its range, or a `RECORD` without fields stands there that is no arm of a choice.
    OutOfRange,

    /// The file has more than 1,048,576 bytes, or what begins there passes a limit.
    TooLarge,

    /// What stands there is of another shape than is wanted, or of another number.
    Mistyped,

    /// The procedure of this name, or MAIN, has a path that doesn't end.
    NoReturn,

    /// The import names the importing module or a later one.
    Forward,

    /// The root of this name is the second that reaches a module: the module, the first root and this one.
    Shared(Name, Name, Name),

    /// The module of this name lacks a procedure, or at the end of the file a module has no troupe: what is lacking.
    Missing(Name),

    /// The name is that of the 33rd interface, the 33rd module, the 65th node or the 17th member of a troupe at boot.
    TooMany,
}

impl ProgramCause {
    /// The place of the cause in the order of causes.
    pub fn rank(&self) -> u8
        ensures { result ≡ rank_of self.now }
    {
        match self {
            ProgramCause::BadCharacter => 0,
            ProgramCause::OpenString => 1,
            ProgramCause::LongNumber => 2,
            ProgramCause::Syntax => 3,
            ProgramCause::Deep => 4,
            ProgramCause::UnknownName => 5,
            ProgramCause::Repeated => 6,
            ProgramCause::OutOfRange => 7,
            ProgramCause::TooLarge => 8,
            ProgramCause::Mistyped => 9,
            ProgramCause::NoReturn => 10,
            ProgramCause::Forward => 11,
            ProgramCause::Shared(_, _, _) => 12,
            ProgramCause::Missing(_) => 13,
            ProgramCause::TooMany => 14,
        }
    }
}

/// What is wrong with a program file.
#[derive(Debug, PartialEq, Eq, Drop, Error)]
pub enum ProgramFault {
    /// The file has a fault on the line, counted from 1.
    #[error("refused on line {0}")]
    Refused(u32, ProgramCause),

    /// Memory ran out.
    #[error("out of memory")]
    NoMemory,
}

impl From<NoMemory> for ProgramFault {
    ghost use Rattle.circus_config.specs.declared.program_fault.ProgramFault.TheVariants.{NoMemory};

    ghost from_gives = { λ _ e. e ≡ NoMemory };

    fn from(_refused: NoMemory) -> Self {
        ProgramFault::NoMemory
    }
}
