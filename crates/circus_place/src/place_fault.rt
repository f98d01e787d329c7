// Why the texts of placings are refused.
ghost use Rattle.std.specs.Prelude.{◌≡◌};

use circus_fault::Cause;
use circus_value::NoMemory;
use thiserror::Error;

/// Why the text of a placing is refused, in the order in which causes at one place are given (docs/LANGUAGE.md,
/// "Placing").
#[derive(Clone, Copy, Debug, PartialEq, Eq, Error)]
pub enum PlaceCause {
    /// The byte can't stand there.
    #[error("bad character")]
    BadCharacter,

    /// The string that is opened there isn't closed on its line.
    #[error("open string")]
    OpenString,

    /// The number is above 9,223,372,036,854,775,807.
    #[error("long number")]
    LongNumber,

    /// No placing goes on with the token, or with the text's end there.
    #[error("syntax")]
    Syntax,

    /// The token opens level 65 of the condition.
    #[error("nested too deep")]
    Deep,

    /// The name is that of no machine.
    #[error("unknown name")]
    UnknownName,

    /// The name stands before where it has to be the only one.
    #[error("repeated name")]
    Repeated,

    /// The number isn't 1 to 5, or that of an operand isn't that of a member.
    #[error("out of range")]
    OutOfRange,

    /// The text has more than 1,048,576 bytes.
    #[error("too large")]
    TooLarge,

    /// The name is that of the 25th machine.
    #[error("too many")]
    TooMany,
}

impl Cause for PlaceCause {
    ghost use Rattle.circus_place.specs.Rank.{rank_of};

    ghost rank = { rank_of };

    fn rank(self) -> u8 {
        match self {
            PlaceCause::BadCharacter => 0,
            PlaceCause::OpenString => 1,
            PlaceCause::LongNumber => 2,
            PlaceCause::Syntax => 3,
            PlaceCause::Deep => 4,
            PlaceCause::UnknownName => 5,
            PlaceCause::Repeated => 6,
            PlaceCause::OutOfRange => 7,
            PlaceCause::TooLarge => 8,
            PlaceCause::TooMany => 9,
        }
    }
}

/// What is wrong with the text of a placing.
#[derive(Debug, PartialEq, Eq, Drop, Error)]
pub enum PlaceFault {
    /// The text has a fault on the line, counted from 1. Of several faults the one at the least place is given, at
    /// one place the first in the order of `PlaceCause`.
    #[error("line {0}: {1}")]
    Refused(u32, PlaceCause),

    /// Memory ran out.
    #[error("out of memory")]
    NoMemory,
}

impl From<NoMemory> for PlaceFault {
    ghost use Rattle.circus_place.specs.declared.place_fault.PlaceFault.TheVariants.{NoMemory};

    ghost from_gives = { λ _ e. e ≡ NoMemory };

    fn from(_refused: NoMemory) -> Self {
        PlaceFault::NoMemory
    }
}
