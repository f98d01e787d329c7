// Why a module is refused.
ghost use Rattle.circus_resolve.specs.Causes.{rank, of_type};

use circus_fault::Cause;
use circus_type::{TypeCause, WithTypeCauses};

/// Why a module is refused, in the order in which causes at one place are given (docs/LANGUAGE.md, "Modules").
#[derive(Clone, Copy, Debug, PartialEq, Eq)]
pub enum CheckCause {
    Unknown,
    Repeated,
    OutOfRange,
    TooLarge,
    Mistyped,
    Unfinished,
    Forward,
    Shared,
    Missing,
    TooMany,
}

impl Cause for CheckCause {
    ghost rank = { rank };

    fn rank(self) -> u8 {
        match self {
            CheckCause::Unknown => 0,
            CheckCause::Repeated => 1,
            CheckCause::OutOfRange => 2,
            CheckCause::TooLarge => 3,
            CheckCause::Mistyped => 4,
            CheckCause::Unfinished => 5,
            CheckCause::Forward => 6,
            CheckCause::Shared => 7,
            CheckCause::Missing => 8,
            CheckCause::TooMany => 9,
        }
    }
}

impl WithTypeCauses for CheckCause {
    ghost embed = { of_type };

    fn of_type(cause: TypeCause) -> Self {
        match cause {
            TypeCause::Unknown => CheckCause::Unknown,
            TypeCause::Repeated => CheckCause::Repeated,
            TypeCause::OutOfRange => CheckCause::OutOfRange,
            TypeCause::TooLarge => CheckCause::TooLarge,
        }
    }
}
