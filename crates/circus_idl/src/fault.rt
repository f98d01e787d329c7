// Why a text is refused.
ghost use Rattle.circus_idl.specs.Rank.{rank_of};
ghost use Rattle.circus_idl.specs.OfTypes.{of_type};

use circus_type::{TypeCause, WithTypeCauses};

/// Why a text is refused, in the order in which causes at one place are given.
#[derive(Clone, Copy, Debug, PartialEq, Eq)]
pub enum Cause {
    Expected,
    Deep,
    Unknown,
    Repeated,
    OutOfRange,
    TooLarge,
}

impl circus_fault::Cause for Cause {
    ghost rank = { rank_of };

    fn rank(self) -> u8 {
        match self {
            Cause::Expected => 0,
            Cause::Deep => 1,
            Cause::Unknown => 2,
            Cause::Repeated => 3,
            Cause::OutOfRange => 4,
            Cause::TooLarge => 5,
        }
    }
}

impl WithTypeCauses for Cause {
    ghost embed = { of_type };

    fn of_type(cause: TypeCause) -> Self {
        match cause {
            TypeCause::Unknown => Cause::Unknown,
            TypeCause::Repeated => Cause::Repeated,
            TypeCause::OutOfRange => Cause::OutOfRange,
            TypeCause::TooLarge => Cause::TooLarge,
        }
    }
}
