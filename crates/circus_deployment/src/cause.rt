// Why a deployment is refused.
ghost use Rattle.circus_deployment.specs.Rank.{rank_of};

/// Why a deployment is refused, in the order in which causes at one place are given.
#[derive(Clone, Copy, Debug, PartialEq, Eq)]
pub enum Cause {
    Unknown,
    Repeated,
    OutOfRange,
    Missing,
    TooMany,
}

impl circus_fault::Cause for Cause {
    ghost rank = { rank_of };

    fn rank(self) -> u8 {
        match self {
            Cause::Unknown => 0,
            Cause::Repeated => 1,
            Cause::OutOfRange => 2,
            Cause::Missing => 3,
            Cause::TooMany => 4,
        }
    }
}
