// Why schedules are refused.
use circus_value::{Name, NoMemory};
use thiserror::Error;

/// Why a schedule is refused. Lines are counted from 1 (docs/FORMATS.md, "Schedules").
#[derive(Debug, PartialEq, Eq, Drop, Error)]
pub enum ScheduleFault {
    /// The line is spelled as none is.
    #[error("bad line {0}")]
    BadLine(u32),

    /// No node has the name, which is the first of the line that no node has.
    #[error("unknown node in line {0}")]
    UnknownNode(u32, Name),

    /// The line is the 200,001st.
    #[error("too many lines at {0}")]
    TooManyLines(u32),

    /// Memory ran out.
    #[error("out of memory")]
    NoMemory,
}

impl From<NoMemory> for ScheduleFault {
    ghost use Rattle.std.specs.Prelude.{◌≡◌};
    ghost use Rattle.circus_schedule.specs.declared.schedule_fault.ScheduleFault.TheVariants.{NoMemory};

    ghost from_gives = { λ _ e. e ≡ NoMemory };

    fn from(_refused: NoMemory) -> Self {
        ScheduleFault::NoMemory
    }
}
