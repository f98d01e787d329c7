// Why a node is not served to the end.

use circus_node::StepFault;
use circus_outside::LinkFault;
use circus_value::NoMemory;
use thiserror::Error;

/// Why a node is not served to the end.
#[derive(Clone, Copy, Debug, PartialEq, Eq, Drop, Error)]
pub enum ServeFault {
    /// The link failed.
    #[error("link fault")]
    LinkFailed,

    /// Memory ran out.
    #[error("out of memory")]
    NoMemory,

    /// The node has no number left for a call to this one.
    #[error("no number is left for node {0}")]
    Spent(u16),
}

impl From<NoMemory> for ServeFault {
    ghost use Rattle.std.specs.Prelude.{◌≡◌};
    ghost use Rattle.circus_serve.specs.declared.fault.ServeFault.TheVariants.{NoMemory};

    ghost from_gives = { λ _ fault. fault ≡ NoMemory };

    fn from(_refused: NoMemory) -> Self {
        ServeFault::NoMemory
    }
}

impl From<LinkFault> for ServeFault {
    ghost use Rattle.std.specs.Prelude.{◌≡◌};
    ghost use Rattle.circus_serve.specs.Seen.Faults.{of_link};

    ghost from_gives = { λ from fault. fault ≡ of_link from };

    fn from(fault: LinkFault) -> Self {
        match fault {
            LinkFault::NoMemory => ServeFault::NoMemory,
            LinkFault::Failed => ServeFault::LinkFailed,
        }
    }
}

impl From<StepFault> for ServeFault {
    ghost use Rattle.std.specs.Prelude.{◌≡◌};
    ghost use Rattle.circus_serve.specs.Seen.Faults.{of_step};

    ghost from_gives = { λ from fault. fault ≡ of_step from };

    fn from(fault: StepFault) -> Self {
        match fault {
            StepFault::NoMemory => ServeFault::NoMemory,
            StepFault::Spent(node) => ServeFault::Spent(node),
        }
    }
}
