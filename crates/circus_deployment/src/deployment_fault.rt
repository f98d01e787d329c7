// What is wrong with deployments.
ghost use Rattle.std.specs.Prelude.{◌≡◌};

use circus_value::{Name, NoMemory};
use thiserror::Error;

/// What is wrong with a deployment. A place is counted in bytes from the text's front, and of several faults the one at the
/// least place is given, at one place the first in this order (docs/LANGUAGE.md, "Deployments").
#[derive(Debug, PartialEq, Eq, Drop, Error)]
pub enum DeploymentFault {
    /// The troupe whose name stands at the place is that of no module.
    #[error("unknown name at {0}")]
    Unknown(u64),

    /// A troupe or a node of the name at the place stands before, or a node of the port there.
    #[error("repeated name at {0}")]
    Repeated(u64),

    /// The port at the place isn't 1 to 65,535, or the number behind LEAST isn't 1 to 16.
    #[error("out of range at {0}")]
    OutOfRange(u64),

    /// The text ends at the place, and the module of this name, the first one, has no troupe.
    #[error("missing troupe at {0}")]
    Missing(u64, Name),

    /// The 65th node, or the 17th member of a troupe, stands at the place.
    #[error("too many at {0}")]
    TooMany(u64),

    /// Memory ran out.
    #[error("out of memory")]
    NoMemory,
}

impl From<NoMemory> for DeploymentFault {
    ghost use Rattle.circus_deployment.specs.declared.deployment_fault.DeploymentFault.TheVariants.{NoMemory};

    ghost from_gives = { λ _ e. e ≡ NoMemory };

    fn from(_refused: NoMemory) -> Self {
        DeploymentFault::NoMemory
    }
}
