// The faults of interfaces, modules and deployments as a program file tells them.
ghost use Rattle.std.specs.Prelude.{◌≡◌, Some, IfOk};
ghost use Rattle.circus_config.specs.Told.{name_at};
ghost use Rattle.circus_config.specs.Seen.{fault_of, interface_answer, modules_answer, deployment_answer};

use crate::least::Found;
use crate::{ModuleNames, ProgramCause};
use circus_check::CheckFault;
use circus_deployment::DeploymentFault;
use circus_idl::IdlFault;
use circus_value::{Duplicate, Name, NoMemory};
use std::alloc::{AllocError, Global};

/// A fault of an interface.
pub fn of_interface(fault: IdlFault) -> Result<Found, NoMemory>
    ensures { IfOk result (λ found. interface_answer fault ≡ Some (fault_of found)) }
{
    match fault {
        IdlFault::Expected(place) => Ok(Found::at(place, ProgramCause::Syntax)),
        IdlFault::Deep(place) => Ok(Found::at(place, ProgramCause::Deep)),
        IdlFault::Unknown(place) => Ok(Found::at(place, ProgramCause::UnknownName)),
        IdlFault::Repeated(place) => Ok(Found::at(place, ProgramCause::Repeated)),
        IdlFault::OutOfRange(place) => Ok(Found::at(place, ProgramCause::OutOfRange)),
        IdlFault::TooLarge(place) => Ok(Found::at(place, ProgramCause::TooLarge)),
        IdlFault::NoMemory => Err(AllocError),
    }
}

// The name of the module of this number.
fn name_at(alloc: Global, names: &ModuleNames, number: u16) -> Result<Name, NoMemory>
    ensures { IfOk result (λ name. name ≡ name_at names.now number) }
{
    match names.get(usize::from(number)) {
        Some(name) => name.copy(),
        None => Ok(Name::new(alloc)),
    }
}

/// A fault of modules, whose names are these.
pub fn of_modules(alloc: Global, names: &ModuleNames, fault: CheckFault) -> Result<Found, NoMemory>
    ensures { IfOk result (λ found. modules_answer names.now fault ≡ Some (fault_of found)) }
{
    match fault {
        CheckFault::Unknown(place) => Ok(Found::at(place, ProgramCause::UnknownName)),
        CheckFault::Repeated(place) => Ok(Found::at(place, ProgramCause::Repeated)),
        CheckFault::OutOfRange(place) => Ok(Found::at(place, ProgramCause::OutOfRange)),
        CheckFault::TooLarge(place) => Ok(Found::at(place, ProgramCause::TooLarge)),
        CheckFault::Mistyped(place) => Ok(Found::at(place, ProgramCause::Mistyped)),
        CheckFault::Unfinished(place) => Ok(Found::at(place, ProgramCause::NoReturn)),
        CheckFault::Forward(place) => Ok(Found::at(place, ProgramCause::Forward)),
        CheckFault::Shared(place, module, first, second) => {
            let module = name_at(alloc, names, module)?;
            let first = name_at(alloc, names, first)?;
            let second = name_at(alloc, names, second)?;
            Ok(Found::at(place, ProgramCause::Shared(module, first, second)))
        }
        CheckFault::Missing(place, name) => Ok(Found::at(place, ProgramCause::Missing(name))),
        CheckFault::TooMany(place) => Ok(Found::at(place, ProgramCause::TooMany)),
        CheckFault::NoMemory => Err(AllocError),
    }
}

/// A fault of a deployment.
pub fn of_deployment(fault: DeploymentFault) -> Result<Found, NoMemory>
    ensures { IfOk result (λ found. deployment_answer fault ≡ Some (fault_of found)) }
{
    match fault {
        DeploymentFault::Unknown(place) => Ok(Found::at(place, ProgramCause::UnknownName)),
        DeploymentFault::Repeated(place) => Ok(Found::at(place, ProgramCause::Repeated)),
        DeploymentFault::OutOfRange(place) => Ok(Found::at(place, ProgramCause::OutOfRange)),
        DeploymentFault::Missing(place, name) => Ok(Found::at(place, ProgramCause::Missing(name))),
        DeploymentFault::TooMany(place) => Ok(Found::at(place, ProgramCause::TooMany)),
        DeploymentFault::NoMemory => Err(AllocError),
    }
}
