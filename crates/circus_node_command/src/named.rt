// A node by its name.
ghost use Rattle.std.specs.Prelude.{◌≡◌, ℕ, position, IfOk, IfSome, IfNone};
ghost use Rattle.circus_collate.specs.Deployment.{IsDeployment};
ghost use Rattle.circus_commands.specs.Seen.Ending.{ending_of};
ghost use Rattle.circus_node_command.specs.Named.{IsNamed, no_node as no_node_end};
ghost use Rattle.circus_node_command.specs.Seen.Called.{is_host_named};

use circus_collate::{Deployment, Host};
use circus_commands::{Ending, Status};
use circus_value::NoMemory;
use std::alloc::Global;

/// The number of the node of a program that is called so. `None` exactly where none is. It takes no memory.
pub fn node_named(deployment: &Deployment, name: &str) -> Option<u16>
    requires { IsDeployment deployment.now }
    ensures named { IfSome result (λ node. IsNamed deployment.now name.now node) }
    ensures none { IfNone result ((node : ℕ) → IsNamed deployment.now name.now node → ⊥) }
{
    let place = place_of(deployment.nodes.as_slice(), name.as_bytes())?;
    Some(place as u16)
}

// The place of the first host that is called so.
fn place_of(hosts: &[Host], name: &[u8]) -> Option<usize>
    ensures { result ≡ position (is_host_named name.now) hosts.now }
{
    hosts.iter().position(|host| host.name.as_slice() == name)
}

/// The end where no node of a program is called so. `NoMemory` is the one fault.
pub fn no_node(alloc: Global, name: &str) -> Result<Ending, NoMemory>
    ensures ending { IfOk result (λ ending. ending_of ending ≡ no_node_end name.now) }
    ensures status { IfOk result (λ ending. ending.status ≡ Status.BadProgram) }
{
    let text = format!(in alloc; "program has no node {name}\n")?;
    Ok(Ending::of(Status::BadProgram, text))
}
