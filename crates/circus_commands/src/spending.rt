// A node that has no call number left.
ghost use Rattle.std.specs.Prelude.{◌≡◌, [], All, IsAscii, IfOk};
ghost use Rattle.circus_record.specs.Naming.{host_name, names_of};
ghost use Rattle.circus_commands.specs.Spent.{end_of_spent as spent_end};
ghost use Rattle.circus_commands.specs.Seen.Ending.{ending_of};

use crate::{Ending, Status};
use circus_collate::Hosts;
use circus_record::{Naming, ProgramNames};
use circus_value::NoMemory;
use std::alloc::Global;

/// The end where a node has no number left for a call to another one, by the names of both (docs/GUIDE.md, "Statuses").
/// `NoMemory` is the one fault.
pub fn end_of_spent(alloc: Global, hosts: &Hosts, node: u16, peer: u16) -> Result<Ending, NoMemory>
    requires { All (λ h. IsAscii (host_name h)) hosts.now }
    ensures ending { IfOk result (λ ending.
        ending_of ending ≡ spent_end (names_of hosts.now []) (node, peer)) }
    ensures status { IfOk result (λ ending. ending.status ≡ Status.Spent) }
{
    let names = ProgramNames::new(hosts.as_slice(), &[]);
    let node = names.node(usize::from(node));
    let peer = names.node(usize::from(peer));
    let text = format!(in alloc; "spent {node} {peer}\n")?;
    Ok(Ending::of(Status::Spent, text))
}
