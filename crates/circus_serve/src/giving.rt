// What a node gives to its link.
ghost use Rattle.circus_outside.specs.Link.{LinkCounts};
ghost use Rattle.circus_serve.specs.Outside.{tells_of};
ghost use Rattle.circus_serve.specs.Happened.{all_given};
ghost use Rattle.circus_serve.specs.Giving.{AreGiven};

use crate::peers::port_of;
use circus_collate::Deployment;
use circus_node::Gives;
use circus_outside::{Link, LinkFault};

/// Gives these in order.
pub fn give_all<L: Link>(
    gives: &Gives,
    deployment: &Deployment,
    link: &mut L,
) -> Result<(), LinkFault>
    ensures given { AreGiven
        (tells_of (L.bound link.old) (L.taken link.old) (L.given link.old))
        (tells_of (L.bound link.new) (L.taken link.new) (L.given link.new))
        (all_given deployment.now gives.now) result }
    ensures counts { LinkCounts result (L.faults link.old) (L.faults link.new) }
{
    let gives = gives.as_slice();
    for give in gives {
        link.give(port_of(deployment, give.to), give.bytes.as_slice())?;
    }
    Ok(())
}
