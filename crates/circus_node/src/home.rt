// Where the member of a node stands at boot.
ghost use Rattle.std.specs.Prelude.{◌≡◌, map, IfOk};
ghost use Rattle.circus_value.specs.Among.{is_among};
ghost use Rattle.circus_collate.specs.declared.deployment.Host.{Host as Hosting};
ghost use Rattle.circus_node.specs.Booting as booting;

use crate::troupe_at;
use circus_collate::{Deployment, Host, Troupe};
use circus_member_rules::{Beginning, Place};
use circus_value::{ListOf, NoMemory, is_among};
use std::alloc::Global;

/// Where the member of a node stands, and how it begins.
#[derive(Debug, Drop)]
pub struct Home {
    /// The node, its troupe and how that collates, and the troupe of each node.
    pub place: Place,
    /// As a founder of its troupe, or as a spare.
    pub beginning: Beginning,
}

/// Where the member of a node of a program stands at boot. `None` at the Ringmaster's node. `NoMemory` is the one fault.
pub fn home_of(alloc: Global, deployment: &Deployment, node: u16) -> Result<Option<Home>, NoMemory>
    ensures { IfOk result (λ home. home ≡ booting.home_of deployment.now node) }
{
    let Some(number) = troupe_at(deployment, node) else {
        return Ok(None);
    };
    match deployment.troupes.get(usize::from(number)) {
        Some(troupe) => Ok(Some(home_in(alloc, deployment, node, number, troupe)?)),
        None => Ok(None),
    }
}

fn home_in(
    alloc: Global,
    deployment: &Deployment,
    node: u16,
    number: u16,
    troupe: &Troupe,
) -> Result<Home, NoMemory>
    ensures { IfOk result (λ home. home ≡ booting.home_in deployment.now node number troupe.now) }
{
    let place = Place {
        node,
        troupe: number,
        calls: troupe.calls,
        replies: troupe.replies,
        troupes: troupes_of(alloc, deployment.nodes.as_slice())?,
    };
    Ok(Home {
        place,
        beginning: beginning_in(troupe, node),
    })
}

fn beginning_in(troupe: &Troupe, node: u16) -> Beginning
    ensures { result ≡ booting.beginning_in troupe.now node }
{
    if is_among(troupe.founders.as_slice(), node) {
        Beginning::Founder
    } else {
        Beginning::Spare
    }
}

// The troupe of each node.
#[tactic(auto, using(circus_collate::proofs::Going::map_more, circus_collate::proofs::Going::map_all))]
fn troupes_of(alloc: Global, nodes: &[Host]) -> Result<ListOf<Option<u16>>, NoMemory>
    ensures { IfOk result (λ troupes. troupes ≡ map (λ (h : Hosting). h.module) nodes.now) }
{
    let mut troupes = ListOf::new(alloc);
    for node in nodes {
        troupes.push(node.module)?;
    }
    Ok(troupes)
}
