// Requests to the Ringmaster, and states that are asked for.
ghost use Rattle.std.specs.Prelude.{◌≡◌, ◌≤◌, ◌++◌, length, map, All, OnOk, IfOk};
ghost use Rattle.circus_header.specs.CallFields.{IsRequest, IsModule, IsIncarnation};
ghost use Rattle.circus_limits.specs.Limits.{most_modules};
ghost use Rattle.circus_fanout.specs.Knowing as knowing;
ghost use Rattle.circus_member_rules.specs.Rules as rules;
ghost use Rattle.circus_member_rules.specs.Callable.{AreHosts};

use crate::messages::{fetch_message, request_message};
use crate::{Effect, Effects, Place, Purpose};
use circus_collate::{Entry, Since, View};
use circus_fanout::Known;
use circus_header::Request;
use circus_value::{ListOf, NoMemory, Nodes, is_among};
use std::alloc::Global;

// The Ringmaster's node.
const RINGMASTER: u16 = 0;

fn request_call(alloc: Global, request: Request) -> Result<Effect, NoMemory>
    requires { IsRequest request }
    ensures { IfOk result (λ call. call ≡ rules.request_call request) }
{
    Ok(Effect::Call {
        to: RINGMASTER,
        message: request_message(alloc, request)?,
        purpose: Purpose::Ring(request),
    })
}

/// Makes a request, unless the Ringmaster is down. `NoMemory` where memory runs out.
pub fn request_to_ring(
    alloc: Global,
    known: &Known,
    request: Request,
    effects: &mut Effects,
) -> Result<(), NoMemory>
    requires { IsRequest request }
    ensures { OnOk result (effects.new ≡ effects.old ++ rules.request_to_ring known.now request) }
{
    if known.is_down(RINGMASTER) {
        return Ok(());
    }
    effects.push(request_call(alloc, request)?)
}

/// Tells that a node that is down is gone, where the known view of its troupe has it (docs/PROTOCOL.md, "Members").
/// `NoMemory` where memory runs out.
pub fn tell_gone(
    alloc: Global,
    place: &Place,
    known: &Known,
    node: u16,
    effects: &mut Effects,
) -> Result<(), NoMemory>
    requires { AreHosts place.now }
    ensures { OnOk result (effects.new ≡ effects.old ++ rules.gone_call place.now known.now node) }
{
    match place.troupes.get(usize::from(node)) {
        Some(Some(troupe)) => tell_gone_from(alloc, known, node, *troupe, effects),
        _ => Ok(()),
    }
}

fn tell_gone_from(
    alloc: Global,
    known: &Known,
    node: u16,
    troupe: u16,
    effects: &mut Effects,
) -> Result<(), NoMemory>
    requires { IsRequest (Request.Gone troupe node) }
    ensures { OnOk result (effects.new ≡ effects.old ++ rules.gone_from known.now node troupe) }
{
    match known.view(troupe) {
        Some(view) if view.has_node(node) => {
            request_to_ring(alloc, known, Request::Gone(troupe, node), effects)
        }
        _ => Ok(()),
    }
}

/// Looks the views up that are wanted (docs/PROTOCOL.md, "Members"). `NoMemory` where memory runs out; some may have been
/// looked up then.
pub fn look_up(alloc: Global, known: &mut Known, effects: &mut Effects) -> Result<(), NoMemory>
    requires { length known.old.views ≤ most_modules }
    ensures asked { OnOk result (known.new ≡ knowing.note_lookup known.old rules.ringmaster) }
    ensures made { OnOk result (effects.new ≡ effects.old ++ rules.lookups known.old) }
{
    let troupes = known.look_up(RINGMASTER)?;
    add_lookups(alloc, troupes.as_slice(), effects)
}

#[tactic(auto, using(circus_collate::proofs::Going::map_more, circus_collate::proofs::Going::map_all))]
fn add_lookups(alloc: Global, troupes: &[u16], effects: &mut Effects) -> Result<(), NoMemory>
    requires { All IsModule troupes.now }
    ensures { OnOk result (effects.new ≡ effects.old ++ map rules.lookup_call troupes.now) }
{
    for troupe in troupes {
        effects.push(request_call(alloc, Request::Lookup(*troupe))?)?;
    }
    Ok(())
}

/// Those that a member may ask for the state: entries of a view that perform calls, other nodes, and not down
/// (docs/PROTOCOL.md, "Joining"). `NoMemory` where memory runs out.
#[tactic(auto, using(circus_collate::proofs::Going::made_more, circus_collate::proofs::Going::passed_over, circus_collate::proofs::Going::made_all))]
pub fn givers(alloc: Global, own: u16, down: &Nodes, view: &View) -> Result<Nodes, NoMemory>
    ensures { IfOk result (λ nodes. nodes ≡ rules.givers own down.now view.now) }
{
    let mut nodes = ListOf::new(alloc);
    for entry in view.entries.as_slice() {
        if may_give(own, down, entry) {
            nodes.push(entry.node)?;
        }
    }
    Ok(nodes)
}

fn may_give(own: u16, down: &Nodes, entry: &Entry) -> bool
    ensures { result ≡ rules.may_give own down.now entry.now }
{
    matches!(entry.since, Since::From(_))
        && entry.node != own
        && !is_among(down.as_slice(), entry.node)
}

/// Asks each of these for the state of a troupe, naming the view that took the member in (docs/PROTOCOL.md, "Joining").
/// `NoMemory` where memory runs out; some may have been asked then.
#[tactic(auto, using(circus_collate::proofs::Going::map_more, circus_collate::proofs::Going::map_all))]
pub fn ask_for_states(
    alloc: Global,
    troupe: u16,
    incarnation: u32,
    nodes: &[u16],
    effects: &mut Effects,
) -> Result<(), NoMemory>
    requires troupe { IsModule troupe }
    requires incarnation { IsIncarnation incarnation }
    ensures { OnOk result
        (effects.new ≡ effects.old ++ map (rules.state_request troupe incarnation) nodes.now) }
{
    for node in nodes {
        effects.push(Effect::Call {
            to: *node,
            message: fetch_message(alloc, troupe, incarnation)?,
            purpose: Purpose::Fetch,
        })?;
    }
    Ok(())
}
