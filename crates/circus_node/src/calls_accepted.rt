// Which calls are accepted.
ghost use Rattle.std.specs.Prelude.{◌≡◌, ◌<◌, length, IfOk, IfSome};
ghost use Rattle.std.specs.Bool.{OnTrue};
ghost use Rattle.circus_header.specs.CallFields.{IsAsk};
ghost use Rattle.circus_ring.specs.RingTable.{troupe_of};
ghost use Rattle.circus_member_rules.specs.Happening.{IsCallTo};
ghost use Rattle.circus_node.specs.Accepting as accepting;
ghost use Rattle.circus_node.specs.Seen.Can.{HasArguments, MayTake};

use crate::bodies::are_values_at;
use crate::heads::call_in;
use crate::program::{is_host_of, is_root};
use circus_collate::Deployment;
use circus_header::{Call, CallHeader, Request};
use circus_limits::limit_of;
use circus_member_rules::Occurrence;
use circus_model::{Signature, procedure_numbered};
use circus_ring::Ring;
use circus_value::{Caller, NoMemory, Parts};
use std::alloc::Global;

fn unpacks(
    alloc: Global,
    deployment: &Deployment,
    signature: &Signature,
    procedure: u16,
    body: &Parts,
) -> Result<bool, NoMemory>
    ensures same { IfOk result (λ unpacks.
        unpacks ≡ accepting.unpacks deployment.now signature.now procedure body.now) }
    ensures has { IfOk result (λ unpacks.
        OnTrue unpacks (HasArguments signature.now procedure body.now)) }
{
    let Some(procedure) = procedure_numbered(&signature.procedures, procedure) else {
        return Ok(false);
    };
    let most = limit_of(deployment.format) as usize;
    are_values_at(alloc, &procedure.arguments, most, 0, body)
}

// Whether an ask is in order, but for its arguments.
fn is_in_order(deployment: &Deployment, own: u16, sender: u16, header: &CallHeader) -> bool
    ensures { result ≡ accepting.is_in_order deployment.now own sender header.now }
{
    let modules = deployment.troupes.len();
    is_host_of(deployment, header.client, sender)
        && is_root(deployment, header.root)
        && header.server == own
        && !is_root(deployment, header.server)
        && header.clock.len() == modules
        && header.path.len() < modules.saturating_sub(usize::from(header.server))
}

// Whether a member of a troupe takes an ask of a node.
fn may_ask(
    alloc: Global,
    deployment: &Deployment,
    signature: &Signature,
    own: u16,
    sender: u16,
    header: &CallHeader,
    body: &Parts,
) -> Result<bool, NoMemory>
    requires { IsAsk header.now }
    ensures same { IfOk result (λ may.
        may ≡ accepting.may_ask deployment.now signature.now own sender header.now body.now) }
    ensures can { IfOk result (λ may.
        OnTrue may (IsCallTo signature.now own
        (length deployment.now.troupes) header.now body.now)) }
{
    if !is_in_order(deployment, own, sender, header) {
        return Ok(false);
    }
    unpacks(alloc, deployment, signature, header.procedure, body)
}

// An ask, with its arguments.
fn take_ask(
    alloc: Global,
    deployment: &Deployment,
    signature: &Signature,
    own: u16,
    sender: Caller,
    header: CallHeader,
    body: Parts,
) -> Result<Option<Occurrence>, NoMemory>
    requires { IsAsk header }
    ensures accepted { IfOk result (λ accepted.
        accepted ≡ accepting.taken_ask deployment.now signature.now own sender header body) }
    ensures can { IfOk result (λ accepted.
        IfSome accepted (MayTake signature.now own (length deployment.now.troupes))) }
{
    let node = sender.node;
    if !may_ask(alloc, deployment, signature, own, node, &header, &body)? {
        return Ok(None);
    }
    Ok(Some(Occurrence::Asked {
        header,
        body,
        sender,
    }))
}

// A state request.
fn take_fetch(own: u16, sender: Caller, troupe: u16, incarnation: u32) -> Option<Occurrence>
    ensures { result ≡ accepting.taken_fetch own sender troupe incarnation }
{
    (troupe == own).then_some(Occurrence::Fetched {
        incarnation,
        sender,
    })
}

/// What happens to a member of a troupe by a call of a node. `None` where the call isn't accepted (docs/PROTOCOL.md,
/// "Accepted messages").
pub(crate) fn accept_call(
    alloc: Global,
    deployment: &Deployment,
    signature: &Signature,
    own: u16,
    sender: Caller,
    message: &Parts,
) -> Result<Option<Occurrence>, NoMemory>
    ensures accepted { IfOk result (λ accepted.
        accepted ≡ accepting.accepted_call deployment.now signature.now own sender message.now) }
    ensures can { IfOk result (λ accepted.
        IfSome accepted (MayTake signature.now own (length deployment.now.troupes))) }
{
    let Some((call, at)) = call_in(alloc, message)? else {
        return Ok(None);
    };
    match call {
        Call::Ask(header) => {
            let body = message.rest(at)?;
            take_ask(alloc, deployment, signature, own, sender, header, body)
        }
        Call::Ring(_request) => Ok(None),
        Call::Fetch(troupe, incarnation) => Ok(take_fetch(own, sender, troupe, incarnation)),
    }
}

/// What is asked of the Ringmaster by a call. `None` where the call isn't accepted (docs/PROTOCOL.md, "Accepted
/// messages"). `NoMemory` where memory runs out.
pub fn accept_request(
    alloc: Global,
    ring: &Ring,
    message: &Parts,
) -> Result<Option<Request>, NoMemory>
    ensures accepted { IfOk result (λ accepted.
        accepted ≡ accepting.accepted_request ring.now message.now) }
    ensures can { IfOk result (λ accepted.
        IfSome accepted (λ request. troupe_of request < length ring.now.troupes)) }
{
    let Some((call, _)) = call_in(alloc, message)? else {
        return Ok(None);
    };
    match call {
        Call::Ring(request) => Ok(ring.is_about_one(&request).then_some(request)),
        Call::Ask(_header) => Ok(None),
        Call::Fetch(_troupe, _incarnation) => Ok(None),
    }
}
