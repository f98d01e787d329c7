// Which returns are accepted.
ghost use Rattle.std.specs.Prelude.{◌≡◌, ◌≤◌, ◌==◌, length, IfOk, IfSome};
ghost use Rattle.std.specs.List.{list_any, list_all};
ghost use Rattle.circus_collate.specs.declared.view.Entry.{Entry as Registered};
ghost use Rattle.circus_ring.specs.RingTable.{troupe_of};
ghost use Rattle.circus_member_rules.specs.Happening.{CanHappen};
ghost use Rattle.circus_node.specs.Accepting as accepting;
ghost use Rattle.circus_node.specs.Accepting.{IsMemberOf};
ghost use Rattle.circus_node.specs.Seen.Can.{IsReplyOf, IsSaidRightly, IsToldRightly, IsGivenRightly, IsReturnedRightly};

use crate::bodies::{outcome_at, restored_in};
use crate::heads::{return_in, table_at};
use crate::program::{Callee, imported_procedure, may_belong};
use circus_collate::{Deployment, Entry, Table};
use circus_header::{Reply, Request, ReturnHeader};
use circus_limits::limit_of;
use circus_member::Member;
use circus_member_rules::{AskName, Occurrence, Purpose};
use circus_model::{Module, Signature};
use circus_record::MemberRecord;
use circus_value::{Clock, NoMemory, Parts};
use std::alloc::Global;

// What the record says that an ask of a name calls.
fn recorded_ask(kept: &MemberRecord, name: AskName) -> Option<Callee>
    ensures { result ≡ accepting.recorded_ask kept.now name }
{
    let run = kept.runs.get(name.run.saturating_sub(kept.from) as usize)?;
    let ask = run.asks.get(usize::from(name.ask))?;
    Some(Callee {
        troupe: ask.callee,
        procedure: ask.procedure,
    })
}

// What an ask of a name calls: an open ask says so itself.
fn called_by<M: Module>(member: &Member<M>, name: AskName) -> Option<Callee>
    ensures { result ≡ accepting.called_by member.now name }
{
    match member.header_of_ask(name) {
        Some(header) => Some(Callee {
            troupe: header.server,
            procedure: header.procedure,
        }),
        None => recorded_ask(member.record(), name),
    }
}

// A reply to an ask that calls this: the clock, and the outcome that the bytes from a place on are.
fn take_reply(
    alloc: Global,
    deployment: &Deployment,
    signature: &Signature,
    callee: Option<Callee>,
    clock: Clock,
    at: usize,
    message: &Parts,
) -> Result<Option<Reply>, NoMemory>
    ensures reply { IfOk result (λ reply.
        reply ≡ accepting.reply_by deployment.now signature.now callee clock at message.now) }
    ensures fits { IfOk result (λ reply.
        IfSome reply (IsReplyOf signature.now (length deployment.now.troupes) callee)) }
{
    if clock.len() != deployment.troupes.len() {
        return Ok(None);
    }
    let Some(callee) = callee else {
        return Ok(None);
    };
    let Some(procedure) = imported_procedure(signature, callee) else {
        return Ok(None);
    };
    let most = limit_of(deployment.format) as usize;
    let outcome = outcome_at(alloc, procedure, most, at, message)?;
    Ok(outcome.map(|outcome| Reply { clock, outcome }))
}

// A return of a node to an ask that calls this.
fn take_answer(
    alloc: Global,
    deployment: &Deployment,
    signature: &Signature,
    callee: Option<Callee>,
    name: AskName,
    server: u16,
    from: u16,
    message: &Parts,
) -> Result<Option<Occurrence>, NoMemory>
    ensures accepted { IfOk result (λ accepted.
        accepted ≡ accepting.answer_by deployment.now signature.now callee name server from
        message.now) }
    ensures can { IfOk result (λ accepted.
        IfSome accepted
        (IsSaidRightly signature.now (length deployment.now.troupes) callee name)) }
{
    let Some((header, at)) = return_in(alloc, message)? else {
        return Ok(None);
    };
    match header {
        ReturnHeader::Reply(clock) => {
            let reply = take_reply(alloc, deployment, signature, callee, clock, at, message)?;
            Ok(reply.map(|reply| Occurrence::Replied { name, from, reply }))
        }
        ReturnHeader::Stale(incarnation) => Ok(Some(Occurrence::IsStale {
            name,
            server,
            from,
            incarnation,
        })),
        ReturnHeader::Before(_first) => Ok(Some(Occurrence::IsBefore { name, from })),
        ReturnHeader::Snapshot(_count) => Ok(None),
        ReturnHeader::Table => Ok(None),
    }
}

fn has_node(entries: &[Entry], node: u16) -> bool
    ensures { result ≡ list_any (λ (e : Registered). e.node == node) entries.now }
{
    entries.iter().any(|entry| entry.node == node)
}

// Whether no node stands in two entries.
fn are_distinct(entries: &[Entry]) -> bool
    ensures { result ≡ accepting.are_distinct entries.now }
{
    match entries.split_first() {
        Some((first, others)) => !has_node(others, first.node) && are_distinct(others),
        None => true,
    }
}

fn all_belong(deployment: &Deployment, troupe: u16, entries: &[Entry]) -> bool
    ensures { result
        ≡ list_all (λ (e : Registered).
        accepting.may_belong deployment.now troupe e.node) entries.now }
{
    entries
        .iter()
        .all(|entry| may_belong(deployment, troupe, entry.node))
}

// Whether a table is one that the Ringmaster may answer to a request.
fn may_tell(deployment: &Deployment, request: &Request, table: &Table) -> bool
    ensures { result ≡ accepting.may_tell deployment.now request.now table.now }
{
    let view = &table.view;
    view.troupe == troupe_of(request)
        && are_distinct(view.entries.as_slice())
        && all_belong(deployment, view.troupe, view.entries.as_slice())
}

// The troupe that a request is about.
fn troupe_of(request: &Request) -> u16
    ensures { result ≡ troupe_of request.now }
{
    match request {
        Request::Lookup(troupe)
        | Request::Join(troupe, _)
        | Request::Active(troupe, _, _)
        | Request::Gone(troupe, _) => *troupe,
    }
}

// The return to a request.
fn take_table(
    alloc: Global,
    deployment: &Deployment,
    request: Request,
    message: &Parts,
) -> Result<Option<Occurrence>, NoMemory>
    ensures accepted { IfOk result (λ accepted.
        accepted ≡ accepting.accepted_table deployment.now request message.now) }
    ensures can { IfOk result (λ accepted. IfSome accepted IsToldRightly) }
{
    let Some((header, at)) = return_in(alloc, message)? else {
        return Ok(None);
    };
    match header {
        ReturnHeader::Table => tell_at(alloc, deployment, request, at, message),
        ReturnHeader::Reply(_clock) => Ok(None),
        ReturnHeader::Stale(_incarnation) => Ok(None),
        ReturnHeader::Before(_first) => Ok(None),
        ReturnHeader::Snapshot(_count) => Ok(None),
    }
}

// The table that the bytes from a place on are.
fn tell_at(
    alloc: Global,
    deployment: &Deployment,
    request: Request,
    at: usize,
    message: &Parts,
) -> Result<Option<Occurrence>, NoMemory>
    requires { at ≤ length message.now }
    ensures accepted { IfOk result (λ accepted.
        accepted ≡ accepting.told_at deployment.now request at message.now) }
    ensures can { IfOk result (λ accepted. IfSome accepted IsToldRightly) }
{
    let Some(table) = table_at(alloc, message, at)? else {
        return Ok(None);
    };
    if !may_tell(deployment, &request, &table) {
        return Ok(None);
    }
    Ok(Some(Occurrence::Told { request, table }))
}

// The return to a state request.
fn take_state(
    alloc: Global,
    signature: &Signature,
    message: &Parts,
) -> Result<Option<Occurrence>, NoMemory>
    ensures accepted { IfOk result (λ accepted.
        accepted ≡ accepting.accepted_state signature.now message.now) }
    ensures can { IfOk result (λ accepted. IfSome accepted (IsGivenRightly signature.now)) }
{
    let restored = restored_in(alloc, signature, message)?;
    Ok(restored.map(|(state, count)| Occurrence::Restored { state, count }))
}

/// What happens to a member by a return of a node to a call that was made for this purpose. `None` where the return isn't
/// accepted (docs/PROTOCOL.md, "Accepted messages").
#[tactic(auto, using(crate::proofs::Accepted::answer_can))]
pub(crate) fn accept_return<M: Module>(
    alloc: Global,
    deployment: &Deployment,
    member: &Member<M>,
    from: u16,
    purpose: Purpose,
    message: &Parts,
) -> Result<Option<Occurrence>, NoMemory>
    requires { IsMemberOf deployment.now member.now }
    ensures accepted { IfOk result (λ accepted.
        accepted ≡ accepting.accepted_return deployment.now
        (M.declared member.now.performing.hosted) member.now from purpose message.now) }
    ensures can { IfOk result (λ accepted.
        IfSome accepted (CanHappen (M.declared member.now.performing.hosted) member.now)) }
{
    match purpose {
        Purpose::Ask(name, server) => {
            let callee = called_by(member, name);
            let signature = member.signature();
            take_answer(
                alloc, deployment, signature, callee, name, server, from, message,
            )
        }
        Purpose::Ring(request) => take_table(alloc, deployment, request, message),
        Purpose::Fetch => take_state(alloc, member.signature(), message),
    }
}

/// Such a return to a call of a member of which this is the record in the end: that says what its asks call.
#[tactic(auto, using(crate::proofs::Accepted::answer_returned))]
pub(crate) fn accept_return_by_record(
    alloc: Global,
    deployment: &Deployment,
    signature: &Signature,
    record: &MemberRecord,
    from: u16,
    purpose: Purpose,
    message: &Parts,
) -> Result<Option<Occurrence>, NoMemory>
    ensures accepted { IfOk result (λ accepted.
        accepted ≡ accepting.return_by deployment.now signature.now
        (accepting.recorded_ask record.now) from purpose message.now) }
    ensures can { IfOk result (λ accepted.
        IfSome accepted (IsReturnedRightly signature.now (length deployment.now.troupes)
        (accepting.recorded_ask record.now))) }
{
    match purpose {
        Purpose::Ask(name, server) => {
            let callee = recorded_ask(record, name);
            take_answer(
                alloc, deployment, signature, callee, name, server, from, message,
            )
        }
        Purpose::Ring(request) => take_table(alloc, deployment, request, message),
        Purpose::Fetch => take_state(alloc, signature, message),
    }
}
