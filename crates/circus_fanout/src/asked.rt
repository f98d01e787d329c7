// Who was sent a call, and what became of it.
ghost use Rattle.std.specs.Prelude.{◌≡◌, IfOk, OnOk};
ghost use Rattle.std.specs.List.{list_any, list_all};
ghost use Rattle.circus_fanout.specs.Asking as asking;

use crate::{Next, Send, Sends};
use circus_collate::{Entry, View};
use circus_value::{ListOf, NoMemory, Nodes, is_among};
use std::alloc::Global;

/// What became of the last sending of a call to a node.
#[derive(Clone, Copy, Debug, PartialEq, Eq, Drop)]
pub enum Sending {
    Unanswered,
    /// It is answered by a reply, or the call is before the node's first one.
    Settled,
    /// It was of an older view than this incarnation.
    Stale(u32),
}

/// A node that was sent a call.
#[derive(Clone, Copy, Debug, PartialEq, Eq, Drop)]
pub struct Asked {
    pub node: u16,
    pub sending: Sending,
}

/// What became of the last sending to a node, where there was one.
pub fn sending_to(asked: &[Asked], node: u16) -> Option<Sending>
    ensures { result ≡ asking.sending_to asked.now node }
{
    asked
        .iter()
        .find(|one| one.node == node)
        .map(|one| one.sending)
}

/// Notes what became of the last sending to a node.
#[tactic(auto, using(crate::proofs::Writing::written_all))]
pub fn mark(asked: &mut [Asked], node: u16, sending: Sending)
    ensures { asked.new ≡ asking.mark_asked asked.old node sending }
{
    for one in asked.iter_mut() {
        *one = once_marked(*one, node, sending);
    }
}

fn once_marked(one: Asked, node: u16, sending: Sending) -> Asked
    ensures { result ≡ asking.once_marked node sending one }
{
    if one.node == node {
        Asked { node, sending }
    } else {
        one
    }
}

/// Notes that the call was sent to a node.
pub fn note_sent(asked: &mut Vec<Asked>, node: u16) -> Result<(), NoMemory>
    ensures { OnOk result (asked.new.items ≡ asking.with_sent asked.old.items node) }
{
    if was_sent(asked.as_slice(), node) {
        mark(asked.as_mut_slice(), node, Sending::Unanswered);
        return Ok(());
    }
    asked.push(Asked {
        node,
        sending: Sending::Unanswered,
    })?;
    Ok(())
}

fn was_sent(asked: &[Asked], node: u16) -> bool
    ensures { result ≡ list_any (asking.is_of node) asked.now }
{
    asked.iter().any(|one| one.node == node)
}

/// Who was sent the call, once these sendings are made too.
#[tactic(auto, using(circus_collate::proofs::Going::fold_more, circus_collate::proofs::Going::fold_all), unfolding(crate::specs::Asking::with_calls))]
pub fn with_calls(alloc: Global, asked: &[Asked], sends: &Sends) -> Result<Vec<Asked>, NoMemory>
    ensures { IfOk result (λ after. after.items ≡ asking.with_calls asked.now sends.now) }
{
    let mut after = asked.to_vec(alloc)?;
    for send in sends.as_slice() {
        note_sent(&mut after, send.node)?;
    }
    Ok(after)
}

fn is_satisfied(view: &View, sending: Sending) -> bool
    ensures { result ≡ asking.is_satisfied view.now sending }
{
    match sending {
        Sending::Unanswered | Sending::Settled => false,
        Sending::Stale(incarnation) => incarnation <= view.incarnation,
    }
}

fn is_due(view: &View, down: &Nodes, asked: &[Asked], entry: &Entry) -> bool
    ensures { result ≡ asking.is_due view.now down.now asked.now entry.now }
{
    if is_among(down.as_slice(), entry.node) {
        return false;
    }
    match sending_to(asked, entry.node) {
        Some(sending) => is_satisfied(view, sending),
        None => true,
    }
}

fn send_to(view: &View, node: u16) -> Send
    ensures { result ≡ asking.send_to view.now node }
{
    Send {
        node,
        incarnation: view.incarnation,
    }
}

/// The calls that a view makes due, in its order.
#[tactic(auto, using(circus_collate::proofs::Going::made_more, circus_collate::proofs::Going::passed_over, circus_collate::proofs::Going::made_all), unfolding(crate::specs::Asking::calls_for_a_view))]
pub fn calls_for_a_view(
    alloc: Global,
    view: &View,
    down: &Nodes,
    asked: &[Asked],
) -> Result<Sends, NoMemory>
    ensures { IfOk result (λ sends. sends ≡ asking.calls_for_a_view view.now down.now asked.now) }
{
    let mut sends = ListOf::new(alloc);
    for entry in view.entries.as_slice() {
        if is_due(view, down, asked, entry) {
            sends.push(send_to(view, entry.node))?;
        }
    }
    Ok(sends)
}

/// What follows where a node answers that the call was of an older view.
#[tactic(auto, unfolding(crate::specs::Asking::next))]
pub fn next(view: &View, down: &Nodes, node: u16, incarnation: u32) -> Next
    ensures { result ≡ asking.next view.now down.now node incarnation }
{
    if incarnation > view.incarnation {
        Next::Lookup(incarnation)
    } else if view.has_node(node) && !is_among(down.as_slice(), node) {
        Next::Send(send_to(view, node))
    } else {
        Next::Leave
    }
}

/// What becomes of the last sending to a node that answered so.
pub fn after_stale(next: Next, incarnation: u32) -> Sending
    ensures { result ≡ asking.after_stale next incarnation }
{
    match next {
        Next::Send(_) => Sending::Unanswered,
        Next::Lookup(_) | Next::Leave => Sending::Stale(incarnation),
    }
}

fn is_settled(sending: Sending) -> bool
    ensures { result ≡ asking.is_settled sending }
{
    matches!(sending, Sending::Settled)
}

// Whether a node is down, or has replied, or has answered that the call is before its first one.
fn is_done(down: &Nodes, asked: &[Asked], entry: &Entry) -> bool
    ensures { result ≡ asking.is_done down.now asked.now entry.now }
{
    if is_among(down.as_slice(), entry.node) {
        return true;
    }
    match sending_to(asked, entry.node) {
        Some(sending) => is_settled(sending),
        None => false,
    }
}

/// Whether each entry of a view is.
pub fn all_done(view: &View, down: &Nodes, asked: &[Asked]) -> bool
    ensures { result ≡ list_all (asking.is_done down.now asked.now) view.now.entries }
{
    view.entries
        .as_slice()
        .iter()
        .all(|entry| is_done(down, asked, entry))
}
