// Calls of asks, and what comes of them.
ghost use Rattle.std.specs.Prelude.{◌≡◌, ◌++◌, All, slice_get, IfOk, OnOk, option_copied};
ghost use Rattle.circus_header.specs.CallFields.{IsIncarnation};
ghost use Rattle.circus_fanout.specs.Asking as asking;
ghost use Rattle.circus_member_rules.specs.declared.occurrence.Effect.TheVariants.{Call};
ghost use Rattle.circus_member_rules.specs.declared.occurrence.Purpose.TheVariants.{Ask};
ghost use Rattle.circus_member_rules.specs.Messages.{ask_message};
ghost use Rattle.circus_member_rules.specs.Rules as rules;
ghost use Rattle.circus_member_rules.specs.Seen.Closing as closing;
ghost use Rattle.circus_member_rules.specs.Callable.{AreViews, MayCall, CallsAView};

use crate::messages::copy_of;
use crate::{AskName, Difference, Effect, Effects, Purpose};
use circus_collate::{Collated, Said, View};
use circus_fanout::{Fanout, Known, Next, Send, Watched};
use circus_header::{Reply, ask_bytes};
use circus_value::{Duplicate, Message, NoMemory};
use std::alloc::Global;

// The incarnation of a troupe's view.
fn incarnation_of(known: &Known, troupe: u16) -> u32
    ensures { result ≡ rules.incarnation_of known.now troupe }
{
    match known.view(troupe) {
        Some(view) => view.incarnation,
        None => 0,
    }
}

/// The view of an ask's server.
pub(crate) fn view_of<'a>(known: &'a Known, fanout: &Fanout) -> Option<&'a View>
    ensures { option_copied result ≡ slice_get known.now.views fanout.now.header.server }
{
    known.view(fanout.header().server)
}

/// A call of an ask. Its header names the views of the server and of the own troupe that are known now.
pub(crate) fn call_of_ask(
    alloc: Global,
    known: &Known,
    name: AskName,
    fanout: &Fanout,
    send: Send,
) -> Result<Effect, NoMemory>
    requires may { MayCall known.now fanout.now }
    requires view { IsIncarnation send.incarnation }
    ensures { IfOk result (λ call. call ≡ rules.call_of_ask known.now name fanout.now send) }
{
    let message = bytes_of_ask(alloc, known, fanout, send)?;
    Ok(call_with(name, fanout, send, message))
}

// The bytes of that call.
fn bytes_of_ask(
    alloc: Global,
    known: &Known,
    fanout: &Fanout,
    send: Send,
) -> Result<Message, NoMemory>
    requires may { MayCall known.now fanout.now }
    requires view { IsIncarnation send.incarnation }
    ensures { IfOk result (λ bytes.
        bytes ≡ ask_message (rules.header_now known.now fanout.now send) fanout.now.body) }
{
    let header = fanout.header();
    let own = incarnation_of(known, header.client);
    ask_bytes(alloc, header, own, send.incarnation, fanout.body())
}

// The call that has these bytes.
fn call_with(name: AskName, fanout: &Fanout, send: Send, message: Message) -> Effect
    ensures { result ≡ Call send.node message (Ask name fanout.now.header.server) }
{
    Effect::Call {
        to: send.node,
        message,
        purpose: Purpose::Ask(name, fanout.header().server),
    }
}

// The bytes of a call of an ask, by those of another, which are copied where the two name the same view.
#[tactic(auto, using(crate::proofs::Lasts::same_bytes))]
fn bytes_alike(
    alloc: Global,
    known: &Known,
    fanout: &Fanout,
    other: Send,
    bytes: &Message,
    send: Send,
) -> Result<Message, NoMemory>
    requires may { MayCall known.now fanout.now }
    requires view { IsIncarnation send.incarnation }
    requires other { bytes.now
        ≡ ask_message (rules.header_now known.now fanout.now other) fanout.now.body }
    ensures { IfOk result (λ bytes.
        bytes ≡ ask_message (rules.header_now known.now fanout.now send) fanout.now.body) }
{
    if send.incarnation == other.incarnation {
        copy_of(alloc, bytes)
    } else {
        bytes_of_ask(alloc, known, fanout, send)
    }
}

/// Makes the calls of an ask, in order (docs/PROTOCOL.md, "Calls out"). `NoMemory` where memory runs out; some may have been
/// made then.
#[tactic(auto, using(crate::proofs::Lasts::made_of_none, crate::proofs::Lasts::made_of_last, crate::proofs::Lasts::holds_before, crate::proofs::Lasts::holds_last))]
pub fn calls_of_ask(
    alloc: Global,
    known: &Known,
    name: AskName,
    fanout: &Fanout,
    sends: &[Send],
    effects: &mut Effects,
) -> Result<(), NoMemory>
    requires may { MayCall known.now fanout.now }
    requires views { All (λ send. IsIncarnation send.incarnation) sends.now }
    ensures { OnOk result
        (effects.new ≡ effects.old ++ rules.calls_of_ask known.now name fanout.now sends.now) }
{
    let Some((last, before)) = sends.split_last() else {
        return Ok(());
    };
    let bytes = bytes_of_ask(alloc, known, fanout, *last)?;
    calls_alike(alloc, known, name, fanout, *last, &bytes, before, effects)?;
    effects.push(call_with(name, fanout, *last, bytes))?;
    Ok(())
}

// Makes calls of an ask by the bytes of another one.
#[tactic(auto, using(circus_collate::proofs::Going::map_more, circus_collate::proofs::Going::map_all))]
fn calls_alike(
    alloc: Global,
    known: &Known,
    name: AskName,
    fanout: &Fanout,
    other: Send,
    bytes: &Message,
    sends: &[Send],
    effects: &mut Effects,
) -> Result<(), NoMemory>
    requires may { MayCall known.now fanout.now }
    requires views { All (λ send. IsIncarnation send.incarnation) sends.now }
    requires other { bytes.now
        ≡ ask_message (rules.header_now known.now fanout.now other) fanout.now.body }
    ensures { OnOk result
        (effects.new ≡ effects.old ++ rules.calls_of_ask known.now name fanout.now sends.now) }
{
    for send in sends {
        let message = bytes_alike(alloc, known, fanout, other, bytes, *send)?;
        effects.push(call_with(name, fanout, *send, message))?;
    }
    Ok(())
}

/// A node replies to an ask, and tells where that differs.
pub(crate) fn take_reply(
    name: AskName,
    fanout: &mut Fanout,
    from: u16,
    reply: Reply,
) -> Result<Option<Difference>, NoMemory>
    ensures kept { OnOk result (fanout.new ≡ asking.with_reply from reply fanout.old) }
    ensures told { IfOk result (λ told. told ≡ rules.difference_by name from reply fanout.old) }
{
    let watched = fanout.replied(from, reply)?;
    difference_told(name, fanout, watched)
}

fn difference_told(
    name: AskName,
    fanout: &Fanout,
    watched: Watched,
) -> Result<Option<Difference>, NoMemory>
    ensures { IfOk result (λ told. told ≡ rules.difference_told name fanout.now.said watched) }
{
    let Watched::Differs(one, other) = watched else {
        return Ok(None);
    };
    match (fanout.said_at(one), fanout.said_at(other)) {
        (Some(first), Some(second)) => Ok(Some(difference_of(name, first, second)?)),
        _ => Ok(None),
    }
}

fn difference_of(
    name: AskName,
    first: &Said<Reply>,
    second: &Said<Reply>,
) -> Result<Difference, NoMemory>
    ensures { IfOk result (λ difference.
        difference ≡ rules.difference_of name first.now second.now) }
{
    Ok(Difference {
        run: name.run,
        ask: u32::from(name.ask),
        first: first.node,
        first_reply: first.value.copy()?,
        second: second.node,
        second_reply: second.value.copy()?,
    })
}

/// A node answers an ask that it is of an older view than of this incarnation.
pub(crate) fn take_stale(
    alloc: Global,
    known: &Known,
    name: AskName,
    fanout: &mut Fanout,
    from: u16,
    incarnation: u32,
    effects: &mut Effects,
) -> Result<(), NoMemory>
    requires may { MayCall known.now fanout.old }
    requires views { AreViews known.now }
    ensures kept { OnOk result
        (fanout.new ≡ rules.after_stale known.now from incarnation fanout.old) }
    ensures made { OnOk result
        (effects.new ≡ effects.old ++ rules.call_again known.now name from incarnation fanout.old) }
{
    let Some(view) = view_of(known, fanout) else {
        return Ok(());
    };
    let next = fanout.stale(from, incarnation, view, known.down_nodes());
    add_call_for(alloc, known, name, fanout, next, effects)
}

// Makes the call that follows a Stale.
fn add_call_for(
    alloc: Global,
    known: &Known,
    name: AskName,
    fanout: &Fanout,
    next: Next,
    effects: &mut Effects,
) -> Result<(), NoMemory>
    requires may { MayCall known.now fanout.now }
    requires view { CallsAView next }
    ensures { OnOk result
        (effects.new ≡ effects.old ++ rules.call_for known.now name fanout.now next) }
{
    if let Next::Send(send) = next {
        effects.push(call_of_ask(alloc, known, name, fanout, send)?)?;
    }
    Ok(())
}

/// A new view is known: where the ask is to its troupe, the calls that it makes due are made.
pub(crate) fn view_calls(
    alloc: Global,
    known: &Known,
    view: &View,
    name: AskName,
    fanout: &mut Fanout,
    effects: &mut Effects,
) -> Result<(), NoMemory>
    requires may { MayCall known.now fanout.old }
    requires view { IsIncarnation view.now.incarnation }
    ensures kept { OnOk result
        ((name, fanout.new) ≡ rules.seen_by_ask known.now view.now (name, fanout.old)) }
    ensures made { OnOk result
        (effects.new ≡ effects.old ++ closing.calls_by_ask known.now view.now (name, fanout.old)) }
{
    if fanout.header().server != view.troupe {
        return Ok(());
    }
    let sends = fanout.new_view(view, known.down_nodes())?;
    calls_of_ask(alloc, known, name, fanout, sends.as_slice(), effects)
}

/// The value of an ask, where its collator gives one (docs/PROTOCOL.md, "Collators"). It takes no memory.
pub fn value_of_ask<'a>(known: &Known, fanout: &'a Fanout) -> Option<&'a Reply>
    ensures { option_copied result ≡ rules.value_of_ask known.now fanout.now }
{
    let view = view_of(known, fanout)?;
    match fanout.answer(view, known.down_nodes()) {
        Collated::Answer(place) => fanout.reply_at(place),
        Collated::Waiting | Collated::Differ(_, _) => None,
    }
}

/// Whether each entry of the view of an ask's server is down or has answered.
pub(crate) fn is_settled(known: &Known, fanout: &Fanout) -> bool
    ensures { result ≡ rules.is_settled known.now fanout.now }
{
    match view_of(known, fanout) {
        Some(view) => fanout.settled(view, known.down_nodes()),
        None => false,
    }
}
