// Calls that come in, and who asks for the state.
ghost use Rattle.std.specs.Prelude.{◌≡◌, ◌∷◌, [], ◌++◌, IfOk, OnOk};
ghost use Rattle.circus_header.specs.CallFields.{IsIncarnation};
ghost use Rattle.circus_gather.specs.Gathering as gathering;
ghost use Rattle.circus_member_rules.specs.Rules as rules;
ghost use Rattle.circus_member_rules.specs.Callable.{AreReplies, MayAnswer};

use crate::messages::{before_message, copy_of, reply_message, stale_message};
use crate::{Effect, Effects};
use circus_fanout::Known;
use circus_gather::{Added, Gather};
use circus_header::CallHeader;
use circus_value::{Caller, Callers, Message, NoMemory, Parts};
use std::alloc::Global;

/// Answers each of these calls with a message. `NoMemory` where memory runs out; some may have been answered then.
#[tactic(auto, using(crate::proofs::Lasts::made_of_none, crate::proofs::Lasts::made_of_last))]
pub fn answer_all(
    alloc: Global,
    callers: &Callers,
    message: Message,
    effects: &mut Effects,
) -> Result<(), NoMemory>
    ensures { OnOk result (effects.new ≡ effects.old ++ rules.answers message callers.now) }
{
    let Some((last, before)) = callers.as_slice().split_last() else {
        return Ok(());
    };
    answer_each(alloc, before, &message, effects)?;
    effects.push(Effect::Answer {
        caller: *last,
        message,
    })?;
    Ok(())
}

// Answers each of these calls with a copy of a message.
#[tactic(auto, using(circus_collate::proofs::Going::map_more, circus_collate::proofs::Going::map_all))]
fn answer_each(
    alloc: Global,
    callers: &[Caller],
    message: &Message,
    effects: &mut Effects,
) -> Result<(), NoMemory>
    ensures { OnOk result (effects.new ≡ effects.old ++ rules.answers message.now callers.now) }
{
    for caller in callers {
        effects.push(Effect::Answer {
            caller: *caller,
            message: copy_of(alloc, message)?,
        })?;
    }
    Ok(())
}

/// Takes a call: it is answered at once, or it is held and the view of its client is wanted (docs/PROTOCOL.md, "Calls in").
/// `NoMemory` where memory runs out; what takes part may have been changed in part then.
pub fn take_call(
    alloc: Global,
    known: &mut Known,
    gather: &mut Gather,
    effects: &mut Effects,
    header: CallHeader,
    body: Parts,
    sender: Caller,
) -> Result<(), NoMemory>
    requires { AreReplies gather.old.replies }
    ensures held { OnOk result
        (gather.new ≡ gathering.with_call gather.old
        (record { header = header; body = body; sender = sender })) }
    ensures wanted { OnOk result
        (known.new ≡ rules.wanted_by_call
        (gathering.answer_to gather.old header) header known.old) }
    ensures made { OnOk result
        (effects.new ≡ effects.old
        ++ rules.answer_at_once (gathering.answer_to gather.old header) sender) }
{
    let client = header.client;
    let incarnation = header.client_incarnation;
    match at_once(alloc, gather.add(header, body, sender)?)? {
        Some(message) => effects.push(Effect::Answer {
            caller: sender,
            message,
        }),
        None => {
            known.want(client, incarnation);
            Ok(())
        }
    }
}

// The return that a call gets at once, unless it is held.
fn at_once(alloc: Global, added: Added) -> Result<Option<Message>, NoMemory>
    requires { MayAnswer added }
    ensures { IfOk result (λ message. message ≡ rules.message_at_once added) }
{
    match added {
        Added::Reply(reply) => Ok(Some(reply_message(alloc, &reply)?)),
        Added::Stale(required) => Ok(Some(stale_message(alloc, required)?)),
        Added::Before(first) => Ok(Some(before_message(alloc, first)?)),
        Added::Held => Ok(None),
    }
}

/// Takes a state request: held calls of older views are told (docs/PROTOCOL.md, "Joining"). `NoMemory` where memory runs
/// out; what takes part may have been changed in part then.
pub fn take_state_request(
    alloc: Global,
    gather: &mut Gather,
    requests: &mut Callers,
    effects: &mut Effects,
    incarnation: u32,
    sender: Caller,
) -> Result<(), NoMemory>
    requires { IsIncarnation incarnation }
    ensures held { OnOk result (gather.new ≡ gathering.with_required gather.old incarnation) }
    ensures waits { OnOk result (requests.new ≡ requests.old ++ sender ∷ []) }
    ensures made { OnOk result
        (effects.new ≡ effects.old ++ rules.stale_answers gather.old incarnation) }
{
    let callers = gather.require(incarnation)?;
    let message = stale_message(alloc, gather.required_incarnation())?;
    answer_all(alloc, &callers, message, effects)?;
    requests.push(sender)
}

/// The member is active from this call on: those that hold earlier ones are told (docs/PROTOCOL.md, "Joining"). `NoMemory`
/// where memory runs out; what takes part may have been changed in part then.
pub fn begin_at(
    alloc: Global,
    gather: &mut Gather,
    effects: &mut Effects,
    first: u32,
) -> Result<(), NoMemory>
    ensures held { OnOk result (gather.new ≡ gathering.with_first gather.old first) }
    ensures made { OnOk result
        (effects.new ≡ effects.old ++ rules.before_answers gather.old first) }
{
    let callers = gather.activate(first)?;
    let message = before_message(alloc, first)?;
    answer_all(alloc, &callers, message, effects)
}
