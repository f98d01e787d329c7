// The messages that a member sends.
ghost use Rattle.std.specs.Prelude.{◌≡◌, ◌++◌, true, IfOk, OnOk};
ghost use Rattle.circus_value.specs.ShapeTree.{FieldTrees};
ghost use Rattle.circus_external.specs.Spelling.{spelling_of_all, fields_admit};
ghost use Rattle.circus_header.specs.Field.{bytes_of};
ghost use Rattle.circus_header.specs.CallFields.{call_fields, IsCall, IsRequest, IsModule, IsIncarnation};
ghost use Rattle.circus_header.specs.ReturnFields.{return_fields, IsReturn};
ghost use Rattle.circus_header.specs.declared.answer.ReturnHeader.TheVariants as header;
ghost use Rattle.circus_member_rules.specs.Messages as messages;
ghost use Rattle.circus_member_rules.specs.Callable.{IsWritable};

use circus_external::{write_all, write_word};
use circus_header::{Call, Reply, Request, ReturnHeader, reply_bytes, write_call, write_return};
use circus_value::{ListOf, Message, NoMemory, Outcome, Values, values_size};
use std::alloc::Global;

/// A request to the Ringmaster.
pub(crate) fn request_message(alloc: Global, request: Request) -> Result<Message, NoMemory>
    requires { IsRequest request }
    ensures { IfOk result (λ message. message ≡ messages.request_message request) }
{
    call_message(alloc, &Call::Ring(request))
}

/// The state of a troupe in an incarnation is asked for.
pub(crate) fn fetch_message(
    alloc: Global,
    troupe: u16,
    incarnation: u32,
) -> Result<Message, NoMemory>
    requires troupe { IsModule troupe }
    requires incarnation { IsIncarnation incarnation }
    ensures { IfOk result (λ message. message ≡ messages.fetch_message troupe incarnation) }
{
    call_message(alloc, &Call::Fetch(troupe, incarnation))
}

/// A reply: the clock, and behind it the outcome (docs/FORMATS.md, "Outcomes and lists of values"). `NoMemory` where memory runs out.
pub fn reply_message(alloc: Global, reply: &Reply) -> Result<Message, NoMemory>
    requires clock { IsReturn (header.Reply reply.now.clock) }
    requires outcome { IsWritable reply.now.outcome }
    ensures { IfOk result (λ message. message ≡ messages.reply_message reply.now) }
{
    let (Outcome::Returned(values) | Outcome::Raised(_, values)) = &reply.outcome;
    let room = (values_size(values) as usize).saturating_add(4);
    let mut message = reply_bytes(alloc, &reply.clock, room)?;
    write_outcome(alloc, &reply.outcome, &mut message)?;
    Ok(message)
}

/// A call is of an older view than of this incarnation.
pub(crate) fn stale_message(alloc: Global, incarnation: u32) -> Result<Message, NoMemory>
    requires { IsIncarnation incarnation }
    ensures { IfOk result (λ message. message ≡ messages.stale_message incarnation) }
{
    return_message(alloc, &ReturnHeader::Stale(incarnation))
}

/// A call is before this first one.
pub(crate) fn before_message(alloc: Global, first: u32) -> Result<Message, NoMemory>
    ensures { IfOk result (λ message. message ≡ messages.before_message first) }
{
    return_message(alloc, &ReturnHeader::Before(first))
}

/// The bytes of values (docs/FORMATS.md, "External data"). `NoMemory` where memory runs out.
pub fn body_of(alloc: Global, values: &Values) -> Result<Message, NoMemory>
    requires { (fields : FieldTrees) × (fields_admit fields values.now ≡ true) }
    ensures { IfOk result (λ body. body ≡ spelling_of_all values.now) }
{
    let mut body = ListOf::new(alloc);
    write_all(alloc, values, &mut body)?;
    Ok(body)
}

/// A copy of a message, in one piece.
pub(crate) fn copy_of(alloc: Global, message: &Message) -> Result<Message, NoMemory>
    ensures { IfOk result (λ copy. copy ≡ message.now) }
{
    let mut copy = ListOf::of(Vec::with_capacity(alloc, message.len())?);
    copy.append(message.as_slice())?;
    Ok(copy)
}

fn call_message(alloc: Global, call: &Call) -> Result<Message, NoMemory>
    requires { IsCall call.now }
    ensures { IfOk result (λ message. message ≡ bytes_of (call_fields call.now)) }
{
    let mut message = ListOf::new(alloc);
    write_call(alloc, call, &mut message)?;
    Ok(message)
}

fn return_message(alloc: Global, header: &ReturnHeader) -> Result<Message, NoMemory>
    requires { IsReturn header.now }
    ensures { IfOk result (λ message. message ≡ bytes_of (return_fields header.now)) }
{
    let mut message = ListOf::new(alloc);
    write_return(alloc, header, &mut message)?;
    Ok(message)
}

// Adds an outcome at the end.
fn write_outcome(alloc: Global, outcome: &Outcome, out: &mut Message) -> Result<(), NoMemory>
    requires { IsWritable outcome.now }
    ensures { OnOk result (out.new ≡ out.old ++ messages.outcome_spelling outcome.now) }
{
    match outcome {
        Outcome::Returned(results) => {
            write_word(0, out)?;
            write_all(alloc, results, out)
        }
        Outcome::Raised(error, values) => {
            write_word(1, out)?;
            write_word(*error, out)?;
            write_all(alloc, values, out)
        }
    }
}
