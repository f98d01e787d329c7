// Headers, written.
ghost use Rattle.std.specs.Prelude.{◌≡◌, ◌++◌, ◌∷◌, [], ◌<◌, length, map, OnOk, OnErr, IfOk};
ghost use Rattle.circus_header.specs.Field.{word, long, bytes_of};
ghost use Rattle.circus_header.specs.declared.call.Call.TheVariants.{Ask};
ghost use Rattle.circus_header.specs.declared.answer.ReturnHeader.TheVariants.{Reply};
ghost use Rattle.circus_header.specs.CallFields.{call_fields, ask_fields, request_fields, naming, IsCall, IsAsk, IsRequest};
ghost use Rattle.circus_header.specs.ReturnFields.{return_fields, IsReturn};
ghost use Rattle.circus_header.specs.Seen.Written.{Written};

use crate::{Call, CallHeader, Request, ReturnHeader};
use circus_external::{write_long, write_word};
use circus_value::{Clock, ListOf, Message, NoMemory, Path};
use std::alloc::Global;

// The bytes of an ask's header but for its path and its clock, and those of a reply's but for its clock.
const ASK_LEN: usize = 26;

const REPLY_LEN: usize = 4;

/// The bytes of an ask, written once at their length: its header, which names these incarnations of the views of the client
/// and of the server, and behind it the arguments (docs/FORMATS.md, "Headers"). `NoMemory` is the one fault.
pub fn ask_bytes(
    alloc: Global,
    header: &CallHeader,
    client_incarnation: u32,
    server_incarnation: u32,
    arguments: &Message,
) -> Result<Message, NoMemory>
    requires { IsAsk (naming header.now client_incarnation server_incarnation) }
    ensures { IfOk result (λ bytes.
        bytes ≡ bytes_of
        (call_fields (Ask (naming header.now client_incarnation server_incarnation)))
        ++ arguments.now) }
{
    let len = ASK_LEN + 2 * header.path.len() + 4 * header.clock.len();
    let mut bytes = with_room(alloc, len.saturating_add(arguments.len()))?;
    push_word(0, &mut bytes)?;
    push_ask(header, client_incarnation, server_incarnation, &mut bytes)?;
    bytes.append(arguments.as_slice())?;
    Ok(bytes)
}

/// The bytes of a reply's header, with room for so many bytes behind them (docs/FORMATS.md, "Headers"). `NoMemory` is the
/// one fault.
pub fn reply_bytes(alloc: Global, clock: &Clock, room: usize) -> Result<Message, NoMemory>
    requires { IsReturn (Reply clock.now) }
    ensures { IfOk result (λ bytes. bytes ≡ bytes_of (return_fields (Reply clock.now))) }
{
    let len = REPLY_LEN + 4 * clock.len();
    let mut bytes = with_room(alloc, len.saturating_add(room))?;
    push_word(0, &mut bytes)?;
    push_clock(clock, &mut bytes)?;
    Ok(bytes)
}

// No bytes yet, and room for so many.
fn with_room(alloc: Global, len: usize) -> Result<Message, NoMemory>
    ensures { IfOk result (λ bytes. bytes ≡ []) }
{
    Ok(ListOf::of(Vec::with_capacity(alloc, len)?))
}

/// Adds the bytes of a call message's header at the end of `out` (docs/FORMATS.md, "Headers").
///
/// After `NoMemory`, the one fault, `out` is unchanged.
pub fn write_call(alloc: Global, call: &Call, out: &mut Message) -> Result<(), NoMemory>
    requires { IsCall call.now }
    ensures ok { OnOk result (out.new ≡ out.old ++ bytes_of (call_fields call.now)) }
    ensures err { OnErr result (out.new ≡ out.old) }
{
    let mut header = ListOf::new(alloc);
    push_call(call, &mut header)?;
    out.append(header.as_slice())
}

/// Adds the bytes of a return message's header at the end of `out` (docs/FORMATS.md, "Headers").
///
/// After `NoMemory`, the one fault, `out` is unchanged.
pub fn write_return(alloc: Global, header: &ReturnHeader, out: &mut Message) -> Result<(), NoMemory>
    requires { IsReturn header.now }
    ensures ok { OnOk result (out.new ≡ out.old ++ bytes_of (return_fields header.now)) }
    ensures err { OnErr result (out.new ≡ out.old) }
{
    let mut bytes = ListOf::new(alloc);
    push_return(header, &mut bytes)?;
    out.append(bytes.as_slice())
}

fn push_call(call: &Call, out: &mut Message) -> Result<(), NoMemory>
    requires { IsCall call.now }
    ensures { OnOk result (Written out.old (call_fields call.now) out.new) }
{
    match call {
        Call::Ask(header) => {
            push_word(0, out)?;
            push_ask(
                header,
                header.client_incarnation,
                header.server_incarnation,
                out,
            )
        }
        Call::Ring(request) => {
            push_word(1, out)?;
            push_request(request, out)
        }
        Call::Fetch(troupe, incarnation) => {
            push_word(2, out)?;
            push_word(*troupe, out)?;
            push_long(*incarnation, out)
        }
    }
}

// The header with these incarnations in the place of its own.
fn push_ask(
    header: &CallHeader,
    client_incarnation: u32,
    server_incarnation: u32,
    out: &mut Message,
) -> Result<(), NoMemory>
    requires { IsAsk (naming header.now client_incarnation server_incarnation) }
    ensures { OnOk result
        (Written out.old
        (ask_fields (naming header.now client_incarnation server_incarnation)) out.new) }
{
    push_word(header.root, out)?;
    push_path(&header.path, out)?;
    push_word(header.client, out)?;
    push_long(client_incarnation, out)?;
    push_long(header.client_index, out)?;
    push_word(header.server, out)?;
    push_long(server_incarnation, out)?;
    push_word(header.procedure, out)?;
    push_clock(&header.clock, out)
}

fn push_request(request: &Request, out: &mut Message) -> Result<(), NoMemory>
    ensures { OnOk result (Written out.old (request_fields request.now) out.new) }
{
    match *request {
        Request::Lookup(troupe) => push_ring(0, troupe, 0, 0, out),
        Request::Join(troupe, node) => push_ring(1, troupe, node, 0, out),
        Request::Active(troupe, node, count) => push_ring(2, troupe, node, count, out),
        Request::Gone(troupe, node) => push_ring(3, troupe, node, 0, out),
    }
}

fn push_ring(
    request: u16,
    troupe: u16,
    node: u16,
    count: u32,
    out: &mut Message,
) -> Result<(), NoMemory>
    ensures { OnOk result
        (Written out.old (word request ∷ word troupe ∷ word node ∷ long count ∷ []) out.new) }
{
    push_word(request, out)?;
    push_word(troupe, out)?;
    push_word(node, out)?;
    push_long(count, out)
}

fn push_return(header: &ReturnHeader, out: &mut Message) -> Result<(), NoMemory>
    requires { IsReturn header.now }
    ensures { OnOk result (Written out.old (return_fields header.now) out.new) }
{
    match header {
        ReturnHeader::Reply(clock) => {
            push_word(0, out)?;
            push_clock(clock, out)
        }
        ReturnHeader::Stale(incarnation) => {
            push_word(1, out)?;
            push_long(*incarnation, out)
        }
        ReturnHeader::Before(first) => {
            push_word(2, out)?;
            push_long(*first, out)
        }
        ReturnHeader::Snapshot(count) => {
            push_word(3, out)?;
            push_long(*count, out)
        }
        ReturnHeader::Table => push_word(4, out),
    }
}

fn push_path(path: &Path, out: &mut Message) -> Result<(), NoMemory>
    requires { length path.now < 65536 }
    ensures { OnOk result (Written out.old (word (length path.now) ∷ map word path.now) out.new) }
{
    push_word(path.len() as u16, out)?;
    for number in path.as_slice() {
        push_word(*number, out)?;
    }
    Ok(())
}

fn push_clock(clock: &Clock, out: &mut Message) -> Result<(), NoMemory>
    requires { length clock.now < 65536 }
    ensures { OnOk result (Written out.old (word (length clock.now) ∷ map long clock.now) out.new) }
{
    push_word(clock.len() as u16, out)?;
    for count in clock.as_slice() {
        push_long(*count, out)?;
    }
    Ok(())
}

/// Adds a number in two bytes at the end of `out`, which is unchanged after `NoMemory`.
pub fn push_word(number: u16, out: &mut Message) -> Result<(), NoMemory>
    ensures { OnOk result (Written out.old (word number ∷ []) out.new) }
{
    write_word(number, out)
}

/// Adds a number in four bytes at the end of `out`, which is unchanged after `NoMemory`.
pub fn push_long(number: u32, out: &mut Message) -> Result<(), NoMemory>
    ensures { OnOk result (Written out.old (long number ∷ []) out.new) }
{
    write_long(number, out)
}
