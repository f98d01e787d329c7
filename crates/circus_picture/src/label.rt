// What datagrams are called (docs/FORMATS.md, "Pictures").
ghost use Rattle.std.specs.Prelude.{◌≡◌, ◌≢◌, ◌≤◌, length, string_bytes, Err, IfOk, IfSome};
ghost use Rattle.std.specs.Result.{result_ok};
ghost use Rattle.circus_node.specs.Headers as headers;
ghost use Rattle.circus_segment.specs.Seen.Pieces.{piece};
ghost use Rattle.circus_picture.specs.Label as spec;

use crate::procedures::procedure_name;
use circus_collate::Table;
use circus_header::{Call, CallHeader, HeaderFault, Request, ReturnHeader, read_call, read_return};
use circus_idl::Procedures;
use circus_record::Naming;
use circus_ring::read_table;
use circus_segment::{CALL, PLEASE_ACKNOWLEDGE, Segment, read_segment};
use circus_value::{ListOf, NoMemory, Octets, PathText};
use std::alloc::{AllocError, Global};

/// What a datagram is called, by the names of nodes and modules and by the procedures of each module.
pub(crate) fn label<N: Naming>(
    alloc: Global,
    names: &N,
    procedures: &[Procedures],
    bytes: &[u8],
) -> Result<Octets, NoMemory>
    ensures { IfOk result (λ text. text ≡ spec.label (N.names names.now) procedures.now bytes.now) }
{
    match read_segment(bytes) {
        Ok(segment) => segment_label(alloc, names, procedures, &segment),
        Err(_fault) => Ok(ListOf::new(alloc)),
    }
}

fn segment_label<N: Naming>(
    alloc: Global,
    names: &N,
    procedures: &[Procedures],
    segment: &Segment<'_>,
) -> Result<Octets, NoMemory>
    ensures { IfOk result (λ text.
        text ≡ spec.segment_label (N.names names.now) procedures.now (piece segment.now)) }
{
    if !segment.has_data() {
        return bare_label(alloc, segment);
    }
    let mut text = data_label(alloc, names, procedures, segment)?;
    if segment.control == PLEASE_ACKNOWLEDGE {
        text.append(b" again")?;
    }
    Ok(text)
}

// A segment without data.
fn bare_label(alloc: Global, segment: &Segment<'_>) -> Result<Octets, NoMemory>
    ensures { IfOk result (λ text. text ≡ spec.bare_label (piece segment.now)) }
{
    let call = segment.call;
    if segment.is_acknowledgement() {
        let kind = kind_word(segment);
        Ok(octets(format!(in alloc; "ack {kind} {call}")?))
    } else {
        Ok(octets(format!(in alloc; "probe {call}")?))
    }
}

// A segment with data.
fn data_label<N: Naming>(
    alloc: Global,
    names: &N,
    procedures: &[Procedures],
    segment: &Segment<'_>,
) -> Result<Octets, NoMemory>
    ensures { IfOk result (λ text.
        text ≡ spec.data_label (N.names names.now) procedures.now (piece segment.now)) }
{
    if segment.number != 1 {
        return later_label(alloc, segment);
    }
    if segment.kind == CALL {
        call_message_label(alloc, names, procedures, segment.part)
    } else {
        return_message_label(alloc, names, segment.part)
    }
}

fn kind_word(segment: &Segment<'_>) -> &'static str
    ensures { result.now ≡ spec.kind_word (piece segment.now) }
{
    if segment.kind == CALL {
        "call"
    } else {
        "return"
    }
}

// A segment behind the first one of its message.
fn later_label(alloc: Global, segment: &Segment<'_>) -> Result<Octets, NoMemory>
    ensures { IfOk result (λ text. text ≡ spec.later_label (piece segment.now)) }
{
    let kind = kind_word(segment);
    let call = segment.call;
    let number = segment.number;
    let total = segment.total;
    let text = format!(in alloc; "{kind} {call} segment {number} of {total}")?;
    Ok(octets(text))
}

// A call by its first bytes.
fn call_message_label<N: Naming>(
    alloc: Global,
    names: &N,
    procedures: &[Procedures],
    message: &[u8],
) -> Result<Octets, NoMemory>
    ensures { IfOk result (λ text.
        text ≡ spec.call_message_label (N.names names.now) procedures.now message.now) }
{
    match call_in(alloc, message)? {
        Some((call, _)) => call_label(alloc, names, procedures, &call),
        None => Ok(ListOf::new(alloc)),
    }
}

// A return by its first bytes.
fn return_message_label<N: Naming>(
    alloc: Global,
    names: &N,
    message: &[u8],
) -> Result<Octets, NoMemory>
    ensures { IfOk result (λ text.
        text ≡ spec.return_message_label (N.names names.now) message.now) }
{
    match return_in(alloc, message)? {
        Some((header, at)) => return_label(alloc, names, &header, &message[at..]),
        None => Ok(ListOf::new(alloc)),
    }
}

fn call_label<N: Naming>(
    alloc: Global,
    names: &N,
    procedures: &[Procedures],
    call: &Call,
) -> Result<Octets, NoMemory>
    ensures { IfOk result (λ text.
        text ≡ spec.call_label (N.names names.now) procedures.now call.now) }
{
    match call {
        Call::Ask(header) => ask_label(alloc, names, procedures, header),
        Call::Ring(request) => request_label(alloc, names, request),
        Call::Fetch(troupe, _incarnation) => {
            let troupe = names.troupe(usize::from(*troupe));
            Ok(octets(format!(in alloc; "state request {troupe}")?))
        }
    }
}

fn ask_label<N: Naming>(
    alloc: Global,
    names: &N,
    procedures: &[Procedures],
    header: &CallHeader,
) -> Result<Octets, NoMemory>
    ensures { IfOk result (λ text.
        text ≡ spec.ask_label (N.names names.now) procedures.now header.now) }
{
    let server = names.troupe(usize::from(header.server));
    let path = PathText {
        root: names.troupe(usize::from(header.root)),
        asks: &header.path,
    };
    let path = format!(in alloc; " {path}")?;
    let mut text = octets(format!(in alloc; "call {server}.")?);
    text.append(procedure_name(procedures, header.server, header.procedure))?;
    text.append(path.as_bytes())?;
    Ok(text)
}

fn request_label<N: Naming>(alloc: Global, names: &N, request: &Request) -> Result<Octets, NoMemory>
    ensures { IfOk result (λ text. text ≡ spec.request_label (N.names names.now) request.now) }
{
    match *request {
        Request::Lookup(troupe) => {
            let troupe = names.troupe(usize::from(troupe));
            Ok(octets(format!(in alloc; "lookup {troupe}")?))
        }
        Request::Join(_troupe, node) => {
            let node = names.node(usize::from(node));
            Ok(octets(format!(in alloc; "join {node}")?))
        }
        Request::Active(_troupe, node, _count) => {
            let node = names.node(usize::from(node));
            Ok(octets(format!(in alloc; "active {node}")?))
        }
        Request::Gone(_troupe, node) => {
            let node = names.node(usize::from(node));
            Ok(octets(format!(in alloc; "gone {node}")?))
        }
    }
}

// A return, and what is behind its header.
fn return_label<N: Naming>(
    alloc: Global,
    names: &N,
    header: &ReturnHeader,
    behind: &[u8],
) -> Result<Octets, NoMemory>
    ensures { IfOk result (λ text.
        text ≡ spec.return_label (N.names names.now) header.now behind.now) }
{
    match header {
        ReturnHeader::Reply(_clock) => ListOf::from_text(alloc, "reply"),
        ReturnHeader::Stale(incarnation) => Ok(octets(format!(in alloc; "stale {incarnation}")?)),
        ReturnHeader::Before(first) => Ok(octets(format!(in alloc; "before {first}")?)),
        ReturnHeader::Snapshot(count) => Ok(octets(format!(in alloc; "snapshot {count}")?)),
        ReturnHeader::Table => table_label(alloc, names, behind),
    }
}

fn table_label<N: Naming>(alloc: Global, names: &N, bytes: &[u8]) -> Result<Octets, NoMemory>
    ensures { IfOk result (λ text. text ≡ spec.table_label (N.names names.now) bytes.now) }
{
    match table_in(alloc, bytes)? {
        Some(table) => {
            let troupe = names.troupe(usize::from(table.view.troupe));
            Ok(octets(format!(in alloc; "table {troupe}")?))
        }
        None => ListOf::from_text(alloc, "table "),
    }
}

// The header of a call that a message begins with, and how many bytes it has.
fn call_in(alloc: Global, message: &[u8]) -> Result<Option<(Call, usize)>, NoMemory>
    ensures { IfOk result (λ call. call ≡ headers.call_in message.now) }
{
    unless_refused(read_call(alloc, message))
}

// That of a return.
fn return_in(alloc: Global, message: &[u8]) -> Result<Option<(ReturnHeader, usize)>, NoMemory>
    ensures read { IfOk result (λ header. header ≡ headers.return_in message.now) }
    ensures within { IfOk result (λ header. IfSome header (λ read. read.1 ≤ length message.now)) }
{
    unless_refused(read_return(alloc, message))
}

// The table that bytes are.
fn table_in(alloc: Global, bytes: &[u8]) -> Result<Option<Table>, NoMemory>
    ensures { IfOk result (λ table. table ≡ headers.table_in bytes.now) }
{
    unless_refused(read_table(alloc, bytes))
}

// What was read, or nothing where the bytes were refused.
fn unless_refused<T>(read: Result<T, HeaderFault>) -> Result<Option<T>, NoMemory>
    ensures found { IfOk result (λ found. found ≡ result_ok read) }
    ensures made { IfOk result (λ found. read ≢ Err HeaderFault.NoMemory) }
{
    match read {
        Ok(read) => Ok(Some(read)),
        Err(HeaderFault::NoMemory) => Err(AllocError),
        Err(HeaderFault::Short(_place)) => Ok(None),
        Err(HeaderFault::BadField(_place)) => Ok(None),
    }
}

// The bytes of a text, which are not copied.
fn octets(text: String) -> Octets
    ensures { result ≡ string_bytes text }
{
    ListOf::of(text.into_bytes())
}
