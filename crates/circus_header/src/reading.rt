// Headers, read from a slice or from parts.
ghost use Rattle.std.specs.Prelude.{◌≡◌, ◌+◌, ◌<◌, ◌≤◌, [], max, length, slice_get};
ghost use Rattle.circus_header.specs.Seen.Layout.{of_word, of_long, one, numbers, Reading};
ghost use Rattle.circus_header.specs.Seen.Layouts.{path_layout, clock_layout, client_layout, server_layout, ask_layout, request_layout, fetch_layout, call_layout, return_layout};
ghost use Rattle.circus_header.specs.Seen.Layouts as layouts;
ghost use Rattle.circus_header.specs.CallFields.{has_body};
ghost use Rattle.circus_header.specs.ReturnFields.{has_rest};
ghost use Rattle.circus_header.specs.Reading.{calls, returns, IsAnswer};

use crate::party::{Client, Server};
use crate::{Call, CallHeader, HeaderFault, Request, ReturnHeader};
use circus_external::{ByteSource, long_at, word_at};
use circus_limits::{LONGEST_PATH, MOST_ASKS, MOST_MODULES, MOST_NODES};
use circus_value::{Clock, ListOf, Parts, Path};
use std::alloc::Global;

// The greatest number of a module or of a troupe.
const LAST_MODULE: u16 = MOST_MODULES as u16 - 1;

// The greatest number of a node.
const LAST_NODE: u16 = MOST_NODES as u16 - 1;

// The greatest number of an ask.
const LAST_ASK: u16 = MOST_ASKS - 1;

// How many counts a clock has at most.
const LONGEST_CLOCK: u16 = MOST_MODULES as u16;

/// The header that a call message begins with, and how many bytes it has (docs/FORMATS.md, "Headers").
///
/// `Short` names the first byte of the first field that isn't whole, and `BadField` that of the first field
/// that is out of its range, or the first byte behind a header that has nothing behind it.
pub fn read_call(alloc: Global, bytes: &[u8]) -> Result<(Call, usize), HeaderFault>
    ensures { IsAnswer calls bytes.now result }
{
    whole_call(alloc, &bytes)
}

/// What `read_call` answers for the joined bytes, which are not copied.
pub fn read_call_parts(alloc: Global, parts: &Parts) -> Result<(Call, usize), HeaderFault>
    ensures { IsAnswer calls parts.now result }
{
    whole_call(alloc, parts)
}

/// The header that a return message begins with, and how many bytes it has (docs/FORMATS.md, "Headers").
///
/// The faults are those of `read_call`. The bytes of a view behind `Table` are not looked at.
pub fn read_return(alloc: Global, bytes: &[u8]) -> Result<(ReturnHeader, usize), HeaderFault>
    ensures { IsAnswer returns bytes.now result }
{
    whole_return(alloc, &bytes)
}

/// What `read_return` answers for the joined bytes, which are not copied.
pub fn read_return_parts(alloc: Global, parts: &Parts) -> Result<(ReturnHeader, usize), HeaderFault>
    ensures { IsAnswer returns parts.now result }
{
    whole_return(alloc, parts)
}

fn whole_call<S: ByteSource>(alloc: Global, source: &S) -> Result<(Call, usize), HeaderFault>
    ensures { IsAnswer calls (S.octets source.now) result }
{
    let (call, end) = any_call(alloc, source)?;
    if call.has_body() {
        return Ok((call, end));
    }
    if end < source.len() {
        return Err(HeaderFault::BadField(end as u64));
    }
    Ok((call, end))
}

fn whole_return<S: ByteSource>(
    alloc: Global,
    source: &S,
) -> Result<(ReturnHeader, usize), HeaderFault>
    ensures { IsAnswer returns (S.octets source.now) result }
{
    let (header, end) = any_return(alloc, source)?;
    if header.has_rest() {
        return Ok((header, end));
    }
    if end < source.len() {
        return Err(HeaderFault::BadField(end as u64));
    }
    Ok((header, end))
}

fn any_call<S: ByteSource>(alloc: Global, source: &S) -> Result<(Call, usize), HeaderFault>
    ensures { Reading (S.octets source.now) call_layout 0 result }
{
    let (kind, at) = word(source, 0, 0, 2)?;
    match kind {
        0 => {
            let (header, end) = ask(alloc, source, at)?;
            Ok((Call::Ask(header), end))
        }
        1 => {
            let (request, end) = request(source, at)?;
            Ok((Call::Ring(request), end))
        }
        _ => fetch(source, at),
    }
}

fn ask<S: ByteSource>(
    alloc: Global,
    source: &S,
    at: usize,
) -> Result<(CallHeader, usize), HeaderFault>
    ensures { Reading (S.octets source.now) ask_layout at result }
{
    let (root, at) = word(source, at, 0, LAST_MODULE)?;
    let (path, at) = path(alloc, source, at)?;
    let (client, at) = client(source, at)?;
    let (server, at) = server(source, at)?;
    let (clock, at) = clock(alloc, source, at, client.number.max(server.number) + 1)?;
    let header = CallHeader {
        root,
        path,
        client: client.number,
        client_incarnation: client.incarnation,
        client_index: client.index,
        server: server.number,
        server_incarnation: server.incarnation,
        procedure: server.procedure,
        clock,
    };
    Ok((header, at))
}

fn client<S: ByteSource>(source: &S, at: usize) -> Result<(Client, usize), HeaderFault>
    ensures { Reading (S.octets source.now) client_layout at result }
{
    let (number, at) = word(source, at, 0, LAST_MODULE)?;
    let (incarnation, at) = long(source, at, 1, u32::MAX)?;
    let (index, at) = long(source, at, 0, u32::MAX)?;
    let client = Client {
        number,
        incarnation,
        index,
    };
    Ok((client, at))
}

fn server<S: ByteSource>(source: &S, at: usize) -> Result<(Server, usize), HeaderFault>
    ensures { Reading (S.octets source.now) server_layout at result }
{
    let (number, at) = word(source, at, 0, LAST_MODULE)?;
    let (incarnation, at) = long(source, at, 1, u32::MAX)?;
    let (procedure, at) = word(source, at, 0, u16::MAX)?;
    let server = Server {
        number,
        incarnation,
        procedure,
    };
    Ok((server, at))
}

fn request<S: ByteSource>(source: &S, at: usize) -> Result<(Request, usize), HeaderFault>
    ensures { Reading (S.octets source.now) request_layout at result }
{
    let (request, at) = word(source, at, 0, 3)?;
    let (troupe, at) = word(source, at, 0, LAST_MODULE)?;
    let (node, at) = word(source, at, 0, most_node(request))?;
    let (count, at) = long(source, at, 0, most_count(request))?;
    Ok((request_of(request, troupe, node, count), at))
}

// The greatest number of the node's field in a request of this number.
fn most_node(request: u16) -> u16
    ensures { result ≡ layouts.most_node request }
{
    if request == 0 { 0 } else { LAST_NODE }
}

// The greatest number of the count's field in a request of this number.
fn most_count(request: u16) -> u32
    ensures { result ≡ layouts.most_count request }
{
    if request == 2 { u32::MAX } else { 0 }
}

fn request_of(request: u16, troupe: u16, node: u16, count: u32) -> Request
    ensures { result ≡ layouts.request_of request troupe node count }
{
    match request {
        0 => Request::Lookup(troupe),
        1 => Request::Join(troupe, node),
        2 => Request::Active(troupe, node, count),
        _ => Request::Gone(troupe, node),
    }
}

fn fetch<S: ByteSource>(source: &S, at: usize) -> Result<(Call, usize), HeaderFault>
    ensures { Reading (S.octets source.now) fetch_layout at result }
{
    let (troupe, at) = word(source, at, 0, LAST_MODULE)?;
    let (incarnation, at) = long(source, at, 1, u32::MAX)?;
    Ok((Call::Fetch(troupe, incarnation), at))
}

fn any_return<S: ByteSource>(
    alloc: Global,
    source: &S,
) -> Result<(ReturnHeader, usize), HeaderFault>
    ensures { Reading (S.octets source.now) return_layout 0 result }
{
    let (kind, at) = word(source, 0, 0, 4)?;
    match kind {
        0 => {
            let (clock, end) = clock(alloc, source, at, 1)?;
            Ok((ReturnHeader::Reply(clock), end))
        }
        1 => {
            let (incarnation, end) = long(source, at, 1, u32::MAX)?;
            Ok((ReturnHeader::Stale(incarnation), end))
        }
        2 => {
            let (first, end) = long(source, at, 0, u32::MAX)?;
            Ok((ReturnHeader::Before(first), end))
        }
        3 => {
            let (count, end) = long(source, at, 0, u32::MAX)?;
            Ok((ReturnHeader::Snapshot(count), end))
        }
        _ => Ok((ReturnHeader::Table, at)),
    }
}

fn path<S: ByteSource>(alloc: Global, source: &S, at: usize) -> Result<(Path, usize), HeaderFault>
    ensures { Reading (S.octets source.now) path_layout at result }
{
    let (count, at) = word(source, at, 1, LONGEST_PATH)?;
    words(alloc, source, at, count)
}

// As many numbers of asks as are said.
fn words<S: ByteSource>(
    alloc: Global,
    source: &S,
    from: usize,
    count: u16,
) -> Result<(Path, usize), HeaderFault>
    ensures { Reading (S.octets source.now) (numbers of_word 0 65534 count []) from result }
{
    let mut path = ListOf::new(alloc);
    let mut at = from;
    for _i in 0..count {
        let (number, next) = word(source, at, 0, LAST_ASK)?;
        path.push(number)?;
        at = next;
    }
    Ok((path, at))
}

// The counts of a clock, of which there are a least number.
fn clock<S: ByteSource>(
    alloc: Global,
    source: &S,
    at: usize,
    least: u16,
) -> Result<(Clock, usize), HeaderFault>
    ensures { Reading (S.octets source.now) (clock_layout least) at result }
{
    let (count, at) = word(source, at, least, LONGEST_CLOCK)?;
    longs(alloc, source, at, count)
}

// As many counts as are said.
fn longs<S: ByteSource>(
    alloc: Global,
    source: &S,
    from: usize,
    count: u16,
) -> Result<(Clock, usize), HeaderFault>
    ensures { Reading (S.octets source.now) (numbers of_long 0 4294967295 count []) from result }
{
    let mut clock = ListOf::new(alloc);
    let mut at = from;
    for _i in 0..count {
        let (number, next) = long(source, at, 0, u32::MAX)?;
        clock.push(number)?;
        at = next;
    }
    Ok((clock, at))
}

/// The number in the two bytes at a place, and the place behind it. `Short` where they are not whole, `BadField` where
/// the number is below the least or above the most.
pub fn word<S: ByteSource>(
    source: &S,
    at: usize,
    least: u16,
    most: u16,
) -> Result<(u16, usize), HeaderFault>
    ensures { Reading (S.octets source.now) (one of_word least most) at result }
{
    let Some(number) = word_at(source, at) else {
        return Err(HeaderFault::Short(at as u64));
    };
    if number < least || most < number {
        return Err(HeaderFault::BadField(at as u64));
    }
    Ok((number, at + 2))
}

/// The number in the four bytes at a place, and the place behind it. The faults are those of `word`.
pub fn long<S: ByteSource>(
    source: &S,
    at: usize,
    least: u32,
    most: u32,
) -> Result<(u32, usize), HeaderFault>
    ensures { Reading (S.octets source.now) (one of_long least most) at result }
{
    let Some(number) = long_at(source, at) else {
        return Err(HeaderFault::Short(at as u64));
    };
    if number < least || most < number {
        return Err(HeaderFault::BadField(at as u64));
    }
    Ok((number, at + 4))
}
