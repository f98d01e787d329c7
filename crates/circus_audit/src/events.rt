// The lines of events, behind their first words.
ghost use Rattle.std.specs.Prelude.{◌≤◌, ◌^◌, length, drop, map};
ghost use Rattle.circus_record.specs.Naming.{host_name};
ghost use Rattle.circus_value_text.specs.Seen.Given.{GivesAll};
ghost use Rattle.circus_audit.specs.Seen.Events as events;

use crate::noted::Differing;
use crate::words::{end, read_other};
use circus_collate::Host;
use circus_node::{Event, Give};
use circus_value::{Message, Octets};
use circus_value_text::{Unread, behind_mark, pass, read_bytes, read_long, read_word};
use std::alloc::Global;

const SPACE: &[u8] = b" ";

const ASK: &[u8] = b" ask ";

const BOOT: &[u8] = b"boot";

const TICK: &[u8] = b"tick";

const JOIN: &[u8] = b"join";

const DATAGRAM: &[u8] = b"datagram ";

const DOWN: &[u8] = b"down ";

// Another node, and bytes up to the end.
fn read_addressed(
    alloc: Global,
    line: &[u8],
    at: usize,
    nodes: &[Host],
    own: u16,
) -> Result<(u16, Message), Unread>
    requires at { at ≤ length line.now }
    requires nodes { length nodes.now ≤ 2 ^ 16 }
    ensures { GivesAll result
        (events.node_and_bytes (map host_name nodes.now) own (drop at line.now)) }
{
    let (node, next) = read_other(line, at, nodes, own)?;
    let inner = pass(line, next, SPACE)?;
    Ok((node, read_bytes(alloc, line, inner)?))
}

// An event that one word says.
fn read_bare(word: &[u8]) -> Result<Option<Event>, Unread>
    ensures { GivesAll result (events.bare_event word.now) }
{
    if word == TICK {
        Ok(Some(Event::Tick))
    } else if word == JOIN {
        Ok(Some(Event::Join))
    } else if word == BOOT {
        Ok(None)
    } else {
        Err(Unread::Unlike)
    }
}

fn read_datagram(
    alloc: Global,
    line: &[u8],
    at: usize,
    nodes: &[Host],
    own: u16,
) -> Result<Event, Unread>
    requires at { at ≤ length line.now }
    requires nodes { length nodes.now ≤ 2 ^ 16 }
    ensures { GivesAll result
        (events.datagram_read (map host_name nodes.now) own (drop at line.now)) }
{
    let (from, bytes) = read_addressed(alloc, line, at, nodes, own)?;
    Ok(Event::Datagram(from, bytes.share()?))
}

fn read_down(line: &[u8], at: usize, nodes: &[Host], own: u16) -> Result<Event, Unread>
    requires at { at ≤ length line.now }
    requires nodes { length nodes.now ≤ 2 ^ 16 }
    ensures { GivesAll result (events.down_read (map host_name nodes.now) own (drop at line.now)) }
{
    let (node, next) = read_other(line, at, nodes, own)?;
    end(line, next)?;
    Ok(Event::Down(node))
}

// What came.
fn read_what(
    alloc: Global,
    line: &[u8],
    at: usize,
    nodes: &[Host],
    own: u16,
) -> Result<Option<Event>, Unread>
    requires at { at ≤ length line.now }
    requires nodes { length nodes.now ≤ 2 ^ 16 }
    ensures { GivesAll result (events.what_read (map host_name nodes.now) own (drop at line.now)) }
{
    if let Some(next) = behind_mark(line, at, DATAGRAM) {
        return Ok(Some(read_datagram(alloc, line, next, nodes, own)?));
    }
    match behind_mark(line, at, DOWN) {
        Some(next) => Ok(Some(read_down(line, next, nodes, own)?)),
        None => read_bare(&line[at..]),
    }
}

/// The event of this number.
pub(crate) fn read_event(
    alloc: Global,
    line: &[u8],
    at: usize,
    nodes: &[Host],
    own: u16,
    number: usize,
) -> Result<Option<Event>, Unread>
    requires at { at ≤ length line.now }
    requires nodes { length nodes.now ≤ 2 ^ 16 }
    ensures { GivesAll result
        (events.event_read (map host_name nodes.now) own number (drop at line.now)) }
{
    let (read, next) = read_long(line, at)?;
    if read as usize != number {
        return Err(Unread::Unlike);
    }
    let inner = pass(line, next, SPACE)?;
    read_what(alloc, line, inner, nodes, own)
}

/// A datagram that a node gave.
pub(crate) fn read_give(
    alloc: Global,
    line: &[u8],
    at: usize,
    nodes: &[Host],
    own: u16,
) -> Result<Give, Unread>
    requires at { at ≤ length line.now }
    requires nodes { length nodes.now ≤ 2 ^ 16 }
    ensures { GivesAll result (events.give_read (map host_name nodes.now) own (drop at line.now)) }
{
    let (to, bytes) = read_addressed(alloc, line, at, nodes, own)?;
    Ok(Give { to, bytes })
}

/// Replies that differ, whose texts are kept.
pub(crate) fn read_differing(alloc: Global, line: &[u8], at: usize) -> Result<Differing, Unread>
    requires { at ≤ length line.now }
    ensures { GivesAll result (events.differing_read (drop at line.now)) }
{
    let (run, next) = read_long(line, at)?;
    let inner = pass(line, next, ASK)?;
    let (ask, place) = read_long(line, inner)?;
    let mut replies = Octets::new(alloc);
    replies.append(&line[place..])?;
    Ok(Differing { run, ask, replies })
}

/// A datagram from a port that is no other node's: its port, and its bytes.
pub(crate) fn read_foreign(alloc: Global, line: &[u8], at: usize) -> Result<(u16, Message), Unread>
    requires { at ≤ length line.now }
    ensures { GivesAll result (events.foreign_read (drop at line.now)) }
{
    let (port, next) = read_word(line, at)?;
    let inner = pass(line, next, SPACE)?;
    Ok((port, read_bytes(alloc, line, inner)?))
}
