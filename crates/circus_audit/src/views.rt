// The lines of views.
ghost use Rattle.std.specs.Prelude.{◌≤◌, ◌^◌, length, drop, map, codes};
ghost use Rattle.circus_record.specs.Naming.{host_name};
ghost use Rattle.circus_value_text.specs.Seen.Given.{GivesAll, GivesAt};
ghost use Rattle.circus_audit.specs.Seen.Lines as lines;
ghost use Rattle.circus_audit.specs.Seen.Views as views;

use crate::member_lines::long_behind;
use crate::words::{is_end, read_node};
use circus_collate::{Entries, Entry, Host, Since, View};
use circus_value_text::{Unread, behind_mark, pass, read_long};
use std::alloc::Global;

const VIEW: &[u8] = b"view ";

const SPACE: &[u8] = b" ";

const EQUALS: &[u8] = b"=";

const JOINING: &[u8] = b"joining";

fn read_since(line: &[u8], at: usize) -> Result<(Since, usize), Unread>
    requires { at ≤ length line.now }
    ensures { GivesAt line.now at result views.since_read }
{
    match behind_mark(line, at, JOINING) {
        Some(next) => Ok((Since::Joining, next)),
        None => {
            let (first, next) = read_long(line, at)?;
            Ok((Since::From(first), next))
        }
    }
}

fn since_behind(line: &[u8], at: usize) -> Result<(Since, usize), Unread>
    requires { at ≤ length line.now }
    ensures { GivesAt line.now at result views.since_behind }
{
    let inner = pass(line, at, EQUALS)?;
    read_since(line, inner)
}

// A node behind a blank.
fn node_behind(line: &[u8], at: usize, nodes: &[Host]) -> Result<(u16, usize), Unread>
    requires at { at ≤ length line.now }
    requires nodes { length nodes.now ≤ 2 ^ 16 }
    ensures { GivesAt line.now at result (lines.name_behind (codes " ") (map host_name nodes.now)) }
{
    let inner = pass(line, at, SPACE)?;
    read_node(line, inner, nodes)
}

fn read_entry(line: &[u8], at: usize, nodes: &[Host]) -> Result<(Entry, usize), Unread>
    requires at { at ≤ length line.now }
    requires nodes { length nodes.now ≤ 2 ^ 16 }
    ensures { GivesAt line.now at result (views.entry_read (map host_name nodes.now)) }
{
    let (node, next) = node_behind(line, at, nodes)?;
    let (since, next) = since_behind(line, next)?;
    Ok((Entry { node, since }, next))
}

// The entries up to the end of the line.
fn read_entries(alloc: Global, line: &[u8], at: usize, nodes: &[Host]) -> Result<Entries, Unread>
    requires at { at ≤ length line.now }
    requires nodes { length nodes.now ≤ 2 ^ 16 }
    ensures { GivesAll result
        (views.entries_read (map host_name nodes.now) (length line.now) (drop at line.now)) }
{
    let mut entries = Entries::new(alloc);
    let mut place = at;
    for _ in 0..line.len() {
        if is_end(line, place) {
            return Ok(entries);
        }
        let (entry, next) = read_entry(line, place, nodes)?;
        entries.push(entry)?;
        place = next;
    }
    if is_end(line, place) {
        Ok(entries)
    } else {
        Err(Unread::Unlike)
    }
}

// The incarnation and the entries of a view.
fn read_said(
    alloc: Global,
    line: &[u8],
    at: usize,
    troupe: u16,
    nodes: &[Host],
) -> Result<View, Unread>
    requires at { at ≤ length line.now }
    requires nodes { length nodes.now ≤ 2 ^ 16 }
    ensures { GivesAll result
        (views.said_read (map host_name nodes.now) (length line.now) troupe (drop at line.now)) }
{
    let (incarnation, next) = long_behind(line, at, SPACE)?;
    let entries = read_entries(alloc, line, next, nodes)?;
    Ok(View {
        troupe,
        incarnation,
        entries,
    })
}

/// The view of the troupe with a number and a name.
pub(crate) fn read_view(
    alloc: Global,
    line: &[u8],
    troupe: u16,
    name: &[u8],
    nodes: &[Host],
) -> Result<View, Unread>
    requires { length nodes.now ≤ 2 ^ 16 }
    ensures { GivesAll result (views.view_read (map host_name nodes.now) troupe name.now line.now) }
{
    let start = pass(line, 0, VIEW)?;
    let next = pass(line, start, name)?;
    read_said(alloc, line, next, troupe, nodes)
}
