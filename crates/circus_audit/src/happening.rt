// What happened, by one more line.
ghost use Rattle.std.specs.Prelude.{◌≡◌, ◌≤◌, ◌^◌, length, drop, map, IfOk};
ghost use Rattle.circus_record.specs.Naming.{host_name};
ghost use Rattle.circus_value_text.specs.Seen.Given.{GivesAll};
ghost use Rattle.circus_audit.specs.Seen.Happening as happening;

use crate::events::{read_differing, read_event, read_foreign, read_give};
use crate::noted::{Differing, Happened, Kind, Noted, Notes};
use circus_collate::Host;
use circus_node::Gives;
use circus_value::{ListOf, NoMemory};
use circus_value_text::{Unread, behind_mark, pass};
use std::alloc::Global;

const EVENT: &[u8] = b"event ";

const GIVE: &[u8] = b"give ";

const DIFFER: &[u8] = b"differ run ";

const FOREIGN: &[u8] = b"foreign ";

/// All events.
pub(crate) fn all_noted(earlier: Notes, last: Option<Noted>) -> Result<Notes, NoMemory>
    ensures { IfOk result (λ notes. notes ≡ happening.all_noted earlier last) }
{
    let mut all = earlier;
    if let Some(noted) = last {
        all.push(noted)?;
    }
    Ok(all)
}

// Whether a line of this kind may stand behind one of that kind.
fn may_follow(kind: Kind, last: Kind) -> bool
    ensures { result ≡ happening.may_follow kind last }
{
    match kind {
        Kind::Gives => last == Kind::Gives,
        Kind::Differences => last != Kind::Foreign,
        Kind::Foreign => true,
    }
}

// The earlier events, and the last one, where a line of this kind may stand behind it.
fn open_for(kind: Kind, happened: Happened) -> Result<(Notes, Noted), Unread>
    ensures { GivesAll result (happening.open_for kind happened) }
{
    let Happened {
        earlier,
        last,
        kind: before,
    } = happened;
    match last {
        Some(noted) if may_follow(kind, before) => Ok((earlier, noted)),
        _ => Err(Unread::Unlike),
    }
}

fn add_event(
    alloc: Global,
    happened: Happened,
    line: &[u8],
    at: usize,
    nodes: &[Host],
    own: u16,
) -> Result<Happened, Unread>
    requires at { at ≤ length line.now }
    requires nodes { length nodes.now ≤ 2 ^ 16 }
    ensures { GivesAll result
        (happening.event_added (map host_name nodes.now) own happened (drop at line.now)) }
{
    let earlier = all_noted(happened.earlier, happened.last)?;
    let event = read_event(alloc, line, at, nodes, own, earlier.len())?;
    Ok(Happened {
        earlier,
        last: Some(Noted {
            event,
            gives: Gives::new(alloc),
            differing: ListOf::new(alloc),
        }),
        kind: Kind::Gives,
    })
}

fn add_give(
    alloc: Global,
    happened: Happened,
    line: &[u8],
    at: usize,
    nodes: &[Host],
    own: u16,
) -> Result<Happened, Unread>
    requires at { at ≤ length line.now }
    requires nodes { length nodes.now ≤ 2 ^ 16 }
    ensures { GivesAll result
        (happening.give_added (map host_name nodes.now) own happened (drop at line.now)) }
{
    let (earlier, noted) = open_for(Kind::Gives, happened)?;
    let give = read_give(alloc, line, at, nodes, own)?;
    let Noted {
        event,
        mut gives,
        differing,
    } = noted;
    gives.push(give)?;
    Ok(Happened {
        earlier,
        last: Some(Noted {
            event,
            gives,
            differing,
        }),
        kind: Kind::Gives,
    })
}

fn add_differing(
    alloc: Global,
    happened: Happened,
    line: &[u8],
    at: usize,
) -> Result<Happened, Unread>
    requires { at ≤ length line.now }
    ensures { GivesAll result (happening.differing_added happened (drop at line.now)) }
{
    let (earlier, noted) = open_for(Kind::Differences, happened)?;
    let one = read_differing(alloc, line, at)?;
    let Noted {
        event,
        gives,
        mut differing,
    } = noted;
    differing.push(one)?;
    Ok(Happened {
        earlier,
        last: Some(Noted {
            event,
            gives,
            differing,
        }),
        kind: Kind::Differences,
    })
}

fn pass_foreign(
    alloc: Global,
    happened: Happened,
    line: &[u8],
    at: usize,
) -> Result<Happened, Unread>
    requires { at ≤ length line.now }
    ensures { GivesAll result (happening.foreign_passed happened (drop at line.now)) }
{
    let (earlier, noted) = open_for(Kind::Foreign, happened)?;
    let (_, _) = read_foreign(alloc, line, at)?;
    Ok(Happened {
        earlier,
        last: Some(noted),
        kind: Kind::Foreign,
    })
}

/// What happened, by a line of an event.
pub(crate) fn read_happening(
    alloc: Global,
    happened: Happened,
    line: &[u8],
    nodes: &[Host],
    own: u16,
) -> Result<Happened, Unread>
    requires { length nodes.now ≤ 2 ^ 16 }
    ensures { GivesAll result
        (happening.happened_after (map host_name nodes.now) own happened line.now) }
{
    if let Some(at) = behind_mark(line, 0, EVENT) {
        return add_event(alloc, happened, line, at, nodes, own);
    }
    if let Some(at) = behind_mark(line, 0, GIVE) {
        return add_give(alloc, happened, line, at, nodes, own);
    }
    match behind_mark(line, 0, DIFFER) {
        Some(at) => add_differing(alloc, happened, line, at),
        None => {
            let at = pass(line, 0, FOREIGN)?;
            pass_foreign(alloc, happened, line, at)
        }
    }
}
