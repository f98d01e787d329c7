// The lines of what happened to a node (docs/FORMATS.md, "Node record").
ghost use Rattle.std.specs.Prelude.{◌≡◌, ◌+◌, ◌<◌, ◌≤◌, List, ◌∷◌, ◌++◌, IfOk, OnOk, string_bytes};
ghost use Rattle.std.specs.List.{flat_map};
ghost use Rattle.circus_serve.specs.declared.happening.Happening.{Happening as Happens};
ghost use Rattle.circus_serve.specs.NodeText.{event_text, event_line, give_line, foreign_line, happened_lines};

use crate::Happening;
use crate::differ::DifferLines;
use circus_node::{Event, Give};
use circus_record::Naming;
use circus_value::NoMemory;
use std::alloc::Global;

/// Adds the lines of what happened, oldest first. The first event has number 0.
pub(crate) fn append_happened<N: Naming>(
    alloc: Global,
    text: &mut String,
    names: &N,
    all: &[Happening],
) -> Result<(), NoMemory>
    ensures { OnOk result
        (string_bytes text.new
        ≡ string_bytes text.old ++ happened_lines (N.names names.now) 0 all.now) }
{
    let mut number = 0;
    for happening in all {
        number = append_happening(alloc, text, names, number, happening)?;
    }
    Ok(())
}

// Adds the lines of something that happened, with this number if it is an event. It answers the number of the next event.
fn append_happening<N: Naming>(
    alloc: Global,
    text: &mut String,
    names: &N,
    number: usize,
    happening: &Happening,
) -> Result<usize, NoMemory>
    requires { number < usize.MAX }
    ensures few { IfOk result (λ next. next ≤ number + 1) }
    ensures added { IfOk result (λ next. (others : List Happens)
        → string_bytes text.new ++ happened_lines (N.names names.now) next others
        ≡ string_bytes text.old
        ++ happened_lines (N.names names.now) number (happening.now ∷ others)) }
{
    match happening {
        Happening::Booted(gives) => {
            writeln!(text, "event {number} boot")?;
            append_gives(alloc, text, names, gives.as_slice())?;
            Ok(number + 1)
        }
        Happening::Stepped(event, gives, differences) => {
            let differing = DifferLines {
                names,
                differences: differences.as_slice(),
            };
            append_event(alloc, text, names, number, event)?;
            append_gives(alloc, text, names, gives.as_slice())?;
            write!(text, "{differing}")?;
            Ok(number + 1)
        }
        Happening::Foreign(port, bytes) => {
            append_foreign(alloc, text, *port, bytes.as_slice())?;
            Ok(number)
        }
    }
}

// Adds the line of an event.
fn append_event<N: Naming>(
    alloc: Global,
    text: &mut String,
    names: &N,
    number: usize,
    event: &Event,
) -> Result<(), NoMemory>
    ensures { OnOk result (string_bytes text.new
        ≡ string_bytes text.old ++ event_line number (event_text (N.names names.now) event.now)) }
{
    match event {
        Event::Datagram(from, bytes) => {
            let from = names.node(usize::from(*from));
            let bytes = hex::encode(alloc, bytes.as_slice())?;
            writeln!(text, "event {number} datagram {from} {bytes}")?;
        }
        Event::Tick => writeln!(text, "event {number} tick")?,
        Event::Down(node) => {
            let node = names.node(usize::from(*node));
            writeln!(text, "event {number} down {node}")?;
        }
        Event::Join => writeln!(text, "event {number} join")?,
    }
    Ok(())
}

// Adds the lines of datagrams that were given.
fn append_gives<N: Naming>(
    alloc: Global,
    text: &mut String,
    names: &N,
    gives: &[Give],
) -> Result<(), NoMemory>
    ensures { OnOk result
        (string_bytes text.new
        ≡ string_bytes text.old ++ flat_map (give_line (N.names names.now)) gives.now) }
{
    for give in gives {
        append_give(alloc, text, names, give)?;
    }
    Ok(())
}

// Adds the line of a datagram that was given.
fn append_give<N: Naming>(
    alloc: Global,
    text: &mut String,
    names: &N,
    give: &Give,
) -> Result<(), NoMemory>
    ensures { OnOk result
        (string_bytes text.new ≡ string_bytes text.old ++ give_line (N.names names.now) give.now) }
{
    let to = names.node(usize::from(give.to));
    let bytes = hex::encode(alloc, give.bytes.as_slice())?;
    writeln!(text, "give {to} {bytes}")?;
    Ok(())
}

// Adds the line of a datagram from a port that is no other node's.
fn append_foreign(alloc: Global, text: &mut String, port: u16, bytes: &[u8]) -> Result<(), NoMemory>
    ensures { OnOk result
        (string_bytes text.new ≡ string_bytes text.old ++ foreign_line port bytes.now) }
{
    let bytes = hex::encode(alloc, bytes)?;
    writeln!(text, "foreign {port} {bytes}")?;
    Ok(())
}
