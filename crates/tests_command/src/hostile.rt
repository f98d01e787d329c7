// What no node of a program sends, at its server that has just booted: how much of it counts for nothing.
use crate::fails::ONE_CALL;
use circus_config::read_program;
use circus_machine::TextModule;
use circus_node::{Event, Outputs};
use circus_node_guard::GuardedNode;
use circus_plan_modules::load;
use circus_value::{ListOf, Message};
use std::alloc::Global;
use std::test::Fail;

// The first call of the root.
const FIRST_CALL: &str =
    "00000101000000000000000100010000000100000001000000000000000000010001000200000000000000000005";

// What is no segment, and what is none of this format.
const NO_SEGMENTS: [&str; 9] = [
    "",
    "00000000000000",
    "0200010100000000aa",
    "0400010100000000aa",
    "0000000100000000aa",
    "0000020100000000aa",
    "0003010100000000aa",
    "02000001000100000000aa",
    "03000001000100000000",
];

// The place of the first byte of some of the call's, and of that behind them, of which each may be ff; and whether the call
// counts for nothing then. Bytes 4 to 7 are its number, 14 and 15 its only ask in a path, 18 to 21 the incarnation of the
// client's view, 22 to 25 its index there, 28 to 31 that of the server's view, 36 to 43 its clock, 44 and 45 its argument.
const BYTES: [(usize, usize, bool); 11] = [
    (0, 4, true),
    (4, 8, false),
    (8, 14, true),
    (14, 16, false),
    (16, 18, true),
    (18, 26, false),
    (26, 28, true),
    (28, 32, false),
    (32, 36, true),
    (36, 44, false),
    (44, 46, false),
];

// The nodes of a program at boot, and what they give.
fn boot_nodes(
    alloc: Global,
    format: &str,
) -> Result<ListOf<(GuardedNode<TextModule>, Outputs)>, Fail> {
    let behind = ONE_CALL.strip_prefix("CIRCUS 1;").ok_or("no format")?;
    let text = format!(in alloc; "CIRCUS {format};{behind}")?;
    let program = load(alloc, read_program(alloc, text.as_bytes())?)?;
    let nodes = GuardedNode::boot_all(alloc, &program.deployment, program.modules.as_slice())?;
    Ok(nodes)
}

/// The server of one call at boot, in a format.
pub fn server(alloc: Global, format: &str) -> Result<GuardedNode<TextModule>, Fail> {
    for (node, _) in boot_nodes(alloc, format)?.into_items() {
        if node.number() == 1 {
            return Ok(node);
        }
    }
    Err(Fail::new("no server"))
}

// The bytes of digits, of which the one at a place is ff.
fn message(alloc: Global, digits: &str, place: Option<usize>) -> Result<Message, Fail> {
    let mut bytes = Message::new(alloc);
    bytes.append(hex::decode(alloc, digits)?.as_slice())?;
    if let Some(place) = place {
        *bytes.get_mut(place).ok_or("no byte")? = 0xff;
    }
    Ok(bytes)
}

// How much the server of a program in a format drops, where these bytes come from the root.
fn count_dropped(alloc: Global, format: &str, bytes: Message) -> Result<u64, Fail> {
    let server = server(alloc, format)?;
    let (server, _) = server.step(1, Event::Datagram(2, bytes.share()?))?;
    Ok(server.dropped())
}

#[test]
fn what_is_no_segment_is_dropped(rt: HostRuntime) -> Result<(), Fail> {
    for digits in NO_SEGMENTS {
        let bytes = message(rt.alloc(), digits, None)?;
        assert_eq!(rt; count_dropped(rt.alloc(), "1", bytes)?, 1, "at {digits}");
    }
    let bytes = message(rt.alloc(), FIRST_CALL, None)?;
    assert_eq!(rt; count_dropped(rt.alloc(), "2", bytes)?, 1);
    Ok(())
}

#[test]
fn each_byte_of_a_call(rt: HostRuntime) -> Result<(), Fail> {
    for (first, end, counts_for_nothing) in BYTES {
        for place in first..end {
            let bytes = message(rt.alloc(), FIRST_CALL, Some(place))?;
            let dropped = count_dropped(rt.alloc(), "1", bytes)?;
            assert_eq!(rt; dropped, u64::from(counts_for_nothing), "at {place}");
        }
    }
    Ok(())
}

// 1,033 bytes.
#[test]
fn a_segment_that_is_too_long(rt: HostRuntime) -> Result<(), Fail> {
    let mut bytes = message(rt.alloc(), "0000010100000000", None)?;
    bytes.append(&[0; 1025])?;
    assert_eq!(rt; count_dropped(rt.alloc(), "1", bytes)?, 1);
    Ok(())
}
