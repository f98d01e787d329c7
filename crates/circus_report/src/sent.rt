// The lines of what was sent (docs/FORMATS.md, "Report"), each written from its end on in the same room.
ghost use Rattle.std.specs.Prelude.{◌≡◌, ◌+◌, ◌*◌, ◌≤◌, ◌++◌, [], length, drop, codes, IfOk, OnOk, IfSome};
ghost use Rattle.std.specs.Fmt.{decimal};
ghost use Rattle.hex.specs.Hex.{encode_lower};
ghost use Rattle.circus_record.specs.Naming.{names_of};
ghost use Rattle.circus_world.specs.Seen.Entries.{sent_as};
ghost use Rattle.circus_report.specs.Report as report;

use crate::fill::{fill_hexadecimal, fill_word};
use circus_collate::Host;
use circus_record::node_name;
use circus_value::NoMemory;
use circus_world::Sent;
use itoa::write_digits;
use std::alloc::AllocError;

// How many bytes a line has at most beside the names and the datagram: two numbers, and the words around them.
const MOST_OTHERS: usize = 67;

/// Writes the line of a datagram at the end of the room, by the names of the nodes, and answers where it begins. The room grows
/// where it is short, and stays for the next line.
pub(crate) fn write_sent(
    room: &mut Vec<u8>,
    nodes: &[Host],
    number: u64,
    sent: &Sent<'_>,
) -> Result<usize, NoMemory>
    ensures within { IfOk result (λ start. start ≤ length room.new.items) }
    ensures line { IfOk result (λ start. drop start room.new.items
        ≡ report.sent_line (names_of nodes.now []) number (sent_as sent.now)) }
{
    let from = node_name(nodes, usize::from(sent.from));
    let to = node_name(nodes, usize::from(sent.to));
    make_room(room, from, to, sent.bytes)?;
    let room = room.as_mut_slice();
    let end = fill_content(room, to, sent.bytes);
    Ok(fill_sender(room, end, from, number, sent.step))
}

// Makes room for a line with these names and this datagram, where it is short.
#[inline(always)]
fn make_room(room: &mut Vec<u8>, from: &[u8], to: &[u8], bytes: &[u8]) -> Result<(), NoMemory>
    ensures { OnOk result (67 + length from.now + length to.now + 2 * length bytes.now
        ≤ length room.new.items) }
{
    let Some(most) = most_of(from, to, bytes) else {
        return Err(AllocError);
    };
    if room.len() < most {
        room.resize(most, 0)?;
    }
    Ok(())
}

// How many bytes a line with these names and this datagram has at most.
#[inline(always)]
fn most_of(from: &[u8], to: &[u8], bytes: &[u8]) -> Option<usize>
    ensures { IfSome result (λ most.
        most ≡ 67 + length from.now + length to.now + 2 * length bytes.now) }
{
    let digits = bytes.len().checked_mul(2)?;
    let names = from.len().checked_add(to.len())?;
    digits.checked_add(names)?.checked_add(MOST_OTHERS)
}

// Writes to whom a datagram was sent, and its bytes, at the end of the room, and answers where it begins.
#[inline(always)]
fn fill_content(room: &mut [u8], to: &[u8], bytes: &[u8]) -> usize
    requires { 6 + length to.now + 2 * length bytes.now ≤ length room.old }
    ensures start { result + (6 + length to.now + 2 * length bytes.now) ≡ length room.old }
    ensures written { drop result room.new
        ≡ codes " to " ++ to.now ++ codes " " ++ encode_lower bytes.now ++ codes "\n" }
{
    let end = room.len();
    let end = fill_word(b"\n", room, end);
    let start = fill_hexadecimal(bytes, room, end);
    let start = fill_word(b" ", room, start);
    let start = fill_word(to, room, start);
    fill_word(b" to ", room, start)
}

// Writes when a datagram was sent, and by whom, so that it ends at a place, and answers where it begins.
#[inline(always)]
fn fill_sender(room: &mut [u8], end: usize, from: &[u8], number: u64, step: u64) -> usize
    requires { (61 + length from.now ≤ end) × (end ≤ length room.old) }
    ensures within { result ≤ length room.old }
    ensures written { drop result room.new ≡ codes "datagram " ++ decimal number ++ codes " step "
        ++ decimal step ++ codes " from " ++ from.now ++ drop end room.old }
{
    let start = fill_word(from, room, end);
    let start = fill_word(b" from ", room, start);
    let start = write_digits(step, room, start);
    let start = fill_word(b" step ", room, start);
    let start = write_digits(number, room, start);
    fill_word(b"datagram ", room, start)
}
