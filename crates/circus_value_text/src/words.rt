// Clocks, the asks of a path, and bytes in hexadecimal digits.
ghost use Rattle.std.specs.Prelude.{◌≡◌, ◌≤◌, [], length, drop};
ghost use Rattle.circus_value_text.specs.WordReading as reading;
ghost use Rattle.circus_value_text.specs.Seen.Given.{GivesAt, GivesAll, count_mark};

use crate::Unread;
use crate::piece::{behind_mark, nibble, pass, read_long, read_word, rest_at};
use circus_value::{Clock, Message, Path};
use std::alloc::Global;

const COMMA: &[u8] = b",";

const NOTHING: &[u8] = b"";

const POINT: &[u8] = b".";

// What stands before the next count, behind these.
fn count_mark(counts: &Clock) -> &'static [u8]
    ensures { result.now ≡ count_mark counts.now }
{
    if counts.is_empty() { NOTHING } else { COMMA }
}

/// A clock of so many counts that stands at a place, and the place behind it (docs/FORMATS.md, "Texts"). `Unlike` where no
/// such text stands there.
pub fn read_clock(
    alloc: Global,
    text: &[u8],
    at: usize,
    count: usize,
) -> Result<(Clock, usize), Unread>
    requires { at ≤ length text.now }
    ensures { GivesAt text.now at result (reading.counts_read count []) }
{
    let mut clock = Clock::new(alloc);
    let mut place = at;
    for _ in 0..count {
        let inner = pass(text, place, count_mark(&clock))?;
        let (number, next) = read_long(text, inner)?;
        clock.push(number)?;
        place = next;
    }
    Ok((clock, place))
}

/// The asks of a path that stand at a place, each behind a point, and the place behind them. `Unlike` where a point has no
/// number behind it.
pub fn read_asks(alloc: Global, text: &[u8], at: usize) -> Result<(Path, usize), Unread>
    requires { at ≤ length text.now }
    ensures { GivesAt text.now at result (reading.asks_read (length text.now)) }
{
    let mut path = Path::new(alloc);
    let mut place = at;
    for _ in 0..text.len() {
        match behind_mark(text, place, POINT) {
            Some(inner) => {
                let (ask, next) = read_word(text, inner)?;
                path.push(ask)?;
                place = next;
            }
            None => return Ok((path, place)),
        }
    }
    Ok((path, place))
}

/// The bytes that the text from a place on spells in lower-case hexadecimal digits. `Unlike` where it spells none.
#[tactic(auto, using(crate::proofs::WordLemmas::bytes_none))]
pub fn read_bytes(alloc: Global, text: &[u8], at: usize) -> Result<Message, Unread>
    requires { at ≤ length text.now }
    ensures { GivesAll result (reading.bytes_of (drop at text.now)) }
{
    let mut bytes = Message::new(alloc);
    let mut rest = rest_at(text, at);
    while let [high, low, others @ ..] = rest {
        bytes.push(byte_of(*high, *low)?)?;
        rest = others;
    }
    if rest.is_empty() {
        Ok(bytes)
    } else {
        Err(Unread::Unlike)
    }
}

fn byte_of(high: u8, low: u8) -> Result<u8, Unread>
    ensures { GivesAll result (reading.byte_of high low) }
{
    let (Some(high), Some(low)) = (nibble(high), nibble(low)) else {
        return Err(Unread::Unlike);
    };
    Ok(16 * high + low)
}
