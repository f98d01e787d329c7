// Marks, numbers and the bytes of strings.
ghost use Rattle.std.specs.Prelude.{◌≡◌, ◌≤◌, length, drop, not, position, IfOk, pos, ◌+ℤ◌, ◌≤ℤ◌, ◌<ℤ◌};
ghost use Rattle.std.specs.List.{prefix_len};
ghost use Rattle.std.specs.Char.{is_ascii_digit};
ghost use Rattle.circus_value.specs.Shown as shown;
ghost use Rattle.circus_value_text.specs.Reading as reading;
ghost use Rattle.circus_value_text.specs.Seen.Given.{Finds, Gives, IsFound, IsPassed, IsTaken, PassesTo};

use crate::Unread;
use circus_schedule::decimal_at_most;
use circus_value::Octets;
use std::alloc::Global;

const MINUS: &[u8] = b"-";

const QUOTE: &[u8] = b"\"";

const TRUE: &[u8] = b"TRUE";

const FALSE: &[u8] = b"FALSE";

const BACKSLASH: u8 = b'\\';

/// What stands from a place on. It takes no memory.
#[tactic(auto, using(std::proofs::lemmas::List::take_all))]
pub(crate) fn rest_at(text: &[u8], at: usize) -> &[u8]
    requires { at ≤ length text.now }
    ensures { result.now ≡ drop at text.now }
{
    &text[at..]
}

/// The place behind a mark that stands at a place. `None` exactly where another text stands there. It takes no memory.
pub fn behind_mark(text: &[u8], at: usize, mark: &[u8]) -> Option<usize>
    requires { at ≤ length text.now }
    ensures { IsPassed text.now result (reading.behind_prefix mark.now (drop at text.now)) }
{
    if rest_at(text, at).starts_with(mark) {
        Some(at + mark.len())
    } else {
        None
    }
}

/// The place behind a mark that stands at a place, or `Unlike` where another text stands there. It takes no memory.
pub fn pass(text: &[u8], at: usize, mark: &[u8]) -> Result<usize, Unread>
    requires { at ≤ length text.now }
    ensures { PassesTo text.now result (reading.behind_prefix mark.now (drop at text.now)) }
{
    match behind_mark(text, at, mark) {
        Some(next) => Ok(next),
        None => Err(Unread::Unlike),
    }
}

// The first byte that is no digit.
fn first_other(text: &[u8]) -> Option<usize>
    ensures { result ≡ position (λ b. not (is_ascii_digit b)) text.now }
{
    text.iter().position(|byte| !byte.is_ascii_digit())
}

// How many digits stand in front.
fn digits_of(text: &[u8]) -> usize
    ensures value { result ≡ prefix_len is_ascii_digit text.now }
    ensures within { result ≤ length text.now }
{
    match first_other(text) {
        Some(digits) => digits,
        None => text.len(),
    }
}

/// The number that stands at a place, of at most the greatest one, and the place behind its digits: all digits that stand
/// there, without a sign and without leading zeros. `Unlike` where there is none. It takes no memory.
pub fn read_number(text: &[u8], at: usize, greatest: u64) -> Result<(u64, usize), Unread>
    requires { at ≤ length text.now }
    ensures value { Finds text.now result (reading.number_read greatest (drop at text.now)) }
    ensures greatest { IfOk result (λ r. r.0 ≤ greatest) }
{
    let rest = rest_at(text, at);
    let digits = digits_of(rest);
    match decimal_at_most(&rest[..digits], greatest) {
        Some(number) => Ok((number, at + digits)),
        None => Err(Unread::Unlike),
    }
}

/// A number of two bytes, as `read_number` has it.
pub fn read_word(text: &[u8], at: usize) -> Result<(u16, usize), Unread>
    requires { at ≤ length text.now }
    ensures { Finds text.now result (reading.number_read 65535 (drop at text.now)) }
{
    let (number, next) = read_number(text, at, 65_535)?;
    Ok((number as u16, next))
}

/// A number of four bytes, as `read_number` has it.
pub fn read_long(text: &[u8], at: usize) -> Result<(u32, usize), Unread>
    requires { at ≤ length text.now }
    ensures { Finds text.now result (reading.number_read 4294967295 (drop at text.now)) }
{
    let (number, next) = read_number(text, at, 4_294_967_295)?;
    Ok((number as u32, next))
}

// A signed number from `-limit` to `limit - 1` that stands at a place, and the place behind it. `Unlike` where there is
// none. It takes no memory.
fn read_signed(text: &[u8], at: usize, limit: u32) -> Result<(i64, usize), Unread>
    requires at { at ≤ length text.now }
    requires limit { 1 ≤ limit }
    ensures value { Finds text.now result (reading.signed_read limit (drop at text.now)) }
    ensures low { IfOk result (λ r. pos 0 ≤ℤ (r.0 +ℤ pos limit)) }
    ensures high { IfOk result (λ r. r.0 <ℤ pos limit) }
{
    match behind_mark(text, at, MINUS) {
        Some(digits) => read_negative(text, digits, limit),
        None => {
            let (number, next) = read_number(text, at, u64::from(limit) - 1)?;
            Ok((number as i64, next))
        }
    }
}

// The negative number of the digits at a place.
fn read_negative(text: &[u8], at: usize, limit: u32) -> Result<(i64, usize), Unread>
    requires { at ≤ length text.now }
    ensures value { Finds text.now result (reading.negative_read limit (drop at text.now)) }
    ensures low { IfOk result (λ r. pos 0 ≤ℤ (r.0 +ℤ pos limit)) }
    ensures high { IfOk result (λ r. r.0 <ℤ pos limit) }
{
    match read_number(text, at, u64::from(limit))? {
        (0, _) => Err(Unread::Unlike),
        (number, next) => Ok((-(number as i64), next)),
    }
}

/// A signed number of two bytes, and the place behind it. `Unlike` where there is none. It takes no memory.
pub(crate) fn read_integer(text: &[u8], at: usize) -> Result<(i16, usize), Unread>
    requires { at ≤ length text.now }
    ensures { Finds text.now result (reading.signed_read 32768 (drop at text.now)) }
{
    let (number, next) = read_signed(text, at, 32_768)?;
    Ok((number as i16, next))
}

/// A signed number of four bytes, and the place behind it. `Unlike` where there is none. It takes no memory.
pub(crate) fn read_long_integer(text: &[u8], at: usize) -> Result<(i32, usize), Unread>
    requires { at ≤ length text.now }
    ensures { Finds text.now result (reading.signed_read 2147483648 (drop at text.now)) }
{
    let (number, next) = read_signed(text, at, 2_147_483_648)?;
    Ok((number as i32, next))
}

/// The value of a lower-case hexadecimal digit.
pub(crate) fn nibble(digit: u8) -> Option<u8>
    ensures { result ≡ reading.nibble digit }
{
    match digit {
        b'0'..=b'9' => Some(digit - b'0'),
        b'a'..=b'f' => Some(digit - b'a' + 10),
        _ => None,
    }
}

// The byte of two digits, where it doesn't stand for itself.
fn hidden_byte(high: u8, low: u8) -> Option<u8>
    ensures { result ≡ reading.hidden_byte (reading.nibble high) (reading.nibble low) }
{
    let (Some(high), Some(low)) = (nibble(high), nibble(low)) else {
        return None;
    };
    let byte = 16 * high + low;
    if is_plain(byte) { None } else { Some(byte) }
}

// Whether the byte stands for itself.
fn is_plain(byte: u8) -> bool
    ensures { result ≡ shown.is_plain byte }
{
    (32..=126).contains(&byte) && byte != b'"' && byte != b'\\'
}

// A byte of a string, and how many bytes spell it.
fn octet(text: &[u8]) -> Option<(u8, usize)>
    ensures { IsTaken text.now result (reading.octet_read text.now) }
{
    match text {
        [BACKSLASH, high, low, ..] => Some((hidden_byte(*high, *low)?, 3)),
        [byte, ..] if is_plain(*byte) => Some((*byte, 1)),
        _ => None,
    }
}

// The byte of a string that stands at a place, and the place behind it.
fn octet_at(text: &[u8], at: usize) -> Option<(u8, usize)>
    requires { at ≤ length text.now }
    ensures { IsFound text.now result (reading.octet_read (drop at text.now)) }
{
    let (byte, len) = octet(rest_at(text, at))?;
    Some((byte, at + len))
}

// The bytes of a string from a place on, at most so many, and the place behind them.
fn read_octets(alloc: Global, text: &[u8], at: usize, most: u16) -> Result<(Octets, usize), Unread>
    requires { at ≤ length text.now }
    ensures { Gives (λ bytes. bytes) text.now result (reading.octets_read most (drop at text.now)) }
{
    let mut octets = Octets::new(alloc);
    let mut place = at;
    for _ in 0..most {
        match octet_at(text, place) {
            Some((byte, next)) => {
                octets.push(byte)?;
                place = next;
            }
            None => return Ok((octets, place)),
        }
    }
    Ok((octets, place))
}

/// The string that stands at a place in quotes, of at most 65,535 bytes, and the place behind it. `Unlike` where there is
/// none.
pub(crate) fn read_text(alloc: Global, text: &[u8], at: usize) -> Result<(Octets, usize), Unread>
    requires { at ≤ length text.now }
    ensures { Gives (λ bytes. bytes) text.now result (reading.text_read (drop at text.now)) }
{
    let inner = pass(text, at, QUOTE)?;
    let (octets, end) = read_octets(alloc, text, inner, 65_535)?;
    Ok((octets, pass(text, end, QUOTE)?))
}

/// The truth value that stands at a place, and the place behind it. `Unlike` where there is none. It takes no memory.
pub(crate) fn read_truth(text: &[u8], at: usize) -> Result<(bool, usize), Unread>
    requires { at ≤ length text.now }
    ensures { Finds text.now result (reading.truth_read (drop at text.now)) }
{
    if let Some(next) = behind_mark(text, at, TRUE) {
        return Ok((true, next));
    }
    Ok((false, pass(text, at, FALSE)?))
}
