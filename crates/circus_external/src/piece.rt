// The pieces that values are spelled with: numbers, and the bytes of strings.
ghost use Rattle.std.specs.Prelude.{◌≡◌, ◌+◌, ◌++◌, ◌%◌, ◌≤◌, List, ℕ, length, drop, OnOk, OnErr};
ghost use Rattle.circus_external.specs.Octets.{word, long};
ghost use Rattle.circus_external.specs.Spelling.{bytes_of_pieces, contents};
ghost use Rattle.circus_external.specs.Seen.Given.{Gives};
ghost use Rattle.circus_external.specs.Reading.{word_read, long_read, is_bad_pad, content_read};

use crate::{ByteSource, ExternalFault, copy_range, long_at, word_at};
use circus_value::{Message, NoMemory, Octets};
use std::alloc::Global;

/// The word at a place, and the place behind it (docs/FORMATS.md, "External data"). `Short` with the place where
/// fewer than two bytes are left.
pub fn read_word<S: ByteSource>(source: &S, at: usize) -> Result<(u16, usize), ExternalFault>
    requires { at ≤ length (S.octets source.now) }
    ensures { Gives (λ n.
        n) (S.octets source.now) result (word_read at (drop at (S.octets source.now))) }
{
    match word_at(source, at) {
        Some(number) => Ok((number, at + 2)),
        None => Err(ExternalFault::Short(at as u64)),
    }
}

/// The number of two words at a place, and the place behind it. `Short` where fewer than four bytes are left.
pub fn read_long<S: ByteSource>(source: &S, at: usize) -> Result<(u32, usize), ExternalFault>
    requires { at ≤ length (S.octets source.now) }
    ensures { Gives (λ n.
        n) (S.octets source.now) result (long_read at (drop at (S.octets source.now))) }
{
    match long_at(source, at) {
        Some(number) => Ok((number, at + 4)),
        None => Err(ExternalFault::Short(at as u64)),
    }
}

/// A copy of so many bytes at a place, and the place behind them and their pad, a zero byte where they are
/// odd in number. `Short` where fewer are left, pad included, and `BadPad` where the pad is another byte.
pub fn read_content<S: ByteSource>(
    alloc: Global,
    source: &S,
    at: usize,
    number: u16,
) -> Result<(Octets, usize), ExternalFault>
    requires { at ≤ length (S.octets source.now) }
    ensures { Gives (λ octets.
        octets) (S.octets source.now) result
        (content_read number at (drop at (S.octets source.now))) }
{
    let len = usize::from(number);
    let padded = len + len % 2;
    if source.len() - at < padded {
        return Err(ExternalFault::Short(at as u64));
    }
    if has_bad_pad(source, at, len) {
        return Err(ExternalFault::BadPad((at + len) as u64));
    }
    let octets = copy_range(alloc, source, at, at + len)?;
    Ok((octets, at + padded))
}

// Whether so many bytes at a place are odd in number and another byte than zero stands behind them.
fn has_bad_pad<S: ByteSource>(source: &S, at: usize, len: usize) -> bool
    requires within { at + (len + len % 2) ≤ length (S.octets source.now) }
    requires bound { at + len ≤ usize.MAX }
    ensures { result ≡ is_bad_pad len (drop at (S.octets source.now)) }
{
    len % 2 == 1 && source.byte(at + len) != Some(0)
}

/// Appends the two bytes of a word (docs/FORMATS.md, "External data"). After `NoMemory` the bytes are
/// unchanged.
pub fn write_word(number: u16, out: &mut Message) -> Result<(), NoMemory>
    ensures ok { OnOk result (out.new ≡ out.old ++ word number) }
    ensures err { OnErr result (out.new ≡ out.old) }
{
    out.append(&number.to_be_bytes())
}

/// Appends the four bytes of a number of two words (docs/FORMATS.md, "External data"). After `NoMemory` the
/// bytes are unchanged.
pub fn write_long(number: u32, out: &mut Message) -> Result<(), NoMemory>
    ensures ok { OnOk result (out.new ≡ out.old ++ long number) }
    ensures err { OnErr result (out.new ≡ out.old) }
{
    out.append(&number.to_be_bytes())
}

/// Appends the bytes of a string, and a zero byte where they are odd in number (docs/FORMATS.md, "External
/// data"). After `NoMemory` the bytes of the string may stand at the end.
pub fn write_content(content: &[u8], out: &mut Message) -> Result<(), NoMemory>
    ensures ok { OnOk result (out.new ≡ out.old ++ bytes_of_pieces (contents content.now)) }
    ensures err { OnErr result ((added : List ℕ) × (out.new ≡ out.old ++ added)) }
{
    out.append(content)?;
    if content.len() % 2 == 1 {
        out.push(0)?;
    }
    Ok(())
}
