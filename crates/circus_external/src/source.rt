// What bytes are read from, by place.
ghost use Rattle.std.specs.Prelude.{◌≡◌, ◌+◌, ◌-◌, ◌^◌, ◌<◌, ◌≤◌, ◌++◌, List, ℕ, length, drop, take, slice_get, OnSome, IfSome, IfNone, IfOk};
ghost use Rattle.circus_external.specs.Octets.{word, long, first_word, first_long};

use circus_value::{ListOf, NoMemory, Octets, Parts};
use std::alloc::Global;

/// Bytes in order, each of which can be had by its place, counted from 0.
pub trait ByteSource {
    ghost octets: { Self → List ℕ };

    /// How many bytes there are.
    fn len(&self) -> usize
        ensures { result ≡ length (octets self.now) };

    /// The byte at a place. `None` exactly where the place is not below the length.
    fn byte(&self, at: usize) -> Option<u8>
        ensures { result ≡ slice_get (octets self.now) at };
}

impl ByteSource for &[u8] {
    ghost octets = { λ s. s.now };

    fn len(&self) -> usize {
        (*self).len()
    }

    fn byte(&self, at: usize) -> Option<u8> {
        self.get(at).copied()
    }
}

impl ByteSource for Parts {
    ghost octets = { λ joined. joined };

    fn len(&self) -> usize {
        self.len()
    }

    fn byte(&self, at: usize) -> Option<u8> {
        self.byte(at)
    }
}

/// The word at a place, the high byte first (docs/FORMATS.md, "External data"). `None` exactly where
/// fewer than two bytes stand from there on.
pub fn word_at<S: ByteSource>(source: &S, at: usize) -> Option<u16>
    ensures value { result ≡ first_word (drop at (S.octets source.now)) }
    ensures stands { IfSome result (λ n.
        drop at (S.octets source.now) ≡ word n ++ drop (at + 2) (S.octets source.now)) }
    ensures short { IfNone result (length (S.octets source.now) < at + 2) }
    ensures behind { OnSome result (at + 2 < 2 ^ 64) }
{
    let len = source.len();
    if at >= len || len - at < 2 {
        return None;
    }
    let bytes = [octet(source, at), octet(source, at + 1)];
    Some(u16::from_be_bytes(bytes))
}

/// The number of two words at a place, the high word first (docs/FORMATS.md, "External data"). `None`
/// exactly where fewer than four bytes stand from there on.
pub fn long_at<S: ByteSource>(source: &S, at: usize) -> Option<u32>
    ensures value { result ≡ first_long (drop at (S.octets source.now)) }
    ensures stands { IfSome result (λ n.
        drop at (S.octets source.now) ≡ long n ++ drop (at + 4) (S.octets source.now)) }
    ensures short { IfNone result (length (S.octets source.now) < at + 4) }
    ensures behind { OnSome result (at + 4 < 2 ^ 64) }
{
    let len = source.len();
    if at >= len || len - at < 4 {
        return None;
    }
    let bytes = [
        octet(source, at),
        octet(source, at + 1),
        octet(source, at + 2),
        octet(source, at + 3),
    ];
    Some(u32::from_be_bytes(bytes))
}

fn octet<S: ByteSource>(source: &S, at: usize) -> u8
    requires { at < length (S.octets source.now) }
    ensures { slice_get (S.octets source.now) at ≡ Some result }
{
    source.byte(at).unwrap()
}

/// A copy of the bytes from one place up to another. `NoMemory` is the one fault.
pub fn copy_range<S: ByteSource>(
    alloc: Global,
    source: &S,
    from: usize,
    to: usize,
) -> Result<Octets, NoMemory>
    requires order { from ≤ to }
    requires within { to ≤ length (S.octets source.now) }
    ensures { IfOk result (λ copy. copy ≡ take (to - from) (drop from (S.octets source.now))) }
{
    let mut copy = ListOf::new(alloc);
    for at in from..to {
        copy.push(source.byte(at).unwrap())?;
    }
    Ok(copy)
}
