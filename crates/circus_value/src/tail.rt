// The parts that stand behind the first one.
ghost use Rattle.std.specs.Prelude.{◌≡◌, true, ℕ, ◌+◌, ◌-◌, ◌<◌, ◌≤◌, List, [], ◌++◌, length, take, drop, slice_get, slice_index, OnOk, OnErr, IsOk, IfOk, IfSome, IfNone, IsTrue, ◌↔◌};
ghost use Rattle.std.specs.List.{concat};
ghost use Rattle.std.specs.Prelude.{nat_eq};
ghost use Rattle.std.specs.Cmp.Lexicographic.{pointwise};
ghost use Rattle.circus_value.specs.Parts.{most_bytes, AreOctets};
ghost use Rattle.circus_value.specs.Seen.PartEnds.{ends_from};

use crate::NoMemory;
use bytes::Bytes;
use std::alloc::Global;
use std::marker::Model;

/// Bytes that stand in parts, none of them empty, which may be shared. Clauses see the joined bytes.
#[derive(Drop)]
pub(crate) struct Tail {
    parts: Vec<Bytes>,
    /// Where each part ends among the joined bytes.
    ends: Vec<usize>,
}

impl Model for Tail {
    ghost use Rattle.std.specs.Prelude.{◌≡◌, ℕ, ◌<◌, ◌≤◌, List, length, All};
    ghost use Rattle.std.specs.List.{concat};
    ghost use Rattle.circus_value.specs.Parts.{most_bytes, AreOctets};
    ghost use Rattle.circus_value.specs.Seen.PartEnds.{ends_from};

    ghost Value = { List ℕ };

    ghost view = { λ p. concat p.parts.items };

    ghost invariant = { λ p. (p.ends.items ≡ ends_from 0 p.parts.items)
        × All (λ part. 0 < length part) p.parts.items
        × (length (concat p.parts.items) ≤ most_bytes)
        × AreOctets (concat p.parts.items) };
}

impl Tail {
    /// No bytes. It takes no memory, and grows with this allocator.
    pub fn new(alloc: Global) -> Self
        ensures { result ≡ [] }
    {
        Tail {
            parts: Vec::new(alloc),
            ends: Vec::new(alloc),
        }
    }

    /// The allocator with which it grows.
    pub fn allocator(&self) -> Global {
        *self.parts.allocator()
    }

    /// How many bytes there are, at most 16,777,216.
    pub fn len(&self) -> usize
        ensures value { result ≡ length self.now }
        ensures bound { result ≤ most_bytes }
        ensures octets { AreOctets self.now }
    {
        self.ends.last().copied().unwrap_or(0)
    }

    /// Whether there are none.
    pub fn is_empty(&self) -> bool
        ensures { IsTrue result ↔ (self.now ≡ []) }
    {
        self.parts.is_empty()
    }

    /// The byte at a place, counted from 0. `None` exactly where the place is not below the length.
    pub fn byte(&self, at: usize) -> Option<u8>
        ensures { result ≡ slice_get self.now at }
    {
        let (part, offset) = find(&self.parts, &self.ends, at)?;
        Some(self.parts[part].as_slice()[offset])
    }

    /// Adds bytes at the end, which are shared and not copied. An empty part changes nothing, and
    /// after `NoMemory` the bytes are unchanged.
    pub fn add(&mut self, part: Bytes) -> Result<(), NoMemory>
        requires { length self.old + length part ≤ most_bytes }
        ensures ok { OnOk result (self.new ≡ self.old ++ part) }
        ensures err { OnErr result (self.new ≡ self.old) }
        ensures empty { part ≡ [] → IsOk result }
    {
        let bytes = part.as_slice();
        if bytes.is_empty() {
            return Ok(());
        }
        let end = self.len() + bytes.len();
        self.ends.reserve(1)?;
        self.parts.push(part)?;
        self.ends.push_reserved(end);
        Ok(())
    }

    /// Adds a copy of the bytes at the end of others. After `NoMemory` some of them may have been added.
    pub fn copy_to(&self, bytes: &mut Vec<u8>) -> Result<(), NoMemory>
        ensures { OnOk result (bytes.new.items ≡ bytes.old.items ++ self.now) }
    {
        for part in &self.parts {
            bytes.extend_from_slice(part.as_slice())?;
        }
        Ok(())
    }

    /// The bytes from a place on, in parts that are shared with these and not copied.
    pub fn rest(&self, at: usize) -> Result<Tail, NoMemory>
        requires { at ≤ length self.now }
        ensures { IfOk result (λ rest. rest ≡ drop at self.now) }
    {
        let mut rest = Tail::new(*self.parts.allocator());
        let Some((first, offset)) = find(&self.parts, &self.ends, at) else {
            return Ok(rest);
        };
        let cut = &self.parts[first];
        rest.add(cut.slice(offset..cut.len())?)?;
        rest.add_all(&self.parts.as_slice()[first + 1..])?;
        Ok(rest)
    }

    /// The bytes of another, one part after the other: whether they are the same. `None` where its parts end elsewhere.
    pub fn same(&self, other: &Tail) -> Option<bool>
        ensures { IfSome result (λ same. same ≡ pointwise nat_eq self.now other.now) }
    {
        if self.ends == other.ends {
            Some(same_parts(&self.parts, &other.parts))
        } else {
            None
        }
    }

    // Adds parts at the end, which are shared. After `NoMemory` some of them may stand there.
    fn add_all(&mut self, parts: &[Bytes]) -> Result<(), NoMemory>
        requires { length self.old + length (concat parts.now) ≤ most_bytes }
        ensures { OnOk result (self.new ≡ self.old ++ concat parts.now) }
    {
        for part in parts {
            self.add(part.clone()?)?;
        }
        Ok(())
    }
}

// Whether parts that are as long, one by one, have the same bytes.
fn same_parts(parts: &[Bytes], others: &[Bytes]) -> bool
    requires { length parts.now ≡ length others.now }
    ensures { result ≡ pointwise (pointwise nat_eq) parts.now others.now }
{
    for (place, part) in parts.iter().enumerate() {
        if part.as_slice() != others[place].as_slice() {
            return false;
        }
    }
    true
}

// The part that a byte stands in, and its place in that part. `None` where there is no such byte.
fn find(parts: &[Bytes], ends: &[usize], at: usize) -> Option<(usize, usize)>
    requires { (ends.now ≡ ends_from 0 parts.now) × (length (concat parts.now) ≤ most_bytes) }
    ensures none { IfNone result (length (concat parts.now) ≤ at) }
    ensures within { IfSome result (λ place. place.0 < length parts.now) }
    ensures start { IfSome result (λ place.
        length (concat (take place.0 parts.now)) + place.1 ≡ at) }
    ensures end { IfSome result (λ place. at < length (concat (take (place.0 + 1) parts.now))) }
{
    let place = first_above(ends, at);
    let part = parts.get(place)?;
    Some((place, at + part.len() - ends[place]))
}

// Of numbers that grow, the place of the first that is above this one, or how many there are. Where each is as
// far from the one before it as the first from 0, it is found at once.
fn first_above(ends: &[usize], at: usize) -> usize
    ensures within { result ≤ length ends.now }
    ensures before { 0 < result → slice_index ends.now (result - 1) ≤ at }
    ensures above { result < length ends.now → at < slice_index ends.now result }
{
    match ends.first() {
        Some(first) if *first > 0 && is_first_above(ends, at / *first, at) => at / *first,
        _ => search(ends, at),
    }
}

// Whether a place has the first number above this one.
fn is_first_above(ends: &[usize], place: usize, at: usize) -> bool
    ensures within { result ≡ true → place < length ends.now }
    ensures before { result ≡ true → 0 < place → slice_index ends.now (place - 1) ≤ at }
    ensures above { result ≡ true → at < slice_index ends.now place }
{
    place < ends.len() && at < ends[place] && (place == 0 || ends[place - 1] <= at)
}

// As `first_above`, by halves.
fn search(ends: &[usize], at: usize) -> usize
    ensures within { result ≤ length ends.now }
    ensures before { 0 < result → slice_index ends.now (result - 1) ≤ at }
    ensures above { result < length ends.now → at < slice_index ends.now result }
{
    let mut low = 0;
    let mut high = ends.len();
    while low < high {
        let middle = low + (high - low) / 2;
        if ends[middle] <= at {
            low = middle + 1;
        } else {
            high = middle;
        }
    }
    low
}
