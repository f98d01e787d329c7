// Bytes in parts that are shared with others.
ghost use Rattle.std.specs.Prelude.{◌≡◌, ◌+◌, ◌<◌, ◌≤◌, [], ◌++◌, length, drop, slice_get, OnOk, OnErr, IsOk, IfOk, IsTrue, ◌↔◌};
ghost use Rattle.std.specs.Prelude.{nat_eq};
ghost use Rattle.std.specs.Cmp.Lexicographic.{pointwise};
ghost use Rattle.std.specs.Cow.{cow_slice_items};
ghost use Rattle.circus_value.specs.Parts.{most_bytes, AreOctets};

use crate::tail::Tail;
use crate::{Duplicate, NoMemory};
use bytes::Bytes;
use std::alloc::Global;
use std::borrow::CowSlice;
use std::marker::Model;

/// Bytes that stand in parts, which may be shared. Clauses see the joined bytes. Those of one part take no memory.
#[derive(Drop)]
pub struct Parts {
    /// The first part, which may be empty.
    first: Bytes,
    tail: Tail,
}

impl Model for Parts {
    ghost use Rattle.std.specs.Prelude.{ℕ, ◌≤◌, List, length, ◌++◌};
    ghost use Rattle.circus_value.specs.Parts.{most_bytes};

    ghost Value = { List ℕ };

    ghost view = { λ p. p.first ++ p.tail };

    ghost invariant = { λ p. length (p.first ++ p.tail) ≤ most_bytes };
}

impl Parts {
    /// No bytes. It takes no memory, and grows with this allocator.
    pub fn new(alloc: Global) -> Self
        ensures { result ≡ [] }
    {
        Parts {
            first: Bytes::new(),
            tail: Tail::new(alloc),
        }
    }

    /// How many bytes there are, at most 16,777,216.
    pub fn len(&self) -> usize
        ensures value { result ≡ length self.now }
        ensures bound { result ≤ most_bytes }
        ensures octets { AreOctets self.now }
    {
        let first = self.first.as_slice();
        first.len() + self.tail.len()
    }

    /// Whether there are none.
    pub fn is_empty(&self) -> bool
        ensures { IsTrue result ↔ (self.now ≡ []) }
    {
        self.first.is_empty() && self.tail.is_empty()
    }

    /// The byte at a place, counted from 0. `None` exactly where the place is not below the length.
    pub fn byte(&self, at: usize) -> Option<u8>
        ensures { result ≡ slice_get self.now at }
    {
        let first = self.first.as_slice();
        if at < first.len() {
            Some(first[at])
        } else {
            self.tail.byte(at - first.len())
        }
    }

    /// Adds bytes at the end, which are shared and not copied. An empty part changes nothing, and
    /// after `NoMemory` the bytes are unchanged.
    pub fn add(&mut self, part: Bytes) -> Result<(), NoMemory>
        requires { length self.old + length part ≤ most_bytes }
        ensures ok { OnOk result (self.new ≡ self.old ++ part) }
        ensures err { OnErr result (self.new ≡ self.old) }
        ensures empty { part ≡ [] → IsOk result }
    {
        if self.is_empty() {
            self.first = part;
            return Ok(());
        }
        self.tail.add(part)
    }

    /// The bytes in one piece. Those of one part are lent where they stand, which takes no memory; those of several parts
    /// are copied.
    pub fn joined(&self) -> Result<CowSlice<'_, u8>, NoMemory>
        ensures { IfOk result (λ bytes. cow_slice_items bytes ≡ self.now) }
    {
        if self.tail.is_empty() {
            return Ok(CowSlice::Borrowed(self.first.as_slice()));
        }
        let mut bytes = Vec::with_capacity(self.tail.allocator(), self.len())?;
        bytes.extend_from_slice(self.first.as_slice())?;
        self.tail.copy_to(&mut bytes)?;
        Ok(CowSlice::Owned(bytes))
    }

    /// The bytes from a place on, in parts that are shared with these and not copied.
    pub fn rest(&self, at: usize) -> Result<Parts, NoMemory>
        requires { at ≤ length self.now }
        ensures { IfOk result (λ rest. rest ≡ drop at self.now) }
    {
        let len = self.first.len();
        if at < len {
            Ok(Parts {
                first: self.first.slice(at..len)?,
                tail: self.tail.rest(0)?,
            })
        } else {
            Ok(Parts {
                first: Bytes::new(),
                tail: self.tail.rest(at - len)?,
            })
        }
    }

    // Whether there are the same bytes in order, wherever the parts end.
    fn has_bytes_of(&self, other: &Parts) -> bool
        ensures { result ≡ pointwise nat_eq self.now other.now }
    {
        let len = self.len();
        if other.len() != len {
            return false;
        }
        for at in 0..len {
            if self.byte(at) != other.byte(at) {
                return false;
            }
        }
        true
    }
}

impl Duplicate for Parts {
    fn copy(&self) -> Result<Self, NoMemory> {
        self.rest(0)
    }
}

/// Parts are equal where their joined bytes are.
impl PartialEq for Parts {
    ghost use Rattle.std.specs.Prelude.{nat_eq};
    ghost use Rattle.std.specs.Cmp.{nat_eq_equiv, partial_equiv_from_equiv};
    ghost use Rattle.std.specs.Cmp.Lexicographic.{pointwise, lists_per};

    ghost eq = { pointwise nat_eq };

    ghost laws = { lists_per (partial_equiv_from_equiv nat_eq_equiv) };

    fn eq(&self, other: &Self) -> bool {
        if self.first.len() == other.first.len()
            && let Some(same) = self.tail.same(&other.tail)
        {
            same && self.first.as_slice() == other.first.as_slice()
        } else {
            self.has_bytes_of(other)
        }
    }
}

impl Eq for Parts {
    ghost use Rattle.std.specs.Cmp.Lexicographic.{nat_list_eq_equiv};

    ghost laws = { nat_list_eq_equiv };
}
