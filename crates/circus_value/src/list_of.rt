// A list that grows at its end.
ghost use Rattle.std.specs.Prelude.{◌≡◌, ◌<◌, [], ◌∷◌, ◌++◌, length, option_copied, slice_get, slice_set, option_to_list, OnOk, OnErr, IfOk, IsSome, IsTrue, ◌↔◌};
ghost use Rattle.std.specs.Borrow.{LendsIf, sem};
ghost use Rattle.std.specs.List.{IsItemAtMut};
ghost use Rattle.circus_value.specs.contracts.list_of.ListOf.{the_row};

use crate::{Duplicate, NoMemory};
use bytes::Bytes;
use std::alloc::Global;
use std::marker::Model;

/// Items in order. Clauses see it as a plain list.
#[derive(Debug)]
pub struct ListOf<T> {
    items: Vec<T>,
}

// Written out, so that dropping one is one step of a proof (docs/PROOFS.md, "Cost").
impl<T: Drop> Drop for ListOf<T> {
    fn drop(self) {
        let ListOf { items: _ } = self;
    }
}

impl<T> Model for ListOf<T> {
    ghost use Rattle.std.specs.Prelude.{List};

    ghost Value = { List T };

    ghost view = { λ list. list.items.items };
}

impl<T> ListOf<T> {
    /// An empty list, which takes no memory and grows with this allocator.
    pub fn new(alloc: Global) -> Self
        ensures { result ≡ [] }
    {
        ListOf {
            items: Vec::new(alloc),
        }
    }

    /// How many there are.
    pub fn len(&self) -> usize
        ensures { result ≡ length self.now }
    {
        self.items.len()
    }

    /// Whether there are none.
    pub fn is_empty(&self) -> bool
        ensures { IsTrue result ↔ (self.now ≡ []) }
    {
        self.items.is_empty()
    }

    /// The item at a place, counted from 0. `None` exactly where the place is not below the length.
    pub fn get(&self, place: usize) -> Option<&T>
        ensures { option_copied result ≡ slice_get self.now place }
    {
        self.items.get(place)
    }

    /// All of them, in order.
    pub fn as_slice(&self) -> &[T]
        ensures { result.now ≡ self.now }
    {
        self.items.as_slice()
    }
}

impl<T> ListOf<T> {
    /// These items, which are not copied.
    pub fn of(items: Vec<T>) -> Self
        ensures { result ≡ items.items }
    {
        ListOf { items }
    }

    /// The items, which are not copied.
    pub fn into_items(self) -> Vec<T>
        ensures { result.items ≡ self }
    {
        let ListOf { items } = self;
        items
    }

    /// Takes the last item out. `None` exactly where there is none.
    pub fn pop(&mut self) -> Option<T>
        ensures taken { self.old ≡ self.new ++ option_to_list result }
        ensures some { IsSome result ↔ (0 < length self.old) }
    {
        self.items.pop()
    }

    /// The item at a place, counted from 0, to be changed where it stands. `None` exactly where the place is not below
    /// the length.
    pub fn get_mut(&mut self, place: usize) -> Option<&mut T>
        ensures* writes_back { sem 𝓛
            (LendsIf (the_row T.row) T.row self.entry result
            (slice_set self.entry.now place) self.entry.now) }
        ensures variant { IsSome result ↔ (place < length self.old) }
        ensures item { IsItemAtMut self.old place result }
    {
        self.items.get_mut(place)
    }
}

impl ListOf<u8> {
    /// These bytes in a form that is shared and not copied.
    pub fn share(self) -> Result<Bytes, NoMemory>
        ensures { IfOk result (λ bytes. bytes ≡ self) }
    {
        let ListOf { items } = self;
        Ok(Bytes::from_vec(items)?)
    }
}

impl<T: Drop> ListOf<T> {
    /// Adds an item at the end. After `NoMemory` the list is unchanged.
    pub fn push(&mut self, item: T) -> Result<(), NoMemory>
        ensures ok { OnOk result (self.new ≡ self.old ++ item ∷ []) }
        ensures err { OnErr result (self.new ≡ self.old) }
    {
        self.items.push(item)?;
        Ok(())
    }

    /// Puts an item in the place of another.
    pub fn set(&mut self, place: usize, item: T)
        requires { place < length self.old }
        ensures { self.new ≡ slice_set self.old place item }
    {
        self.items[place] = item;
    }
}

impl<T: Copy> ListOf<T> {
    /// Adds copies of items at the end. After `NoMemory` the list is unchanged.
    pub fn append(&mut self, items: &[T]) -> Result<(), NoMemory>
        ensures ok { OnOk result (self.new ≡ self.old ++ items.now) }
        ensures err { OnErr result (self.new ≡ self.old) }
    {
        self.items.extend_from_slice(items)
    }
}

impl<T: Duplicate> Duplicate for ListOf<T> {
    fn copy(&self) -> Result<Self, NoMemory> {
        let mut items = Vec::with_capacity(*self.items.allocator(), self.items.len())?;
        for item in &self.items {
            items.push(item.copy()?)?;
        }
        Ok(ListOf { items })
    }
}
