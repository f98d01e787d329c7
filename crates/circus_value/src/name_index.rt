// Where names stand in a list.
ghost use Rattle.std.specs.Prelude.{◌≡◌, List, ℕ, None, bytes_eq, IfOk};
ghost use Rattle.std.specs.List.{position_from};
ghost use Rattle.circus_value.specs.Seen.NamePlaces.{place_in, IsIndexOf};

use crate::{Duplicate, NoMemory};
use std::alloc::Global;
use std::collections::BTreeMap;
use std::marker::Model;
use std::rc::Rc;

// Lists of fewer items are looked through.
const FEWEST: usize = 16;

/// Something that is found by its name.
pub(crate) trait HasName: Sized {
    ghost name_of: { Self → List ℕ };

    /// The bytes of the name.
    fn name(&self) -> &[u8]
        ensures { result.now ≡ name_of self.now };
}

/// Where each name of a list stands first, or nothing where the list is looked through. Copies share it. Clauses see the
/// names with their places.
#[derive(Debug)]
pub(crate) struct NameIndex {
    places: Option<Rc<BTreeMap<Vec<u8>, usize>>>,
}

// Written out, so that dropping one is one step of a proof (docs/PROOFS.md, "Cost").
impl Drop for NameIndex {
    fn drop(self) {
        let NameIndex { places: _ } = self;
    }
}

impl Model for NameIndex {
    ghost use Rattle.std.specs.Prelude.{ℕ, List, Option};
    ghost use Rattle.circus_value.specs.Seen.NamePlaces.{table_in};

    ghost Value = { Option (List (List ℕ × ℕ)) };

    ghost view = { λ a. table_in a.places };
}

impl NameIndex {
    /// That of a list that is looked through.
    pub fn new() -> Self
        ensures { result ≡ None }
    {
        NameIndex { places: None }
    }

    /// That of these items.
    pub fn of<T: HasName>(alloc: Global, items: &[T]) -> Result<Self, NoMemory>
        ensures { IfOk result (λ index. IsIndexOf T.name_of items.now index) }
    {
        if items.len() < FEWEST {
            return Ok(NameIndex::new());
        }
        let places = Rc::new(alloc, places_of(alloc, items)?)?;
        Ok(NameIndex {
            places: Some(places),
        })
    }

    /// The place of the first of the items with this name, counted from 0. `None` exactly where none has it.
    pub fn find<T: HasName>(&self, items: &[T], name: &[u8]) -> Option<usize>
        requires { IsIndexOf T.name_of items.now self.now }
        ensures { result ≡ position_from (λ x. bytes_eq (T.name_of x) name.now) 0 items.now }
    {
        match &self.places {
            Some(places) => places.get(name).copied(),
            None => look_for(items, name),
        }
    }
}

fn places_of<T: HasName>(alloc: Global, items: &[T]) -> Result<BTreeMap<Vec<u8>, usize>, NoMemory>
    ensures { IfOk result (λ places.
        (name : List ℕ) → place_in places name
        ≡ position_from (λ x. bytes_eq (T.name_of x) name) 0 items.now) }
{
    let mut places = BTreeMap::new(alloc);
    for (place, item) in items.iter().enumerate() {
        let name = item.name();
        if !places.contains_key(name) {
            places.insert(Vec::from_slice(alloc, name)?, place)?;
        }
    }
    Ok(places)
}

fn look_for<T: HasName>(items: &[T], name: &[u8]) -> Option<usize>
    ensures { result ≡ position_from (λ x. bytes_eq (T.name_of x) name.now) 0 items.now }
{
    for (place, item) in items.iter().enumerate() {
        if item.name() == name {
            return Some(place);
        }
    }
    None
}

/// The places are shared.
impl Duplicate for NameIndex {
    fn copy(&self) -> Result<Self, NoMemory> {
        Ok(NameIndex {
            places: self.places.clone()?,
        })
    }
}
