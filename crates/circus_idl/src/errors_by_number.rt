// Errors by their numbers.
ghost use Rattle.std.specs.Prelude.{◌≡◌, ℕ, find, option_copied, slice_get, IfOk};
ghost use Rattle.std.specs.List.{position_from};
ghost use Rattle.std.specs.Ordering.{nat_cmp};
ghost use Rattle.std.specs.BTreeMap.{get};
ghost use Rattle.circus_idl.specs.Shown.{has_number, error_name};

use crate::interface::DeclaredError;
use circus_value::NoMemory;
use std::alloc::Global;
use std::collections::BTreeMap;

/// Errors that can be found by their numbers.
#[derive(Drop)]
pub struct ErrorsByNumber<'a> {
    pub errors: &'a [DeclaredError],
    /// Where each number stands first among the errors.
    places: BTreeMap<u16, usize>,
    ghost found: { (n : ℕ) → get nat_cmp places n ≡ position_from (has_number n) 0 errors.now },
}

impl<'a> ErrorsByNumber<'a> {
    /// The errors with the places of their numbers, or `NoMemory`.
    pub fn new(alloc: Global, errors: &'a [DeclaredError]) -> Result<Self, NoMemory>
        ensures { IfOk result (λ names. names.errors.now ≡ errors.now) }
    {
        Ok(ErrorsByNumber {
            errors,
            places: places_of(alloc, errors)?,
        })
    }

    /// The first error of this number. It takes no memory.
    pub fn error(&self, number: u16) -> Option<&'a DeclaredError>
        ensures { option_copied result ≡ find (has_number number) self.now.errors.now }
    {
        let place = self.places.get(&number)?;
        self.at(*place)
    }

    fn at(&self, place: usize) -> Option<&'a DeclaredError>
        ensures { option_copied result ≡ slice_get self.now.errors.now place }
    {
        self.errors.get(place)
    }

    /// The name of the first error of this number, or no bytes where there is none.
    pub fn name(&self, number: u16) -> &[u8]
        ensures { result.now ≡ error_name self.now.errors.now number }
    {
        match self.error(number) {
            Some(error) => error.name.as_slice(),
            None => &[],
        }
    }
}

fn places_of(alloc: Global, errors: &[DeclaredError]) -> Result<BTreeMap<u16, usize>, NoMemory>
    ensures { IfOk result (λ places.
        (n : ℕ) → get nat_cmp places n ≡ position_from (has_number n) 0 errors.now) }
{
    let mut places = BTreeMap::new(alloc);
    for (place, error) in errors.iter().enumerate() {
        if !places.contains_key(&error.number) {
            places.insert(error.number, place)?;
        }
    }
    Ok(places)
}
