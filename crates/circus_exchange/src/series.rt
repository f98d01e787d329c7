// What is known under numbers of which most follow each other.
ghost use Rattle.std.specs.Prelude.{◌≡◌, ◌+◌, ◌<◌, true, None, Some, IsSome, IsOk, OnOk, OnErr, length, IfSome, MatchOption, option_copied};
ghost use Rattle.std.specs.BTreeMap.{get, Updates, IsUnchanged};
ghost use Rattle.std.specs.FinMap as map;
ghost use Rattle.std.specs.Ordering.{nat_cmp};
ghost use Rattle.circus_exchange.specs.Seen.Numbered.{IsOff, map_of_row};

use circus_value::NoMemory;
use std::alloc::Global;
use std::collections::BTreeMap;
use std::marker::Model;

/// Values by number. Those of the numbers from a first one on without a gap stand in a row, where they are found at
/// once; the others stand in a map. Clauses see the finite map.
#[derive(Drop)]
pub struct Series<V> {
    first: u32,
    row: Vec<V>,
    others: BTreeMap<u32, V>,
}

impl<V> Model for Series<V> {
    ghost use Rattle.std.specs.Ordering.{nat_cmp};
    ghost use Rattle.std.specs.FinMap as map;
    ghost use Rattle.std.specs.Coded.{coded_ℕ};
    ghost use Rattle.circus_exchange.specs.Seen.Numbered.{map_of_row};

    ghost Value = { map.FinMap nat_cmp V };

    ghost coded = { map.code coded_ℕ V.code };

    ghost view = { λ a. map_of_row a.first a.row.items a.others.entries };
}

impl<V> Series<V> {
    /// No values; the row will begin at this number. It takes no memory.
    pub fn new(alloc: Global, first: u32) -> Self
        ensures { result ≡ map.empty }
    {
        Series {
            first,
            row: Vec::new(alloc),
            others: BTreeMap::new(alloc),
        }
    }

    /// The value under a number.
    pub fn get(&self, number: u32) -> Option<&V>
        ensures { option_copied result ≡ map.get self.now number }
    {
        match place_in(self.first, &self.row, number) {
            Some(place) => Some(&self.row[place]),
            None => self.others.get(&number),
        }
    }
}

impl<V: Drop> Series<V> {
    /// Puts a value under a number. After `NoMemory` the series is unchanged; a number that has a value never meets it.
    pub fn insert(&mut self, number: u32, value: V) -> Result<(), NoMemory>
        ensures ok { OnOk result (self.new ≡ map.insert self.old number value) }
        ensures err { OnErr result (self.new ≡ self.old) }
        ensures known { IsSome (map.get self.old number) → IsOk result }
    {
        match place_in(self.first, &self.row, number) {
            Some(place) => {
                self.row[place] = value;
                Ok(())
            }
            None => put_off_row(self.first, &mut self.row, &mut self.others, number, value),
        }
    }

    /// Puts another value under a number that has one.
    pub fn set(&mut self, number: u32, value: V)
        requires { IsSome (map.get self.old number) }
        ensures { self.new ≡ map.insert self.old number value }
    {
        match self.insert(number, value) {
            Ok(()) => {}
            Err(_) => unreachable!(),
        }
    }
}

// The place of a number in a row that begins at a first number, if it stands there.
fn place_in<V>(first: u32, row: &[V], number: u32) -> Option<usize>
    ensures { MatchOption result (IsOff first (length row.now) number) (λ place.
        (number ≡ first + place) × (place < length row.now)) }
{
    let place = number.checked_sub(first)? as usize;
    if place < row.len() { Some(place) } else { None }
}

// The number that follows those of such a row.
fn number_behind<V>(first: u32, row: &[V]) -> Option<u32>
    ensures { IfSome result (λ number. number ≡ first + length row.now) }
{
    u32::try_from(row.len()).ok()?.checked_add(first)
}

// Puts a value under a number that does not stand in the row.
fn put_off_row<V: Drop>(
    first: u32,
    row: &mut Vec<V>,
    others: &mut BTreeMap<u32, V>,
    number: u32,
    value: V,
) -> Result<(), NoMemory>
    requires { IsOff first (length row.old.items) number }
    ensures ok { OnOk result
        (map_of_row first row.new.items others.new.entries
        ≡ map.insert (map_of_row first row.old.items others.old.entries) number value) }
    ensures err { OnErr result
        (map_of_row first row.new.items others.new.entries
        ≡ map_of_row first row.old.items others.old.entries) }
    ensures known { IsSome (map.get (map_of_row first row.old.items others.old.entries) number)
        → IsOk result }
{
    if !follows(first, row, others, number) {
        return put_other(others, number, value);
    }
    row.push(value)?;
    gather(first, row, others);
    Ok(())
}

// Whether a number follows those of a row and is none of the others.
fn follows<V>(first: u32, row: &[V], others: &BTreeMap<u32, V>, number: u32) -> bool
    ensures row { result ≡ true → number ≡ first + length row.now }
    ensures others { result ≡ true → get nat_cmp others.now number ≡ None }
{
    number_behind(first, row) == Some(number) && !others.contains_key(&number)
}

fn put_other<V: Drop>(others: &mut BTreeMap<u32, V>, number: u32, value: V) -> Result<(), NoMemory>
    ensures ok { OnOk result (Updates nat_cmp others.old others.new number (Some value)) }
    ensures err { OnErr result (IsUnchanged others.old others.new) }
    ensures absent { OnErr result (get nat_cmp others.old number ≡ None) }
{
    match others.insert(number, value) {
        Ok(_) => Ok(()),
        Err(_) => Err(NoMemory {}),
    }
}

// Moves the values of the numbers that follow a row into it, as far as there is memory.
fn gather<V: Drop>(first: u32, row: &mut Vec<V>, others: &mut BTreeMap<u32, V>)
    ensures { map_of_row first row.new.items others.new.entries
        ≡ map_of_row first row.old.items others.old.entries }
{
    while !others.is_empty() && row.reserve(1).is_ok() {
        let Some(number) = number_behind(first, row) else {
            return;
        };
        match others.remove(&number) {
            Some(value) => row.push_reserved(value),
            None => return,
        }
    }
}
