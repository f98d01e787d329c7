// What is known under a call's number.
ghost use Rattle.std.specs.Prelude.{◌≡◌, ℕ, ◌==◌, IsSome, IsOk, OnOk, OnErr, option_copied};
ghost use Rattle.std.specs.Ordering.{nat_cmp};
ghost use Rattle.std.specs.FinMap as map;
ghost use Rattle.std.specs.Map.Iter.{ShowsInOrder, deref_pair};

use circus_value::NoMemory;
use std::alloc::Global;
use std::collections::BTreeMap;
use std::collections::btree_map::Iter;
use std::marker::Model;

/// Values by number. Clauses see the finite map.
#[derive(Debug, Drop)]
pub struct ByCall<V> {
    values: BTreeMap<u32, V>,
}

impl<V> Model for ByCall<V> {
    ghost use Rattle.std.specs.Ordering.{nat_cmp};
    ghost use Rattle.std.specs.FinMap as map;
    ghost use Rattle.std.specs.Coded.{coded_ℕ};

    ghost Value = { map.FinMap nat_cmp V };

    ghost coded = { map.code coded_ℕ V.code };

    ghost view = { λ a. map.from_entries a.values.entries };
}

impl<V> ByCall<V> {
    /// No values. It takes no memory.
    pub fn new(alloc: Global) -> Self
        ensures { result ≡ map.empty }
    {
        ByCall {
            values: BTreeMap::new(alloc),
        }
    }

    /// The value under a number.
    pub fn get(&self, number: u32) -> Option<&V>
        ensures { option_copied result ≡ map.get self.now number }
    {
        self.values.get(&number)
    }
}

impl<V> ByCall<V> {
    /// Whether there are none.
    pub fn is_empty(&self) -> bool
        ensures { result ≡ (map.len self.now == 0) }
    {
        self.values.len() == 0
    }

    /// The values in the order of their numbers.
    pub fn iter(&self) -> Iter<'_, u32, V>
        ensures rest { result ≡ map.entries self.now }
        ensures runs { ShowsInOrder (deref_pair {K = ℕ} {X = V}) }
    {
        self.values.iter()
    }
}

impl<V: Drop> ByCall<V> {
    /// Puts a value under a number. After `NoMemory` the table is unchanged.
    pub fn insert(&mut self, number: u32, value: V) -> Result<(), NoMemory>
        ensures ok { OnOk result (self.new ≡ map.insert self.old number value) }
        ensures err { OnErr result (self.new ≡ self.old) }
        ensures known { IsSome (map.get self.old number) → IsOk result }
    {
        match self.values.insert(number, value) {
            Ok(_) => Ok(()),
            Err(_) => Err(NoMemory {}),
        }
    }

    /// Puts another value under a number that has one.
    pub fn set(&mut self, number: u32, value: V)
        requires { IsSome (map.get self.old number) }
        ensures { self.new ≡ map.insert self.old number value }
    {
        match self.insert(number, value) {
            Ok(()) => {}
            Err(_) => unreachable!(),
        }
    }

    /// Takes out what stands under a number, if anything does.
    pub fn take(&mut self, number: u32) -> Option<V>
        ensures value { result ≡ map.get self.old number }
        ensures rest { self.new ≡ map.remove self.old number }
    {
        self.values.remove(&number)
    }

    /// Drops what stands under a number, if anything does.
    pub fn remove(&mut self, number: u32)
        ensures { self.new ≡ map.remove self.old number }
    {
        let _ = self.take(number);
    }
}
