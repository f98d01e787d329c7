// Names with their numbers, and numbers, in tables that are filled from the front of a text on.
ghost use Rattle.std.specs.Prelude.{◌≡◌, not, OnOk, IfOk};
ghost use Rattle.circus_fault.specs.Known.{nobody, add_name, no_number, also_number};
ghost use Rattle.circus_fault.specs.Seen.Tables.{known_of, holds_number};

use circus_value::NoMemory;
use std::alloc::Global;
use std::collections::{BTreeMap, BTreeSet};

/// Names of a text with a number for each.
#[derive(Drop)]
pub struct Names<'a> {
    pub table: BTreeMap<&'a [u8], usize>,
}

/// Numbers of a text.
#[derive(Drop)]
pub struct NumberSet {
    pub set: BTreeSet<u64>,
}

#[tactic(auto, unfolding(crate::specs::Seen::Tables::known_of))]
impl<'a> Names<'a> {
    /// No names. It takes no memory.
    pub fn new(alloc: Global) -> Self
        ensures { known_of result ≡ nobody }
    {
        Names {
            table: BTreeMap::new(alloc),
        }
    }

    /// The number of a name.
    pub fn get(&self, name: &[u8]) -> Option<usize>
        ensures { result ≡ known_of self.now name.now }
    {
        self.table.get(name).copied()
    }

    /// Gives a name a number in place of the one that it had, which it answers.
    pub fn insert(&mut self, name: &'a [u8], number: usize) -> Result<Option<usize>, NoMemory>
        ensures earlier { IfOk result (λ earlier. earlier ≡ known_of self.old name.now) }
        ensures added { OnOk result
            (known_of self.new ≡ add_name name.now number (known_of self.old)) }
    {
        Ok(self.table.insert(name, number)?)
    }
}

#[tactic(auto, unfolding(crate::specs::Seen::Tables::holds_number))]
impl NumberSet {
    /// No numbers. It takes no memory.
    pub fn new(alloc: Global) -> Self
        ensures { holds_number result ≡ no_number }
    {
        NumberSet {
            set: BTreeSet::new(alloc),
        }
    }

    /// Adds a number, and answers whether it is new.
    pub fn insert(&mut self, number: u64) -> Result<bool, NoMemory>
        ensures new { IfOk result (λ new. new ≡ not (holds_number self.old number)) }
        ensures added { OnOk result
            (holds_number self.new ≡ also_number number (holds_number self.old)) }
    {
        Ok(self.set.insert(number)?)
    }
}
