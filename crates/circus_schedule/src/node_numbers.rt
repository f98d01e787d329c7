// Nodes by their names.
ghost use Rattle.std.specs.Prelude.{◌≡◌, ◌≤◌, ◌^◌, length, IfOk};
ghost use Rattle.circus_schedule.specs.Meaning.{numbers_of};
ghost use Rattle.circus_schedule.specs.Seen.Table.{number_in};

use circus_collate::Host;
use circus_value::NoMemory;
use std::alloc::Global;
use std::collections::BTreeMap;

/// The numbers of nodes by their names.
#[derive(Drop)]
pub struct NodeNumbers<'a> {
    pub table: BTreeMap<&'a [u8], u16>,
}

#[tactic(auto, unfolding(crate::specs::Seen::Table::number_in))]
impl<'a> NodeNumbers<'a> {
    /// The numbers of these nodes.
    pub fn of(alloc: Global, nodes: &'a [Host]) -> Result<Self, NoMemory>
        requires { length nodes.now ≤ 2 ^ 16 }
        ensures { IfOk result (λ numbers. number_in numbers ≡ numbers_of nodes.now) }
    {
        let mut numbers = NodeNumbers {
            table: BTreeMap::new(alloc),
        };
        // From the back, so that of two nodes of one name the first counts.
        for number in (0..nodes.len()).rev() {
            numbers
                .table
                .insert(nodes[number].name.as_slice(), number as u16)?;
        }
        Ok(numbers)
    }

    /// The number of the node of this name.
    pub fn get(&self, name: &[u8]) -> Option<u16>
        ensures { result ≡ number_in self.now name.now }
    {
        self.table.get(name).copied()
    }
}
