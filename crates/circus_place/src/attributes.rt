// Attributes by their names.
ghost use Rattle.std.specs.Prelude.{◌≡◌, ◌≢◌, ℕ, List, AllPairs, option_copied, IfOk};
ghost use Rattle.circus_place.specs.Value.{attribute_in};
ghost use Rattle.circus_place.specs.Seen.Table.{constant_at};

use crate::{Attribute, Constant};
use circus_value::NoMemory;
use std::alloc::Global;
use std::collections::BTreeMap;

/// What the attributes of a machine are, by their names.
#[derive(Drop)]
pub struct Attributes<'a> {
    table: BTreeMap<&'a [u8], &'a Constant>,
}

impl<'a> Attributes<'a> {
    /// A table of these attributes.
    pub fn of(alloc: Global, attributes: &'a [Attribute]) -> Result<Self, NoMemory>
        requires { AllPairs (λ a b. a.name ≢ b.name) attributes.now }
        ensures { IfOk result (λ made.
            (name : List ℕ) → constant_at made name ≡ attribute_in attributes.now name) }
    {
        let mut table = BTreeMap::new(alloc);
        for attribute in attributes {
            table.insert(attribute.name.as_slice(), &attribute.constant)?;
        }
        Ok(Attributes { table })
    }

    /// The attribute of this name, if there is one.
    pub fn get(&self, name: &[u8]) -> Option<&'a Constant>
        ensures { option_copied result ≡ constant_at self.now name.now }
    {
        self.table.get(name).copied()
    }
}
