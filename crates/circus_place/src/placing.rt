// A placing: machines, and what is asked of those that are chosen.
ghost use Rattle.std.specs.Prelude.{◌≡◌, IfOk};
ghost use Rattle.circus_place.specs.ConditionTree.{tree_of};

use crate::{Attributes, Condition, Machines};
use circus_value::{Duplicate, Name, NoMemory, Numbers, Octets};

/// What an attribute is: a number, a text or a truth (docs/LANGUAGE.md, "Placing").
#[derive(Debug, Drop)]
pub enum Constant {
    Number(u64),
    Text(Octets),
    Truth(bool),
}

/// A named value of a machine.
#[derive(Debug, Drop)]
pub struct Attribute {
    pub name: Name,
    pub constant: Constant,
}

/// A machine that may be chosen.
#[derive(Debug, Drop)]
pub struct Machine {
    pub name: Name,
    pub attributes: Attributes,
}

/// Which machines there are, how many members are to be placed on them, what must hold of the choice, and
/// on which machines members are present (docs/LANGUAGE.md, "Placing").
#[derive(Debug, Drop)]
pub struct Placing {
    pub machines: Machines,
    pub members: u16,
    pub condition: Condition,
    /// Numbers of machines.
    pub present: Numbers,
}

impl Duplicate for Constant {
    fn copy(&self) -> Result<Self, NoMemory> {
        Ok(match self {
            Constant::Number(number) => Constant::Number(*number),
            Constant::Text(text) => Constant::Text(text.copy()?),
            Constant::Truth(truth) => Constant::Truth(*truth),
        })
    }
}

impl Duplicate for Attribute {
    fn copy(&self) -> Result<Self, NoMemory> {
        Ok(Attribute {
            name: self.name.copy()?,
            constant: self.constant.copy()?,
        })
    }
}

impl Duplicate for Machine {
    fn copy(&self) -> Result<Self, NoMemory> {
        Ok(Machine {
            name: self.name.copy()?,
            attributes: self.attributes.copy()?,
        })
    }
}

impl Placing {
    /// An equal placing in memory of its own.
    pub fn copy(&self) -> Result<Self, NoMemory>
        ensures machines { IfOk result (λ copied. copied.machines ≡ self.now.machines) }
        ensures members { IfOk result (λ copied. copied.members ≡ self.now.members) }
        ensures condition { IfOk result (λ copied.
            tree_of copied.condition ≡ tree_of self.now.condition) }
        ensures present { IfOk result (λ copied. copied.present ≡ self.now.present) }
    {
        Ok(Placing {
            machines: self.machines.copy()?,
            members: self.members,
            condition: self.condition.copy()?,
            present: self.present.copy()?,
        })
    }
}
