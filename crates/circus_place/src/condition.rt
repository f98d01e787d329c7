// What must hold of the machines that are chosen.
ghost use Rattle.std.specs.Prelude.{◌≡◌, IfOk};
ghost use Rattle.circus_place.specs.ConditionTree.{tree_of};

use crate::Constant;
use circus_value::{Duplicate, Name, NoMemory};

/// How two values are compared.
#[derive(Clone, Copy, Debug, PartialEq, Eq)]
pub enum Comparison {
    Equal,
    Unequal,
    Less,
    AtMost,
    Greater,
    AtLeast,
}

/// A value of a condition.
#[derive(Debug, Drop)]
pub enum Operand {
    /// The attribute of this name of the machine of a member, which are numbered from 1.
    Attribute(u16, Name),
    Fixed(Constant),
}

/// A condition on the machines of the members (docs/LANGUAGE.md, "Placing"). Chains of OR and AND lean to the
/// left.
#[derive(Debug, Drop)]
pub enum Condition {
    Or(Box<Condition>, Box<Condition>),
    And(Box<Condition>, Box<Condition>),
    Not(Box<Condition>),
    /// The attribute of this name is there at each member, and no two are equal.
    Differ(Name),
    Compare(Comparison, Operand, Operand),
    /// The value is TRUE.
    Holds(Operand),
}

impl Duplicate for Operand {
    fn copy(&self) -> Result<Self, NoMemory> {
        Ok(match self {
            Operand::Attribute(member, name) => Operand::Attribute(*member, name.copy()?),
            Operand::Fixed(constant) => Operand::Fixed(constant.copy()?),
        })
    }
}

impl Condition {
    /// An equal condition in memory of its own.
    #[cycle(copying)]
    pub fn copy(&self) -> Result<Self, NoMemory>
        ensures { IfOk result (λ copied. tree_of copied ≡ tree_of self.now) }
    {
        Ok(match self {
            Condition::Or(left, right) => Condition::Or(part(left)?, part(right)?),
            Condition::And(left, right) => Condition::And(part(left)?, part(right)?),
            Condition::Not(inner) => Condition::Not(part(inner)?),
            Condition::Differ(name) => Condition::Differ(name.copy()?),
            Condition::Compare(comparison, left, right) => {
                Condition::Compare(*comparison, left.copy()?, right.copy()?)
            }
            Condition::Holds(operand) => Condition::Holds(operand.copy()?),
        })
    }
}

#[cycle(copying)]
fn part(inner: &Box<Condition>) -> Result<Box<Condition>, NoMemory>
    ensures { IfOk result (λ copied. tree_of copied.value ≡ tree_of inner.now.value) }
{
    Ok(Box::new(*Box::allocator(inner), inner.copy()?)?)
}
