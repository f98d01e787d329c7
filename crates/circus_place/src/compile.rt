// Conditions made ready for the search.
ghost use Rattle.std.specs.Prelude.{◌≡◌, ℕ, ◌<◌, List, Some, length, map, is_some, IfOk};
ghost use Rattle.circus_place.specs.ConditionTree.{tree_of};
ghost use Rattle.circus_place.specs.Obeys.{IsOfMember, AreOfMembers, Obeys};
ghost use Rattle.circus_place.specs.declared.placing.Machine.{Machine};
ghost use Rattle.circus_place.specs.Value.{attribute_at, value_of, is_related, all_differ, does_hold};
ghost use Rattle.circus_place.specs.Seen.Table.{constant_at, AreTablesOf, pointed_to, values_at};
ghost use Rattle.circus_place.specs.Seen.Test.{passes, IsTestOf, ArePlaced, member_of};

use crate::attributes::Attributes;
use crate::relation::Relation;
use crate::test::Test;
use crate::{Comparison, Condition, Constant, Operand, Placing};
use circus_value::{ListOf, NoMemory};
use std::alloc::Global;

/// The machines of a placing, with their attributes by name, and how many members are to be placed.
#[derive(Drop)]
pub struct Compiler<'a> {
    alloc: Global,
    machines: Vec<Attributes<'a>>,
    members: usize,
}

impl<'a> Compiler<'a> {
    /// The machines of a placing and their attributes, or `NoMemory`.
    pub fn new(alloc: Global, placing: &'a Placing) -> Result<Self, NoMemory>
        requires { Obeys placing.now }
        ensures machines { IfOk result (λ made.
            AreTablesOf placing.now.machines made.machines.items) }
        ensures members { IfOk result (λ made. made.members ≡ placing.now.members) }
    {
        let mut machines = Vec::new(alloc);
        for machine in placing.machines.as_slice() {
            machines.push(Attributes::of(alloc, machine.attributes.as_slice())?)?;
        }
        Ok(Compiler {
            alloc,
            machines,
            members: usize::from(placing.members),
        })
    }

    /// A test that whole choices pass exactly where the condition holds of them.
    #[cycle(compiling)]
    pub fn test(&self, condition: &Condition) -> Result<Test, NoMemory>
        requires some { 0 < self.now.members }
        requires of_members { AreOfMembers self.now.members (tree_of condition.now) }
        ensures of_members { IfOk result (IsTestOf self.now.members) }
        ensures same { IfOk result (λ made.
            (machines : List Machine) (choice : List ℕ)
            → AreTablesOf machines self.now.machines.items
            → ArePlaced self.now.members (length machines) choice
            → passes made choice ≡ does_hold machines choice (tree_of condition.now)) }
    {
        Ok(match condition {
            Condition::Or(left, right) => Test::Or(self.part(left)?, self.part(right)?),
            Condition::And(left, right) => Test::And(self.part(left)?, self.part(right)?),
            Condition::Not(inner) => Test::Not(self.part(inner)?),
            Condition::Differ(name) => self.differ(name.as_slice())?,
            Condition::Compare(comparison, left, right) => self.relation_test(
                *comparison,
                left,
                right,
            )?,
            Condition::Holds(operand) => {
                self.relation_test(
                    Comparison::Equal,
                    operand,
                    &Operand::Fixed(Constant::Truth(true)),
                )?
            }
        })
    }

    #[cycle(compiling)]
    fn part(&self, condition: &Condition) -> Result<Box<Test>, NoMemory>
        requires some { 0 < self.now.members }
        requires of_members { AreOfMembers self.now.members (tree_of condition.now) }
        ensures of_members { IfOk result (λ made. IsTestOf self.now.members made.value) }
        ensures same { IfOk result (λ made.
            (machines : List Machine) (choice : List ℕ)
            → AreTablesOf machines self.now.machines.items
            → ArePlaced self.now.members (length machines) choice
            → passes made.value choice ≡ does_hold machines choice (tree_of condition.now)) }
    {
        Ok(Box::new(self.alloc, self.test(condition)?)?)
    }

    fn relation_test(
        &self,
        comparison: Comparison,
        left: &Operand,
        right: &Operand,
    ) -> Result<Test, NoMemory>
        requires some { 0 < self.now.members }
        requires left { IsOfMember self.now.members left.now }
        requires right { IsOfMember self.now.members right.now }
        ensures of_members { IfOk result (IsTestOf self.now.members) }
        ensures same { IfOk result (λ made.
            (machines : List Machine) (choice : List ℕ)
            → AreTablesOf machines self.now.machines.items
            → ArePlaced self.now.members (length machines) choice
            → passes made choice
            ≡ is_related comparison (value_of machines choice left.now)
            (value_of machines choice right.now)) }
    {
        let relation = Relation::of(
            self.alloc,
            comparison,
            &self.values(left)?,
            &self.values(right)?,
        )?;
        Ok(Test::Related(member_of(left), member_of(right), relation))
    }

    fn differ(&self, name: &[u8]) -> Result<Test, NoMemory>
        ensures of_members { IfOk result (IsTestOf self.now.members) }
        ensures same { IfOk result (λ made.
            (machines : List Machine) (choice : List ℕ)
            → AreTablesOf machines self.now.machines.items
            → ArePlaced self.now.members (length machines) choice
            → passes made choice ≡ all_differ (map (attribute_at machines name.now) choice)) }
    {
        let values = self.attribute(name)?;
        let has = are_there(self.alloc, &values)?;
        let same = Relation::of(self.alloc, Comparison::Equal, &values, &values)?;
        Ok(Test::Differ(self.members, has, same))
    }

    // What an operand is at each machine.
    fn values<'v>(&'v self, operand: &'v Operand) -> Result<Vec<Option<&'v Constant>>, NoMemory>
        ensures { IfOk result (λ made.
            pointed_to made.items ≡ values_at self.now.machines.items operand.now) }
    {
        match operand {
            Operand::Attribute(_, name) => self.attribute(name.as_slice()),
            Operand::Fixed(constant) => self.constant_everywhere(constant),
        }
    }

    fn constant_everywhere<'v>(
        &self,
        constant: &'v Constant,
    ) -> Result<Vec<Option<&'v Constant>>, NoMemory>
        ensures { IfOk result (λ made.
            pointed_to made.items ≡ map (λ t. Some constant.now) self.now.machines.items) }
    {
        let mut values = Vec::new(self.alloc);
        for _ in &self.machines {
            values.push(Some(constant))?;
        }
        Ok(values)
    }

    // What the attribute of this name is at each machine.
    fn attribute(&self, name: &[u8]) -> Result<Vec<Option<&Constant>>, NoMemory>
        ensures { IfOk result (λ made.
            pointed_to made.items ≡ map (λ t. constant_at t name.now) self.now.machines.items) }
    {
        let mut values = Vec::new(self.alloc);
        for machine in &self.machines {
            values.push(machine.get(name))?;
        }
        Ok(values)
    }
}

// Which of the values are there.
fn are_there(alloc: Global, values: &[Option<&Constant>]) -> Result<ListOf<bool>, NoMemory>
    ensures { IfOk result (λ made. made ≡ map is_some (pointed_to values.now)) }
{
    let mut has = ListOf::new(alloc);
    for value in values {
        has.push(value.is_some())?;
    }
    Ok(has)
}

// The member of whose machine an operand speaks, from 0. A fixed value speaks of any, so of the first.
fn member_of(operand: &Operand) -> usize
    ensures { result ≡ member_of operand.now }
{
    match operand {
        Operand::Attribute(member, _) => usize::from(*member).saturating_sub(1),
        Operand::Fixed(_) => 0,
    }
}
