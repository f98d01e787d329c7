// A placing as it is written.
use crate::{AttributeTexts, Comparison, MachineTexts};
use circus_syntax::{Named, Nameds, Numeral};
use circus_value::Octets;

/// A value as it is written, a text with its place.
#[derive(Debug, Drop)]
pub enum ConstantText {
    Number(Numeral),
    Text(Octets, u32),
    Truth(bool),
}

/// An attribute of a machine.
#[derive(Debug, Drop)]
pub struct AttributeText {
    pub name: Named,
    pub constant: ConstantText,
}

/// A machine.
#[derive(Debug, Drop)]
pub struct MachineText {
    pub name: Named,
    pub attributes: AttributeTexts,
}

/// A value of a condition: the attribute of a member, or a fixed one.
#[derive(Debug, Drop)]
pub enum OperandText {
    Attribute(Numeral, Named),
    Fixed(ConstantText),
}

/// A condition. Chains lean to the left, and what stands in parentheses is a group.
#[derive(Debug, Drop)]
pub enum ConditionText {
    Or(Box<ConditionText>, Box<ConditionText>),
    And(Box<ConditionText>, Box<ConditionText>),
    Not(Box<ConditionText>),
    Group(Box<ConditionText>),
    Differ(Named),
    Compare(Comparison, OperandText, OperandText),
    Holds(OperandText),
}

/// A placing.
#[derive(Debug, Drop)]
pub struct PlacingText {
    pub machines: MachineTexts,
    pub members: Numeral,
    pub condition: ConditionText,
    pub present: Option<Nameds>,
}
