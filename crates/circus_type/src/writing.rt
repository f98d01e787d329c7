// The shapes that types mean, with every name written out.
ghost use Rattle.std.specs.Prelude.{◌≡◌, ◌++◌, map, IfOk, OnOk};
ghost use Rattle.circus_value.specs.ShapeOf as shapes;
ghost use Rattle.circus_syntax.specs.TypeOf.{tree_of, group_of, arm_of};
ghost use Rattle.circus_syntax.specs.TypeTree.{group_trees, arm_trees};
ghost use Rattle.circus_type.specs.Meaning as meant;
ghost use Rattle.circus_type.specs.InRange.{IsOneWord, IsBoundInRange, AreLabelsInRange, IsInRange, AreGroupsInRange, AreArmsInRange};

use crate::TypeNames;
use circus_syntax::{ArmText, GroupText, LabelText, Named, Numeral, TypeKind, TypeText};
use circus_value::{Arm, Arms, Duplicate, Element, Field, Fields, Label, Labels, NoMemory, Shape};
use std::alloc::Global;

/// A number of one word.
pub fn word(number: Numeral) -> u16
    requires { IsOneWord number }
    ensures { result ≡ number.value }
{
    number.value as u16
}

/// The shape that a type means.
#[cycle(written)]
pub fn shape_of_type<N: TypeNames>(
    alloc: Global,
    names: &N,
    shape: &TypeText,
) -> Result<Shape, NoMemory>
    requires { IsInRange (tree_of shape.now) }
    ensures { IfOk result (λ s.
        shapes.tree_of s ≡ meant.shape_of_type (N.forms names.now) (tree_of shape.now)) }
{
    Ok(match &shape.kind {
        TypeKind::Boolean => Shape::Boolean,
        TypeKind::Cardinal => Shape::Cardinal,
        TypeKind::LongCardinal => Shape::LongCardinal,
        TypeKind::Integer => Shape::Integer,
        TypeKind::LongInteger => Shape::LongInteger,
        TypeKind::Text => Shape::Text,
        TypeKind::Enumeration(list) => Shape::Enumeration(labels(alloc, list.as_slice())?),
        TypeKind::Array(len, element) => {
            let items = shape_of_type(alloc, names, element.shape())?;
            Shape::Array(word(*len), Element::new(alloc, items)?)
        }
        TypeKind::Sequence(bound, element) => {
            let items = shape_of_type(alloc, names, element.shape())?;
            Shape::Sequence(bound_of(bound), Element::new(alloc, items)?)
        }
        TypeKind::Record(groups) => {
            Shape::Record(written_groups(alloc, names, groups.as_slice())?)
        }
        TypeKind::Choice(arms) => Shape::Choice(written_arms(alloc, names, arms.as_slice())?),
        TypeKind::Called(name) => names.shape(name)?,
    })
}

fn bound_of(bound: &Option<Numeral>) -> u16
    requires { IsBoundInRange bound.now }
    ensures { result ≡ meant.bound_of bound.now }
{
    match bound {
        Some(bound) => word(*bound),
        None => u16::MAX,
    }
}

fn labels(alloc: Global, list: &[LabelText]) -> Result<Labels, NoMemory>
    requires { AreLabelsInRange list.now }
    ensures { IfOk result (λ labels. labels ≡ map meant.label_meant list.now) }
{
    let mut labels = Labels::new(alloc);
    for label in list {
        labels.push(Label {
            name: label.name.name.copy()?,
            number: word(label.number),
        })?;
    }
    labels.seal()?;
    Ok(labels)
}

// Adds a field of this shape for each of the names.
fn push_fields(fields: &mut Fields, names: &[Named], shape: &Shape) -> Result<(), NoMemory>
    ensures { OnOk result
        (fields.new ≡ fields.old ++ meant.fields_named names.now (shapes.tree_of shape.now)) }
{
    for name in names {
        fields.push(Field {
            name: name.name.copy()?,
            shape: shape.copy()?,
        })?;
    }
    Ok(())
}

/// Fields in the order of their names.
#[cycle(written)]
pub fn written_groups<N: TypeNames>(
    alloc: Global,
    names: &N,
    groups: &[GroupText],
) -> Result<Fields, NoMemory>
    requires { AreGroupsInRange (group_trees (map group_of groups.now)) }
    ensures { IfOk result (λ fields.
        fields ≡ meant.written_groups (N.forms names.now) (group_trees (map group_of groups.now))) }
{
    let mut fields = Fields::new(alloc);
    for group in groups {
        let shape = shape_of_type(alloc, names, &group.shape)?;
        push_fields(&mut fields, group.names.as_slice(), &shape)?;
    }
    fields.seal()?;
    Ok(fields)
}

#[cycle(written)]
fn written_arms<N: TypeNames>(alloc: Global, names: &N, arms: &[ArmText]) -> Result<Arms, NoMemory>
    requires { AreArmsInRange (arm_trees (map arm_of arms.now)) }
    ensures { IfOk result (λ list.
        list ≡ meant.written_arms (N.forms names.now) (arm_trees (map arm_of arms.now))) }
{
    let mut list = Arms::new(alloc);
    for arm in arms {
        list.push(Arm {
            name: arm.name.name.copy()?,
            number: word(arm.number),
            shape: shape_of_type(alloc, names, &arm.shape)?,
        })?;
    }
    list.seal()?;
    Ok(list)
}
