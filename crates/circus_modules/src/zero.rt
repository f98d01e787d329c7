// What variables are at first.
ghost use Rattle.std.specs.Prelude.{◌≡◌, map, replicate, IfOk};
ghost use Rattle.circus_value.specs.ShapeOf as shapes;
ghost use Rattle.circus_value.specs.ValueOf.{tree_of};
ghost use Rattle.circus_value.specs.ShapeTree.{arm_trees};
ghost use Rattle.circus_type.specs.Written as written;
ghost use Rattle.circus_modules.specs.Zeros.{zeros};

use circus_value::{Arm, Chosen, Duplicate, Field, Label, NoMemory, Shape, Text, Value, Values};
use std::alloc::Global;

/// The zero value of a shape: FALSE, 0, empty, the first label or arm, and zeros within (docs/LANGUAGE.md, "Interfaces").
/// `NoMemory` is the one fault.
#[cycle(zero)]
#[tactic(auto, using(crate::proofs::ZeroTrees::zeros_are, crate::proofs::ZeroTrees::copies_are))]
pub(crate) fn zero_value(alloc: Global, shape: &Shape) -> Result<Value, NoMemory>
    ensures { IfOk result (λ value. tree_of value ≡ written.zero_value (shapes.tree_of shape.now)) }
{
    Ok(match shape {
        Shape::Boolean => Value::Boolean(false),
        Shape::Cardinal => Value::Cardinal(0),
        Shape::LongCardinal => Value::LongCardinal(0),
        Shape::Integer => Value::Integer(0),
        Shape::LongInteger => Value::LongInteger(0),
        Shape::Text => Value::Text(Text::new()),
        Shape::Enumeration(labels) => Value::Enumeration(first_label(labels.as_slice())),
        Shape::Array(len, element) => {
            let item = zero_value(alloc, element.shape())?;
            Value::Array(copies(alloc, *len, item)?)
        }
        Shape::Sequence(_, _) => Value::Sequence(Values::new(alloc)),
        Shape::Record(fields) => Value::Record(zero_fields(alloc, fields.as_slice())?),
        Shape::Choice(arms) => zero_choice(alloc, arms.as_slice())?,
    })
}

/// The zero values of fields, in order. `NoMemory` is the one fault.
#[cycle(zero)]
pub(crate) fn zero_fields(alloc: Global, fields: &[Field]) -> Result<Values, NoMemory>
    ensures { IfOk result (λ values. values ≡ zeros (map shapes.field_of fields.now)) }
{
    let mut values = Values::new(alloc);
    for field in fields {
        values.push(zero_value(alloc, &field.shape)?)?;
    }
    Ok(values)
}

// The first arm, with its zero value.
#[cycle(zero)]
fn zero_choice(alloc: Global, arms: &[Arm]) -> Result<Value, NoMemory>
    ensures { IfOk result (λ value.
        tree_of value ≡ written.zero_choice (arm_trees (map shapes.arm_of arms.now))) }
{
    match arms.first() {
        Some(arm) => {
            let value = zero_value(alloc, &arm.shape)?;
            Ok(Value::Choice(arm.number, Chosen::new(alloc, value)?))
        }
        None => {
            let nothing = Value::Record(Values::new(alloc));
            Ok(Value::Choice(0, Chosen::new(alloc, nothing)?))
        }
    }
}

fn first_label(labels: &[Label]) -> u16
    ensures { result ≡ written.first_label labels.now }
{
    match labels.first() {
        Some(label) => label.number,
        None => 0,
    }
}

// So many copies of a value.
fn copies(alloc: Global, count: u16, value: Value) -> Result<Values, NoMemory>
    ensures { IfOk result (λ values. values ≡ replicate count (tree_of value)) }
{
    let mut values = Values::new(alloc);
    for _copy in 0..count {
        values.push(value.copy()?)?;
    }
    Ok(values)
}
