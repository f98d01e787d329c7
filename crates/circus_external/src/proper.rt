// Which shapes have values in all their parts.
ghost use Rattle.std.specs.Prelude.{◌≡◌, nat_lt};
ghost use Rattle.std.specs.List.{list_any};
ghost use Rattle.circus_value.specs.ShapeOf.{tree_of};
ghost use Rattle.circus_value.specs.ShapeTree.{field_trees, arm_trees};
ghost use Rattle.circus_external.specs.Refusal as refusal;

use circus_value::{Arm, Arms, Fields, Label, Shape};

/// Whether each enumeration of a shape has a label and each choice an arm, so that each of its parts admits
/// a value (docs/FORMATS.md, "External data"). It takes no memory.
#[cycle(proper)]
pub fn is_proper(shape: &Shape) -> bool
    ensures { result ≡ refusal.is_proper (tree_of shape.now) }
{
    match shape {
        Shape::Boolean
        | Shape::Cardinal
        | Shape::LongCardinal
        | Shape::Integer
        | Shape::LongInteger
        | Shape::Text => true,
        Shape::Enumeration(labels) => has_label(labels.as_slice()),
        Shape::Array(_, element) => is_proper(element.shape()),
        Shape::Sequence(bound, element) => {
            prove!(*bound <= 65_535);
            is_proper(element.shape())
        }
        Shape::Record(fields) => are_proper(fields),
        Shape::Choice(arms) => has_arm(arms.as_slice()) && arms_are_proper(arms),
    }
}

fn has_label(labels: &[Label]) -> bool
    ensures { result ≡ list_any (λ l. nat_lt l.number 65536) labels.now }
{
    labels.iter().any(|label| label.number <= 65_535)
}

fn has_arm(arms: &[Arm]) -> bool
    ensures { result ≡ list_any (λ a. nat_lt a.number 65536) arms.now }
{
    arms.iter().any(|arm| arm.number <= 65_535)
}

#[cycle(proper)]
fn are_proper(fields: &Fields) -> bool
    ensures { result ≡ refusal.are_proper (field_trees fields.now) }
{
    for field in fields.as_slice() {
        if !is_proper(&field.shape) {
            return false;
        }
    }
    true
}

#[cycle(proper)]
fn arms_are_proper(arms: &Arms) -> bool
    ensures { result ≡ refusal.arms_are_proper (arm_trees arms.now) }
{
    for arm in arms.as_slice() {
        if !is_proper(&arm.shape) {
            return false;
        }
    }
    true
}
