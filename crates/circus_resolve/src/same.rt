// Which shapes are the same.
ghost use Rattle.std.specs.Prelude.{◌≡◌};
ghost use Rattle.circus_value.specs.ShapeOf.{tree_of};
ghost use Rattle.circus_value.specs.ShapeTree.{field_trees, arm_trees};
ghost use Rattle.circus_resolve.specs.Same.{labels_eq, shape_eq, fields_eq, arms_eq};

use circus_value::{Arms, Fields, Labels, Shape};

/// Whether two shapes are of one form with equal lengths, bounds, names and numbers.
#[cycle(same)]
pub fn is_same(one: &Shape, other: &Shape) -> bool
    ensures { result ≡ shape_eq (tree_of one.now) (tree_of other.now) }
{
    match (one, other) {
        (Shape::Boolean, Shape::Boolean) => true,
        (Shape::Cardinal, Shape::Cardinal) => true,
        (Shape::LongCardinal, Shape::LongCardinal) => true,
        (Shape::Integer, Shape::Integer) => true,
        (Shape::LongInteger, Shape::LongInteger) => true,
        (Shape::Text, Shape::Text) => true,
        (Shape::Enumeration(a), Shape::Enumeration(b)) => are_labels(a, b),
        (Shape::Array(m, a), Shape::Array(n, b)) => m == n && is_same(a.shape(), b.shape()),
        (Shape::Sequence(m, a), Shape::Sequence(n, b)) => m == n && is_same(a.shape(), b.shape()),
        (Shape::Record(a), Shape::Record(b)) => are_fields(a, b),
        (Shape::Choice(a), Shape::Choice(b)) => are_arms(a, b),
        _ => false,
    }
}

// Whether labels have equal names and numbers.
fn are_labels(some: &Labels, others: &Labels) -> bool
    ensures { result ≡ labels_eq some.now others.now }
{
    if let Some(like) = some.is_like(others) {
        return like;
    }
    if some.len() != others.len() {
        return false;
    }
    let against = others.as_slice();
    for (place, one) in some.as_slice().iter().enumerate() {
        let other = &against[place];
        if one.name != other.name || one.number != other.number {
            return false;
        }
    }
    true
}

#[cycle(same)]
fn are_fields(some: &Fields, others: &Fields) -> bool
    ensures { result ≡ fields_eq (field_trees some.now) (field_trees others.now) }
{
    if let Some(like) = some.is_like(others) {
        return like;
    }
    if some.len() != others.len() {
        return false;
    }
    let against = others.as_slice();
    for (place, one) in some.as_slice().iter().enumerate() {
        let other = &against[place];
        if one.name != other.name || !is_same(&one.shape, &other.shape) {
            return false;
        }
    }
    true
}

#[cycle(same)]
fn are_arms(some: &Arms, others: &Arms) -> bool
    ensures { result ≡ arms_eq (arm_trees some.now) (arm_trees others.now) }
{
    if let Some(like) = some.is_like(others) {
        return like;
    }
    if some.len() != others.len() {
        return false;
    }
    let against = others.as_slice();
    for (place, one) in some.as_slice().iter().enumerate() {
        let other = &against[place];
        if one.name != other.name
            || one.number != other.number
            || !is_same(&one.shape, &other.shape)
        {
            return false;
        }
    }
    true
}
