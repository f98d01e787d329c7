// What an expression gives.
ghost use Rattle.std.specs.Prelude.{◌≡◌, option_map};
ghost use Rattle.circus_value.specs.ShapeOf.{tree_of};
ghost use Rattle.circus_checked.specs.declared.kinds.NumberKind.{NumberKind};
ghost use Rattle.circus_checked.specs.Sorts as sorts;
ghost use Rattle.circus_resolve.specs.Passing as passing;
ghost use Rattle.circus_resolve.specs.Seen.Scoped.{sort_as, shape_as};

use crate::same::is_same;
use circus_checked::NumberKind;
use circus_value::Shape;

/// What an expression gives: a number, which has no kind until it is stored, a truth value, a text, or a value of
/// another shape.
#[derive(Clone, Copy)]
pub enum Sort<'s> {
    Number,
    Truth,
    Text,
    Of(&'s Shape),
}

/// The kind of the numbers of a shape.
pub fn kind_of(shape: &Shape) -> Option<NumberKind>
    ensures { result ≡ sorts.kind_of (tree_of shape.now) }
{
    match shape {
        Shape::Cardinal => Some(NumberKind::Cardinal),
        Shape::LongCardinal => Some(NumberKind::LongCardinal),
        Shape::Integer => Some(NumberKind::Integer),
        Shape::LongInteger => Some(NumberKind::LongInteger),
        _ => None,
    }
}

impl<'s> Sort<'s> {
    /// What reading a value of the shape gives.
    pub fn of(shape: &'s Shape) -> Self
        ensures { sort_as result ≡ sorts.sort_of (tree_of shape.now) }
    {
        match shape {
            Shape::Cardinal | Shape::LongCardinal | Shape::Integer | Shape::LongInteger => {
                Sort::Number
            }
            Shape::Boolean => Sort::Truth,
            Shape::Text => Sort::Text,
            _ => Sort::Of(shape),
        }
    }

    /// What reading a value gives whose shape may be unknown.
    pub fn of_known(shape: Option<&'s Shape>) -> Option<Self>
        ensures { option_map sort_as result ≡ option_map sorts.sort_of (shape_as shape.entry) }
    {
        match shape {
            Some(shape) => Some(Sort::of(shape)),
            None => None,
        }
    }

    /// Whether it is that of numbers.
    pub fn is_number(self) -> bool
        ensures { result ≡ passing.is_number (sort_as self.entry) }
    {
        match self {
            Sort::Number => true,
            Sort::Of(shape) => kind_of(shape).is_some(),
            _ => false,
        }
    }

    /// Whether it is that of truth values.
    pub fn is_truth(self) -> bool
        ensures { result ≡ passing.is_truth (sort_as self.entry) }
    {
        match self {
            Sort::Truth => true,
            Sort::Of(shape) => matches!(shape, Shape::Boolean),
            _ => false,
        }
    }

    /// Whether it is that of strings.
    pub fn is_text(self) -> bool
        ensures { result ≡ passing.is_text (sort_as self.entry) }
    {
        match self {
            Sort::Text => true,
            Sort::Of(shape) => matches!(shape, Shape::Text),
            _ => false,
        }
    }

    /// Whether it is a text or a sequence.
    pub fn has_length(self) -> bool
        ensures { result ≡ passing.has_length (sort_as self.entry) }
    {
        match self {
            Sort::Text => true,
            Sort::Of(shape) => matches!(shape, Shape::Text | Shape::Sequence(_, _)),
            _ => false,
        }
    }

    /// Whether both are numbers, or of one shape.
    pub fn is_like(self, other: Sort<'_>) -> bool
        ensures { result ≡ passing.sort_eq (sort_as self.entry) (sort_as other.entry) }
    {
        match (self, other) {
            (Sort::Number, _) => other.is_number(),
            (Sort::Truth, _) => other.is_truth(),
            (Sort::Text, _) => other.is_text(),
            (_, Sort::Number) => self.is_number(),
            (_, Sort::Truth) => self.is_truth(),
            (_, Sort::Text) => self.is_text(),
            (Sort::Of(one), Sort::Of(two)) => {
                is_same(one, two) || self.is_number() && other.is_number()
            }
        }
    }

    /// Whether a value of this sort may be stored where the shape is.
    pub fn goes_into(self, shape: &Shape) -> bool
        ensures { result ≡ passing.goes_into (tree_of shape.now) (sort_as self.entry) }
    {
        Sort::of(shape).is_like(self)
    }
}
