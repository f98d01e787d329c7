// What is wanted of items.
ghost use Rattle.std.specs.Prelude.{◌≡◌};
ghost use Rattle.circus_resolve.specs.Faults as faults;
ghost use Rattle.circus_resolve.specs.Meaning as meaning;
ghost use Rattle.circus_resolve.specs.Seen.Scoped.{shape_as};
ghost use Rattle.circus_resolve.specs.Seen.Wanted.{slots_as};

use circus_checked::Form;
use circus_value::{Fields, Shape};

/// What is wanted of items: all of one shape, where it is known, or one for each field.
#[derive(Clone, Copy)]
pub enum Slots<'s> {
    Alike(Option<&'s Shape>),
    ForFields(&'s Fields),
}

impl<'s> Slots<'s> {
    /// What a type of this shape wants of its items.
    pub fn of(shape: Option<&'s Shape>) -> Self
        ensures { slots_as result ≡ faults.slots_for (shape_as shape.entry) }
    {
        match shape {
            Some(Shape::Record(fields)) => Slots::ForFields(fields),
            Some(Shape::Array(_, element)) => Slots::Alike(Some(element.shape())),
            Some(Shape::Sequence(_, element)) => Slots::Alike(Some(element.shape())),
            _ => Slots::Alike(None),
        }
    }

    /// The shape that is wanted of the item at a place.
    pub fn at(self, place: usize) -> Option<&'s Shape>
        ensures { shape_as result ≡ faults.slot_at (slots_as self.entry) place }
    {
        match self {
            Slots::Alike(shape) => shape,
            Slots::ForFields(fields) => match fields.get(place) {
                Some(field) => Some(&field.shape),
                None => None,
            },
        }
    }
}

/// What is made of the items of a type of this shape.
pub fn form_of(shape: Option<&Shape>) -> Form
    ensures { result ≡ meaning.form_of (shape_as shape.entry) }
{
    match shape {
        Some(Shape::Array(_, _)) => Form::Array,
        Some(Shape::Sequence(_, _)) => Form::Sequence,
        _ => Form::Record,
    }
}
