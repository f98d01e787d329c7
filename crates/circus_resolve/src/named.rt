// Parts of shapes by their names.
ghost use Rattle.std.specs.Prelude.{◌≡◌, option_map};
ghost use Rattle.circus_value.specs.ShapeOf.{tree_of};
ghost use Rattle.circus_value.specs.ShapeTree.{field_trees, arm_trees};
ghost use Rattle.circus_resolve.specs.Faults as faults;
ghost use Rattle.circus_resolve.specs.Named as named;
ghost use Rattle.circus_resolve.specs.Seen.Parts.{field_as, arm_as};
ghost use Rattle.circus_resolve.specs.Seen.Scoped.{shape_as};

use circus_value::{Arms, Fields, Labels, Shape};

/// A field by its place.
#[derive(Clone, Copy)]
pub struct FieldFound<'s> {
    pub place: usize,
    pub shape: &'s Shape,
}

/// An arm by its number.
#[derive(Clone, Copy)]
pub struct ArmFound<'s> {
    pub number: u16,
    pub shape: &'s Shape,
}

/// The number of the first label of this name.
pub fn label_named(labels: &Labels, name: &[u8]) -> Option<u16>
    ensures { result ≡ named.label_named labels.now name.now }
{
    let place = labels.find(name)?;
    let label = labels.get(place)?;
    Some(label.number)
}

/// The first field of this name.
pub fn field_named<'s>(fields: &'s Fields, name: &[u8]) -> Option<FieldFound<'s>>
    ensures { option_map field_as result ≡ named.field_named (field_trees fields.now) name.now }
{
    let place = fields.find(name)?;
    let field = fields.get(place)?;
    Some(FieldFound {
        place,
        shape: &field.shape,
    })
}

/// How many fields there are.
pub fn field_count(fields: &Fields) -> usize
    ensures { result ≡ faults.field_count (field_trees fields.now) }
{
    fields.len()
}

/// The first arm of this name.
pub fn arm_named<'s>(arms: &'s Arms, name: &[u8]) -> Option<ArmFound<'s>>
    ensures { option_map arm_as result ≡ named.arm_named (arm_trees arms.now) name.now }
{
    let place = arms.find(name)?;
    let arm = arms.get(place)?;
    Some(ArmFound {
        number: arm.number,
        shape: &arm.shape,
    })
}

/// Whether a shape is a record without fields.
pub fn is_bare(shape: &Shape) -> bool
    ensures { result ≡ named.is_bare (tree_of shape.now) }
{
    match shape {
        Shape::Record(fields) => fields.is_empty(),
        _ => false,
    }
}

/// The shape of the items of an array or a sequence.
pub fn element_of(shape: &Shape) -> Option<&Shape>
    ensures { shape_as result ≡ named.element_of (tree_of shape.now) }
{
    match shape {
        Shape::Array(_, element) => Some(element.shape()),
        Shape::Sequence(_, element) => Some(element.shape()),
        _ => None,
    }
}
