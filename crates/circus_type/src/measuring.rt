// How large a type is when it is written out, with numbers that stop above their limits.
ghost use Rattle.std.specs.Prelude.{◌≡◌, map};
ghost use Rattle.circus_value.specs.ShapeOf as shapes;
ghost use Rattle.circus_value.specs.ShapeTree as shape;
ghost use Rattle.circus_syntax.specs.TypeOf.{tree_of, group_of, arm_of};
ghost use Rattle.circus_syntax.specs.TypeTree.{group_trees, arm_trees};
ghost use Rattle.circus_type.specs.Seen.Measured as size;

use crate::TypeNames;
use crate::limits::{MOST_PARTS, MOST_ZERO_BYTES};
use circus_syntax::{ArmText, GroupText, MOST_LEVELS, TypeKind, TypeText};
use circus_value::{Arm, Field, Shape};

/// The size of a type, each number up to one above its limit.
#[derive(Clone, Copy, Debug, PartialEq, Eq)]
pub struct Measure {
    /// Its types, fields, labels and arms.
    pub parts: u32,
    /// Its levels.
    pub levels: u32,
    /// The bytes of its zero value in external form.
    pub zeros: u32,
}

impl Measure {
    /// These numbers, each up to one above its limit.
    pub fn new(parts: u64, levels: u64, zeros: u64) -> Self
        ensures { result ≡ size.measure parts levels zeros }
    {
        Measure {
            parts: parts.min(u64::from(MOST_PARTS + 1)) as u32,
            levels: levels.min(u64::from(MOST_LEVELS + 1)) as u32,
            zeros: zeros.min(u64::from(MOST_ZERO_BYTES + 1)) as u32,
        }
    }

    fn parts(self) -> u64
        ensures { result ≡ self.parts }
    {
        u64::from(self.parts)
    }

    fn levels(self) -> u64
        ensures { result ≡ self.levels }
    {
        u64::from(self.levels)
    }

    fn zeros(self) -> u64
        ensures { result ≡ self.zeros }
    {
        u64::from(self.zeros)
    }

    // So many items.
    fn items(self, len: u64) -> Self
        ensures { result ≡ size.items_measure len self }
    {
        Measure::new(
            1 + self.parts(),
            1 + self.levels(),
            len.saturating_mul(self.zeros()),
        )
    }

    fn sequence(self) -> Self
        ensures { result ≡ size.sequence_measure self }
    {
        Measure::new(1 + self.parts(), 1 + self.levels(), 2)
    }

    // So many fields before others.
    fn fields(self, count: usize, others: Measure) -> Self
        ensures { result ≡ size.group_measure count self others }
    {
        let count = count as u64;
        let parts = count.saturating_mul(1 + self.parts());
        let zeros = count.saturating_mul(self.zeros());
        let levels = match count {
            0 => others.levels(),
            _ => self.levels().max(others.levels()),
        };
        Measure::new(
            parts.saturating_add(others.parts()),
            levels,
            zeros.saturating_add(others.zeros()),
        )
    }

    fn arm(self, others: Measure) -> Self
        ensures { result ≡ size.arm_measure self others }
    {
        let levels = self.levels().max(others.levels());
        Measure::new(1 + self.parts() + others.parts(), levels, self.zeros())
    }

    fn of_record(self) -> Self
        ensures { result ≡ size.record_measure self }
    {
        Measure::new(1 + self.parts(), 1 + self.levels(), self.zeros())
    }

    fn of_choice(self) -> Self
        ensures { result ≡ size.choice_measure self }
    {
        Measure::new(1 + self.parts(), 1 + self.levels(), 2 + self.zeros())
    }
}

/// The size of a type.
#[cycle(measured)]
pub fn measure_of_type<N: TypeNames>(names: &N, shape: &TypeText) -> Measure
    ensures { result ≡ size.measure_of_type (N.sizes names.now) (tree_of shape.now) }
{
    match &shape.kind {
        TypeKind::LongCardinal | TypeKind::LongInteger => Measure::new(1, 0, 4),
        TypeKind::Enumeration(labels) => Measure::new(
            (labels.len() as u64).saturating_add(1),
            0,
            2,
        ),
        TypeKind::Array(len, element) => measure_of_type(names, element.shape()).items(len.value),
        TypeKind::Sequence(_, element) => measure_of_type(names, element.shape()).sequence(),
        TypeKind::Record(groups) => measured_groups(names, groups.as_slice()).of_record(),
        TypeKind::Choice(arms) => measured_arms(names, arms.as_slice()).of_choice(),
        TypeKind::Called(name) => names.measure(name),
        _ => Measure::new(1, 0, 2),
    }
}

/// The size of fields together.
#[cycle(measured)]
pub fn measured_groups<N: TypeNames>(names: &N, groups: &[GroupText]) -> Measure
    ensures { result
        ≡ size.measured_groups (N.sizes names.now) (group_trees (map group_of groups.now)) }
{
    let mut size = Measure::new(0, 0, 0);
    let mut place = groups.len();
    while place > 0 {
        place -= 1;
        let group = &groups[place];
        size = measure_of_type(names, &group.shape).fields(group.names.len(), size);
    }
    size
}

#[cycle(measured)]
fn measured_arms<N: TypeNames>(names: &N, arms: &[ArmText]) -> Measure
    ensures { result ≡ size.measured_arms (N.sizes names.now) (arm_trees (map arm_of arms.now)) }
{
    let mut size = Measure::new(0, 0, 0);
    let mut place = arms.len();
    while place > 0 {
        place -= 1;
        let arm = &arms[place];
        size = measure_of_type(names, &arm.shape).arm(size);
    }
    size
}

/// The size of a shape.
#[cycle(shaped)]
#[tactic(auto, using(crate::proofs::Sizes::items_are, crate::proofs::Sizes::sequence_is, crate::proofs::Sizes::record_is, crate::proofs::Sizes::choice_is))]
pub fn shape_measure(shape: &Shape) -> Measure
    ensures { result ≡ size.measure_of (shapes.tree_of shape.now) }
{
    match shape {
        Shape::LongCardinal | Shape::LongInteger => Measure::new(1, 0, 4),
        Shape::Enumeration(labels) => Measure::new((labels.len() as u64).saturating_add(1), 0, 2),
        Shape::Array(len, element) => shape_measure(element.shape()).items(u64::from(*len)),
        Shape::Sequence(_, element) => shape_measure(element.shape()).sequence(),
        Shape::Record(fields) => fields_measure(fields.as_slice()).of_record(),
        Shape::Choice(arms) => arms_measure(arms.as_slice()).of_choice(),
        _ => Measure::new(1, 0, 2),
    }
}

// The size of fields together.
#[cycle(shaped)]
#[tactic(auto, using(crate::proofs::Sizes::field_is))]
fn fields_measure(fields: &[Field]) -> Measure
    ensures { result ≡ size.fields_measure (shape.field_trees (map shapes.field_of fields.now)) }
{
    let mut size = Measure::new(0, 0, 0);
    let mut place = fields.len();
    while place > 0 {
        place -= 1;
        size = shape_measure(&fields[place].shape).fields(1, size);
    }
    size
}

// The size of arms.
#[cycle(shaped)]
#[tactic(auto, using(crate::proofs::Sizes::arm_is))]
fn arms_measure(arms: &[Arm]) -> Measure
    ensures { result ≡ size.arms_measure (shape.arm_trees (map shapes.arm_of arms.now)) }
{
    let mut size = Measure::new(0, 0, 0);
    let mut place = arms.len();
    while place > 0 {
        place -= 1;
        size = shape_measure(&arms[place].shape).arm(size);
    }
    size
}
