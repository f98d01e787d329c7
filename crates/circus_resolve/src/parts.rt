// Names of types, labels, arms and fields, with their faults.
ghost use Rattle.std.specs.Prelude.{◌≡◌, option_map, is_none, unwrap_or, IfOk, OnOk};
ghost use Rattle.circus_value.specs.ShapeTree.{arm_trees};
ghost use Rattle.circus_fault.specs.Least.{faults_if};
ghost use Rattle.circus_checked.specs.ExpressionTree.{label, arm, items, no_expressions};
ghost use Rattle.circus_checked.specs.declared.kinds.Form.TheVariants.{Record};
ghost use Rattle.circus_checked.specs.ExpressionOf as checked;
ghost use Rattle.circus_resolve.specs.declared.cause.CheckCause.TheVariants.{Unknown};
ghost use Rattle.circus_resolve.specs.Faults as faults;
ghost use Rattle.circus_resolve.specs.Named as named;
ghost use Rattle.circus_resolve.specs.Meaning as meaning;
ghost use Rattle.circus_resolve.specs.Seen.Found.{with_faults};
ghost use Rattle.circus_resolve.specs.Seen.Parts.{arm_as};
ghost use Rattle.circus_resolve.specs.Seen.Scoped.{sort_as, shape_as, scope_as};

use crate::named::{
    ArmFound, arm_named, element_of, field_count, field_named, is_bare, label_named,
};
use crate::{CheckCause, Findings, Scope, Sort, Standing};
use circus_checked::{CheckedExpression, CheckedExpressions, CheckedOperand, CheckedSuffix, Form};
use circus_syntax::{Named, TypeName};
use circus_value::{Arms, Labels, NoMemory, Shape};
use std::alloc::Global;

/// The first byte of a type's name.
pub fn first_of(of: &TypeName) -> u32
    ensures { result ≡ faults.place_of_type of.now }
{
    match &of.module {
        Some(module) => module.at,
        None => of.name.at,
    }
}

impl Findings {
    /// The shape that the name of a type stands for, where it stands for one.
    pub fn named_type<'s>(&mut self, scope: &Scope<'s, '_, '_>, of: &TypeName) -> Option<&'s Shape>
        ensures found { self.new
            ≡ with_faults self.old (faults.type_faults (scope_as scope.now) of.now) }
        ensures shape { shape_as result ≡ faults.type_shape (scope_as scope.now) of.now }
    {
        match scope.standing_of(of) {
            Standing::Type(shape) => Some(shape),
            Standing::NoModule => {
                self.note(true, first_of(of), CheckCause::Unknown);
                None
            }
            Standing::NoType => {
                self.note(true, of.name.at, CheckCause::Unknown);
                None
            }
            Standing::Unsaid => None,
        }
    }

    /// The number of an arm of what stands at the place, or 0 where it has none of this name.
    pub fn arm(&mut self, sort: Option<Sort<'_>>, at: u32, name: &Named) -> u16
        ensures found { self.new
            ≡ with_faults self.old (faults.arm_faults (option_map sort_as sort.entry) at name.now) }
        ensures number { result
            ≡ meaning.arm_number
            (meaning.arm_in (meaning.shape_in (option_map sort_as sort.entry)) name.now.name) }
    {
        let Some(sort) = sort else {
            return 0;
        };
        let Sort::Of(Shape::Choice(arms)) = sort else {
            self.note(true, at, CheckCause::Mistyped);
            return 0;
        };
        let arm = arm_named(arms, name.name.as_slice());
        self.note(arm.is_none(), name.at, CheckCause::Unknown);
        match arm {
            Some(arm) => arm.number,
            None => 0,
        }
    }

    /// As many items as the type at the place asks for, where its shape is known.
    pub fn count(&mut self, shape: Option<&Shape>, at: u32, count: usize)
        ensures { self.new
            ≡ with_faults self.old (faults.count_faults (shape_as shape.entry) at count) }
    {
        match shape {
            None => {}
            Some(Shape::Array(len, _)) => {
                self.note(count != usize::from(*len), at, CheckCause::Mistyped)
            }
            Some(Shape::Sequence(bound, _)) => {
                self.note(count > usize::from(*bound), at, CheckCause::Mistyped)
            }
            Some(Shape::Record(fields)) => {
                self.note(count != field_count(fields), at, CheckCause::Mistyped)
            }
            Some(_) => self.note(true, at, CheckCause::Mistyped),
        }
    }

    /// The arm of this name of a type at the place, where a value of this sort stands behind it.
    pub fn arm_filled<'s>(
        &mut self,
        shape: Option<&'s Shape>,
        at: u32,
        name: &Named,
        sort: Option<Sort<'_>>,
        value_at: u32,
    ) -> Option<ArmFound<'s>>
        ensures found { self.new
            ≡ with_faults self.old
            (faults.filled_faults (shape_as shape.entry) at name.now
            (option_map sort_as sort.entry) value_at) }
        ensures arm { option_map arm_as result
            ≡ meaning.arm_in (shape_as shape.entry) name.now.name }
    {
        match shape {
            None => None,
            Some(Shape::Enumeration(labels)) => {
                let label = label_named(labels, name.name.as_slice());
                match label {
                    Some(_) => self.note(true, at, CheckCause::Mistyped),
                    None => self.note(true, name.at, CheckCause::Unknown),
                }
                None
            }
            Some(Shape::Choice(arms)) => {
                let arm = arm_named(arms, name.name.as_slice());
                self.filled_arm(arm, at, name, sort, value_at);
                arm
            }
            Some(_) => {
                self.note(true, at, CheckCause::Mistyped);
                None
            }
        }
    }

    // An arm that was looked for, and the value behind it.
    fn filled_arm(
        &mut self,
        arm: Option<ArmFound<'_>>,
        at: u32,
        name: &Named,
        sort: Option<Sort<'_>>,
        value_at: u32,
    )
        ensures { self.new
            ≡ with_faults self.old
            (faults.filled_arm_faults (option_map arm_as arm.entry) at name.now
            (option_map sort_as sort.entry) value_at) }
    {
        match arm {
            None => self.note(true, name.at, CheckCause::Unknown),
            Some(arm) if is_bare(arm.shape) => self.note(true, at, CheckCause::Mistyped),
            Some(arm) => self.want_for(Some(arm.shape), sort, value_at),
        }
    }

    /// The step to a field or an arm in a place that begins there, and the shape that it leads to.
    pub fn field<'s>(
        &mut self,
        first: u32,
        shape: Option<&'s Shape>,
        name: &Named,
    ) -> (CheckedSuffix, Option<&'s Shape>)
        ensures found { self.new
            ≡ with_faults self.old (faults.field_faults first (shape_as shape.entry) name.now) }
        ensures step { checked.suffix_of result.0
            ≡ meaning.field_meant (shape_as shape.entry) name.now.name }
        ensures shape { shape_as result.1
            ≡ faults.field_shape (shape_as shape.entry) name.now.name }
    {
        match shape {
            None => (CheckedSuffix::Field(0), None),
            Some(Shape::Record(fields)) => {
                let field = field_named(fields, name.name.as_slice());
                self.note(field.is_none(), name.at, CheckCause::Unknown);
                match field {
                    Some(field) => (CheckedSuffix::Field(field.place), Some(field.shape)),
                    None => (CheckedSuffix::Field(0), None),
                }
            }
            Some(Shape::Choice(arms)) => {
                let arm = arm_named(arms, name.name.as_slice());
                self.note(arm.is_none(), name.at, CheckCause::Unknown);
                match arm {
                    Some(arm) => (CheckedSuffix::Arm(arm.number), Some(arm.shape)),
                    None => (CheckedSuffix::Arm(0), None),
                }
            }
            Some(_) => {
                self.note(true, first, CheckCause::Mistyped);
                (CheckedSuffix::Field(0), None)
            }
        }
    }

    /// The shape of the items of what a subscript stands behind, in a place that begins there.
    pub fn item<'s>(&mut self, first: u32, shape: Option<&'s Shape>) -> Option<&'s Shape>
        ensures found { self.new
            ≡ with_faults self.old (faults.item_faults first (shape_as shape.entry)) }
        ensures shape { shape_as result ≡ faults.element_for (shape_as shape.entry) }
    {
        let shape = shape?;
        let element = element_of(shape);
        self.note(element.is_none(), first, CheckCause::Mistyped);
        element
    }
}

/// What a label means, or an arm without a value, of a type at the place.
pub fn label_of(
    alloc: Global,
    found: &mut Findings,
    shape: Option<&Shape>,
    at: u32,
    name: &Named,
) -> Result<CheckedExpression, NoMemory>
    ensures found { OnOk result
        (found.new ≡ with_faults found.old
        (faults.label_faults (shape_as shape.entry) at name.now)) }
    ensures meant { IfOk result (λ t.
        checked.tree_of t ≡ meaning.label_meant (shape_as shape.entry) name.now.name) }
{
    match shape {
        None => Ok(CheckedExpression::Label(0)),
        Some(Shape::Enumeration(labels)) => Ok(enumerator(found, labels, name)),
        Some(Shape::Choice(arms)) => empty_arm(alloc, found, arms, at, name),
        Some(_) => {
            found.note(true, at, CheckCause::Mistyped);
            Ok(CheckedExpression::Label(0))
        }
    }
}

// A label of an enumeration.
fn enumerator(found: &mut Findings, labels: &Labels, name: &Named) -> CheckedExpression
    ensures found { found.new
        ≡ with_faults found.old
        (faults_if (is_none (named.label_named labels.now name.now.name)) name.now.at Unknown) }
    ensures meant { checked.tree_of result
        ≡ label (unwrap_or (named.label_named labels.now name.now.name) 0) }
{
    let number = label_named(labels, name.name.as_slice());
    found.note(number.is_none(), name.at, CheckCause::Unknown);
    CheckedExpression::Label(number.unwrap_or(0))
}

// An arm of a choice that has no fields.
fn empty_arm(
    alloc: Global,
    found: &mut Findings,
    arms: &Arms,
    at: u32,
    name: &Named,
) -> Result<CheckedExpression, NoMemory>
    ensures found { OnOk result
        (found.new ≡ with_faults found.old
        (faults.empty_arm_faults
        (named.arm_named (arm_trees arms.now) name.now.name) at name.now)) }
    ensures meant { IfOk result (λ t.
        checked.tree_of t
        ≡ arm (meaning.arm_number (named.arm_named (arm_trees arms.now) name.now.name))
        (items Record no_expressions)) }
{
    let number = match arm_named(arms, name.name.as_slice()) {
        Some(arm) => {
            found.note(!is_bare(arm.shape), at, CheckCause::Mistyped);
            arm.number
        }
        None => {
            found.note(true, name.at, CheckCause::Unknown);
            0
        }
    };
    let none = CheckedExpression::Items(Form::Record, CheckedExpressions::new(alloc));
    Ok(CheckedExpression::Arm(number, CheckedOperand::new(alloc, none)?))
}
