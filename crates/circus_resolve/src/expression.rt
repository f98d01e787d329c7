// Expressions and places resolved: their faults, what they give, and what they mean.
ghost use Rattle.std.specs.Prelude.{◌≡◌, ◌++◌, option_map, IfOk, OnOk};
ghost use Rattle.circus_checked.specs.ExpressionOf as checked;
ghost use Rattle.circus_expression.specs.ExpressionOf.{tree_of, suffix_of, place_of};
ghost use Rattle.circus_expression.specs.ExpressionTree.{expression_trees, suffix_trees};
ghost use Rattle.circus_expression.specs.ExpressionTree as e;
ghost use Rattle.circus_resolve.specs.Faults as faults;
ghost use Rattle.circus_resolve.specs.Meaning as meaning;
ghost use Rattle.circus_resolve.specs.Seen.Found.{with_faults};
ghost use Rattle.circus_resolve.specs.Seen.Scoped.{sort_as, shape_as, scope_as};
ghost use Rattle.circus_resolve.specs.Seen.Steps.{step_faults, step_shape, step_meant};
ghost use Rattle.circus_resolve.specs.Seen.Wanted.{slots_as};

use crate::parts::{first_of, label_of};
use crate::slots::{Slots, form_of};
use crate::sort::kind_of;
use crate::{CheckCause, Findings, Scope, Sort};
use circus_checked::{
    Calculation, CheckedExpression, CheckedExpressions, CheckedOperand, CheckedPlace,
    CheckedSuffix, CheckedSuffixes, Order,
};
use circus_expression::{
    Expression, ExpressionKind, Expressions, Operand, Operator, PlaceText, Suffix, Suffixes,
};
use circus_syntax::{Named, TypeName};
use circus_value::{Duplicate, NoMemory, Shape, Text};
use std::alloc::Global;

/// An expression that is resolved: what it means, and what it gives where that is known.
#[derive(Drop)]
pub struct Resolved<'s> {
    pub tree: CheckedExpression,
    pub sort: Option<Sort<'s>>,
}

/// A place that is resolved: what it means, and the shape of what it holds where that is known.
#[derive(Drop)]
pub struct ResolvedPlace<'s> {
    pub place: CheckedPlace,
    pub shape: Option<&'s Shape>,
}

/// Resolves an expression, and finds its faults.
#[cycle(resolving)]
pub fn resolve<'s>(
    alloc: Global,
    scope: &Scope<'s, '_, '_>,
    found: &mut Findings,
    expression: &Expression,
) -> Result<Resolved<'s>, NoMemory>
    ensures found { OnOk result
        (found.new ≡ with_faults found.old
        (faults.expression_faults (scope_as scope.now) (tree_of expression.now))) }
    ensures sort { IfOk result (λ r.
        option_map sort_as r.sort ≡ faults.sort (scope_as scope.now) (tree_of expression.now)) }
    ensures meant { IfOk result (λ r.
        checked.tree_of r.tree ≡ meaning.meant (scope_as scope.now) (tree_of expression.now)) }
{
    match &expression.kind {
        ExpressionKind::Binary(operator, left, right) => {
            binary(alloc, scope, found, *operator, left, right)
        }
        ExpressionKind::Not(operand) => resolve_not(alloc, scope, found, operand),
        ExpressionKind::Minus(operand) => resolve_minus(alloc, scope, found, operand),
        ExpressionKind::Is(operand, name) => standing_at(alloc, scope, found, operand, name),
        ExpressionKind::Number(value) => Ok(Resolved {
            tree: CheckedExpression::Number(*value),
            sort: Some(Sort::Number),
        }),
        ExpressionKind::Text(bytes) => Ok(Resolved {
            tree: CheckedExpression::Text(Text::of(alloc, bytes.copy()?)?),
            sort: Some(Sort::Text),
        }),
        ExpressionKind::Truth(truth) => Ok(Resolved {
            tree: CheckedExpression::Truth(*truth),
            sort: Some(Sort::Truth),
        }),
        ExpressionKind::Length(operand) => length(alloc, scope, found, operand),
        ExpressionKind::Arm(of, name, None) => label(alloc, scope, found, of, name),
        ExpressionKind::Arm(of, name, Some(operand)) => {
            arm(alloc, scope, found, of, name, operand)
        }
        ExpressionKind::Items(of, items) => items_of(alloc, scope, found, of, items),
        ExpressionKind::Read(place) => read(alloc, scope, found, place),
    }
}

// Two operands with an operator between them.
#[cycle(resolving)]
#[tactic(auto, using(crate::proofs::Finding::found_then))]
fn binary<'s>(
    alloc: Global,
    scope: &Scope<'s, '_, '_>,
    found: &mut Findings,
    operator: Operator,
    left: &Operand,
    right: &Operand,
) -> Result<Resolved<'s>, NoMemory>
    ensures found { OnOk result
        (found.new ≡ with_faults found.old
        (faults.kind_faults (scope_as scope.now) (e.binary operator left.now right.now))) }
    ensures sort { IfOk result (λ r.
        option_map sort_as r.sort
        ≡ faults.kind_sort (scope_as scope.now) (e.binary operator left.now right.now)) }
    ensures meant { IfOk result (λ r.
        checked.tree_of r.tree
        ≡ meaning.kind_meant (scope_as scope.now) (e.binary operator left.now right.now)) }
{
    let one = resolve(alloc, scope, found, left.expression())?;
    let two = resolve(alloc, scope, found, right.expression())?;
    found.want_operands(
        operator,
        one.sort,
        left.expression().at,
        two.sort,
        right.expression().at,
    );
    Ok(Resolved {
        tree: join_operands(alloc, operator, one.tree, two.tree)?,
        sort: Some(given_by(operator)),
    })
}

// What an operator gives.
fn given_by(operator: Operator) -> Sort<'static>
    ensures { sort_as result ≡ faults.given_by operator }
{
    match operator {
        Operator::Plus | Operator::Minus | Operator::Times | Operator::Div | Operator::Mod => {
            Sort::Number
        }
        Operator::Join => Sort::Text,
        _ => Sort::Truth,
    }
}

// What an operator means between two operands.
fn join_operands(
    alloc: Global,
    operator: Operator,
    left: CheckedExpression,
    right: CheckedExpression,
) -> Result<CheckedExpression, NoMemory>
    ensures { IfOk result (λ t.
        checked.tree_of t
        ≡ meaning.join_operands operator (checked.tree_of left) (checked.tree_of right)) }
{
    use CheckedExpression::*;
    let one = CheckedOperand::new(alloc, left)?;
    let two = CheckedOperand::new(alloc, right)?;
    Ok(match operator {
        Operator::Or => Or(one, two),
        Operator::And => And(one, two),
        Operator::Equal => Equal(one, two),
        Operator::Unequal => Not(CheckedOperand::new(alloc, Equal(one, two))?),
        Operator::Less => Compare(Order::Less, one, two),
        Operator::AtMost => Compare(Order::AtMost, one, two),
        Operator::Greater => Compare(Order::Greater, one, two),
        Operator::AtLeast => Compare(Order::AtLeast, one, two),
        Operator::Plus => Calculate(Calculation::Plus, one, two),
        Operator::Minus => Calculate(Calculation::Minus, one, two),
        Operator::Times => Calculate(Calculation::Times, one, two),
        Operator::Div => Calculate(Calculation::Div, one, two),
        Operator::Mod => Calculate(Calculation::Mod, one, two),
        Operator::Join => Join(one, two),
    })
}

#[cycle(resolving)]
#[tactic(auto, using(crate::proofs::Finding::found_then))]
fn resolve_not<'s>(
    alloc: Global,
    scope: &Scope<'s, '_, '_>,
    found: &mut Findings,
    operand: &Operand,
) -> Result<Resolved<'s>, NoMemory>
    ensures found { OnOk result
        (found.new ≡ with_faults found.old
        (faults.kind_faults (scope_as scope.now) (e.negation operand.now))) }
    ensures sort { IfOk result (λ r.
        option_map sort_as r.sort
        ≡ faults.kind_sort (scope_as scope.now) (e.negation operand.now)) }
    ensures meant { IfOk result (λ r.
        checked.tree_of r.tree ≡ meaning.kind_meant (scope_as scope.now) (e.negation operand.now)) }
{
    let one = resolve(alloc, scope, found, operand.expression())?;
    found.want_truth(one.sort, operand.expression().at);
    Ok(Resolved {
        tree: CheckedExpression::Not(CheckedOperand::new(alloc, one.tree)?),
        sort: Some(Sort::Truth),
    })
}

#[cycle(resolving)]
#[tactic(auto, using(crate::proofs::Finding::found_then))]
fn resolve_minus<'s>(
    alloc: Global,
    scope: &Scope<'s, '_, '_>,
    found: &mut Findings,
    operand: &Operand,
) -> Result<Resolved<'s>, NoMemory>
    ensures found { OnOk result
        (found.new ≡ with_faults found.old
        (faults.kind_faults (scope_as scope.now) (e.minus operand.now))) }
    ensures sort { IfOk result (λ r.
        option_map sort_as r.sort ≡ faults.kind_sort (scope_as scope.now) (e.minus operand.now)) }
    ensures meant { IfOk result (λ r.
        checked.tree_of r.tree ≡ meaning.kind_meant (scope_as scope.now) (e.minus operand.now)) }
{
    let one = resolve(alloc, scope, found, operand.expression())?;
    found.want_number(one.sort, operand.expression().at);
    Ok(Resolved {
        tree: CheckedExpression::Minus(CheckedOperand::new(alloc, one.tree)?),
        sort: Some(Sort::Number),
    })
}

#[cycle(resolving)]
#[tactic(auto, using(crate::proofs::Finding::found_then))]
fn length<'s>(
    alloc: Global,
    scope: &Scope<'s, '_, '_>,
    found: &mut Findings,
    operand: &Operand,
) -> Result<Resolved<'s>, NoMemory>
    ensures found { OnOk result
        (found.new ≡ with_faults found.old
        (faults.kind_faults (scope_as scope.now) (e.length_of operand.now))) }
    ensures sort { IfOk result (λ r.
        option_map sort_as r.sort
        ≡ faults.kind_sort (scope_as scope.now) (e.length_of operand.now)) }
    ensures meant { IfOk result (λ r.
        checked.tree_of r.tree
        ≡ meaning.kind_meant (scope_as scope.now) (e.length_of operand.now)) }
{
    let one = resolve(alloc, scope, found, operand.expression())?;
    found.want_length(one.sort, operand.expression().at);
    Ok(Resolved {
        tree: CheckedExpression::Length(CheckedOperand::new(alloc, one.tree)?),
        sort: Some(Sort::Number),
    })
}

// Whether a choice stands at the arm of this name.
#[cycle(resolving)]
#[tactic(auto, using(crate::proofs::Finding::found_then))]
fn standing_at<'s>(
    alloc: Global,
    scope: &Scope<'s, '_, '_>,
    found: &mut Findings,
    operand: &Operand,
    name: &Named,
) -> Result<Resolved<'s>, NoMemory>
    ensures found { OnOk result
        (found.new ≡ with_faults found.old
        (faults.kind_faults (scope_as scope.now) (e.is_arm operand.now name.now))) }
    ensures sort { IfOk result (λ r.
        option_map sort_as r.sort
        ≡ faults.kind_sort (scope_as scope.now) (e.is_arm operand.now name.now)) }
    ensures meant { IfOk result (λ r.
        checked.tree_of r.tree
        ≡ meaning.kind_meant (scope_as scope.now) (e.is_arm operand.now name.now)) }
{
    let one = resolve(alloc, scope, found, operand.expression())?;
    let number = found.arm(one.sort, operand.expression().at, name);
    Ok(Resolved {
        tree: CheckedExpression::Is(number, CheckedOperand::new(alloc, one.tree)?),
        sort: Some(Sort::Truth),
    })
}

// A label of an enumeration, or an arm of a choice that has no fields.
#[tactic(auto, using(crate::proofs::Finding::found_then))]
fn label<'s>(
    alloc: Global,
    scope: &Scope<'s, '_, '_>,
    found: &mut Findings,
    of: &TypeName,
    name: &Named,
) -> Result<Resolved<'s>, NoMemory>
    ensures found { OnOk result
        (found.new ≡ with_faults found.old
        (faults.kind_faults (scope_as scope.now) (e.label of.now name.now))) }
    ensures sort { IfOk result (λ r.
        option_map sort_as r.sort
        ≡ faults.kind_sort (scope_as scope.now) (e.label of.now name.now)) }
    ensures meant { IfOk result (λ r.
        checked.tree_of r.tree
        ≡ meaning.kind_meant (scope_as scope.now) (e.label of.now name.now)) }
{
    let shape = found.named_type(scope, of);
    Ok(Resolved {
        tree: label_of(alloc, found, shape, first_of(of), name)?,
        sort: Sort::of_known(shape),
    })
}

// An arm of a choice with its value.
#[cycle(resolving)]
#[tactic(auto, using(crate::proofs::Finding::found_then))]
fn arm<'s>(
    alloc: Global,
    scope: &Scope<'s, '_, '_>,
    found: &mut Findings,
    of: &TypeName,
    name: &Named,
    operand: &Operand,
) -> Result<Resolved<'s>, NoMemory>
    ensures found { OnOk result
        (found.new ≡ with_faults found.old
        (faults.kind_faults (scope_as scope.now) (e.arm of.now name.now operand.now))) }
    ensures sort { IfOk result (λ r.
        option_map sort_as r.sort
        ≡ faults.kind_sort (scope_as scope.now) (e.arm of.now name.now operand.now)) }
    ensures meant { IfOk result (λ r.
        checked.tree_of r.tree
        ≡ meaning.kind_meant (scope_as scope.now) (e.arm of.now name.now operand.now)) }
{
    let shape = found.named_type(scope, of);
    let value = resolve(alloc, scope, found, operand.expression())?;
    let arm = found.arm_filled(
        shape,
        first_of(of),
        name,
        value.sort,
        operand.expression().at,
    );
    let (number, into) = match arm {
        Some(arm) => (arm.number, Some(arm.shape)),
        None => (0, None),
    };
    let value = CheckedOperand::new(alloc, convert_to(alloc, into, value.tree)?)?;
    Ok(Resolved {
        tree: CheckedExpression::Arm(number, value),
        sort: Sort::of_known(shape),
    })
}

// A value as it is stored where the shape is, where that is known.
fn convert_to(
    alloc: Global,
    shape: Option<&Shape>,
    tree: CheckedExpression,
) -> Result<CheckedExpression, NoMemory>
    ensures { IfOk result (λ t.
        checked.tree_of t ≡ meaning.convert_to (shape_as shape.entry) (checked.tree_of tree)) }
{
    let Some(shape) = shape else {
        return Ok(tree);
    };
    match kind_of(shape) {
        Some(kind) => Ok(CheckedExpression::Convert(kind, CheckedOperand::new(alloc, tree)?)),
        None => Ok(tree),
    }
}

// The items of a type.
#[cycle(resolving)]
#[tactic(auto, using(crate::proofs::Finding::found_then))]
fn items_of<'s>(
    alloc: Global,
    scope: &Scope<'s, '_, '_>,
    found: &mut Findings,
    of: &TypeName,
    items: &Expressions,
) -> Result<Resolved<'s>, NoMemory>
    ensures found { OnOk result
        (found.new ≡ with_faults found.old
        (faults.kind_faults (scope_as scope.now) (e.items of.now (expression_trees items.now)))) }
    ensures sort { IfOk result (λ r.
        option_map sort_as r.sort
        ≡ faults.kind_sort (scope_as scope.now) (e.items of.now (expression_trees items.now))) }
    ensures meant { IfOk result (λ r.
        checked.tree_of r.tree
        ≡ meaning.kind_meant (scope_as scope.now) (e.items of.now (expression_trees items.now))) }
{
    let shape = found.named_type(scope, of);
    found.count(shape, first_of(of), items.len());
    let items = resolve_each(alloc, scope, found, Slots::of(shape), items)?;
    Ok(Resolved {
        tree: CheckedExpression::Items(form_of(shape), items),
        sort: Sort::of_known(shape),
    })
}

// One item where values of a shape stand, where that is known.
#[cycle(resolving)]
#[tactic(auto, using(crate::proofs::Finding::found_then))]
fn item_for<'s>(
    alloc: Global,
    scope: &Scope<'s, '_, '_>,
    found: &mut Findings,
    shape: Option<&Shape>,
    item: &Expression,
) -> Result<CheckedExpression, NoMemory>
    ensures found { OnOk result
        (found.new ≡ with_faults found.old
        (faults.expression_faults (scope_as scope.now) (tree_of item.now)
        ++ faults.wanted_for (shape_as shape.entry)
        (faults.sort (scope_as scope.now) (tree_of item.now)) item.now.at)) }
    ensures meant { IfOk result (λ t.
        checked.tree_of t
        ≡ meaning.convert_to (shape_as shape.entry)
        (meaning.meant (scope_as scope.now) (tree_of item.now))) }
{
    let one = resolve(alloc, scope, found, item)?;
    found.want_for(shape, one.sort, item.at);
    convert_to(alloc, shape, one.tree)
}

/// Resolves expressions in order, of each of which something is wanted, and finds their faults.
#[cycle(resolving)]
pub fn resolve_each<'s>(
    alloc: Global,
    scope: &Scope<'s, '_, '_>,
    found: &mut Findings,
    slots: Slots<'_>,
    items: &Expressions,
) -> Result<CheckedExpressions, NoMemory>
    ensures found { OnOk result
        (found.new ≡ with_faults found.old
        (faults.each_faults (scope_as scope.now) (slots_as slots.entry) 0
        (expression_trees items.now))) }
    ensures meant { IfOk result (λ trees.
        trees ≡ meaning.each_meant (scope_as scope.now) (slots_as slots.entry) 0
        (expression_trees items.now)) }
{
    let mut trees = CheckedExpressions::new(alloc);
    for (place, item) in items.as_slice().iter().enumerate() {
        trees.push(item_for(alloc, scope, found, slots.at(place), item)?)?;
    }
    Ok(trees)
}

// What reading a place gives.
#[cycle(resolving)]
fn read<'s>(
    alloc: Global,
    scope: &Scope<'s, '_, '_>,
    found: &mut Findings,
    place: &PlaceText,
) -> Result<Resolved<'s>, NoMemory>
    ensures found { OnOk result
        (found.new ≡ with_faults found.old
        (faults.kind_faults (scope_as scope.now)
        (e.read place.now.name (suffix_trees place.now.suffixes)))) }
    ensures sort { IfOk result (λ r.
        option_map sort_as r.sort
        ≡ faults.kind_sort (scope_as scope.now)
        (e.read place.now.name (suffix_trees place.now.suffixes))) }
    ensures meant { IfOk result (λ r.
        checked.tree_of r.tree
        ≡ meaning.kind_meant (scope_as scope.now)
        (e.read place.now.name (suffix_trees place.now.suffixes))) }
{
    let one = resolve_place(alloc, scope, found, place)?;
    Ok(Resolved {
        tree: CheckedExpression::Read(one.place),
        sort: Sort::of_known(one.shape),
    })
}

/// Resolves a place, and finds its faults.
#[cycle(resolving)]
pub fn resolve_place<'s>(
    alloc: Global,
    scope: &Scope<'s, '_, '_>,
    found: &mut Findings,
    place: &PlaceText,
) -> Result<ResolvedPlace<'s>, NoMemory>
    ensures found { OnOk result
        (found.new ≡ with_faults found.old
        (faults.place_faults (scope_as scope.now) (place_of place.now))) }
    ensures shape { IfOk result (λ r.
        shape_as r.shape ≡ faults.place_shape (scope_as scope.now) (place_of place.now)) }
    ensures meant { IfOk result (λ r.
        r.place ≡ meaning.place_meant (scope_as scope.now) (place_of place.now)) }
{
    // Whether a fault stands in this place is asked of the place alone.
    let earlier = found.any;
    found.any = false;
    let variable = scope.variable(place.name.name.as_slice());
    found.note(variable.is_none(), place.name.at, CheckCause::Unknown);
    let (number, shape) = match variable {
        Some(variable) => (variable.place, Some(variable.shape)),
        None => (0, None),
    };
    let led = suffixes_of(alloc, scope, found, place.name.at, shape, &place.suffixes)?;
    let shape = match found.any {
        true => None,
        false => led.shape,
    };
    found.any |= earlier;
    Ok(ResolvedPlace {
        place: CheckedPlace {
            variable: number,
            suffixes: led.suffixes,
        },
        shape,
    })
}

// Suffixes that are resolved: what they mean, and the shape of what they lead to where that is known.
#[derive(Drop)]
struct Led<'s> {
    suffixes: CheckedSuffixes,
    shape: Option<&'s Shape>,
}

// Suffixes behind what has a shape, where that is known, in a place that begins there.
#[cycle(resolving)]
fn suffixes_of<'s>(
    alloc: Global,
    scope: &Scope<'s, '_, '_>,
    found: &mut Findings,
    first: u32,
    shape: Option<&'s Shape>,
    suffixes: &Suffixes,
) -> Result<Led<'s>, NoMemory>
    ensures found { OnOk result
        (found.new ≡ with_faults found.old
        (faults.suffix_faults (scope_as scope.now) first (shape_as shape.entry)
        (suffix_trees suffixes.now))) }
    ensures shape { IfOk result (λ r.
        shape_as r.shape ≡ faults.shape_led_to (shape_as shape.entry) (suffix_trees suffixes.now)) }
    ensures meant { IfOk result (λ r.
        r.suffixes ≡ meaning.suffixes_meant (scope_as scope.now) (shape_as shape.entry)
        (suffix_trees suffixes.now)) }
{
    let mut led = Led {
        suffixes: CheckedSuffixes::new(alloc),
        shape,
    };
    for suffix in suffixes.as_slice() {
        let (step, shape) = step(alloc, scope, found, first, led.shape, suffix)?;
        led.suffixes.push(step)?;
        led.shape = shape;
    }
    Ok(led)
}

// The step of a suffix behind what has a shape, where that is known, in a place that begins there, and the shape that it
// leads to.
#[cycle(resolving)]
#[tactic(auto, using(crate::proofs::Finding::found_then))]
fn step<'s>(
    alloc: Global,
    scope: &Scope<'s, '_, '_>,
    found: &mut Findings,
    first: u32,
    shape: Option<&'s Shape>,
    suffix: &Suffix,
) -> Result<(CheckedSuffix, Option<&'s Shape>), NoMemory>
    ensures found { OnOk result
        (found.new ≡ with_faults found.old
        (step_faults (scope_as scope.now) first (shape_as shape.entry) (suffix_of suffix.now))) }
    ensures shape { IfOk result (λ r.
        shape_as r.1 ≡ step_shape (shape_as shape.entry) (suffix_of suffix.now)) }
    ensures meant { IfOk result (λ r.
        checked.suffix_of r.0
        ≡ step_meant (scope_as scope.now) (shape_as shape.entry) (suffix_of suffix.now)) }
{
    match suffix {
        Suffix::Field(name) => Ok(found.field(first, shape, name)),
        Suffix::Subscript(subscript) => {
            let items = found.item(first, shape);
            let one = resolve(alloc, scope, found, subscript)?;
            found.want_number(one.sort, subscript.at);
            Ok((CheckedSuffix::Subscript(one.tree), items))
        }
    }
}
