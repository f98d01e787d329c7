// Calls, errors and lists, with their faults.
ghost use Rattle.std.specs.Prelude.{◌≡◌, option_map, IfOk, OnOk};
ghost use Rattle.circus_expression.specs.ExpressionTree.{expression_trees};
ghost use Rattle.circus_resolve.specs.Meaning.{each_meant};
ghost use Rattle.circus_resolve.specs.Seen.Found.{with_faults};
ghost use Rattle.circus_resolve.specs.Seen.Scoped.{shape_as};
ghost use Rattle.circus_resolve.specs.Seen.Wanted.{slots_as};
ghost use Rattle.circus_body.specs.Faults as faults;
ghost use Rattle.circus_body.specs.Meaning as meaning;
ghost use Rattle.circus_body.specs.Seen.Named.{reported_as, known_offer, context_as};

use crate::{Context, Offered, Reported};
use circus_checked::CheckedExpressions;
use circus_expression::Expressions;
use circus_resolve::{CheckCause, Findings, Slots, field_count, resolve_each};
use circus_syntax::Named;
use circus_value::{NoMemory, Shape};
use std::alloc::Global;

/// The number of the module that is called, and its procedure where that is known.
pub fn called_procedure<'m, 't>(
    found: &mut Findings,
    context: &Context<'_, '_, 'm, 't>,
    module: &Named,
    procedure: &Named,
) -> (u16, Option<&'m Offered<'t>>)
    ensures found { found.new
        ≡ with_faults found.old
        (faults.called_faults
        ((context_as context.now).called module.now.name) module.now procedure.now) }
    ensures number { result.0
        ≡ meaning.module_number ((context_as context.now).called module.now.name) }
    ensures offered { known_offer result.1
        ≡ faults.offered_by ((context_as context.now).called module.now.name) procedure.now.name }
{
    let Some(callee) = context.imported.get(module.name.as_slice()).copied() else {
        found.note(true, module.at, CheckCause::Unknown);
        return (0, None);
    };
    let Some(procedures) = callee.procedures else {
        return (0, None);
    };
    let offered = procedures.get(procedure.name.as_slice());
    found.note(offered.is_none(), procedure.at, CheckCause::Unknown);
    (callee.number, offered)
}

/// What a procedure that is called takes, where it is known.
pub fn arguments_of<'c>(offered: Option<&Offered<'c>>) -> Slots<'c>
    ensures { slots_as result ≡ faults.arguments_of (known_offer offered.entry) }
{
    match offered {
        Some(offered) => Slots::ForFields(offered.arguments),
        None => Slots::Alike(None),
    }
}

/// What it gives.
pub fn results_of<'c>(offered: Option<&Offered<'c>>) -> Slots<'c>
    ensures { slots_as result ≡ faults.results_of (known_offer offered.entry) }
{
    match offered {
        Some(offered) => Slots::ForFields(offered.results),
        None => Slots::Alike(None),
    }
}

/// The error of this name that a procedure reports, where the procedure is known.
pub fn error_of<'c>(
    found: &mut Findings,
    offered: Option<&Offered<'c>>,
    name: &Named,
) -> Option<Reported<'c>>
    ensures found { found.new
        ≡ with_faults found.old (faults.error_faults (known_offer offered.entry) name.now) }
    ensures error { option_map reported_as result
        ≡ faults.reported_by (known_offer offered.entry) name.now }
{
    let error = offered?.error_named(name.name.as_slice());
    found.note(error.is_none(), name.at, CheckCause::Unknown);
    error
}

/// The values of an error, where it is known.
pub fn values_of<'c>(error: Option<Reported<'c>>) -> Slots<'c>
    ensures { slots_as result ≡ faults.values_of (option_map reported_as error.entry) }
{
    match error {
        Some(error) => Slots::ForFields(error.values),
        None => Slots::Alike(None),
    }
}

/// The number of an error, or 0 where it isn't known.
pub fn number_of(error: Option<Reported<'_>>) -> u16
    ensures { result ≡ meaning.error_number (option_map reported_as error.entry) }
{
    match error {
        Some(error) => error.number,
        None => 0,
    }
}

/// So many items where so many are wanted.
pub fn want_number(found: &mut Findings, slots: Slots<'_>, count: usize, at: u32)
    ensures { found.new
        ≡ with_faults found.old (faults.number_faults (slots_as slots.entry) count at) }
{
    if let Slots::ForFields(fields) = slots {
        found.note(count != field_count(fields), at, CheckCause::Mistyped);
    }
}

/// APPEND takes a sequence. The shape of its items, and how many it has at most.
pub fn sequence_of<'s>(
    found: &mut Findings,
    shape: Option<&'s Shape>,
    at: u32,
) -> (u16, Option<&'s Shape>)
    ensures found { found.new
        ≡ with_faults found.old (faults.sequence_faults (shape_as shape.entry) at) }
    ensures bound { result.0 ≡ meaning.bound_of (shape_as shape.entry) }
    ensures items { shape_as result.1 ≡ faults.item_shape (shape_as shape.entry) }
{
    match shape {
        None => (0, None),
        Some(Shape::Sequence(bound, items)) => (*bound, Some(items.shape())),
        Some(_) => {
            found.note(true, at, CheckCause::Mistyped);
            (0, None)
        }
    }
}

/// The expressions of a list, where their number is told at the place.
#[tactic(auto, using(circus_resolve::proofs::Finding::found_then))]
pub fn list(
    alloc: Global,
    context: &Context<'_, '_, '_, '_>,
    found: &mut Findings,
    slots: Slots<'_>,
    at: u32,
    items: &Expressions,
) -> Result<CheckedExpressions, NoMemory>
    ensures found { OnOk result
        (found.new ≡ with_faults found.old
        (faults.list_faults (context_as context.now) (slots_as slots.entry) at items.now)) }
    ensures meant { IfOk result (λ trees.
        trees ≡ each_meant (context_as context.now).scope (slots_as slots.entry) 0
        (expression_trees items.now)) }
{
    want_number(found, slots, items.len(), at);
    resolve_each(alloc, context.scope, found, slots, items)
}
