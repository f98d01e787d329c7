// Statements resolved: their faults, and what they mean.
ghost use Rattle.std.specs.Prelude.{◌≡◌, ◌++◌, ◌&&◌, nat_lt, Some, is_none, option_map, IfOk, OnOk, map};
ghost use Rattle.circus_expression.specs.ExpressionOf as expression;
ghost use Rattle.circus_statement.specs.StatementOf.{tree_of, into_of, handler_of};
ghost use Rattle.circus_statement.specs.StatementTree as s;
ghost use Rattle.circus_checked.specs.StatementOf as checked;
ghost use Rattle.circus_checked.specs.ExpressionOf as checked_expression;
ghost use Rattle.circus_resolve.specs.Faults.{place_faults, place_shape, wanted_alike};
ghost use Rattle.circus_resolve.specs.Meaning.{meant, place_meant};
ghost use Rattle.circus_checked.specs.Sorts.{sort_of};
ghost use Rattle.circus_resolve.specs.Seen.Found.{with_faults};
ghost use Rattle.circus_resolve.specs.Seen.Scoped.{shape_as};
ghost use Rattle.circus_resolve.specs.Seen.Wanted.{slots_as};
ghost use Rattle.circus_body.specs.Faults as faults;
ghost use Rattle.circus_body.specs.Meaning as meaning;
ghost use Rattle.circus_body.specs.Seen.Named.{known_offer, context_as};
ghost use Rattle.circus_body.specs.Seen.Parts.{call_of, one_handler_faults, one_handler_meant};

use crate::wants::{
    arguments_of, called_procedure, error_of, list, number_of, results_of, sequence_of, values_of,
    want_number,
};
use crate::{Context, Offered};
use circus_checked::{
    CheckedCall, CheckedExpression, CheckedHandler, CheckedHandlers, CheckedPlace, CheckedPlaces,
    CheckedStatement, CheckedStatements, NumberKind,
};
use circus_expression::{Expression, Expressions, PlaceText};
use circus_resolve::{CheckCause, Findings, Slots, Sort, kind_of, resolve, resolve_place};
use circus_statement::{
    CallText, Handler, Handlers, IntoText, PlaceTexts, Statement, StatementKind, Statements,
};
use circus_syntax::Named;
use circus_value::{NoMemory, Shape};
use std::alloc::Global;

/// Resolves statements in order, and finds their faults.
#[cycle(resolving)]
pub fn resolve_statements(
    alloc: Global,
    context: &Context<'_, '_, '_, '_>,
    found: &mut Findings,
    statements: &Statements,
) -> Result<CheckedStatements, NoMemory>
    ensures found { OnOk result
        (found.new ≡ with_faults found.old
        (faults.all_faults (context_as context.now) (s.statement_trees statements.now))) }
    ensures meant { IfOk result (λ made.
        made ≡ meaning.all_do (context_as context.now) (s.statement_trees statements.now)) }
{
    let mut made = CheckedStatements::new(alloc);
    for statement in statements.as_slice() {
        made.push(resolve_statement(alloc, context, found, statement)?)?;
    }
    Ok(made)
}

// One statement.
#[cycle(resolving)]
fn resolve_statement(
    alloc: Global,
    context: &Context<'_, '_, '_, '_>,
    found: &mut Findings,
    statement: &Statement,
) -> Result<CheckedStatement, NoMemory>
    ensures found { OnOk result
        (found.new ≡ with_faults found.old
        (faults.faults (context_as context.now) (tree_of statement.now))) }
    ensures meant { IfOk result (λ made.
        checked.tree_of made ≡ meaning.does (context_as context.now) (tree_of statement.now)) }
{
    match &statement.kind {
        StatementKind::Assign(place, expression) => {
            resolve_assignment(alloc, context, found, place, expression)
        }
        StatementKind::If(condition, statements, None) => {
            only_then(alloc, context, found, condition, statements)
        }
        StatementKind::If(condition, statements, Some(others)) => {
            then_else(alloc, context, found, condition, statements, others)
        }
        StatementKind::While(condition, statements) => {
            resolve_while(alloc, context, found, condition, statements)
        }
        StatementKind::Append(item, place) => resolve_append(alloc, context, found, item, place),
        StatementKind::Call(call) => resolve_call(alloc, context, found, call),
        StatementKind::Return(items) => resolve_return(alloc, context, found, statement.at, items),
        StatementKind::Raise(name, items) => resolve_raise(alloc, context, found, name, items),
    }
}

// The expression goes where the place is.
#[tactic(auto, using(circus_resolve::proofs::Finding::found_then))]
fn resolve_assignment(
    alloc: Global,
    context: &Context<'_, '_, '_, '_>,
    found: &mut Findings,
    place: &PlaceText,
    value: &Expression,
) -> Result<CheckedStatement, NoMemory>
    ensures found { OnOk result
        (found.new ≡ with_faults found.old
        (faults.faults (context_as context.now)
        (s.assign 0 (expression.place_of place.now) (expression.tree_of value.now)))) }
    ensures meant { IfOk result (λ made.
        checked.tree_of made
        ≡ meaning.does (context_as context.now)
        (s.assign 0 (expression.place_of place.now) (expression.tree_of value.now))) }
{
    let place = resolve_place(alloc, context.scope, found, place)?;
    let one = resolve(alloc, context.scope, found, value)?;
    found.want_for(place.shape, one.sort, value.at);
    Ok(CheckedStatement::Assign(place.place, one.tree))
}

// A condition.
#[tactic(auto, using(circus_resolve::proofs::Finding::found_then))]
fn resolve_condition(
    alloc: Global,
    context: &Context<'_, '_, '_, '_>,
    found: &mut Findings,
    condition: &Expression,
) -> Result<CheckedExpression, NoMemory>
    ensures found { OnOk result
        (found.new ≡ with_faults found.old
        (faults.faults_of_condition (context_as context.now) (expression.tree_of condition.now))) }
    ensures meant { IfOk result (λ made.
        checked_expression.tree_of made
        ≡ meant (context_as context.now).scope (expression.tree_of condition.now)) }
{
    let one = resolve(alloc, context.scope, found, condition)?;
    found.want_truth(one.sort, condition.at);
    Ok(one.tree)
}

#[cycle(resolving)]
#[tactic(auto, using(circus_resolve::proofs::Finding::found_then))]
fn only_then(
    alloc: Global,
    context: &Context<'_, '_, '_, '_>,
    found: &mut Findings,
    condition: &Expression,
    statements: &Statements,
) -> Result<CheckedStatement, NoMemory>
    ensures found { OnOk result
        (found.new ≡ with_faults found.old
        (faults.faults (context_as context.now)
        (s.only_then 0 (expression.tree_of condition.now) (s.statement_trees statements.now)))) }
    ensures meant { IfOk result (λ made.
        checked.tree_of made
        ≡ meaning.does (context_as context.now)
        (s.only_then 0 (expression.tree_of condition.now) (s.statement_trees statements.now))) }
{
    let condition = resolve_condition(alloc, context, found, condition)?;
    let statements = resolve_statements(alloc, context, found, statements)?;
    let none = CheckedStatements::new(alloc);
    Ok(CheckedStatement::If(condition, statements, none))
}

#[cycle(resolving)]
#[tactic(auto, using(circus_resolve::proofs::Finding::found_then))]
fn then_else(
    alloc: Global,
    context: &Context<'_, '_, '_, '_>,
    found: &mut Findings,
    condition: &Expression,
    statements: &Statements,
    others: &Statements,
) -> Result<CheckedStatement, NoMemory>
    ensures found { OnOk result
        (found.new ≡ with_faults found.old
        (faults.faults (context_as context.now)
        (s.then_else 0 (expression.tree_of condition.now) (s.statement_trees statements.now)
        (s.statement_trees others.now)))) }
    ensures meant { IfOk result (λ made.
        checked.tree_of made
        ≡ meaning.does (context_as context.now)
        (s.then_else 0 (expression.tree_of condition.now) (s.statement_trees statements.now)
        (s.statement_trees others.now))) }
{
    let condition = resolve_condition(alloc, context, found, condition)?;
    let statements = resolve_statements(alloc, context, found, statements)?;
    let others = resolve_statements(alloc, context, found, others)?;
    Ok(CheckedStatement::If(condition, statements, others))
}

#[cycle(resolving)]
#[tactic(auto, using(circus_resolve::proofs::Finding::found_then))]
fn resolve_while(
    alloc: Global,
    context: &Context<'_, '_, '_, '_>,
    found: &mut Findings,
    condition: &Expression,
    statements: &Statements,
) -> Result<CheckedStatement, NoMemory>
    ensures found { OnOk result
        (found.new ≡ with_faults found.old
        (faults.faults (context_as context.now)
        (s.while 0 (expression.tree_of condition.now) (s.statement_trees statements.now)))) }
    ensures meant { IfOk result (λ made.
        checked.tree_of made
        ≡ meaning.does (context_as context.now)
        (s.while 0 (expression.tree_of condition.now) (s.statement_trees statements.now))) }
{
    let condition = resolve_condition(alloc, context, found, condition)?;
    let statements = resolve_statements(alloc, context, found, statements)?;
    Ok(CheckedStatement::While(condition, statements))
}

// An item is added at the end of a sequence.
#[tactic(auto, using(circus_resolve::proofs::Finding::found_then))]
fn resolve_append(
    alloc: Global,
    context: &Context<'_, '_, '_, '_>,
    found: &mut Findings,
    item: &Expression,
    place: &PlaceText,
) -> Result<CheckedStatement, NoMemory>
    ensures found { OnOk result
        (found.new ≡ with_faults found.old
        (faults.faults (context_as context.now)
        (s.append 0 (expression.tree_of item.now) (expression.place_of place.now)))) }
    ensures meant { IfOk result (λ made.
        checked.tree_of made
        ≡ meaning.does (context_as context.now)
        (s.append 0 (expression.tree_of item.now) (expression.place_of place.now))) }
{
    let one = resolve(alloc, context.scope, found, item)?;
    let at = place.name.at;
    let place = resolve_place(alloc, context.scope, found, place)?;
    let (bound, items) = sequence_of(found, place.shape, at);
    found.want_for(items, one.sort, item.at);
    Ok(CheckedStatement::Append(one.tree, place.place, bound, kind_of_known(items)))
}

// The kind of the numbers of a shape that may be unknown.
fn kind_of_known(shape: Option<&Shape>) -> Option<NumberKind>
    ensures { result ≡ meaning.item_kind (shape_as shape.entry) }
{
    match shape {
        Some(shape) => kind_of(shape),
        None => None,
    }
}

// RETURN, whose place is given.
fn resolve_return(
    alloc: Global,
    context: &Context<'_, '_, '_, '_>,
    found: &mut Findings,
    at: u32,
    items: &Expressions,
) -> Result<CheckedStatement, NoMemory>
    ensures found { OnOk result
        (found.new ≡ with_faults found.old
        (faults.faults (context_as context.now) (s.return at items.now))) }
    ensures meant { IfOk result (λ made.
        checked.tree_of made ≡ meaning.does (context_as context.now) (s.return 0 items.now)) }
{
    let slots = results_of(Some(context.own));
    Ok(CheckedStatement::Return(list(alloc, context, found, slots, at, items)?))
}

#[tactic(auto, using(circus_resolve::proofs::Finding::found_then))]
fn resolve_raise(
    alloc: Global,
    context: &Context<'_, '_, '_, '_>,
    found: &mut Findings,
    name: &Named,
    items: &Expressions,
) -> Result<CheckedStatement, NoMemory>
    ensures found { OnOk result
        (found.new ≡ with_faults found.old
        (faults.faults (context_as context.now) (s.raise 0 name.now items.now))) }
    ensures meant { IfOk result (λ made.
        checked.tree_of made
        ≡ meaning.does (context_as context.now) (s.raise 0 name.now items.now)) }
{
    let error = error_of(found, Some(context.own), name);
    let values = list(alloc, context, found, values_of(error), name.at, items)?;
    Ok(CheckedStatement::Raise(number_of(error), values))
}

// A call with its handlers.
#[cycle(resolving)]
#[tactic(auto, using(circus_resolve::proofs::Finding::found_then))]
fn resolve_call(
    alloc: Global,
    context: &Context<'_, '_, '_, '_>,
    found: &mut Findings,
    call: &CallText,
) -> Result<CheckedStatement, NoMemory>
    ensures found { OnOk result
        (found.new ≡ with_faults found.old
        (faults.faults (context_as context.now)
        (s.call 0 (call_of call.now) (s.handler_trees call.now.handlers)))) }
    ensures meant { IfOk result (λ made.
        checked.tree_of made
        ≡ meaning.does (context_as context.now)
        (s.call 0 (call_of call.now) (s.handler_trees call.now.handlers))) }
{
    let (callee, offered) = called_procedure(found, context, &call.module, &call.procedure);
    let slots = arguments_of(offered);
    let arguments = list(
        alloc,
        context,
        found,
        slots,
        call.procedure.at,
        &call.arguments,
    )?;
    let into = results(alloc, context, found, results_of(offered), &call.into)?;
    let handlers = handlers_of(alloc, context, found, offered, &call.handlers)?;
    Ok(CheckedStatement::Call(CheckedCall {
        callee,
        procedure: procedure_number(offered),
        arguments,
        into,
        handlers,
    }))
}

fn procedure_number(offered: Option<&Offered<'_>>) -> u16
    ensures { result ≡ meaning.procedure_number (known_offer offered.entry) }
{
    match offered {
        Some(offered) => offered.number,
        None => 0,
    }
}

// The places of INTO, where it stands.
fn results(
    alloc: Global,
    context: &Context<'_, '_, '_, '_>,
    found: &mut Findings,
    slots: Slots<'_>,
    into: &Option<IntoText>,
) -> Result<CheckedPlaces, NoMemory>
    ensures found { OnOk result
        (found.new ≡ with_faults found.old
        (faults.results_faults (context_as context.now) (slots_as slots.entry)
        (option_map into_of into.now))) }
    ensures meant { IfOk result (λ made.
        made ≡ meaning.into_meant (context_as context.now) (option_map into_of into.now)) }
{
    match into {
        Some(into) => places(alloc, context, found, slots, into.at, &into.places),
        None => Ok(CheckedPlaces::new(alloc)),
    }
}

// Places that values go to, where their number is told at the place.
#[tactic(auto, using(circus_resolve::proofs::Finding::found_then))]
fn places(
    alloc: Global,
    context: &Context<'_, '_, '_, '_>,
    found: &mut Findings,
    slots: Slots<'_>,
    at: u32,
    places: &PlaceTexts,
) -> Result<CheckedPlaces, NoMemory>
    ensures found { OnOk result
        (found.new ≡ with_faults found.old
        (faults.into_faults (context_as context.now) (slots_as slots.entry) at
        (Some (map expression.place_of places.now)))) }
    ensures meant { IfOk result (λ made.
        made ≡ meaning.places_meant (context_as context.now)
        (Some (map expression.place_of places.now))) }
{
    want_number(found, slots, places.len(), at);
    each_place(alloc, context, found, slots, places)
}

// Places in order, to each of which a value goes.
fn each_place(
    alloc: Global,
    context: &Context<'_, '_, '_, '_>,
    found: &mut Findings,
    slots: Slots<'_>,
    places: &PlaceTexts,
) -> Result<CheckedPlaces, NoMemory>
    ensures found { OnOk result
        (found.new ≡ with_faults found.old
        (faults.places_faults (context_as context.now) (slots_as slots.entry) 0
        (map expression.place_of places.now))) }
    ensures meant { IfOk result (λ made.
        made ≡ map (place_meant (context_as context.now).scope)
        (map expression.place_of places.now)) }
{
    let mut made = CheckedPlaces::new(alloc);
    for (number, place) in places.as_slice().iter().enumerate() {
        made.push(resolve_target(alloc, context, found, slots.at(number), place)?)?;
    }
    Ok(made)
}

// A place that a value of a shape goes to, where that is known.
#[tactic(auto, using(circus_resolve::proofs::Finding::found_then))]
fn resolve_target(
    alloc: Global,
    context: &Context<'_, '_, '_, '_>,
    found: &mut Findings,
    shape: Option<&Shape>,
    place: &PlaceText,
) -> Result<CheckedPlace, NoMemory>
    ensures found { OnOk result
        (found.new ≡ with_faults found.old
        (place_faults (context_as context.now).scope (expression.place_of place.now)
        ++ wanted_alike (option_map sort_of (shape_as shape.entry))
        (option_map sort_of
        (place_shape (context_as context.now).scope (expression.place_of place.now)))
        place.now.name.at)) }
    ensures meant { IfOk result (λ made.
        made ≡ place_meant (context_as context.now).scope (expression.place_of place.now)) }
{
    let one = resolve_place(alloc, context.scope, found, place)?;
    found.want_alike(
        Sort::of_known(shape),
        Sort::of_known(one.shape),
        place.name.at,
    );
    Ok(one.place)
}

// The handlers of a call, in order.
#[cycle(resolving)]
fn handlers_of(
    alloc: Global,
    context: &Context<'_, '_, '_, '_>,
    found: &mut Findings,
    offered: Option<&Offered<'_>>,
    handlers: &Handlers,
) -> Result<CheckedHandlers, NoMemory>
    ensures found { OnOk result
        (found.new ≡ with_faults found.old
        (faults.handlers_faults (context_as context.now) (known_offer offered.entry)
        (s.handler_trees handlers.now))) }
    ensures meant { IfOk result (λ made.
        made ≡ meaning.all_handle (context_as context.now) (known_offer offered.entry)
        (s.handler_trees handlers.now)) }
{
    let mut made = CheckedHandlers::new(alloc);
    for (place, handler) in handlers.as_slice().iter().enumerate() {
        let followed = is_followed(handler, place + 1, handlers.len());
        found.note(followed, handler.at, CheckCause::Mistyped);
        made.push(resolve_handler(alloc, context, found, offered, handler)?)?;
    }
    Ok(made)
}

// Whether a handler of every other error stands before others.
fn is_followed(handler: &Handler, next: usize, count: usize) -> bool
    ensures { result ≡ (is_none handler.now.error && nat_lt next count) }
{
    handler.error.is_none() && next < count
}

// The number of the error that a handler is for, and what goes with it.
fn handled_error<'c>(
    found: &mut Findings,
    offered: Option<&Offered<'c>>,
    error: &Option<Named>,
) -> (Option<u16>, Slots<'c>)
    ensures found { found.new
        ≡ with_faults found.old
        (faults.handled_error_faults (known_offer offered.entry) error.now) }
    ensures error { result.0 ≡ meaning.handled_meant (known_offer offered.entry) error.now }
    ensures values { slots_as result.1
        ≡ faults.handled_values (known_offer offered.entry) error.now }
{
    match error {
        Some(name) => {
            let error = error_of(found, offered, name);
            (Some(number_of(error)), values_of(error))
        }
        None => (None, Slots::Alike(None)),
    }
}

// The places that the values of an error go to, where they are told at the place.
fn handler_places(
    alloc: Global,
    context: &Context<'_, '_, '_, '_>,
    found: &mut Findings,
    slots: Slots<'_>,
    at: u32,
    list: &Option<PlaceTexts>,
) -> Result<CheckedPlaces, NoMemory>
    ensures found { OnOk result
        (found.new ≡ with_faults found.old
        (faults.into_faults (context_as context.now) (slots_as slots.entry) at
        (option_map (map expression.place_of) list.now))) }
    ensures meant { IfOk result (λ made.
        made ≡ meaning.places_meant (context_as context.now)
        (option_map (map expression.place_of) list.now)) }
{
    match list {
        Some(list) => places(alloc, context, found, slots, at, list),
        None => Ok(CheckedPlaces::new(alloc)),
    }
}

// One handler.
#[cycle(resolving)]
#[tactic(auto, using(circus_resolve::proofs::Finding::found_then))]
fn resolve_handler(
    alloc: Global,
    context: &Context<'_, '_, '_, '_>,
    found: &mut Findings,
    offered: Option<&Offered<'_>>,
    handler: &Handler,
) -> Result<CheckedHandler, NoMemory>
    ensures found { OnOk result
        (found.new ≡ with_faults found.old
        (one_handler_faults (context_as context.now) (known_offer offered.entry)
        (handler_of handler.now))) }
    ensures meant { IfOk result (λ made.
        checked.handler_of made
        ≡ one_handler_meant (context_as context.now) (known_offer offered.entry)
        (handler_of handler.now)) }
{
    let (error, slots) = handled_error(found, offered, &handler.error);
    let places = handler_places(alloc, context, found, slots, handler.at, &handler.places)?;
    let statements = resolve_statements(alloc, context, found, &handler.statements)?;
    Ok(CheckedHandler {
        error,
        places,
        statements,
    })
}
