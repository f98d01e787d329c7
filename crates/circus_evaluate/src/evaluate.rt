// What expressions give.
ghost use Rattle.std.specs.Prelude.{◌≡◌, ◌++◌, Ok, map};
ghost use Rattle.circus_value.specs.ValueOf as values;
ghost use Rattle.circus_checked.specs.ExpressionOf.{tree_of, suffix_of};
ghost use Rattle.circus_checked.specs.ExpressionTree.{expression_trees, suffix_trees};
ghost use Rattle.circus_checked.specs.ExpressionTree as e;
ghost use Rattle.circus_evaluate.specs.Got as got;
ghost use Rattle.circus_evaluate.specs.Got.{and_then};
ghost use Rattle.circus_evaluate.specs.Evaluating as evaluating;
ghost use Rattle.circus_evaluate.specs.Given.{got_as, given_as, Gives};
ghost use Rattle.circus_evaluate.specs.Steps.{step_as};
ghost use Rattle.circus_evaluate.specs.Seen.Suffixes.{step_of};

use crate::got::{Given, Got, NoValue, made_text, unless_large};
use crate::number::{as_kind, calculate, is_ordered, literal, negate};
use crate::part::{Step, part_by};
use circus_checked::{
    Calculation, CheckedExpression, CheckedExpressions, CheckedOperand, CheckedPlace,
    CheckedSuffix, CheckedSuffixes, Form, NumberKind, Order,
};
use circus_model::LanguageError;
use circus_value::{Chosen, Duplicate, ListOf, Octets, Text, Value, Values, ValuesBuilder};
use std::alloc::Global;

/// What an expression gives in these variables, where a value has at most so many bytes. It goes no deeper than the
/// expression.
#[cycle(evaluation)]
pub(crate) fn evaluate<'a>(
    alloc: Global,
    limit: u32,
    variables: &'a Values,
    expression: &CheckedExpression,
) -> Result<Got<'a>, NoValue>
    ensures { Gives got_as result
        (evaluating.evaluate limit variables.now (tree_of expression.now)) }
{
    use CheckedExpression::*;
    match expression {
        Or(left, right) => decide(alloc, limit, variables, true, left, right),
        And(left, right) => decide(alloc, limit, variables, false, left, right),
        Not(operand) => deny(alloc, limit, variables, operand),
        Equal(left, right) => compared_whole(alloc, limit, variables, left, right),
        Compare(order, left, right) => compare_operands(
            alloc, limit, variables, *order, left, right,
        ),
        Calculate(calculation, left, right) => {
            calculate_operands(alloc, limit, variables, *calculation, left, right)
        }
        Minus(operand) => minus(alloc, limit, variables, operand),
        Join(left, right) => join_lists(alloc, limit, variables, left, right),
        Is(arm, operand) => stands(alloc, limit, variables, *arm, operand),
        Number(number) => literal(*number),
        Text(bytes) => made_text(bytes.copy()?, limit),
        Truth(truth) => Ok(Got::truth(*truth)),
        Length(operand) => length(alloc, limit, variables, operand),
        Label(number) => Ok(Got::Made(Value::Enumeration(*number))),
        Arm(number, operand) => choice_at(alloc, limit, variables, *number, operand),
        Items(form, items) => unless_large(
            value_of_form(*form, evaluate_all(alloc, limit, variables, items)?),
            limit,
        ),
        Convert(kind, operand) => convert_number(alloc, limit, variables, *kind, operand),
        Read(place) => read(alloc, limit, variables, place),
    }
}

/// Whether an expression gives the truth value that is true, in these variables, where a value has at most so many bytes;
/// anything else counts as false. It raises what the expression raises (docs/LANGUAGE.md, "Executions"), or memory runs out.
/// It goes no deeper than the expression.
#[cycle(evaluation)]
pub fn truth_in(
    alloc: Global,
    limit: u32,
    variables: &Values,
    expression: &CheckedExpression,
) -> Result<bool, NoValue>
    ensures { Gives (λ truth.
        truth) result (and_then
        (evaluating.evaluate limit variables.now (tree_of expression.now)) (λ x.
        Ok (got.truth_of x))) }
{
    Ok(evaluate(alloc, limit, variables, expression)?.is_true())
}

// The number that an expression gives.
#[cycle(evaluation)]
fn number_in(
    alloc: Global,
    limit: u32,
    variables: &Values,
    expression: &CheckedExpression,
) -> Result<i64, NoValue>
    ensures { Gives (λ number.
        number) result (and_then
        (evaluating.evaluate limit variables.now (tree_of expression.now)) got.number_of) }
{
    evaluate(alloc, limit, variables, expression)?.number()
}

/// What an expression gives in these variables, where a value has at most so many bytes, as a value of its own. It raises
/// what the expression raises (docs/LANGUAGE.md, "Executions"), or memory runs out. It goes no deeper than the expression.
#[cycle(evaluation)]
pub fn given_in(
    alloc: Global,
    limit: u32,
    variables: &Values,
    expression: &CheckedExpression,
) -> Result<Given, NoValue>
    ensures { Gives given_as result
        (evaluating.evaluate limit variables.now (tree_of expression.now)) }
{
    Ok(evaluate(alloc, limit, variables, expression)?.detach()?)
}

// The value that an expression gives, which is no number.
#[cycle(evaluation)]
fn value_in(
    alloc: Global,
    limit: u32,
    variables: &Values,
    expression: &CheckedExpression,
) -> Result<Value, NoValue>
    ensures { Gives values.tree_of result
        (and_then (evaluating.evaluate limit variables.now (tree_of expression.now)) got.value_of) }
{
    match given_in(alloc, limit, variables, expression)? {
        Given::Number(_) => Err(NoValue::Raises(LanguageError::Range)),
        Given::Whole(value) => Ok(value),
    }
}

// OR and AND: the right side is evaluated only where the left one isn't this truth value.
#[cycle(evaluation)]
fn decide(
    alloc: Global,
    limit: u32,
    variables: &Values,
    decides: bool,
    left: &CheckedOperand,
    right: &CheckedOperand,
) -> Result<Got<'static>, NoValue>
    ensures { Gives got_as result
        (evaluating.unless_decided decides (evaluating.evaluate limit variables.now left.now)
        (evaluating.evaluate limit variables.now right.now)) }
{
    if truth_in(alloc, limit, variables, left.expression())? == decides {
        return Ok(Got::truth(decides));
    }
    Ok(Got::truth(truth_in(alloc, limit, variables, right.expression())?))
}

#[cycle(evaluation)]
fn deny(
    alloc: Global,
    limit: u32,
    variables: &Values,
    operand: &CheckedOperand,
) -> Result<Got<'static>, NoValue>
    ensures { Gives got_as result
        (evaluating.evaluate limit variables.now (e.negation operand.now)) }
{
    Ok(Got::truth(!truth_in(alloc, limit, variables, operand.expression())?))
}

// Whether two operands give the same.
#[cycle(evaluation)]
fn compared_whole(
    alloc: Global,
    limit: u32,
    variables: &Values,
    left: &CheckedOperand,
    right: &CheckedOperand,
) -> Result<Got<'static>, NoValue>
    ensures { Gives got_as result
        (evaluating.evaluate limit variables.now (e.equal left.now right.now)) }
{
    let one = evaluate(alloc, limit, variables, left.expression())?;
    let two = evaluate(alloc, limit, variables, right.expression())?;
    Ok(Got::truth(one.is_equal(&two)))
}

#[cycle(evaluation)]
fn compare_operands(
    alloc: Global,
    limit: u32,
    variables: &Values,
    order: Order,
    left: &CheckedOperand,
    right: &CheckedOperand,
) -> Result<Got<'static>, NoValue>
    ensures { Gives got_as result
        (evaluating.evaluate limit variables.now (e.compare order left.now right.now)) }
{
    let one = number_in(alloc, limit, variables, left.expression())?;
    let two = number_in(alloc, limit, variables, right.expression())?;
    Ok(Got::truth(is_ordered(order, one, two)))
}

#[cycle(evaluation)]
fn calculate_operands(
    alloc: Global,
    limit: u32,
    variables: &Values,
    calculation: Calculation,
    left: &CheckedOperand,
    right: &CheckedOperand,
) -> Result<Got<'static>, NoValue>
    ensures { Gives got_as result
        (evaluating.evaluate limit variables.now (e.calculate calculation left.now right.now)) }
{
    let one = number_in(alloc, limit, variables, left.expression())?;
    let two = number_in(alloc, limit, variables, right.expression())?;
    calculate(calculation, one, two)
}

#[cycle(evaluation)]
fn minus(
    alloc: Global,
    limit: u32,
    variables: &Values,
    operand: &CheckedOperand,
) -> Result<Got<'static>, NoValue>
    ensures { Gives got_as result (evaluating.evaluate limit variables.now (e.minus operand.now)) }
{
    negate(number_in(alloc, limit, variables, operand.expression())?)
}

// Adds the bytes of the text that an expression gives.
#[cycle(evaluation)]
fn append_text(
    alloc: Global,
    limit: u32,
    variables: &Values,
    bytes: &mut Octets,
    expression: &CheckedExpression,
) -> Result<(), NoValue>
    ensures { Gives (λ _.
        bytes.new) result
        (and_then (and_then
        (evaluating.evaluate limit variables.now (tree_of expression.now)) got.bytes_of) (λ more.
        Ok (bytes.old ++ more))) }
{
    let text = evaluate(alloc, limit, variables, expression)?;
    bytes.append(text.bytes()?)?;
    Ok(())
}

#[cycle(evaluation)]
fn join_lists(
    alloc: Global,
    limit: u32,
    variables: &Values,
    left: &CheckedOperand,
    right: &CheckedOperand,
) -> Result<Got<'static>, NoValue>
    ensures { Gives got_as result
        (evaluating.evaluate limit variables.now (e.join left.now right.now)) }
{
    let mut bytes = ListOf::new(alloc);
    append_text(alloc, limit, variables, &mut bytes, left.expression())?;
    append_text(alloc, limit, variables, &mut bytes, right.expression())?;
    made_text(Text::of(alloc, bytes)?, limit)
}

// Whether a choice stands at this arm.
#[cycle(evaluation)]
fn stands(
    alloc: Global,
    limit: u32,
    variables: &Values,
    arm: u16,
    operand: &CheckedOperand,
) -> Result<Got<'static>, NoValue>
    ensures { Gives got_as result
        (evaluating.evaluate limit variables.now (e.is_arm arm operand.now)) }
{
    let choice = evaluate(alloc, limit, variables, operand.expression())?;
    Ok(Got::truth(choice.stands_at(arm)))
}

#[cycle(evaluation)]
fn length(
    alloc: Global,
    limit: u32,
    variables: &Values,
    operand: &CheckedOperand,
) -> Result<Got<'static>, NoValue>
    ensures { Gives got_as result
        (evaluating.evaluate limit variables.now (e.length_of operand.now)) }
{
    let items = evaluate(alloc, limit, variables, operand.expression())?;
    items.length()
}

// A choice at this arm.
#[cycle(evaluation)]
fn choice_at(
    alloc: Global,
    limit: u32,
    variables: &Values,
    arm: u16,
    operand: &CheckedOperand,
) -> Result<Got<'static>, NoValue>
    ensures { Gives got_as result
        (evaluating.evaluate limit variables.now (e.arm arm operand.now)) }
{
    let value = value_in(alloc, limit, variables, operand.expression())?;
    unless_large(Value::Choice(arm, Chosen::new(alloc, value)?), limit)
}

#[cycle(evaluation)]
fn convert_number(
    alloc: Global,
    limit: u32,
    variables: &Values,
    kind: NumberKind,
    operand: &CheckedOperand,
) -> Result<Got<'static>, NoValue>
    ensures { Gives got_as result
        (evaluating.evaluate limit variables.now (e.convert kind operand.now)) }
{
    let number = number_in(alloc, limit, variables, operand.expression())?;
    Ok(Got::Made(as_kind(kind, number)?))
}

/// The values that expressions give in these variables, each in its turn, where a value has at most so many bytes. Where one
/// raises an error, nothing behind it is evaluated, and a number, which has no kind, raises `Range`
/// (docs/LANGUAGE.md, "Executions"); or memory runs out. It goes no deeper than the expressions.
#[cycle(evaluation)]
pub fn evaluate_all(
    alloc: Global,
    limit: u32,
    variables: &Values,
    expressions: &CheckedExpressions,
) -> Result<Values, NoValue>
    ensures { Gives (λ values.
        values) result (evaluating.evaluate_all limit variables.now
        (expression_trees expressions.now)) }
{
    let mut values = ValuesBuilder::with_capacity(alloc, expressions.len())?;
    for expression in expressions.as_slice() {
        values.push(value_in(alloc, limit, variables, expression)?)?;
    }
    Ok(values.finish()?)
}

// What stands at a place. Each subscript is tested before the next one is evaluated.
#[cycle(evaluation)]
fn read<'a>(
    alloc: Global,
    limit: u32,
    variables: &'a Values,
    place: &CheckedPlace,
) -> Result<Got<'a>, NoValue>
    ensures { Gives got_as result
        (evaluating.evaluate limit variables.now
        (e.read place.now.variable (suffix_trees place.now.suffixes))) }
{
    let variable = variables.get(usize::from(place.variable));
    let mut part = variable.ok_or(LanguageError::WrongChoice)?;
    for suffix in place.suffixes.as_slice() {
        part = part_by(part, step(alloc, limit, variables, suffix)?)?;
    }
    Ok(Got::of(part))
}

// The step that a suffix is.
#[cycle(evaluation)]
fn step(
    alloc: Global,
    limit: u32,
    variables: &Values,
    suffix: &CheckedSuffix,
) -> Result<Step, NoValue>
    ensures { Gives step_as result (step_of limit variables.now (suffix_of suffix.now)) }
{
    Ok(match suffix {
        CheckedSuffix::Field(place) => Step::Field(*place),
        CheckedSuffix::Arm(number) => Step::Arm(*number),
        CheckedSuffix::Subscript(subscript) => {
            Step::Item(number_in(alloc, limit, variables, subscript)?)
        }
    })
}

/// The steps that suffixes are in these variables, where a value has at most so many bytes. All subscripts are evaluated,
/// each in its turn, and nothing is gone into. Where one raises an error, nothing behind it is evaluated, and one that is no
/// number raises `Range` (docs/LANGUAGE.md, "Executions"); or memory runs out. It goes no deeper than the subscripts.
pub fn steps_of(
    alloc: Global,
    limit: u32,
    variables: &Values,
    suffixes: &CheckedSuffixes,
) -> Result<ListOf<Step>, NoValue>
    ensures { Gives (λ steps.
        map step_as steps) result
        (evaluating.steps_of limit variables.now (suffix_trees suffixes.now)) }
{
    let mut steps = ListOf::new(alloc);
    for suffix in suffixes.as_slice() {
        steps.push(step(alloc, limit, variables, suffix)?)?;
    }
    Ok(steps)
}

// These items as one value.
fn value_of_form(form: Form, items: Values) -> Value
    ensures { values.tree_of result ≡ evaluating.value_of_form form items }
{
    match form {
        Form::Array => Value::Array(items),
        Form::Sequence => Value::Sequence(items),
        Form::Record => Value::Record(items),
    }
}
