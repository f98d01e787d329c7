// Numbers: what is calculated of them, how they compare, and what they are as one of a kind.
ghost use Rattle.std.specs.Prelude.{◌≡◌, Ok, Err, pos, neg_ℤ, MatchResult};
ghost use Rattle.circus_value.specs.ValueOf.{tree_of};
ghost use Rattle.circus_checked.specs.declared.kinds.Calculation.TheVariants.{Div, Mod};
ghost use Rattle.circus_evaluate.specs.Got as got;
ghost use Rattle.circus_evaluate.specs.Evaluating as evaluating;
ghost use Rattle.circus_evaluate.specs.Given.{got_as, Gives};
ghost use Rattle.circus_evaluate.specs.Seen.Values.{number_in_range};

use crate::got::{Got, NoValue};
use circus_checked::{Calculation, NumberKind, Order};
use circus_model::LanguageError;
use circus_value::Value;

/// What is calculated of two numbers.
pub(crate) fn calculate(
    calculation: Calculation,
    one: i64,
    two: i64,
) -> Result<Got<'static>, NoValue>
    ensures { Gives got_as result (evaluating.calculation calculation one two) }
{
    match calculation {
        Calculation::Plus => in_range(one.checked_add(two)),
        Calculation::Minus => in_range(one.checked_sub(two)),
        Calculation::Times => in_range(one.checked_mul(two)),
        Calculation::Div => divide(one, two),
        Calculation::Mod => remainder(one, two),
    }
}

// A quotient, rounded toward zero.
fn divide(one: i64, two: i64) -> Result<Got<'static>, NoValue>
    ensures { Gives got_as result (evaluating.calculation Div one two) }
{
    if two == 0 {
        Err(NoValue::Raises(LanguageError::Zero))
    } else {
        in_range(one.checked_div(two))
    }
}

// A remainder, which has the sign of the dividend.
fn remainder(one: i64, two: i64) -> Result<Got<'static>, NoValue>
    ensures { Gives got_as result (evaluating.calculation Mod one two) }
{
    if two == 0 {
        Err(NoValue::Raises(LanguageError::Zero))
    } else if two == -1 {
        Ok(Got::Number(0))
    } else {
        Ok(Got::Number(one % two))
    }
}

/// A number with the other sign.
pub(crate) fn negate(number: i64) -> Result<Got<'static>, NoValue>
    ensures { Gives got_as result (got.number_or_overflow (neg_ℤ number)) }
{
    in_range(number.checked_neg())
}

/// A number of the text.
pub(crate) fn literal(number: u64) -> Result<Got<'static>, NoValue>
    ensures { Gives got_as result (got.number_or_overflow (pos number)) }
{
    in_range(i64::try_from(number).ok())
}

// A number, where the language has it.
fn in_range(number: Option<i64>) -> Result<Got<'static>, NoValue>
    ensures { Gives got_as result (number_in_range number) }
{
    match number {
        Some(number) => Ok(Got::Number(number)),
        None => Err(NoValue::Raises(LanguageError::Range)),
    }
}

/// Whether two numbers are in this order.
pub(crate) fn is_ordered(order: Order, one: i64, two: i64) -> bool
    ensures { result ≡ evaluating.is_ordered order one two }
{
    match order {
        Order::Less => one < two,
        Order::AtMost => one <= two,
        Order::Greater => one > two,
        Order::AtLeast => one >= two,
    }
}

/// A number as one of this kind, or `Range` where the kind doesn't hold it: CARDINAL holds 0 to 65,535, LONG CARDINAL 0 to
/// 4,294,967,295, INTEGER -32,768 to 32,767, and LONG INTEGER -2,147,483,648 to 2,147,483,647
/// (docs/LANGUAGE.md, "Executions"). It takes no memory.
pub fn as_kind(kind: NumberKind, number: i64) -> Result<Value, LanguageError>
    ensures { MatchResult result (λ value. got.as_kind kind number ≡ Ok (tree_of value)) (λ error.
        got.as_kind kind number ≡ Err error) }
{
    let value = match kind {
        NumberKind::Cardinal => u16::try_from(number).ok().map(Value::Cardinal),
        NumberKind::LongCardinal => u32::try_from(number).ok().map(Value::LongCardinal),
        NumberKind::Integer => i16::try_from(number).ok().map(Value::Integer),
        NumberKind::LongInteger => i32::try_from(number).ok().map(Value::LongInteger),
    };
    value.ok_or(LanguageError::Range)
}
