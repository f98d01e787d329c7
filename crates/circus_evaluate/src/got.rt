// What an expression gives, and what stops it.
ghost use Rattle.std.specs.Prelude.{◌≡◌, IfOk};
ghost use Rattle.circus_value.specs.ValueOf.{tree_of};
ghost use Rattle.circus_evaluate.specs.Got as got;
ghost use Rattle.circus_evaluate.specs.Evaluating as evaluating;
ghost use Rattle.circus_evaluate.specs.Given.{got_as, given_as, Gives};
ghost use Rattle.circus_evaluate.specs.Seen.Values.{value_as, bytes_as};

use crate::number::literal;
use circus_model::LanguageError;
use circus_value::{Duplicate, NoMemory, Text, Value, external_size};

/// What an expression gives (docs/LANGUAGE.md, "Expressions").
#[derive(Debug, Drop)]
pub enum Got<'a> {
    /// A number, which has no kind until it is stored.
    Number(i64),
    /// A part of a variable. It is no number.
    Lent(&'a Value),
    /// A value of its own.
    Made(Value),
}

/// What an expression gave, apart from the variables.
#[derive(Debug, Drop)]
pub enum Given {
    /// A number, which has no kind until it is stored.
    Number(i64),
    /// Another value.
    Whole(Value),
}

/// Why there is no value.
#[derive(Clone, Copy, Debug)]
pub enum NoValue {
    /// The language raises this error (docs/LANGUAGE.md, "Executions").
    Raises(LanguageError),
    /// Memory ran out.
    NoMemory,
}

impl From<NoMemory> for NoValue {
    ghost use Rattle.std.specs.Prelude.{◌≡◌};
    ghost use Rattle.circus_evaluate.specs.declared.got.NoValue.TheVariants.{NoMemory};

    ghost from_gives = { λ _ stop. stop ≡ NoMemory };

    fn from(_refused: NoMemory) -> Self {
        NoValue::NoMemory
    }
}

impl From<LanguageError> for NoValue {
    ghost use Rattle.std.specs.Prelude.{◌≡◌};
    ghost use Rattle.circus_evaluate.specs.declared.got.NoValue.TheVariants.{Raises};

    ghost from_gives = { λ error stop. stop ≡ Raises error };

    fn from(error: LanguageError) -> Self {
        NoValue::Raises(error)
    }
}

impl<'a> Got<'a> {
    /// What a stored value gives: of the four kinds a number, else the value, which is lent. It takes no memory.
    pub fn of(value: &'a Value) -> Self
        ensures { got_as result ≡ got.got_of (tree_of value.now) }
    {
        match value {
            Value::Cardinal(number) => Got::Number(i64::from(*number)),
            Value::LongCardinal(number) => Got::Number(i64::from(*number)),
            Value::Integer(number) => Got::Number(i64::from(*number)),
            Value::LongInteger(number) => Got::Number(i64::from(*number)),
            _ => Got::Lent(value),
        }
    }

    /// A truth value.
    pub(crate) fn truth(truth: bool) -> Self
        ensures { got_as result ≡ evaluating.truth truth }
    {
        Got::Made(Value::Boolean(truth))
    }

    // The value that is no number.
    fn value(&self) -> Option<&Value>
        ensures { value_as result ≡ got.value_of (got_as self.now) }
    {
        match self {
            Got::Number(_) => None,
            Got::Lent(value) => Some(value),
            Got::Made(value) => Some(value),
        }
    }

    /// Whether it is the truth value that is true.
    pub(crate) fn is_true(&self) -> bool
        ensures { result ≡ got.truth_of (got_as self.now) }
    {
        matches!(self.value(), Some(Value::Boolean(true)))
    }

    /// The number.
    pub(crate) fn number(&self) -> Result<i64, NoValue>
        ensures { Gives (λ z. z) result (got.number_of (got_as self.now)) }
    {
        match self {
            Got::Number(number) => Ok(*number),
            _ => Err(NoValue::Raises(LanguageError::Range)),
        }
    }

    /// The bytes of a text.
    pub(crate) fn bytes(&self) -> Result<&[u8], NoValue>
        ensures { Gives bytes_as result (got.bytes_of (got_as self.now)) }
    {
        match self.value() {
            Some(Value::Text(bytes)) => Ok(bytes.as_slice()),
            _ => Err(NoValue::Raises(LanguageError::Range)),
        }
    }

    /// The same apart from the variables, of which it is copied, or `NoMemory`. Only what is lent is copied.
    pub fn detach(self) -> Result<Given, NoMemory>
        ensures { IfOk result (λ given. given_as given ≡ got_as self.entry) }
    {
        Ok(match self {
            Got::Number(number) => Given::Number(number),
            Got::Lent(value) => Given::Whole(value.copy()?),
            Got::Made(value) => Given::Whole(value),
        })
    }

    /// How long a text or a sequence is.
    pub(crate) fn length(&self) -> Result<Got<'static>, NoValue>
        ensures { Gives got_as result (evaluating.length_given (got_as self.now)) }
    {
        match self.value() {
            Some(Value::Text(bytes)) => literal(bytes.len() as u64),
            Some(Value::Sequence(items)) => literal(items.len() as u64),
            _ => Err(NoValue::Raises(LanguageError::Range)),
        }
    }

    /// Whether a choice stands at the arm with this number.
    pub(crate) fn stands_at(&self, arm: u16) -> bool
        ensures { result ≡ evaluating.stands_at arm (got_as self.now) }
    {
        matches!(self.value(), Some(Value::Choice(number, _)) if *number == arm)
    }

    /// Whether two are the same.
    pub(crate) fn is_equal(&self, other: &Got<'_>) -> bool
        ensures { result ≡ got.is_equal (got_as self.now) (got_as other.now) }
    {
        match (self, other) {
            (Got::Number(one), Got::Number(two)) => one == two,
            _ => match (self.value(), other.value()) {
                (Some(one), Some(two)) => one == two,
                _ => false,
            },
        }
    }
}

/// A value that is made, unless it is above the limit.
pub(crate) fn unless_large(value: Value, limit: u32) -> Result<Got<'static>, NoValue>
    ensures { Gives got_as result (got.unless_large limit (tree_of value)) }
{
    if external_size(&value) <= u64::from(limit) {
        Ok(Got::Made(value))
    } else {
        Err(NoValue::Raises(LanguageError::TooLong))
    }
}

/// A text that is made, unless it is too long.
pub(crate) fn made_text(text: Text, limit: u32) -> Result<Got<'static>, NoValue>
    ensures { Gives got_as result (got.made_text limit text) }
{
    if text.len() <= MOST_TEXT {
        unless_large(Value::Text(text), limit)
    } else {
        Err(NoValue::Raises(LanguageError::TooLong))
    }
}

// The most bytes of a text.
const MOST_TEXT: usize = 65_535;
