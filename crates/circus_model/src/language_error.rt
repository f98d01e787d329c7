// The errors of the language.
ghost use Rattle.std.specs.Prelude.{◌≡◌, if◌then◌else◌, [], Some, None, option_map};
ghost use Rattle.circus_model.specs.LanguageError.{number_of, of_number, is_language_error};
ghost use Rattle.circus_value.specs.declared.outcome.Outcome.TheVariants.{Raised};

use circus_value::{Outcome, Values};
use std::alloc::Global;

/// An error that the language raises, or the runtime of a thread. It has no values, and its number is 60,001 to
/// 60,009 (docs/FORMATS.md, "Outcomes and lists of values").
#[derive(Clone, Copy, Debug, PartialEq, Eq)]
pub enum LanguageError {
    /// A number that its kind or the arithmetic doesn't hold.
    Range = 60_001,
    /// A subscript that names no item.
    Index,
    /// A divisor 0.
    Zero,
    /// A text, a value, values together or a state above the limit.
    TooLong,
    /// A step more than an execution has.
    StepLimit,
    /// An ask more than an execution has.
    CallLimit,
    /// A call more than a thread has. The runtime gives it.
    ThreadSpent,
    /// An arm that was not chosen.
    WrongChoice,
    /// A reported error that nothing handled.
    Unhandled,
}

impl LanguageError {
    /// The number under which it is raised.
    pub fn number(self) -> u16
        ensures { result ≡ number_of self }
    {
        self as u16
    }

    /// The outcome of what raises it.
    pub fn raised_outcome(self, alloc: Global) -> Outcome
        ensures { result ≡ Raised (number_of self) [] }
    {
        Outcome::Raised(self.number(), Values::new(alloc))
    }

    /// The error that is raised under this number, if there is one.
    pub fn of_number(number: u16) -> Option<LanguageError>
        ensures error { result ≡ of_number number }
        ensures inverse { option_map number_of result
            ≡ (if is_language_error number then Some number else None) }
    {
        use LanguageError::*;
        match number {
            60_001 => Some(Range),
            60_002 => Some(Index),
            60_003 => Some(Zero),
            60_004 => Some(TooLong),
            60_005 => Some(StepLimit),
            60_006 => Some(CallLimit),
            60_007 => Some(ThreadSpent),
            60_008 => Some(WrongChoice),
            60_009 => Some(Unhandled),
            _ => None,
        }
    }

    /// Whether one of them has this number.
    pub fn has(number: u16) -> bool
        ensures { result ≡ is_language_error number }
    {
        LanguageError::Range.number() <= number && number <= LanguageError::Unhandled.number()
    }
}
