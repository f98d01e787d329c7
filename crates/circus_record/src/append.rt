// Numbers, clocks, paths and values, each behind words, as they are added to a text.
ghost use Rattle.std.specs.Prelude.{◌≡◌, ◌++◌, OnOk, string_bytes};
ghost use Rattle.circus_value.specs.OutcomeText.{outcome_text};
ghost use Rattle.circus_value.specs.Shown.{shown_list};
ghost use Rattle.circus_value.specs.ThreadText.{clock_text, path_text};
ghost use Rattle.circus_record.specs.Line.{step_text};

use circus_value::{Clock, NoMemory, Outcome, Path, Values, append_list};
use itoa::{Buffer, Integer};

/// Adds words and a number.
pub(crate) fn append_number<I: Integer>(
    text: &mut String,
    words: &str,
    number: I,
) -> Result<(), NoMemory>
    ensures { OnOk result (string_bytes text.new
        ≡ string_bytes text.old ++ (words.now ++ I.text number)) }
{
    let mut digits = Buffer::new();
    text.push_str(words)?;
    text.push_str(digits.format(number))
}

/// Adds the step, where it is told.
pub(crate) fn append_step(text: &mut String, step: Option<u64>) -> Result<(), NoMemory>
    ensures { OnOk result (string_bytes text.new ≡ string_bytes text.old ++ step_text step) }
{
    match step {
        Some(step) => append_number(text, " step ", step),
        None => Ok(()),
    }
}

/// Adds words and a clock.
pub(crate) fn append_clock(text: &mut String, words: &str, clock: &Clock) -> Result<(), NoMemory>
    ensures { OnOk result (string_bytes text.new
        ≡ string_bytes text.old ++ (words.now ++ clock_text clock.now)) }
{
    let Some((first, others)) = clock.as_slice().split_first() else {
        return text.push_str(words);
    };
    append_number(text, words, *first)?;
    for count in others {
        append_number(text, ",", *count)?;
    }
    Ok(())
}

/// Adds words and a path, by its root's name.
pub(crate) fn append_path(
    text: &mut String,
    words: &str,
    root: &str,
    path: &Path,
) -> Result<(), NoMemory>
    ensures { OnOk result (string_bytes text.new
        ≡ string_bytes text.old ++ (words.now ++ path_text root.now path.now)) }
{
    text.push_str(words)?;
    text.push_str(root)?;
    for number in path.as_slice() {
        append_number(text, ".", *number)?;
    }
    Ok(())
}

/// Adds words and a list of values, or a state.
pub(crate) fn append_values(text: &mut String, words: &str, values: &Values) -> Result<(), NoMemory>
    ensures { OnOk result (string_bytes text.new
        ≡ string_bytes text.old ++ (words.now ++ shown_list values.now)) }
{
    text.push_str(words)?;
    append_list(text, values)
}

/// Adds words and an outcome.
pub(crate) fn append_outcome(
    text: &mut String,
    words: &str,
    outcome: &Outcome,
) -> Result<(), NoMemory>
    ensures { OnOk result (string_bytes text.new
        ≡ string_bytes text.old ++ (words.now ++ outcome_text outcome.now)) }
{
    text.push_str(words)?;
    match outcome {
        Outcome::Returned(results) => append_values(text, "returned ", results),
        Outcome::Raised(error, values) => {
            append_number(text, "raised ", *error)?;
            append_values(text, " ", values)
        }
    }
}
