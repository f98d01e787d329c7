// What a value holds that is known to be of a kind.
ghost use Rattle.std.specs.Prelude.{◌≡◌, ◌<◌, ℕ, Bool, true, List, length};
ghost use Rattle.circus_value.specs.ValueOf.{tree_of};
ghost use Rattle.circus_value.specs.ValueTree as tree;
ghost use Rattle.circus_value.specs.ValueTree.{ValueTree, ValueTrees, value_trees};
ghost use Rattle.circus_value.specs.Fits.{is_truth, is_cardinal, is_long_cardinal, is_integer, is_long_integer, is_text, is_labelled, is_array, is_sequence, is_record, is_choice};
ghost use Rattle.circus_value.specs.declared.shape.Label.{Label};

use circus_value::{Value, Values};

/// The truth value.
pub(crate) fn truth(value: &Value) -> bool
    requires { is_truth (tree_of value.now) ≡ true }
    ensures { tree_of value.now ≡ tree.boolean result }
{
    match value {
        Value::Boolean(truth) => *truth,
        _ => unreachable!(),
    }
}

/// The number of a word, without a sign.
pub(crate) fn cardinal(value: &Value) -> u16
    requires { is_cardinal (tree_of value.now) ≡ true }
    ensures { tree_of value.now ≡ tree.cardinal result }
{
    match value {
        Value::Cardinal(number) => *number,
        _ => unreachable!(),
    }
}

/// The number of two words, without a sign.
pub(crate) fn long_cardinal(value: &Value) -> u32
    requires { is_long_cardinal (tree_of value.now) ≡ true }
    ensures { tree_of value.now ≡ tree.long_cardinal result }
{
    match value {
        Value::LongCardinal(number) => *number,
        _ => unreachable!(),
    }
}

/// The number of a word, with a sign.
pub(crate) fn integer(value: &Value) -> i16
    requires { is_integer (tree_of value.now) ≡ true }
    ensures { tree_of value.now ≡ tree.integer result }
{
    match value {
        Value::Integer(number) => *number,
        _ => unreachable!(),
    }
}

/// The number of two words, with a sign.
pub(crate) fn long_integer(value: &Value) -> i32
    requires { is_long_integer (tree_of value.now) ≡ true }
    ensures { tree_of value.now ≡ tree.long_integer result }
{
    match value {
        Value::LongInteger(number) => *number,
        _ => unreachable!(),
    }
}

/// The string's bytes, fewer than 65,536.
pub(crate) fn text(value: &Value) -> &[u8]
    requires { is_text (tree_of value.now) ≡ true }
    ensures is { tree_of value.now ≡ tree.text result.now }
    ensures few { length result.now < 65536 }
{
    match value {
        Value::Text(bytes) => bytes.as_slice(),
        _ => unreachable!(),
    }
}

/// The label's number.
pub(crate) fn label(value: &Value) -> u16
    requires { (labels : List Label) × (is_labelled labels (tree_of value.now) ≡ true) }
    ensures { tree_of value.now ≡ tree.enumeration result }
{
    match value {
        Value::Enumeration(number) => *number,
        _ => unreachable!(),
    }
}

/// The items of an array.
pub(crate) fn array(value: &Value) -> &Values
    requires { (len : ℕ) × (passes : ValueTree → Bool)
        × (is_array len passes (tree_of value.now) ≡ true) }
    ensures { tree_of value.now ≡ tree.array (value_trees result.now) }
{
    match value {
        Value::Array(items) => items,
        _ => unreachable!(),
    }
}

/// The items of a sequence.
pub(crate) fn sequence(value: &Value) -> &Values
    requires { (bound : ℕ) × (passes : ValueTree → Bool)
        × (is_sequence bound passes (tree_of value.now) ≡ true) }
    ensures { tree_of value.now ≡ tree.sequence (value_trees result.now) }
{
    match value {
        Value::Sequence(items) => items,
        _ => unreachable!(),
    }
}

/// The values of the fields.
pub(crate) fn parts(value: &Value) -> &Values
    requires { (pass : ValueTrees → Bool) × (is_record pass (tree_of value.now) ≡ true) }
    ensures { tree_of value.now ≡ tree.«record» (value_trees result.now) }
{
    match value {
        Value::Record(items) => items,
        _ => unreachable!(),
    }
}

/// An arm's number and its value.
pub(crate) fn choice(value: &Value) -> (u16, &Value)
    requires { (passes : ℕ → ValueTree → Bool) × (is_choice passes (tree_of value.now) ≡ true) }
    ensures { tree_of value.now ≡ tree.choice result.0 (tree_of result.1.now) }
{
    match value {
        Value::Choice(number, chosen) => (*number, chosen.value()),
        _ => unreachable!(),
    }
}
