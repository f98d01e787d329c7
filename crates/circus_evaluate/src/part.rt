// Parts of values, and the steps that lead to them.
ghost use Rattle.std.specs.Prelude.{◌≡◌, ◌-◌, ◌^◌, ◌<◌, Ok, Err, ok_or, min, slice_get, length, map, MatchResult, OnOk};
ghost use Rattle.circus_value.specs.ValueOf.{tree_of};
ghost use Rattle.circus_value.specs.ValueTree.{value_trees};
ghost use Rattle.circus_evaluate.specs.Parts as parts;
ghost use Rattle.circus_evaluate.specs.Steps.{step_as};
ghost use Rattle.circus_evaluate.specs.Putting.{put_over, with_put, with_put_item, grows_by, shrinks_by};
ghost use Rattle.circus_evaluate.specs.Seen.Subscripts.{with_put_under};

use circus_model::LanguageError;
use circus_value::{NoMemory, Value, Values, external_size};

/// One step into a value.
#[derive(Clone, Copy, Debug)]
pub enum Step {
    /// To the field at this place.
    Field(usize),
    /// To the arm with this number.
    Arm(u16),
    /// To the item under this subscript, counted from 0.
    Item(i64),
}

/// The part of a value that a step leads to. It takes no memory.
pub(crate) fn part_by(value: &Value, step: Step) -> Result<&Value, LanguageError>
    ensures { MatchResult result (λ part.
        parts.part_by (step_as step) (tree_of value.now) ≡ Ok (tree_of part.now)) (λ error.
        parts.part_by (step_as step) (tree_of value.now) ≡ Err error) }
{
    match step {
        Step::Field(place) => match value {
            Value::Record(items) => item(items, place, LanguageError::WrongChoice),
            _ => Err(LanguageError::WrongChoice),
        },
        Step::Arm(arm) => match value {
            Value::Choice(number, chosen) if *number == arm => Ok(chosen.value()),
            _ => Err(LanguageError::WrongChoice),
        },
        Step::Item(place) => match value {
            Value::Array(items) | Value::Sequence(items) => item_under(items, place),
            _ => Err(LanguageError::WrongChoice),
        },
    }
}

// The item under a subscript.
fn item_under(items: &Values, subscript: i64) -> Result<&Value, LanguageError>
    ensures { MatchResult result (λ part.
        parts.item_under subscript (value_trees items.now) ≡ Ok (tree_of part.now)) (λ error.
        parts.item_under subscript (value_trees items.now) ≡ Err error) }
{
    if subscript < 0 {
        Err(LanguageError::Index)
    } else {
        item(items, subscript as usize, LanguageError::Index)
    }
}

// The item at a place, or what is raised where there is none.
#[tactic(auto, using(crate::proofs::Items::list_of_trees))]
fn item(items: &Values, place: usize, missing: LanguageError) -> Result<&Value, LanguageError>
    ensures { MatchResult result (λ part.
        ok_or (slice_get (parts.list_of (value_trees items.now)) place) missing
        ≡ Ok (tree_of part.now)) (λ error.
        ok_or (slice_get (parts.list_of (value_trees items.now)) place) missing ≡ Err error) }
{
    items.get(place).ok_or(missing)
}

/// The part of a value that steps lead to. It raises, by the first step that leads nowhere, `Index` for a subscript below 0
/// or not below the length, and `WrongChoice` for an arm that isn't chosen, or a value that has no such part
/// (docs/LANGUAGE.md, "Executions"). It takes no memory.
pub fn part_at<'v>(value: &'v Value, steps: &[Step]) -> Result<&'v Value, LanguageError>
    ensures { MatchResult result (λ part.
        parts.part_at (map step_as steps.now) (tree_of value.now) ≡ Ok (tree_of part.now)) (λ error.
        parts.part_at (map step_as steps.now) (tree_of value.now) ≡ Err error) }
{
    let mut part = value;
    for step in steps {
        part = part_by(part, *step)?;
    }
    Ok(part)
}

/// What goes to a place.
#[derive(Debug, Drop)]
pub enum Put {
    /// It takes the place of what stands there.
    Whole(Value),
    /// It goes to the end of the sequence that stands there.
    More(Value),
}

impl Put {
    /// How many bytes more there are, once it was put, up to 2^64 - 1: those of the external form of what it has. It takes no
    /// memory.
    pub fn grows_by(&self) -> u64
        ensures { result ≡ min (grows_by self.now) (2 ^ 64 - 1) }
    {
        match self {
            Put::Whole(value) | Put::More(value) => external_size(value),
        }
    }

    /// How many bytes fewer there are, once it was put where this value stood, up to 2^64 - 1: those of the value's external
    /// form where it takes its place, else none. It takes no memory.
    pub fn shrinks_by(&self, old: &Value) -> u64
        ensures { result ≡ min (shrinks_by self.now (tree_of old.now)) (2 ^ 64 - 1) }
    {
        match self {
            Put::Whole(_) => external_size(old),
            Put::More(_) => 0,
        }
    }
}

/// Puts something where steps lead to; where they lead nowhere, it does nothing. It goes no deeper than the steps.
#[cycle(putting)]
#[tactic(auto, using(crate::proofs::PutLemmas::record_put, crate::proofs::PutLemmas::array_put_under, crate::proofs::PutLemmas::sequence_put_under))]
pub(crate) fn put_in(value: &mut Value, steps: &[Step], what: Put) -> Result<(), NoMemory>
    ensures { OnOk result
        (tree_of value.new ≡ with_put (map step_as steps.now) what (tree_of value.old)) }
{
    let Some((step, rest)) = steps.split_first() else {
        return put_here(value, what);
    };
    match *step {
        Step::Field(place) => match value {
            Value::Record(items) => put_item(items, place, rest, what),
            _ => Ok(()),
        },
        Step::Arm(arm) => match value {
            Value::Choice(number, chosen) => {
                if *number != arm {
                    return Ok(());
                }
                let mut inner = chosen.replace(Value::Boolean(false))?;
                let done = put_in(&mut inner, rest, what);
                chosen.replace(inner)?;
                done
            }
            _ => Ok(()),
        },
        Step::Item(subscript) => match value {
            Value::Array(items) => put_under(items, subscript, rest, what),
            Value::Sequence(items) => put_under(items, subscript, rest, what),
            _ => Ok(()),
        },
    }
}

// Puts something into the item under a subscript.
#[cycle(putting)]
fn put_under(items: &mut Values, subscript: i64, steps: &[Step], what: Put) -> Result<(), NoMemory>
    ensures { OnOk result
        (items.new ≡ with_put_under (map step_as steps.now) what subscript items.old) }
{
    if subscript < 0 {
        return Ok(());
    }
    put_item(items, subscript as usize, steps, what)
}

/// Puts something where steps lead to in the item at a place. Where there is no such item, or the steps lead nowhere, or an
/// item more goes to what is no sequence, it changes nothing. What is changed is shared no longer, which may take memory, as
/// one item more may; after `NoMemory` nothing is said of the items. It goes no deeper than the steps.
#[cycle(putting)]
pub fn put_item(items: &mut Values, place: usize, steps: &[Step], what: Put) -> Result<(), NoMemory>
    ensures { OnOk result (items.new ≡ with_put_item (map step_as steps.now) what place items.old) }
{
    if place >= items.len() {
        return Ok(());
    }
    match (what, steps.is_empty()) {
        (Put::Whole(value), true) => {
            items.replace(place, value)?;
            Ok(())
        }
        (what, _) => put_within(items, place, steps, what),
    }
}

// Puts something into an item, which is taken out for a while: so it is held once, and changed where it stands.
#[cycle(putting)]
fn put_within(items: &mut Values, place: usize, steps: &[Step], what: Put) -> Result<(), NoMemory>
    requires { place < length items.old }
    ensures { OnOk result (items.new ≡ with_put_item (map step_as steps.now) what place items.old) }
{
    let mut inner = items.replace(place, Value::Boolean(false))?;
    let done = put_in(&mut inner, steps, what);
    items.replace(place, inner)?;
    done
}

#[tactic(auto, using(crate::proofs::Items::list_of_trees))]
fn put_here(value: &mut Value, what: Put) -> Result<(), NoMemory>
    ensures { OnOk result (tree_of value.new ≡ put_over what (tree_of value.old)) }
{
    match what {
        Put::Whole(whole) => *value = whole,
        Put::More(more) => {
            if let Value::Sequence(items) = value {
                items.push(more)?;
            }
        }
    }
    Ok(())
}
