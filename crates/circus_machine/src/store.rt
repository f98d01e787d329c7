// Variables, and what is stored in them.
ghost use Rattle.std.specs.Prelude.{◌≡◌, ℕ, ◌<◌, ◌≤◌, ◌+◌, ◌-◌, ◌^◌, Ok, Err, Some, All, ok_or, min, ◌++◌, map, length, take, slice_get, MatchResult, OnOk, IfOk};
ghost use Rattle.circus_value.specs.ValueTree.{ValueTree};
ghost use Rattle.circus_value.specs.ValueOf.{tree_of};
ghost use Rattle.circus_value.specs.ExternalSize.{external_size, size_of_values};
ghost use Rattle.circus_model.specs.declared.language_error.LanguageError.TheVariants.{TooLong, WrongChoice};
ghost use Rattle.circus_machine.specs.Storing as storing;
ghost use Rattle.circus_evaluate.specs.Given.{given_as};
ghost use Rattle.circus_evaluate.specs.Putting.{put_over, grows_by, shrinks_by};
ghost use Rattle.circus_machine.specs.Seen.Changing.{changed_over, AreSized, Resized, Changed};

use circus_checked::{CheckedPlace, NumberKind};
use circus_evaluate::{Given, NoValue, Put, as_kind, part_at, put_item, steps_of};
use circus_model::LanguageError;
use circus_value::{
    Duplicate, ListOf, NoMemory, State, Value, Values, ValuesBuilder, external_size, values_size,
};
use std::alloc::Global;

/// The variables of an execution with the sizes of their external forms, which are kept as they change.
#[derive(Debug, Drop)]
pub(crate) struct Variables {
    pub values: Values,
    /// The first so many are the module's state.
    pub states: usize,
    /// The size of each.
    pub sizes: ListOf<u64>,
    /// The size of the state.
    pub state_size: u64,
}

/// How what is given changes a value.
#[derive(Clone, Copy, Debug)]
pub(crate) enum Change {
    /// It is stored in the value's place.
    Assign,
    /// The sequence, which has at most so many items, gets it as one more; of numbers, one of this kind.
    Append(u16, Option<NumberKind>),
}

impl Change {
    // What is put where this value stands. It takes no memory.
    #[tactic(auto, using(crate::proofs::Appending::appended_fits, crate::proofs::Appending::appended_full, crate::proofs::Appending::last_size))]
    fn put_over(self, given: Given, old: &Value) -> Result<Put, LanguageError>
        ensures meant { MatchResult result (λ put.
            changed_over self (given_as given) (tree_of old.now)
            ≡ Ok (put_over put (tree_of old.now))) (λ error.
            changed_over self (given_as given) (tree_of old.now) ≡ Err error) }
        ensures sized { IfOk result (λ put.
            external_size (put_over put (tree_of old.now)) + shrinks_by put (tree_of old.now)
            ≡ external_size (tree_of old.now) + grows_by put) }
    {
        match self {
            Change::Assign => Ok(Put::Whole(stored_over(given, old)?)),
            Change::Append(bound, kind) => {
                let item = as_item(kind, given)?;
                match old {
                    Value::Sequence(items) if items.len() < usize::from(bound) => Ok(Put::More(
                        item,
                    )),
                    Value::Sequence(_) => Err(LanguageError::TooLong),
                    _ => Err(LanguageError::WrongChoice),
                }
            }
        }
    }
}

// What is stored over an old value.
fn stored_over(given: Given, old: &Value) -> Result<Value, LanguageError>
    ensures { MatchResult result (λ value.
        storing.stored_over (given_as given) (tree_of old.now) ≡ Ok (tree_of value)) (λ error.
        storing.stored_over (given_as given) (tree_of old.now) ≡ Err error) }
{
    let number = match given {
        Given::Number(number) => number,
        Given::Whole(value) => return Ok(value),
    };
    match old {
        Value::Cardinal(_) => as_kind(NumberKind::Cardinal, number),
        Value::LongCardinal(_) => as_kind(NumberKind::LongCardinal, number),
        Value::Integer(_) => as_kind(NumberKind::Integer, number),
        Value::LongInteger(_) => as_kind(NumberKind::LongInteger, number),
        _ => Err(LanguageError::Range),
    }
}

// An item as a sequence holds it.
fn as_item(kind: Option<NumberKind>, given: Given) -> Result<Value, LanguageError>
    ensures { MatchResult result (λ value.
        storing.as_item kind (given_as given) ≡ Ok (tree_of value)) (λ error.
        storing.as_item kind (given_as given) ≡ Err error) }
{
    match (kind, given) {
        (None, Given::Whole(value)) => Ok(value),
        (Some(kind), Given::Number(number)) => as_kind(kind, number),
        _ => Err(LanguageError::Range),
    }
}

// A size once it has grown and shrunk, if it isn't above the limit.
fn resize(size: u64, grows: u64, shrinks: u64, limit: u32) -> Result<u64, LanguageError>
    requires small { size < 4294967296 }
    requires part { shrinks ≤ size }
    ensures { MatchResult result (λ after.
        (after + shrinks ≡ size + grows) × (after ≤ limit)) (λ error.
        (error ≡ TooLong) × (limit + shrinks < size + grows)) }
{
    let after = size.saturating_add(grows) - shrinks;
    if after <= u64::from(limit) {
        Ok(after)
    } else {
        Err(LanguageError::TooLong)
    }
}

// The size of a variable and that of the state, once the variable has changed.
#[derive(Clone, Copy, Drop)]
struct Sizes {
    variable: u64,
    state: u64,
}

// Adds copies of values at the end. After `NoMemory` some of them may have been added.
fn append_copies(values: &mut ValuesBuilder, more: &Values) -> Result<(), NoMemory>
    ensures { OnOk result (values.new ≡ values.old ++ more.now) }
{
    for value in more.as_slice() {
        values.push(value.copy()?)?;
    }
    Ok(())
}

// The size of each value.
fn sizes_of(alloc: Global, values: &Values) -> Result<ListOf<u64>, NoMemory>
    requires { All (λ t. external_size t < 4294967296) values.now }
    ensures { IfOk result (λ sizes. sizes ≡ map external_size values.now) }
{
    let mut sizes = Vec::with_capacity(alloc, values.len())?;
    for value in values.as_slice() {
        sizes.push(external_size(value))?;
    }
    Ok(ListOf::of(sizes))
}

impl Variables {
    /// The variables of an execution at its beginning.
    pub fn new(
        alloc: Global,
        state: State,
        arguments: &Values,
        locals: &Values,
    ) -> Result<Variables, NoMemory>
        requires state { size_of_values state < 4294967296 }
        requires arguments { size_of_values arguments.now < 4294967296 }
        requires locals { size_of_values locals.now < 4294967296 }
        ensures values { IfOk result (λ variables.
            variables.values ≡ state ++ (arguments.now ++ locals.now)) }
        ensures states { IfOk result (λ variables. variables.states ≡ length state) }
        ensures sized { IfOk result AreSized }
    {
        let states = state.len();
        let state_size = values_size(&state);
        let others = arguments.len().saturating_add(locals.len());
        let mut all = ValuesBuilder::with_capacity(alloc, states.saturating_add(others))?;
        append_copies(&mut all, &state)?;
        append_copies(&mut all, arguments)?;
        append_copies(&mut all, locals)?;
        let values = all.finish()?;
        let sizes = sizes_of(alloc, &values)?;
        Ok(Variables {
            values,
            states,
            sizes,
            state_size,
        })
    }

    /// A copy of the state.
    pub fn state(&self, alloc: Global) -> Result<State, NoMemory>
        ensures { IfOk result (λ state. state ≡ take self.now.states self.now.values) }
    {
        let mut state = ValuesBuilder::with_capacity(alloc, self.states)?;
        for place in 0..self.states {
            let Some(value) = self.values.get(place) else {
                return Ok(state.finish()?);
            };
            state.push(value.copy()?)?;
        }
        Ok(state.finish()?)
    }

    /// The state, without the other variables.
    pub fn into_state(mut self) -> Result<State, NoMemory>
        ensures { IfOk result (λ state. state ≡ take self.states self.values) }
    {
        self.values.truncate(self.states)?;
        Ok(self.values)
    }

    // The variable at a place. It takes no memory.
    fn variable(&self, index: usize) -> Result<&Value, LanguageError>
        ensures { MatchResult result (λ value.
            ok_or (slice_get self.now.values index) WrongChoice ≡ Ok (tree_of value.now)) (λ error.
            ok_or (slice_get self.now.values index) WrongChoice ≡ Err error) }
    {
        self.values.get(index).ok_or(LanguageError::WrongChoice)
    }

    // The sizes once a variable has grown and shrunk, if neither is above the limit.
    fn sizes_after(
        &self,
        index: usize,
        grows: u64,
        shrinks: u64,
        limit: u32,
    ) -> Result<Sizes, LanguageError>
        requires sized { AreSized self.now }
        requires part { (t : ValueTree) → slice_get self.now.values index ≡ Some t
            → shrinks ≤ external_size t }
        requires there { index < length self.now.values }
        ensures { (g : ℕ) (t w : ValueTree) → grows ≡ min g (2 ^ 64 - 1)
            → slice_get self.now.values index ≡ Some t
            → external_size w + shrinks ≡ external_size t + g
            → Resized limit self.now index w result }
    {
        let variable = resize(self.sizes.as_slice()[index], grows, shrinks, limit)?;
        let state = if index < self.states {
            resize(self.state_size, grows, shrinks, limit)?
        } else {
            self.state_size
        };
        Ok(Sizes { variable, state })
    }

    /// Changes what stands at a place by what is given. A variable and the state have at most so many bytes. After an
    /// error that the language raises the variables are as before; after `NoMemory` they are lost.
    pub fn change(
        &mut self,
        alloc: Global,
        limit: u32,
        place: &CheckedPlace,
        change: Change,
        given: Given,
    ) -> Result<(), NoValue>
        requires { AreSized self.old }
        ensures { Changed result
            (storing.store_at limit self.old.states self.old.values place.now
            (changed_over change (given_as given))) self.old self.new }
    {
        let steps = steps_of(alloc, limit, &self.values, &place.suffixes)?;
        let index = usize::from(place.variable);
        let old = part_at(self.variable(index)?, steps.as_slice())?;
        let put = change.put_over(given, old)?;
        let sizes = self.sizes_after(index, put.grows_by(), put.shrinks_by(old), limit)?;
        put_item(&mut self.values, index, steps.as_slice(), put)?;
        self.sizes.set(index, sizes.variable);
        self.state_size = sizes.state;
        Ok(())
    }
}
