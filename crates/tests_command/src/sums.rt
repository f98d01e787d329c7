// The greatest sum of the tally.
use circus_machine::{Tally, Unused};
use circus_model::{LanguageError, Module, Turn};
use circus_value::{NoMemory, Outcome, State, Value, Values};
use std::alloc::Global;
use std::test::Fail;

// A sum, what is added, and the sum that it gives, or nothing where it would be too great.
const ROWS: [(u32, u16, Option<u32>); 4] = [
    (4_294_967_290, 5, Some(4_294_967_295)),
    (4_294_967_295, 0, Some(4_294_967_295)),
    (4_294_967_295, 1, None),
    (4_294_901_761, 65_535, None),
];

fn sum_of(alloc: Global, sum: u32) -> Result<Values, NoMemory> {
    let mut values = Values::new(alloc);
    values.push(Value::LongCardinal(sum))?;
    Ok(values)
}

// What a tally does at this sum, to which a number is added.
fn turn_of_sum(alloc: Global, sum: u32, number: u16) -> Result<Turn<Unused>, NoMemory> {
    let mut state = State::new(alloc);
    state.push(Value::LongCardinal(sum))?;
    let mut arguments = Values::new(alloc);
    arguments.push(Value::Cardinal(number))?;
    Tally::new(alloc)?.start(state, 1, &arguments)
}

// Whether the execution ends so, with the new sum or the old one in its state.
fn ends_so(alloc: Global, sum: u32, number: u16, gives: Option<u32>) -> Result<bool, NoMemory> {
    let expected = match gives {
        Some(new) => Outcome::Returned(sum_of(alloc, new)?),
        None => LanguageError::Range.raised_outcome(alloc),
    };
    match turn_of_sum(alloc, sum, number)? {
        Turn::Ends { outcome, state } => {
            Ok(outcome == expected && state == sum_of(alloc, gives.unwrap_or(sum))?)
        }
        Turn::Asks { .. } => Ok(false),
    }
}

#[test]
fn the_tally_has_a_greatest_sum(rt: HostRuntime) -> Result<(), Fail> {
    for (sum, number, gives) in &ROWS {
        assert!(rt; ends_so(rt.alloc(), *sum, *number, *gives)?);
    }
    Ok(())
}
