// A module that adds up the numbers that it is given.
ghost use Rattle.std.specs.Prelude.{◌≡◌, [], ◌∷◌, IfOk};
ghost use Rattle.circus_value.specs.declared.outcome.Outcome.TheVariants.{Raised};
ghost use Rattle.circus_model.specs.LanguageError.{number_of};
ghost use Rattle.circus_model.specs.declared.language_error.LanguageError.TheVariants.{Unhandled};
ghost use Rattle.circus_model.specs.declared.turn.Turn.TheVariants.{Ends};
ghost use Rattle.circus_machine.specs.Tally as tally;
ghost use Rattle.circus_machine.specs.Tally.{add, tally_signature, tally_turn};

use circus_limits::FIRST_LIMIT;
use circus_model::{LanguageError, Module, ProcedureShape, ProcedureShapes, Signature, Turn};
use circus_value::{Duplicate, ListOf, NoMemory, Outcome, Shape, Shapes, State, Value, Values};
use std::alloc::Global;

/// A module written in Rattle, with one variable, a LONG CARDINAL. Procedure 1 adds a CARDINAL to it and returns the
/// sum; where that is above 4,294,967,295 it raises 60001 and changes nothing.
#[derive(Debug, Drop)]
pub struct Tally {
    alloc: Global,
    signature: Signature,
    ghost declares: { signature ≡ tally_signature },
}

/// What an execution of a tally would wait with. None waits.
#[derive(Debug, Drop)]
pub struct Unused;

impl Tally {
    /// A tally, or `NoMemory`.
    pub fn new(alloc: Global) -> Result<Tally, NoMemory> {
        Ok(Tally {
            alloc,
            signature: Signature {
                root: false,
                imports: ListOf::new(alloc),
                variables: one_shape(alloc, Shape::LongCardinal)?,
                procedures: procedures(alloc)?,
                limit: FIRST_LIMIT,
            },
        })
    }
}

// A list of one shape.
fn one_shape(alloc: Global, shape: Shape) -> Result<Shapes, NoMemory>
    ensures { IfOk result (λ shapes. shapes ≡ shape ∷ []) }
{
    let mut shapes = Shapes::new(alloc);
    shapes.push(shape)?;
    Ok(shapes)
}

// The procedure.
fn procedures(alloc: Global) -> Result<ProcedureShapes, NoMemory>
    ensures { IfOk result (λ procedures. procedures ≡ add ∷ []) }
{
    let mut procedures = ProcedureShapes::new(alloc);
    procedures.push(ProcedureShape {
        number: 1,
        arguments: one_shape(alloc, Shape::Cardinal)?,
        results: one_shape(alloc, Shape::LongCardinal)?,
        errors: ListOf::new(alloc),
    })?;
    Ok(procedures)
}

// A list of one sum.
fn one_sum(alloc: Global, sum: u32) -> Result<Values, NoMemory>
    ensures { IfOk result (λ values. values ≡ tally.one_sum sum) }
{
    let mut values = Values::new(alloc);
    values.push(Value::LongCardinal(sum))?;
    Ok(values)
}

// The sum in a state.
fn sum_in(state: &State) -> u32
    ensures { result ≡ tally.sum_in state.now }
{
    match state.get(0) {
        Some(Value::LongCardinal(sum)) => *sum,
        _ => 0,
    }
}

// The number in arguments.
fn number_in(arguments: &Values) -> u16
    ensures { result ≡ tally.number_in arguments.now }
{
    match arguments.get(0) {
        Some(Value::Cardinal(number)) => *number,
        _ => 0,
    }
}

impl Module for Tally {
    /// No execution of a tally waits for a reply.
    type Paused = Unused;

    ghost declared = { λ _. tally_signature };

    ghost turn = { λ _. tally_turn };

    ghost first = { λ _. tally.one_sum 0 };

    ghost stands = { λ _ _ _ _ _ _. ⊥ };

    ghost use Rattle.circus_machine.specs.Laws.OfTally as laws;

    ghost first_is_state = { λ _. laws.first_is_state };

    ghost turns_are_lawful = { λ _ state procedure arguments replies start _. laws.is_lawful state procedure arguments replies start };

    fn signature(&self) -> &Signature {
        &self.signature
    }

    fn copy(&self) -> Result<Self, NoMemory> {
        Ok(Tally {
            alloc: self.alloc,
            signature: self.signature.copy()?,
        })
    }

    fn first_state(&self) -> Result<State, NoMemory> {
        one_sum(self.alloc, 0)
    }

    fn start(
        &self,
        state: State,
        _procedure: u16,
        arguments: &Values,
    ) -> Result<Turn<Unused>, NoMemory> {
        let Some(sum) = sum_in(&state).checked_add(u32::from(number_in(arguments))) else {
            let outcome = LanguageError::Range.raised_outcome(self.alloc);
            return Ok(Turn::Ends { outcome, state });
        };
        Ok(Turn::Ends {
            outcome: Outcome::Returned(one_sum(self.alloc, sum)?),
            state: one_sum(self.alloc, sum)?,
        })
    }

    // Nothing is paused, so nothing goes on: it ends in the first state, and raises the error of a reply that nobody
    // expected.
    fn resume(&self, _paused: Unused, _reply: &Outcome) -> Result<Turn<Unused>, NoMemory>
        ensures { IfOk result (λ turn.
            turn ≡ Ends (Raised (number_of Unhandled) []) (tally.one_sum 0)) }
    {
        let outcome = LanguageError::Unhandled.raised_outcome(self.alloc);
        let state = one_sum(self.alloc, 0)?;
        Ok(Turn::Ends { outcome, state })
    }
}
