// Executions of code, until they ask or end.
ghost use Rattle.std.specs.Prelude.{◌≡◌, [], ◌∷◌, List, take, IfOk};
ghost use Rattle.circus_value.specs.declared.outcome.Outcome.{Outcome as Ended};
ghost use Rattle.circus_value.specs.declared.outcome.Outcome.TheVariants.{Raised};
ghost use Rattle.circus_model.specs.LanguageError.{number_of};
ghost use Rattle.circus_model.specs.Gives.{Gives};
ghost use Rattle.circus_model.specs.declared.turn.Turn.TheVariants.{Ends};
ghost use Rattle.circus_machine.specs.Meaning as meaning;
ghost use Rattle.circus_machine.specs.Meaning.{Going, Flow};
ghost use Rattle.circus_machine.specs.Seen.Changing.{AreSized};
ghost use Rattle.circus_machine.specs.Seen.Code as acts;
ghost use Rattle.circus_machine.specs.Seen.Instructions.{acts_of};
ghost use Rattle.circus_machine.specs.Seen.Running.{going_of, Awaits, StandsAtAsk};

use crate::code::Instruction;
use crate::execution::{Execution, Move};
use circus_evaluate::NoValue;
use circus_model::{LanguageError, Turn};
use circus_value::{NoMemory, Outcome};
use std::alloc::{AllocError, Global};

/// An execution that waits for a reply.
#[derive(Debug, Drop)]
pub struct Paused {
    /// The place of the instruction that asks.
    pub(crate) place: usize,
    pub(crate) execution: Execution,
}

impl Execution {
    // The end by this outcome.
    fn end_with(self, outcome: Outcome) -> Result<Turn<Paused>, NoMemory>
        ensures { IfOk result (λ turn.
            turn ≡ Ends outcome (take self.variables.states self.variables.values)) }
    {
        Ok(Turn::Ends {
            outcome,
            state: self.variables.into_state()?,
        })
    }

    // The end by an error of the language.
    fn fail_with(self, alloc: Global, error: LanguageError) -> Result<Turn<Paused>, NoMemory>
        ensures { IfOk result (λ turn.
            turn ≡ Ends (Raised (number_of error) [])
            (take self.variables.states self.variables.values)) }
    {
        self.end_with(error.raised_outcome(alloc))
    }
}

/// Goes on at a place of a body's code, until the execution asks or ends.
pub(crate) fn run(
    alloc: Global,
    limit: u32,
    code: &[Instruction],
    mut execution: Execution,
    mut place: usize,
) -> Result<Turn<Paused>, NoMemory>
    requires sized { AreSized execution.variables }
    requires leads { acts.LeadsWithin (acts_of code.now) }
    ensures { (flow : List Ended → Flow Going)
        → ((replies : List Ended)
        → acts.Comes limit execution.variables.states (acts_of code.now) (flow replies) place
        (going_of execution replies))
        → IfOk result (Gives (Awaits limit execution.variables.states (acts_of code.now) flow)
        (meaning.turn_by limit execution.variables.states (flow []))) }
{
    loop {
        let Some(instruction) = code.get(place) else {
            return execution.fail_with(alloc, LanguageError::Unhandled);
        };
        match execution.step(alloc, limit, instruction, place) {
            Ok(Move::Goes(next)) => place = next,
            Ok(Move::Ends(outcome)) => return execution.end_with(outcome),
            Ok(Move::Asks(callee, procedure, arguments)) => {
                return Ok(Turn::Asks {
                    callee,
                    procedure,
                    arguments,
                    state: execution.variables.state(alloc)?,
                    paused: Paused { place, execution },
                });
            }
            Err(NoValue::Raises(error)) => return execution.fail_with(alloc, error),
            Err(NoValue::NoMemory) => return Err(AllocError),
        }
    }
}

/// Goes on with the reply to the ask at which the execution waits.
pub(crate) fn resume(
    alloc: Global,
    limit: u32,
    code: &[Instruction],
    paused: Paused,
    reply: &Outcome,
) -> Result<Turn<Paused>, NoMemory>
    requires sized { AreSized paused.execution.variables }
    requires leads { acts.LeadsWithin (acts_of code.now) }
    requires asking { StandsAtAsk (acts_of code.now) paused.place }
    ensures { (flow : List Ended → Flow Going)
        → Awaits limit paused.execution.variables.states (acts_of code.now) flow paused
        → IfOk result (Gives
        (Awaits limit paused.execution.variables.states (acts_of code.now) (λ replies.
        flow (reply.now ∷ replies)))
        (meaning.turn_by limit paused.execution.variables.states (flow (reply.now ∷ [])))) }
{
    let Paused {
        place,
        mut execution,
    } = paused;
    let Some(Instruction::Ask(asking)) = code.get(place) else {
        unreachable!()
    };
    match execution.reply(alloc, limit, asking, place, reply) {
        Ok(next) => run(alloc, limit, code, execution, next),
        Err(NoValue::Raises(error)) => execution.fail_with(alloc, error),
        Err(NoValue::NoMemory) => Err(AllocError),
    }
}
