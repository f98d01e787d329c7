// An execution between two instructions, and what each instruction does.
ghost use Rattle.std.specs.Prelude.{◌≡◌, ◌+◌, ◌<◌, ◌≤◌, if◌then◌else◌, map, OnOk};
ghost use Rattle.circus_checked.specs.ExpressionOf.{tree_of};
ghost use Rattle.circus_model.specs.declared.language_error.LanguageError.TheVariants.{Unhandled};
ghost use Rattle.circus_model.specs.LanguageError.{number_of, is_language_error};
ghost use Rattle.circus_machine.specs.declared.code.Instruction.TheVariants.{Ask};
ghost use Rattle.circus_machine.specs.Meaning as meaning;
ghost use Rattle.circus_machine.specs.Seen.Changing.{AreSized, changed_over};
ghost use Rattle.circus_machine.specs.Seen.Code as acts;
ghost use Rattle.circus_machine.specs.Seen.Instructions.{act_of, catch_of};
ghost use Rattle.circus_machine.specs.Seen.Running.{Does, HasAsked, Moves, GoesAhead, nothing, beside};

use crate::code::{Asking, Catch, Instruction};
use crate::store::{Change, Variables};
use circus_checked::{CheckedExpression, CheckedExpressions, CheckedPlace};
use circus_evaluate::{Got, NoValue, evaluate_all, given_in, truth_in};
use circus_model::LanguageError;
use circus_value::{Outcome, Values, values_size};
use std::alloc::Global;

/// An execution between two instructions.
#[derive(Debug, Drop)]
pub(crate) struct Execution {
    pub variables: Variables,
    /// The steps that are left.
    pub steps: u32,
    /// The asks that it has made, at most 65,535.
    pub asks: u16,
}

/// What comes of an instruction.
#[derive(Debug, Drop)]
pub(crate) enum Move {
    /// The execution goes on at this place.
    Goes(usize),
    Ends(Outcome),
    /// It asks a module's procedure, with these arguments.
    Asks(u16, u16, Values),
}

impl Execution {
    // Counts a step, or raises an error where none is left.
    fn count(&mut self) -> Result<(), NoValue>
        requires { AreSized self.old.variables }
        ensures does { Does nothing meaning.count_step result self.old self.new }
        ensures fewer { OnOk result (self.new.steps < self.old.steps) }
    {
        if self.steps == 0 {
            return Err(NoValue::Raises(LanguageError::StepLimit));
        }
        self.steps -= 1;
        Ok(())
    }

    // Changes what stands at a place by what an expression gives.
    fn store(
        &mut self,
        alloc: Global,
        limit: u32,
        place: &CheckedPlace,
        change: Change,
        expression: &CheckedExpression,
    ) -> Result<(), NoValue>
        requires { AreSized self.old.variables }
        ensures does { Does nothing
            (meaning.stores limit self.old.variables.states place.now (changed_over change)
            (tree_of expression.now)) result self.old self.new }
        ensures fewer { OnOk result (self.new.steps < self.old.steps) }
    {
        self.count()?;
        let given = given_in(alloc, limit, &self.variables.values, expression)?;
        self.variables.change(alloc, limit, place, change, given)
    }

    // Whether a condition holds.
    fn test(
        &mut self,
        alloc: Global,
        limit: u32,
        condition: &CheckedExpression,
    ) -> Result<bool, NoValue>
        requires { AreSized self.old.variables }
        ensures does { Does beside
            (meaning.test_condition limit self.old.variables.states (tree_of condition.now)) result
            self.old
            self.new }
        ensures fewer { OnOk result (self.new.steps < self.old.steps) }
    {
        self.count()?;
        truth_in(alloc, limit, &self.variables.values, condition)
    }

    // The values that leave the execution together.
    fn leave(
        &mut self,
        alloc: Global,
        limit: u32,
        expressions: &CheckedExpressions,
    ) -> Result<Values, NoValue>
        requires { AreSized self.old.variables }
        ensures does { Does beside
            (meaning.left_with limit self.old.variables.states expressions.now) result self.old
            self.new }
        ensures fewer { OnOk result (self.new.steps < self.old.steps) }
    {
        self.count()?;
        let values = evaluate_all(alloc, limit, &self.variables.values, expressions)?;
        if values_size(&values) > u64::from(limit) {
            return Err(NoValue::Raises(LanguageError::TooLong));
        }
        Ok(values)
    }

    // The arguments with which a module is asked.
    fn ask(
        &mut self,
        alloc: Global,
        limit: u32,
        expressions: &CheckedExpressions,
    ) -> Result<Values, NoValue>
        requires { AreSized self.old.variables }
        ensures asks { HasAsked limit self.old.variables.states expressions.now result self.old
            self.new }
        ensures fewer { OnOk result (self.new.steps < self.old.steps) }
    {
        let arguments = self.leave(alloc, limit, expressions)?;
        if self.asks == u16::MAX {
            return Err(NoValue::Raises(LanguageError::CallLimit));
        }
        self.asks += 1;
        Ok(arguments)
    }

    // Stores values where they go, each after the one before it.
    fn fill(
        &mut self,
        alloc: Global,
        limit: u32,
        places: &[CheckedPlace],
        values: &Values,
    ) -> Result<(), NoValue>
        requires { AreSized self.old.variables }
        ensures { Does nothing
            (meaning.fill_places limit self.old.variables.states places.now values.now) result
            self.old
            self.new }
    {
        let mut number = 0;
        for place in places {
            let Some(value) = values.get(number) else {
                return Ok(());
            };
            let given = Got::of(value).detach()?;
            self.variables
                .change(alloc, limit, place, Change::Assign, given)?;
            number += 1;
        }
        Ok(())
    }

    // Where the execution goes on behind an ask at a place, once an error was raised.
    fn handle(
        &mut self,
        alloc: Global,
        limit: u32,
        catches: &[Catch],
        at: usize,
        error: u16,
        values: &Values,
    ) -> Result<usize, NoValue>
        requires sized { AreSized self.old.variables }
        requires place { at + 1 + acts.reach (map catch_of catches.now) ≤ usize.MAX }
        ensures { Does beside
            (acts.catch_place limit self.old.variables.states at
            (map catch_of catches.now) error values.now) result self.old self.new }
    {
        for catch in catches {
            if catch.is_for(error) {
                self.fill(alloc, limit, catch.places.as_slice(), values)?;
                return Ok(at + 1 + catch.offset);
            }
        }
        Err(NoValue::Raises(unhandled_error(error)))
    }

    /// Where the execution goes on behind an ask at a place, by the reply. No step is counted. After `NoMemory` the
    /// execution is lost.
    pub fn reply(
        &mut self,
        alloc: Global,
        limit: u32,
        asking: &Asking,
        at: usize,
        reply: &Outcome,
    ) -> Result<usize, NoValue>
        requires sized { AreSized self.old.variables }
        requires place { at + 1 + acts.farthest (act_of (Ask asking.now)) ≤ usize.MAX }
        ensures { Does beside
            (acts.reply_place limit self.old.variables.states at asking.now.into
            (map catch_of asking.now.catches) asking.now.skip reply.now) result self.old self.new }
    {
        match reply {
            Outcome::Returned(results) => {
                self.fill(alloc, limit, asking.into.as_slice(), results)?;
                Ok(at + 1 + asking.skip)
            }
            Outcome::Raised(error, values) => {
                self.handle(alloc, limit, asking.catches.as_slice(), at, *error, values)
            }
        }
    }

    /// Does the instruction at a place. After `NoMemory` the execution is lost.
    pub fn step(
        &mut self,
        alloc: Global,
        limit: u32,
        instruction: &Instruction,
        at: usize,
    ) -> Result<Move, NoValue>
        requires sized { AreSized self.old.variables }
        requires place { at + 1 + acts.farthest (act_of instruction.now) ≤ usize.MAX }
        ensures moves { Moves limit self.old.variables.states
            (act_of instruction.now) at result self.old self.new }
        ensures ahead { GoesAhead at result self.old self.new }
    {
        match instruction {
            Instruction::Assign(place, expression) => {
                self.store(alloc, limit, place, Change::Assign, expression)?;
                Ok(Move::Goes(at + 1))
            }
            Instruction::Append(expression, place, bound, kind) => {
                let change = Change::Append(*bound, *kind);
                self.store(alloc, limit, place, change, expression)?;
                Ok(Move::Goes(at + 1))
            }
            Instruction::Unless(condition, offset) => {
                if self.test(alloc, limit, condition)? {
                    Ok(Move::Goes(at + 1))
                } else {
                    Ok(Move::Goes(at + 1 + *offset))
                }
            }
            Instruction::Jump(offset) => Ok(Move::Goes(at + 1 + *offset)),
            Instruction::Again(condition, offset) => {
                if self.test(alloc, limit, condition)? {
                    Ok(Move::Goes(at.saturating_sub(*offset)))
                } else {
                    Ok(Move::Goes(at + 1))
                }
            }
            Instruction::Ask(asking) => {
                let arguments = self.ask(alloc, limit, &asking.arguments)?;
                Ok(Move::Asks(asking.callee, asking.procedure, arguments))
            }
            Instruction::Give(values) => {
                let results = self.leave(alloc, limit, values)?;
                Ok(Move::Ends(Outcome::Returned(results)))
            }
            Instruction::Raise(error, values) => {
                let values = self.leave(alloc, limit, values)?;
                Ok(Move::Ends(Outcome::Raised(*error, values)))
            }
        }
    }
}

impl Catch {
    // Whether it is for this error.
    fn is_for(&self, error: u16) -> bool
        ensures { result ≡ meaning.catches self.now.error error }
    {
        match self.error {
            Some(number) => number == error,
            None => true,
        }
    }
}

// What is raised where no handler is for an error: that error again, where the language raised it.
fn unhandled_error(error: u16) -> LanguageError
    ensures { number_of result ≡ if is_language_error error then error else number_of Unhandled }
{
    LanguageError::of_number(error).unwrap_or(LanguageError::Unhandled)
}
