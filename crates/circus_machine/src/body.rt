// Bodies of procedures, compiled.
ghost use Rattle.std.specs.Prelude.{◌≡◌, ◌<◌, [], ◌∷◌, ◌++◌, List, IfOk};
ghost use Rattle.circus_value.specs.ValueTree.{ValueTree};
ghost use Rattle.circus_value.specs.ExternalSize.{size_of_values};
ghost use Rattle.circus_value.specs.declared.outcome.Outcome.{Outcome as Ended};
ghost use Rattle.circus_model.specs.Gives.{Gives};
ghost use Rattle.circus_machine.specs.Bodies as bodies;
ghost use Rattle.circus_checked.specs.StatementTree.{statement_trees};
ghost use Rattle.circus_machine.specs.Seen.Code.{codes_of};
ghost use Rattle.circus_machine.specs.Seen.Instructions.{acts_of};
ghost use Rattle.circus_machine.specs.Seen.Sets.{one_way};

use crate::code::{Code, code_of};
use crate::execution::Execution;
use crate::run::{Paused, resume, run};
use crate::store::Variables;
use circus_checked::CheckedStatements;
use circus_model::Turn;
use circus_value::{NoMemory, Outcome, State, Values};
use std::alloc::Global;

// The steps that an execution has.
const MOST_STEPS: u32 = 1_000_000;

/// What a procedure does (docs/LANGUAGE.md, "Statements").
#[derive(Drop)]
pub struct Body {
    pub statements: CheckedStatements,
    /// What the local variables are at first.
    pub locals: Values,
    code: Code,
    ghost compiled: { acts_of code ≡ codes_of (statement_trees statements) } by { one_way (acts_of code) (codes_of (statement_trees statements)) },
    ghost small: { size_of_values locals < 4294967296 },
}

impl Body {
    /// The body of these statements, whose local variables have these values at first, or `NoMemory`.
    pub fn new(
        alloc: Global,
        statements: CheckedStatements,
        locals: Values,
    ) -> Result<Body, NoMemory>
        requires { size_of_values locals < 4294967296 }
        ensures statements { IfOk result (λ body. body.statements ≡ statements) }
        ensures locals { IfOk result (λ body. body.locals ≡ locals) }
    {
        let code = code_of(alloc, &statements)?;
        Ok(Body {
            statements,
            locals,
            code,
        })
    }

    /// Begins an execution in this state with these arguments, of a module whose values have at most so many bytes.
    /// It goes on until it asks or ends. After `NoMemory` the state is gone.
    pub fn start(
        &self,
        alloc: Global,
        limit: u32,
        state: State,
        arguments: &Values,
    ) -> Result<Turn<Paused>, NoMemory>
        requires state { size_of_values state < 4294967296 }
        requires arguments { size_of_values arguments.now < 4294967296 }
        ensures turn { IfOk result
            (Gives (λ paused.
            bodies.Stands limit self.now.statements self.now.locals paused state arguments.now [])
            (bodies.next_turn limit self.now.statements self.now.locals state arguments.now [])) }
        ensures pauses { IfOk result (bodies.Pauses limit self.now.statements self.now.locals) }
    {
        let variables = Variables::new(alloc, state, arguments, &self.locals)?;
        let execution = Execution {
            variables,
            steps: MOST_STEPS,
            asks: 0,
        };
        run(alloc, limit, self.code.as_slice(), execution, 0)
    }

    /// Goes on with the reply to the last ask. After `NoMemory` the execution is gone.
    pub fn resume(
        &self,
        alloc: Global,
        limit: u32,
        paused: Paused,
        reply: &Outcome,
    ) -> Result<Turn<Paused>, NoMemory>
        requires { bodies.IsOf limit self.now.statements self.now.locals paused }
        ensures turn { (state arguments : List ValueTree) (replies : List Ended)
            → bodies.Stands limit self.now.statements self.now.locals paused state arguments replies
            → IfOk result (Gives (λ later.
            bodies.Stands limit self.now.statements self.now.locals later state arguments
            (replies ++ reply.now ∷ []))
            (bodies.next_turn limit self.now.statements self.now.locals state arguments
            (replies ++ reply.now ∷ []))) }
        ensures pauses { IfOk result (bodies.Pauses limit self.now.statements self.now.locals) }
    {
        resume(alloc, limit, self.code.as_slice(), paused, reply)
    }
}
