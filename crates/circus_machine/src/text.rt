// Modules whose procedures have bodies.
ghost use Rattle.std.specs.Prelude.{◌≡◌, None, Some, slice_get, MatchOption, IfOk};
ghost use Rattle.circus_model.specs.Behaviour.{IsModule};
ghost use Rattle.circus_model.specs.LanguageError.{number_of};
ghost use Rattle.circus_model.specs.Lawful.{IsState};
ghost use Rattle.circus_model.specs.declared.language_error.LanguageError.TheVariants.{Unhandled};
ghost use Rattle.circus_machine.specs.Modules as modules;
ghost use Rattle.circus_machine.specs.Modules.{AreBodiesOf, body_at, turn_with, behaves};
ghost use Rattle.circus_machine.specs.Seen.Once.{one_way};
ghost use Rattle.circus_machine.specs.Seen.Waiting.{waits, Waits};

use crate::body::Body;
use crate::run::Paused;
use circus_model::{LanguageError, Module, ProcedureShape, Signature, Turn};
use circus_value::{Duplicate, ListOf, NoMemory, Outcome, State, Values};
use std::alloc::Global;
use std::rc::Rc;

/// Bodies in order.
pub type Bodies = ListOf<Body>;

/// A module whose procedures have bodies. Its copies share them.
#[derive(Drop)]
pub struct TextModule {
    alloc: Global,
    parts: Rc<Parts>,
}

// What a module is made of.
#[derive(Drop)]
struct Parts {
    signature: Signature,
    // The state before the first execution.
    first: State,
    // The body of each procedure, in the order of the signature.
    bodies: Bodies,
    ghost lawful: { IsModule (behaves signature first bodies) } by { one_way (behaves signature first bodies) },
}

/// An execution of a module's procedure that waits for a reply.
#[derive(Debug, Drop)]
pub struct Waiting {
    /// The place of the procedure and of its body.
    pub(crate) body: usize,
    pub(crate) paused: Paused,
}

impl TextModule {
    /// A module with this signature, which is in this state before its first execution, and whose procedures have these
    /// bodies, in order; or `NoMemory`.
    pub fn new(
        alloc: Global,
        signature: Signature,
        first: State,
        bodies: Bodies,
    ) -> Result<TextModule, NoMemory>
        requires first { IsState signature first }
        requires bodies { ∥ AreBodiesOf signature signature.procedures bodies ∥₁ }
        ensures declared { IfOk result (λ m. ⟦<TextModule as Module>⟧.declared m ≡ signature) }
        ensures turn { IfOk result (λ m.
            ⟦<TextModule as Module>⟧.turn m ≡ turn_with signature bodies) }
        ensures first { IfOk result (λ m. ⟦<TextModule as Module>⟧.first m ≡ first) }
    {
        let parts = Parts {
            signature,
            first,
            bodies,
        };
        Ok(TextModule {
            alloc,
            parts: Rc::new(alloc, parts)?,
        })
    }
}

impl Parts {
    // The place of the procedure with a number, and its body. It takes no memory.
    fn find(&self, number: u16) -> Option<(usize, &Body)>
        ensures { MatchOption result
            (body_at (modules.place_of number self.now.signature.procedures) self.now.bodies ≡ None)
            (λ found. (modules.place_of number self.now.signature.procedures ≡ Some found.0)
            × (slice_get self.now.bodies found.0 ≡ Some found.1.now)) }
    {
        let place = place_of(self.signature.procedures.as_slice(), number)?;
        Some((place, self.bodies.get(place)?))
    }
}

// The place of the first procedure with a number. It takes no memory.
fn place_of(procedures: &[ProcedureShape], number: u16) -> Option<usize>
    ensures { result ≡ modules.place_of number procedures.now }
{
    procedures
        .iter()
        .position(|procedure| procedure.number == number)
}

// The turn, of the execution of the body at a place.
fn of_body(body: usize, turn: Turn<Paused>) -> Turn<Waiting>
    ensures { result ≡ waits body turn }
{
    match turn {
        Turn::Asks {
            callee,
            procedure,
            arguments,
            state,
            paused,
        } => Turn::Asks {
            callee,
            procedure,
            arguments,
            state,
            paused: Waiting { body, paused },
        },
        Turn::Ends { outcome, state } => Turn::Ends { outcome, state },
    }
}

impl Module for TextModule {
    /// An execution that waits for a reply.
    type Paused = Waiting;

    ghost declared = { λ m. m.parts.value.signature };

    ghost turn = { λ m. turn_with m.parts.value.signature m.parts.value.bodies };

    ghost first = { λ m. m.parts.value.first };

    ghost stands = { λ m. Waits m.parts.value.signature m.parts.value.bodies };

    ghost first_is_state = { λ m. m.parts.value.lawful.first_is_state };

    ghost turns_are_lawful = { λ m. m.parts.value.lawful.turns_are_lawful };

    fn signature(&self) -> &Signature {
        &self.parts.as_ref().signature
    }

    fn copy(&self) -> Result<Self, NoMemory> {
        Ok(TextModule {
            alloc: self.alloc,
            parts: self.parts.clone()?,
        })
    }

    fn first_state(&self) -> Result<State, NoMemory> {
        self.parts.as_ref().first.copy()
    }

    fn start(
        &self,
        state: State,
        procedure: u16,
        arguments: &Values,
    ) -> Result<Turn<Waiting>, NoMemory> {
        let parts = self.parts.as_ref();
        let Some((place, body)) = parts.find(procedure) else {
            let outcome = LanguageError::Unhandled.raised_outcome(self.alloc);
            return Ok(Turn::Ends { outcome, state });
        };
        let turn = body.start(self.alloc, parts.signature.limit, state, arguments)?;
        Ok(of_body(place, turn))
    }

    fn resume(&self, paused: Waiting, reply: &Outcome) -> Result<Turn<Waiting>, NoMemory> {
        let parts = self.parts.as_ref();
        let Waiting {
            body: place,
            paused,
        } = paused;
        let Some(body) = parts.bodies.get(place) else {
            unreachable!()
        };
        let turn = body.resume(self.alloc, parts.signature.limit, paused, reply)?;
        Ok(of_body(place, turn))
    }
}
