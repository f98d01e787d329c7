// Modules of two kinds as one kind.
ghost use Rattle.std.specs.Prelude.{◌≡◌};
ghost use Rattle.tests_command.specs.declared.either.Either.TheVariants.{First, Second};
ghost use Rattle.tests_command.specs.Kinds.{of_kind, IsOfKind, pausing};

use circus_model::{Module, Signature, Turn};
use circus_value::{NoMemory, Outcome, State, Values};

/// One of two kinds.
#[derive(Drop)]
pub enum Either<A, B> {
    First(A),
    Second(B),
}

// The turn of a module of the first kind.
fn of_first<P, Q>(turn: Turn<P>) -> Turn<Either<P, Q>>
    ensures { result ≡ pausing First turn }
{
    match turn {
        Turn::Asks {
            callee,
            procedure,
            arguments,
            state,
            paused,
        } => Turn::Asks {
            callee,
            procedure,
            arguments,
            state,
            paused: Either::First(paused),
        },
        Turn::Ends { outcome, state } => Turn::Ends { outcome, state },
    }
}

// The turn of a module of the second kind.
fn of_second<P, Q>(turn: Turn<Q>) -> Turn<Either<P, Q>>
    ensures { result ≡ pausing Second turn }
{
    match turn {
        Turn::Asks {
            callee,
            procedure,
            arguments,
            state,
            paused,
        } => Turn::Asks {
            callee,
            procedure,
            arguments,
            state,
            paused: Either::Second(paused),
        },
        Turn::Ends { outcome, state } => Turn::Ends { outcome, state },
    }
}

impl<A: Module, B: Module> Module for Either<A, B> {
    /// An execution of a module of the same kind.
    type Paused = Either<A::Paused, B::Paused>;

    ghost declared = { of_kind A.declared B.declared };

    ghost turn = { of_kind A.turn B.turn };

    ghost first = { of_kind A.first B.first };

    ghost stands = { IsOfKind A.stands B.stands };

    ghost first_is_state = { elim [ First a ↦ A.first_is_state a | Second b ↦ B.first_is_state b ] };

    ghost turns_are_lawful = { elim [ First a ↦ A.turns_are_lawful a | Second b ↦ B.turns_are_lawful b ] };

    fn signature(&self) -> &Signature {
        match self {
            Either::First(module) => module.signature(),
            Either::Second(module) => module.signature(),
        }
    }

    fn copy(&self) -> Result<Self, NoMemory> {
        match self {
            Either::First(module) => Ok(Either::First(module.copy()?)),
            Either::Second(module) => Ok(Either::Second(module.copy()?)),
        }
    }

    fn first_state(&self) -> Result<State, NoMemory> {
        match self {
            Either::First(module) => module.first_state(),
            Either::Second(module) => module.first_state(),
        }
    }

    fn start(
        &self,
        state: State,
        procedure: u16,
        arguments: &Values,
    ) -> Result<Turn<Self::Paused>, NoMemory> {
        match self {
            Either::First(module) => Ok(of_first(module.start(state, procedure, arguments)?)),
            Either::Second(module) => Ok(of_second(module.start(state, procedure, arguments)?)),
        }
    }

    fn resume(
        &self,
        paused: Self::Paused,
        reply: &Outcome,
    ) -> Result<Turn<Self::Paused>, NoMemory> {
        match (self, paused) {
            (Either::First(module), Either::First(paused)) => {
                Ok(of_first(module.resume(paused, reply)?))
            }
            (Either::Second(module), Either::Second(paused)) => {
                Ok(of_second(module.resume(paused, reply)?))
            }
            _ => unreachable!(),
        }
    }
}
