// What runs as one member of a troupe.
ghost use Rattle.std.specs.Prelude.{◌≡◌, ℕ, List, [], ◌∷◌, ◌++◌, length, IfOk, ◌↔◌};
ghost use Rattle.circus_value.specs.ValueTree.{ValueTree};
ghost use Rattle.circus_value.specs.declared.outcome.Outcome.{Outcome as Ended};
ghost use Rattle.circus_model.specs.declared.signature.Signature.{Signature as Declared};
ghost use Rattle.circus_model.specs.NextTurn.{NextTurn};
ghost use Rattle.circus_model.specs.Lawful.{IsState, CanStart, RepliesFit, IsLawful};
ghost use Rattle.circus_model.specs.Gives.{Gives, CanResume};

use crate::{Signature, Turn};
use circus_value::{NoMemory, Outcome, State, Values};

/// A deterministic module: what its execution does next is a function of the state at its beginning,
/// the procedure, the arguments and the replies so far.
pub trait Module: Sized + Drop {
    /// An execution that waits for a reply.
    type Paused: Drop;

    /// What it declares.
    ghost declared: { Self → Declared };

    /// What an execution does next, from the state at its beginning, the procedure, the arguments and the replies so far.
    ghost turn: { Self → List ValueTree → ℕ → List ValueTree → List Ended → NextTurn };

    /// The state before the first execution.
    ghost first: { Self → List ValueTree };

    /// The paused execution stands for that state, procedure, arguments and replies.
    ghost stands: { Self → Self.Paused → List ValueTree → ℕ → List ValueTree → List Ended → Type 0 };

    /// What it declares.
    fn signature(&self) -> &Signature
        ensures { result.now ≡ declared self.now };

    /// A module that behaves as this one, and goes on with what this one paused.
    fn copy(&self) -> Result<Self, NoMemory>
        ensures declared { IfOk result (λ copy. declared copy ≡ declared self.now) }
        ensures turn { IfOk result (λ copy. turn copy ≡ turn self.now) }
        ensures first { IfOk result (λ copy. first copy ≡ first self.now) }
        ensures stands { IfOk result (λ copy.
            (paused : Self.Paused) (state : List ValueTree) (procedure : ℕ)
            (arguments : List ValueTree) (replies : List Ended) →
            (stands copy paused state procedure arguments replies
            ↔ stands self.now paused state procedure arguments replies)) };

    /// The state before the first execution, or `NoMemory`.
    fn first_state(&self) -> Result<State, NoMemory>
        ensures { IfOk result (λ state. state ≡ first self.now) };

    /// Begins an execution. After `NoMemory` the state is gone.
    fn start(
        &self,
        state: State,
        procedure: u16,
        arguments: &Values,
    ) -> Result<Turn<Self::Paused>, NoMemory>
        requires { CanStart (declared self.now) state procedure arguments.now }
        ensures { IfOk result
            (Gives (λ paused. stands self.now paused state procedure arguments.now [])
            (turn self.now state procedure arguments.now [])) };

    /// Goes on with the reply to the last ask. After `NoMemory` the execution is gone.
    fn resume(&self, paused: Self::Paused, reply: &Outcome) -> Result<Turn<Self::Paused>, NoMemory>
        requires { CanResume (stands self.now paused) (declared self.now)
            (turn self.now) reply.now }
        ensures { (state : List ValueTree) (procedure : ℕ) (arguments : List ValueTree)
            (replies : List Ended) →
            stands self.now paused state procedure arguments replies →
            IfOk result (Gives (λ later.
            stands self.now later state procedure arguments (replies ++ reply.now ∷ []))
            (turn self.now state procedure arguments (replies ++ reply.now ∷ []))) };

    /// The first state is one that the module may have.
    ghost first_is_state: { (m : Self) → IsState (declared m) (first m) };

    /// Each turn is lawful, where the start was and each reply fitted its ask.
    ghost turns_are_lawful: { (m : Self) (state : List ValueTree) (procedure : ℕ) (arguments : List ValueTree)
        (replies : List Ended) →
        CanStart (declared m) state procedure arguments →
        RepliesFit (declared m).imports (turn m state procedure arguments) [] replies →
        IsLawful (declared m) procedure (length replies)
        (turn m state procedure arguments replies) };
}
