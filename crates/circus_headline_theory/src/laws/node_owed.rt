// What holds of all that nodes make and tell.
ghost use Rattle.std.specs.Prelude.{◌≡◌, ℕ, ◌<◌, List, length, map, Option, Some, Ok, slice_get};
ghost use Rattle.circus_node.specs.Accepting.{troupe_at};
ghost use Rattle.circus_collate.specs.declared.deployment.Deployment.{Deployment};
ghost use Rattle.circus_collate.specs.declared.deployment.Troupe.{Troupe};
ghost use Rattle.circus_node.specs.declared.event.Event.{Event};
ghost use Rattle.circus_node.specs.declared.event.Outputs.{Outputs};
ghost use Rattle.circus_node.specs.NodeState.{NodeState};
ghost use Rattle.circus_node.specs.Step.{step_node};
ghost use Rattle.circus_schedule.specs.declared.line.Line.{Line};
ghost use Rattle.circus_world.specs.WorldState.{WorldState, Standing};
ghost use Rattle.circus_member_theory.specs.Made.{AreDistinct};
ghost use Rattle.circus_world_theory.specs.Worlds.{IsWorldOf};
ghost use Rattle.circus_world_theory.specs.Happened.{past_of};
ghost use Rattle.circus_world_theory.specs.NodeLives.{Events, IsLife, past_behind};
ghost use Rattle.circus_headline_theory.specs.Owed.Makes.{differences_in};
ghost use Rattle.circus_headline_theory.specs.Owed.Makes.{made_of, handed_of, as_handed};
ghost use Rattle.circus_headline_theory.specs.Owed.Owes.{NodeMakesWhatIsOwed, NodesMakeWhatIsOwed};

use circus_model::Module;

/// A node takes each call of another node once, whatever comes to it: no two calls and state
/// requests that its member accepted are of one caller, a node with a number. So it is in every
/// world.
pub fn each_call_comes_once<M: Module>()
    ensures node { (d : Deployment) (own : M) (node : ℕ) (events : Events)
        (begun last : NodeState M)
        → IsLife M.declared M.turn M.first d own node events begun last
        → AreDistinct (past_behind M.declared M.turn events begun) }
    ensures world { (d : Deployment) (modules : List M) (hosted : List (Option M))
        (lines : List Line) (begun last : WorldState M)
        → IsWorldOf M.declared M.turn M.first d modules hosted lines begun last
        → (node number : ℕ) (troupe : Troupe) (own : M) (s : Standing M)
        → slice_get hosted node ≡ Some (Some own) → troupe_at d node ≡ Some number
        → slice_get d.troupes number ≡ Some troupe → slice_get last.nodes node ≡ Some s
        → AreDistinct (past_of M.declared M.turn lines begun node) }
{}

/// What the member of a node makes in each step is what it owes in it, and nothing else, whatever
/// comes to the node by itself: the one return to each call and state request, the calls to the
/// Ringmaster and for a state, and the calls of asks. And the node tells in each step what
/// differed.
pub fn node_makes_what_is_owed<M: Module>()
    ensures { (d : Deployment) (own : M) (node : ℕ) (events : Events) (begun last : NodeState M)
        → IsLife M.declared M.turn M.first d own node events begun last
        → NodeMakesWhatIsOwed M.declared M.turn M.first d own node events begun last }
{}

/// So it is with each node of every world that lines lead to.
pub fn worlds_make_what_is_owed<M: Module>()
    ensures { (d : Deployment) (modules : List M) (hosted : List (Option M))
        (lines : List Line) (begun last : WorldState M)
        → IsWorldOf M.declared M.turn M.first d modules hosted lines begun last
        → NodesMakeWhatIsOwed M.declared M.turn M.first d hosted lines begun last }
{}

/// Each node of such a world hands to its pairs what it makes, in its order: no call and no return
/// is dropped, from boot on.
pub fn worlds_hand_over_what_is_made<M: Module>()
    ensures { (d : Deployment) (modules : List M) (hosted : List (Option M))
        (lines : List Line) (begun last : WorldState M)
        → IsWorldOf M.declared M.turn M.first d modules hosted lines begun last
        → (node : ℕ) (own : Option M) → node < length d.nodes → slice_get hosted node ≡ Some own
        → handed_of M.declared M.turn node M.first d hosted lines begun
        ≡ map as_handed (made_of M.declared M.turn node M.first d hosted lines begun) }
{}

/// The differences that a step of a node gives are those that come of its event.
pub fn steps_give_differences<M: Module>()
    ensures { (at : ℕ) (event : Event) (n next : NodeState M) (outputs : Outputs)
        → step_node M.declared M.turn at event n ≡ Ok (next, outputs)
        → outputs.differences ≡ differences_in M.declared M.turn at event n }
{}
