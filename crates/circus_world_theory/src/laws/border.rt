// What holds at the borders of the nodes of every world that lines lead to.
ghost use Rattle.std.specs.Prelude.{◌≡◌, ◌+◌, ℕ, List, Option, Some};
ghost use Rattle.circus_collate.specs.declared.deployment.Deployment.{Deployment};
ghost use Rattle.circus_value.specs.declared.caller.Caller.{Caller};
ghost use Rattle.circus_pair.specs.Handed.{call_at, return_at};
ghost use Rattle.circus_member_rules.specs.declared.occurrence.Effect.TheVariants.{Answer};
ghost use Rattle.circus_schedule.specs.declared.line.Line.{Line};
ghost use Rattle.circus_world.specs.WorldState.{WorldState};
ghost use Rattle.circus_world.specs.Lines.{Lead};
ghost use Rattle.circus_world_theory.specs.Histories.{acts_between};
ghost use Rattle.circus_world_theory.specs.Worlds.{IsWorldOf};
ghost use Rattle.circus_world_theory.specs.Made.{StepOf, HandsAll, WasMadeAtAll, CallWasMade};

use circus_model::Module;

/// Nothing that a node makes is dropped at its border: in the step that a line brings to it, each
/// call is to a node that is up, and each message has a length that can be sent, so all of them are
/// handed over.
pub fn nothing_is_dropped<M: Module>()
    ensures { (d : Deployment) (modules : List M) (hosted : List (Option M)) (lines : List Line)
        (booted last : WorldState M)
        → IsWorldOf M.declared M.turn M.first d modules hosted lines booted last
        → (node : ℕ) (step : StepOf M.declared M.turn node lines booted)
        → HandsAll M.declared M.turn (step.world.steps + 1) step.event step.standing.node }
{}

/// What was handed over was made: a call by its node, for the purpose that its number has there,
/// and a return by its node to that call, at boot or in the step of one of the lines.
pub fn messages_were_made<M: Module>()
    ensures calls { (d : Deployment) (hosted : List (Option M)) (node other number : ℕ)
        (message : List ℕ) (lines : List Line) (booted last : WorldState M)
        → Lead M.declared M.turn lines booted last
        → let acts = acts_between M.declared M.turn M.first d hosted lines booted node other in
        call_at 0 acts number ≡ Some message
        → CallWasMade M.declared M.turn M.first d hosted node other number message lines booted }
    ensures returns { (d : Deployment) (hosted : List (Option M)) (node other number : ℕ)
        (message : List ℕ) (lines : List Line) (booted last : WorldState M)
        → Lead M.declared M.turn lines booted last
        → let acts = acts_between M.declared M.turn M.first d hosted lines booted node other in
        return_at acts number ≡ Some message
        → WasMadeAtAll M.declared M.turn M.first d hosted node lines booted
        (Answer (record { node = other; number = number }) message) }
{}
