// What holds of every world that lines lead to.
ghost use Rattle.std.specs.Prelude.{◌≡◌, ◌≤◌, ◌++◌, Ok, List, Option, All, AllPairs, length, map, option_map};
ghost use Rattle.circus_collate.specs.Deployment.{IsDeployment};
ghost use Rattle.circus_collate.specs.declared.deployment.Deployment.{Deployment};
ghost use Rattle.circus_node.specs.Booting.{AreOfTroupes};
ghost use Rattle.circus_performing.specs.Record.{behaviour};
ghost use Rattle.circus_node.specs.Alike.{declared_of, turn_of, first_of};
ghost use Rattle.circus_schedule.specs.declared.line.Line.{Line};
ghost use Rattle.circus_world.specs.Sent.{Sent};
ghost use Rattle.circus_world.specs.WorldState.{WorldState};
ghost use Rattle.circus_world.specs.Legal.{refusal};
ghost use Rattle.circus_world.specs.Course.{step_line};
ghost use Rattle.circus_world.specs.Boot.{all_booted};
ghost use Rattle.circus_world.specs.Alike.{world_as, step_as};
ghost use Rattle.circus_world.specs.Answers.{IsBooted};
ghost use Rattle.circus_world.specs.Lines.{IsBetween, Lead};

use circus_model::Module;

/// What was sent is never changed or dropped, so that a datagram keeps its number: where lines lead, the datagrams begin
/// with those that had been sent before.
pub fn what_was_sent_stays<M: Module>()
    ensures { (lines : List Line) (world last : WorldState M)
        → Lead M.declared M.turn lines world last
        → (more : List Sent) × (last.sent ≡ world.sent ++ more) }
{}

/// Each line behind a boot is one step. No datagram has a later step than the last one, and none an earlier step than a
/// datagram before it.
pub fn steps_never_fall<M: Module>()
    ensures steps { (deployment : Deployment) (modules : List M) (lines : List Line)
        (world last : WorldState M)
        → IsBooted M.declared M.turn M.first deployment modules (Ok world)
        → Lead M.declared M.turn lines world last
        → last.steps ≡ length lines }
    ensures past { (deployment : Deployment) (modules : List M) (lines : List Line)
        (world last : WorldState M)
        → IsBooted M.declared M.turn M.first deployment modules (Ok world)
        → Lead M.declared M.turn lines world last
        → All (λ (sent : Sent). sent.step ≤ last.steps) last.sent }
    ensures order { (deployment : Deployment) (modules : List M) (lines : List Line)
        (world last : WorldState M)
        → IsBooted M.declared M.turn M.first deployment modules (Ok world)
        → Lead M.declared M.turn lines world last
        → AllPairs (λ (earlier later : Sent). earlier.step ≤ later.step) last.sent }
{}

/// Each datagram goes from a node of the program to another one.
pub fn datagrams_go_between_nodes<M: Module>()
    ensures { (deployment : Deployment) (modules : List M) (lines : List Line)
        (world last : WorldState M)
        → IsDeployment deployment → AreOfTroupes deployment (map M.declared modules)
        → IsBooted M.declared M.turn M.first deployment modules (Ok world)
        → Lead M.declared M.turn lines world last
        → All (IsBetween (length deployment.nodes)) last.sent }
{}

/// Worlds whose modules do the same can't be told apart: where behaviours stand for the modules, lines are refused for the
/// same causes, and boot and each line come to the same.
pub fn worlds_depend_on_behaviours<M: Module>()
    ensures refusals { (line : Line) (world : WorldState M)
        → refusal (world_as M.declared M.turn M.first world) line ≡ refusal world line }
    ensures steps { (line : Line) (world : WorldState M)
        → step_as M.declared M.turn M.first (step_line M.declared M.turn line world)
        ≡ step_line declared_of turn_of line (world_as M.declared M.turn M.first world) }
    ensures boots { (hosted : List (Option M)) (world : WorldState M)
        → step_as M.declared M.turn M.first (all_booted M.declared M.turn M.first hosted world)
        ≡ all_booted declared_of turn_of first_of
        (map (option_map (behaviour M.declared M.turn M.first)) hosted)
        (world_as M.declared M.turn M.first world) }
{}
