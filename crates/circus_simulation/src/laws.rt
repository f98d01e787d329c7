// What holds of every sample.
ghost use Rattle.std.specs.Prelude.{◌≡◌, ◌≤◌, ℕ, Ok, List, length};
ghost use Rattle.circus_collate.specs.declared.deployment.Deployment.{Deployment};
ghost use Rattle.circus_node.specs.Alike.{declared_of, turn_of};
ghost use Rattle.circus_record.specs.Naming.{Names};
ghost use Rattle.circus_world.specs.WorldState.{WorldState};
ghost use Rattle.circus_world.specs.Answers.{IsBooted};
ghost use Rattle.circus_world.specs.Lines.{Lead};
ghost use Rattle.circus_world.specs.Alike.{world_as, step_as};
ghost use Rattle.circus_simulation.specs.Sampled.{IsUntouched, lines_drawn, sample_lines};
ghost use Rattle.circus_simulation.specs.Summary.{summary};

use circus_model::Module;

/// A sample is what a schedule leaves: the lines that are drawn, as many as were asked for, each of which may be stepped. What
/// holds of worlds that lines lead to holds of it.
pub fn samples_are_schedules<M: Module>()
    ensures { (steps word : ℕ) (world last : WorldState M) → IsUntouched world
        → 1 ≤ length world.nodes
        → sample_lines M.declared M.turn steps word world ≡ Ok last
        → (length (lines_drawn M.declared M.turn steps word world) ≡ steps)
        × Lead M.declared M.turn (lines_drawn M.declared M.turn steps word world) world last }
{}

/// A sample comes to the same where behaviours stand for modules, and so do its lines and what is written of it.
pub fn samples_depend_on_behaviours<M: Module>()
    ensures worlds { (steps word : ℕ) (world : WorldState M)
        → step_as M.declared M.turn M.first (sample_lines M.declared M.turn steps word world)
        ≡ sample_lines declared_of turn_of steps word (world_as M.declared M.turn M.first world) }
    ensures lines { (steps word : ℕ) (world : WorldState M)
        → lines_drawn declared_of turn_of steps word (world_as M.declared M.turn M.first world)
        ≡ lines_drawn M.declared M.turn steps word world }
    ensures texts { (names : Names) (steps : ℕ) (world : WorldState M)
        → summary names steps (world_as M.declared M.turn M.first world)
        ≡ summary names steps world }
{}

/// A world that has just booted is untouched, and no line was stepped in it.
pub fn worlds_boot_untouched<M: Module>()
    ensures untouched { (deployment : Deployment) (modules : List M) (world : WorldState M)
        → IsBooted M.declared M.turn M.first deployment modules (Ok world) → IsUntouched world }
    ensures steps { (deployment : Deployment) (modules : List M) (world : WorldState M)
        → IsBooted M.declared M.turn M.first deployment modules (Ok world) → world.steps ≡ 0 }
{}
