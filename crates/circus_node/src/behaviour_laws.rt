// A node whose module is replaced by its behaviour takes the same steps.
ghost use Rattle.std.specs.Prelude.{◌≡◌, ℕ, Option, option_map};
ghost use Rattle.circus_collate.specs.declared.deployment.Deployment.{Deployment as Deployed};
ghost use Rattle.circus_performing.specs.Record.{behaviour};
ghost use Rattle.circus_node.specs.declared.event.Event.{Event as Comes};
ghost use Rattle.circus_node.specs.NodeState.{NodeState};
ghost use Rattle.circus_node.specs.Booting.{boot_node};
ghost use Rattle.circus_node.specs.Step.{step_node};
ghost use Rattle.circus_node.specs.Alike.{declared_of, turn_of, first_of, node_as, ended_as};

use circus_model::Module;

/// A step of a node comes to the same, with what it gives, where its module's behaviour stands for the module: nodes whose
/// modules do the same can't be told apart.
pub fn steps_depend_on_behaviours<M: Module>()
    ensures { (at : ℕ) (event : Comes) (n : NodeState M)
        → ended_as M.declared M.turn M.first (step_node M.declared M.turn at event n)
        ≡ step_node declared_of turn_of at event (node_as M.declared M.turn M.first n) }
{}

/// So does its boot.
pub fn boots_depend_on_behaviours<M: Module>()
    ensures { (d : Deployed) (hosted : Option M) (node : ℕ)
        → ended_as M.declared M.turn M.first (boot_node M.declared M.turn M.first d hosted node)
        ≡ boot_node declared_of turn_of first_of d
        (option_map (behaviour M.declared M.turn M.first) hosted) node }
{}
