// What serving a node comes to depends on what its module does alone.
ghost use Rattle.std.specs.Prelude.{◌≡◌, ℕ, List};
ghost use Rattle.circus_collate.specs.declared.deployment.Deployment.{Deployment};
ghost use Rattle.circus_outside.specs.declared.link.TakenFrom.{TakenFrom};
ghost use Rattle.circus_node.specs.declared.event.Give.{Give};
ghost use Rattle.circus_node.specs.NodeState.{NodeState};
ghost use Rattle.circus_node.specs.Alike.{declared_of, turn_of, node_as};
ghost use Rattle.circus_serve.specs.Serving.{serve_takes};
ghost use Rattle.circus_node_command.specs.Alike.{progress_as};

use circus_model::Module;

/// Over the same takes a served node comes to the same, with all that happened to it, where its module's behaviour stands for
/// the module: served nodes whose modules do the same can't be told apart.
pub fn serving_depends_on_behaviours<M: Module>()
    ensures { (d : Deployment) (own : ℕ) (booted : NodeState M) (gives : List Give)
        (takes : List TakenFrom)
        → progress_as M.declared M.turn M.first
        (serve_takes M.declared M.turn d own booted gives takes)
        ≡ serve_takes declared_of turn_of d own
        (node_as M.declared M.turn M.first booted) gives takes }
{}
