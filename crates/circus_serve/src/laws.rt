// What holds of every node that is served.
ghost use Rattle.std.specs.Prelude.{◌≡◌, ℕ, true, false, slice_get, Option, None, Some, Ok, List};
ghost use Rattle.circus_value.specs.Among.{is_among};
ghost use Rattle.circus_collate.specs.declared.deployment.Deployment.{Deployment};
ghost use Rattle.circus_collate.specs.declared.deployment.Troupe.{Troupe};
ghost use Rattle.circus_outside.specs.declared.link.TakenFrom.{TakenFrom};
ghost use Rattle.circus_node.specs.declared.event.Event.TheVariants.{Join};
ghost use Rattle.circus_node.specs.declared.event.Give.{Give};
ghost use Rattle.circus_node.specs.declared.event.Outputs.{Outputs};
ghost use Rattle.circus_node.specs.NodeState.{NodeState};
ghost use Rattle.circus_node.specs.Booting as booting;
ghost use Rattle.circus_node.specs.Accepting.{troupe_at};
ghost use Rattle.circus_serve.specs.Happened.{takes_in};
ghost use Rattle.circus_serve.specs.Running.{IsRun};
ghost use Rattle.circus_serve.specs.Serving.{Served, on, at_boot, comes, begin_serving, serve_takes};

use circus_model::Module;

/// The record of a node has just the takes that were made, in order: a datagram of another node, a tick where nothing came,
/// or what was foreign.
pub fn records_have_all_takes<M: Module>()
    ensures { (d : Deployment) (own : ℕ) (booted : NodeState M) (gives : List Give)
        (takes : List TakenFrom) (last : Served M)
        → serve_takes M.declared M.turn d own booted gives takes ≡ on last
        → takes_in d last.happened ≡ takes }
{}

/// The record of a node is that of a plain run of it: behind its boot, its events, stepped one by one from event 1 on, lead
/// to the node afterwards, and each gives just what the record says.
pub fn events_are_the_nodes<M: Module>()
    ensures { (d : Deployment) (own : ℕ) (booted : NodeState M) (gives : List Give)
        (takes : List TakenFrom) (last : Served M)
        → serve_takes M.declared M.turn d own booted gives takes ≡ on last
        → IsRun M.declared M.turn booted gives last.happened last.node }
{}

/// A spare is told to join directly behind its boot. A founder and the Ringmaster are not.
pub fn spares_are_told_to_join<M: Module>()
    ensures spares { (d : Deployment) (hosted : M) (node number : ℕ) (troupe : Troupe)
        (booted : NodeState M) (outputs : Outputs)
        → booting.boot_node M.declared M.turn M.first d (Some hosted) node ≡ Ok (booted, outputs)
        → troupe_at d node ≡ Some number → slice_get d.troupes number ≡ Some troupe
        → is_among troupe.founders node ≡ false
        → begin_serving M.declared M.turn booted outputs.gives
        ≡ comes M.declared M.turn Join (at_boot booted outputs.gives) }
    ensures founders { (d : Deployment) (hosted : M) (node number : ℕ) (troupe : Troupe)
        (booted : NodeState M) (outputs : Outputs)
        → booting.boot_node M.declared M.turn M.first d (Some hosted) node ≡ Ok (booted, outputs)
        → troupe_at d node ≡ Some number → slice_get d.troupes number ≡ Some troupe
        → is_among troupe.founders node ≡ true
        → begin_serving M.declared M.turn booted outputs.gives ≡ on (at_boot booted outputs.gives) }
    ensures ringmaster { (d : Deployment) (hosted : Option M) (node : ℕ) (booted : NodeState M)
        (outputs : Outputs)
        → booting.boot_node M.declared M.turn M.first d hosted node ≡ Ok (booted, outputs)
        → troupe_at d node ≡ None
        → begin_serving M.declared M.turn booted outputs.gives ≡ on (at_boot booted outputs.gives) }
{}
