// What holds of the members that nodes host, by all that came to the nodes.
ghost use Rattle.std.specs.Prelude.{ℕ, List, Option};
ghost use Rattle.circus_collate.specs.declared.deployment.Deployment.{Deployment};
ghost use Rattle.circus_model.specs.Behaviour.{Behaviour};
ghost use Rattle.circus_node.specs.NodeState.{NodeState};
ghost use Rattle.circus_schedule.specs.declared.line.Line.{Line};
ghost use Rattle.circus_node.specs.Alike.{declared_of, turn_of};
ghost use Rattle.circus_world.specs.WorldState.{WorldState};
ghost use Rattle.circus_world_theory.specs.Worlds.{IsWorldOf, IsPlainWorldOf};
ghost use Rattle.circus_world_theory.specs.NodeLives.{Events, IsLife};
ghost use Rattle.circus_world_theory.specs.InTime.{NodeIsInTime, RecordsAreTimely};

use circus_model::Module;

/// Nothing that the member of a node does comes late or early, whatever comes to the node by
/// itself: datagrams of anyone with any bytes, whatever they claim, ticks, true and false
/// declarations, and joins. Its record is timely for what was accepted of these.
pub fn node_records_are_timely<M: Module>()
    ensures { (d : Deployment) (own : M) (node : ℕ) (events : Events) (begun last : NodeState M)
        → IsLife M.declared M.turn M.first d own node events begun last
        → NodeIsInTime M.declared M.turn d own node events begun last }
{}

/// So it is in every world that lines lead to: the record of each member is timely for what
/// happened to it.
pub fn records_are_timely<M: Module>()
    ensures { (d : Deployment) (modules : List M) (hosted : List (Option M))
        (lines : List Line) (begun last : WorldState M)
        → IsWorldOf M.declared M.turn M.first d modules hosted lines begun last
        → RecordsAreTimely M.declared M.turn d hosted lines begun last }
{}

/// So it is with behaviours that keep to the laws of modules, in place of modules.
pub fn plain_records_are_timely()
    ensures { (d : Deployment) (program : List Behaviour) (hosted : List (Option Behaviour))
        (lines : List Line) (begun last : WorldState Behaviour)
        → IsPlainWorldOf d program hosted lines begun last
        → RecordsAreTimely declared_of turn_of d hosted lines begun last }
{}
