// What holds of the copies of a program, in every world that lines lead to.
ghost use Rattle.std.specs.Prelude.{ℕ, List, Option};
ghost use Rattle.circus_collate.specs.declared.deployment.Deployment.{Deployment};
ghost use Rattle.circus_model.specs.Behaviour.{Behaviour, behaviours};
ghost use Rattle.circus_schedule.specs.declared.line.Line.{Line};
ghost use Rattle.circus_world.specs.WorldState.{WorldState};
ghost use Rattle.circus_node.specs.Alike.{declared_of, turn_of, first_of};
ghost use Rattle.circus_world_theory.specs.Histories.{acts_of};
ghost use Rattle.circus_world_theory.specs.Worlds.{IsWorldOf, IsPlainWorldOf};
ghost use Rattle.circus_world_theory.specs.Agreeing.{RecordsStand, AsksAreTrue, ReturnsAreTrue, OthersCiteNothing, NoneDiffer};

use circus_model::Module;

pub mod border;
pub mod quiescence;
pub mod timely;

/// The copies agree: whichever datagrams come twice, late or never, and whichever nodes crash or join, the
/// record of each active member stands in the history of the unreplicated program. It performed exactly the next
/// runs of its module, each once and in their order, with the arguments, asks, replies, outcomes and states that
/// they have there.
pub fn records_stand<M: Module>()
    ensures { (d : Deployment) (modules : List M) (hosted : List (Option M))
        (lines : List Line) (booted last : WorldState M)
        → IsWorldOf M.declared M.turn M.first d modules hosted lines booted last
        → RecordsStand (behaviours M.declared M.turn M.first modules) d last }
{}

/// So it is with behaviours that keep to the laws of modules, in place of modules.
pub fn plain_records_stand()
    ensures { (d : Deployment) (program : List Behaviour) (hosted : List (Option Behaviour))
        (lines : List Line) (booted last : WorldState Behaviour)
        → IsPlainWorldOf d program hosted lines booted last → RecordsStand program d last }
{}

/// Each message that was handed over and cites the history of the program is true: a call for an ask is that ask,
/// a reply is that of the run that its call asks for, and a snapshot has the state of its module after so many
/// runs. What else a node returns cites nothing.
pub fn messages_are_true<M: Module>()
    ensures asks { (d : Deployment) (modules : List M) (hosted : List (Option M))
        (lines : List Line) (booted last : WorldState M)
        → IsWorldOf M.declared M.turn M.first d modules hosted lines booted last
        → AsksAreTrue (behaviours M.declared M.turn M.first modules) d
        (acts_of M.declared M.turn M.first d hosted lines booted) }
    ensures returns { (d : Deployment) (modules : List M) (hosted : List (Option M))
        (lines : List Line) (booted last : WorldState M)
        → IsWorldOf M.declared M.turn M.first d modules hosted lines booted last
        → ReturnsAreTrue (behaviours M.declared M.turn M.first modules) d
        (acts_of M.declared M.turn M.first d hosted lines booted) }
    ensures others { (d : Deployment) (modules : List M) (hosted : List (Option M))
        (lines : List Line) (booted last : WorldState M)
        → IsWorldOf M.declared M.turn M.first d modules hosted lines booted last
        → OthersCiteNothing d (acts_of M.declared M.turn M.first d hosted lines booted) }
{}

/// Two members never reply differently to the same ask: in no step is a difference told.
pub fn no_difference<M: Module>()
    ensures { (d : Deployment) (modules : List M) (hosted : List (Option M))
        (lines : List Line) (booted last : WorldState M)
        → IsWorldOf M.declared M.turn M.first d modules hosted lines booted last
        → NoneDiffer M.declared M.turn last }
{}

/// So are the messages of behaviours that keep to the laws of modules.
pub fn plain_messages_are_true()
    ensures asks { (d : Deployment) (program : List Behaviour) (hosted : List (Option Behaviour))
        (lines : List Line) (booted last : WorldState Behaviour)
        → IsPlainWorldOf d program hosted lines booted last
        → AsksAreTrue program d (acts_of declared_of turn_of first_of d hosted lines booted) }
    ensures returns { (d : Deployment) (program : List Behaviour) (hosted : List (Option Behaviour))
        (lines : List Line) (booted last : WorldState Behaviour)
        → IsPlainWorldOf d program hosted lines booted last
        → ReturnsAreTrue program d (acts_of declared_of turn_of first_of d hosted lines booted) }
    ensures others { (d : Deployment) (program : List Behaviour) (hosted : List (Option Behaviour))
        (lines : List Line) (booted last : WorldState Behaviour)
        → IsPlainWorldOf d program hosted lines booted last
        → OthersCiteNothing d (acts_of declared_of turn_of first_of d hosted lines booted) }
{}

/// Nor do replies differ in a world of such behaviours.
pub fn plain_no_difference()
    ensures { (d : Deployment) (program : List Behaviour) (hosted : List (Option Behaviour))
        (lines : List Line) (booted last : WorldState Behaviour)
        → IsPlainWorldOf d program hosted lines booted last
        → NoneDiffer declared_of turn_of last }
{}
