// What holds of every node by itself, of every served node, and of every run.
ghost use Rattle.std.specs.Prelude.{List, ◌∷◌, ◌++◌, Option, ◌≡◌, ℕ, ◌<◌, All, Some, slice_get, Ok, Err};
ghost use Rattle.circus_collate.specs.declared.deployment.Deployment.{Deployment};
ghost use Rattle.circus_model.specs.Behaviour.{Behaviour, behaviours, IsModule};
ghost use Rattle.circus_schedule.specs.declared.line.Line.{Line};
ghost use Rattle.circus_world.specs.WorldState.{WorldState};
ghost use Rattle.circus_world_theory.specs.Worlds.{IsWorldOf, IsPlainWorldOf};
ghost use Rattle.circus_headline_theory.specs.Facts.{facts_of};
ghost use Rattle.circus_headline_theory.specs.Coming.{NodesLive, NodesSendWhatTheyGive};
ghost use Rattle.circus_headline_theory.specs.Coming.{NodesGetWhatLinesGive};
ghost use Rattle.circus_headline_theory.specs.Headline.{Headline};
ghost use Rattle.circus_node.specs.Accepting.{troupe_at};
ghost use Rattle.circus_collate.specs.declared.deployment.Troupe.{Troupe};
ghost use Rattle.circus_collate.specs.declared.view.View.{View};
ghost use Rattle.circus_record.specs.declared.record.MemberRecord.{MemberRecord};
ghost use Rattle.circus_performing.specs.Record.{behaviour};
ghost use Rattle.circus_node.specs.Booting.{CanBoot};
ghost use Rattle.circus_node.specs.NodeState.{NodeState, member_record};
ghost use Rattle.circus_node.specs.Step.{step_node};
ghost use Rattle.circus_node.specs.Trace.{Trace, StandsFor};
ghost use Rattle.circus_node.specs.declared.event.Event.{Event};
ghost use Rattle.circus_world_theory.specs.NodeLives.{Events, IsOfBytes, IsLife};
ghost use Rattle.circus_headline_theory.specs.Datagrams.Lives.{IsOfOther};
ghost use Rattle.circus_headline_theory.specs.RingRun.{IsRingRun};
ghost use Rattle.circus_headline_theory.specs.Trace.{events_of, now, Rises, ComesFromOthers};
ghost use Rattle.circus_headline_theory.specs.Numbers.{HasNumbers};
ghost use Rattle.circus_headline_theory.specs.NodeRun.{IsNodeRun, past_of};
ghost use Rattle.circus_headline_theory.specs.Lived.{trace_behind};
ghost use Rattle.circus_node.specs.Alike.{declared_of, turn_of, first_of};
ghost use Rattle.circus_outside.specs.declared.link.TakenFrom.{TakenFrom};
ghost use Rattle.circus_node.specs.Booting as booting;
ghost use Rattle.circus_node.specs.declared.event.Outputs.{Outputs};
ghost use Rattle.circus_serve.specs.Serving.{Served, on, happened_by, serve_takes};
ghost use Rattle.circus_headline_theory.specs.ServedRun.{IsOfOctets, IsServedRun, IsServedSoFar};

use circus_model::Module;

pub mod datagrams;
pub mod ended;
pub mod node_owed;
pub mod owed;
pub mod rules;

/// A node that hosts a member of a troupe is a node run, whatever comes to it from the other nodes:
/// datagrams with any bytes, whatever they claim, ticks, true and false declarations, and joins.
/// Its trace has just the events that came.
pub fn every_node_is_a_node_run<M: Module>()
    ensures run { (d : Deployment) (own : M) (node number : ℕ) (troupe : Troupe) (events : Events)
        (begun last : NodeState M) (kept : MemberRecord)
        → (life : IsLife M.declared M.turn M.first d own node events begun last)
        → All (λ (e : ℕ × Event). IsOfOther d node e.1) events
        → troupe_at d node ≡ Some number → slice_get d.troupes number ≡ Some troupe
        → member_record last.acting ≡ Some kept
        → IsNodeRun d (behaviour M.declared M.turn M.first own) node number troupe
        (trace_behind M.declared M.turn M.first d own node life.outputs events begun) kept }
    ensures events { (d : Deployment) (own : M) (node : ℕ) (events : Events)
        (begun last : NodeState M)
        → (life : IsLife M.declared M.turn M.first d own node events begun last)
        → events_of (trace_behind M.declared M.turn M.first d own node life.outputs events begun)
        ≡ events }
{}

/// So is every node that stands for a trace, as every core does that boots and steps
/// (`NodeCore::boot` and `NodeCore::step`): its trace and its record are a node run, where steps
/// rise and what came is of other nodes.
pub fn every_core_is_a_node_run<M: Module>()
    ensures { (d : Deployment) (own : M) (node number : ℕ) (troupe : Troupe) (t : Trace)
        (last : NodeState M) (kept : MemberRecord)
        → CanBoot d node (Some (M.declared own))
        → StandsFor M.declared M.turn M.first d (Some own) node t last
        → Rises t → ComesFromOthers d node t
        → troupe_at d node ≡ Some number → slice_get d.troupes number ≡ Some troupe
        → member_record last.acting ≡ Some kept
        → IsNodeRun d (behaviour M.declared M.turn M.first own) node number troupe t kept }
{}

/// Each call that was handed over along the trace of such a node has a number, and so it is along
/// every run of the Ringmaster's node, which makes no calls (docs/PROTOCOL.md, "Paired messages").
pub fn calls_have_numbers<M: Module>()
    ensures core { (d : Deployment) (own : M) (node number : ℕ) (troupe : Troupe) (t : Trace)
        (last : NodeState M)
        → CanBoot d node (Some (M.declared own))
        → StandsFor M.declared M.turn M.first d (Some own) node t last
        → Rises t → ComesFromOthers d node t
        → troupe_at d node ≡ Some number → slice_get d.troupes number ≡ Some troupe
        → HasNumbers d node t }
    ensures ring { (d : Deployment) (node : ℕ) (t : Trace) (views : List View)
        → IsRingRun d node t views → HasNumbers d node t }
{}

/// Where no number is left to such a node, at boot or in a step behind a trace, every node run to which
/// the same came up to that step has a call without a number, whatever came to it then.
pub fn spent_nodes_have_no_run<M: Module>()
    ensures boot { (d : Deployment) (own : M) (node number peer : ℕ) (troupe : Troupe)
        (lived : Trace) (kept : MemberRecord)
        → CanBoot d node (Some (M.declared own))
        → booting.boot_node M.declared M.turn M.first d (Some own) node ≡ Err peer
        → troupe_at d node ≡ Some number → slice_get d.troupes number ≡ Some troupe
        → IsNodeRun d (behaviour M.declared M.turn M.first own) node number troupe lived kept
        → Rises lived → HasNumbers d node lived → ⊥ }
    ensures step { (d : Deployment) (own : M) (node number peer : ℕ) (troupe : Troupe) (t : Trace)
        (n : NodeState M) (at : ℕ) (event : Event) (later : Events) (lived : Trace)
        (kept : MemberRecord)
        → CanBoot d node (Some (M.declared own))
        → StandsFor M.declared M.turn M.first d (Some own) node t n
        → Rises t → ComesFromOthers d node t
        → now t < at → IsOfOther d node event → IsOfBytes event
        → step_node M.declared M.turn at event n ≡ Err peer
        → troupe_at d node ≡ Some number → slice_get d.troupes number ≡ Some troupe
        → IsNodeRun d (behaviour M.declared M.turn M.first own) node number troupe lived kept
        → Rises lived → events_of lived ≡ events_of t ++ (at, event) ∷ later
        → HasNumbers d node lived → ⊥ }
{}

/// There is one record for what happened: two node runs of the same member that are told of the same
/// past have the same record, whatever their traces say of what was sent.
pub fn there_is_one_record()
    ensures { (d : Deployment) (b : Behaviour) (node number : ℕ) (troupe : Troupe)
        (one other : Trace) (kept last : MemberRecord)
        → IsNodeRun d b node number troupe one kept → IsNodeRun d b node number troupe other last
        → past_of d b node number troupe kept one ≡ past_of d b node number troupe last other
        → kept ≡ last }
{}

/// For the events that came to a node there is one run: two node runs of the same member with the same
/// events in the same steps, which rise, have the same record and the same trace. So what came says
/// what happened to the member, what its node made in each step, and what it gave, suspected and told.
pub fn there_is_one_run()
    ensures { (d : Deployment) (b : Behaviour) (node number : ℕ) (troupe : Troupe)
        (one other : Trace) (kept last : MemberRecord)
        → IsNodeRun d b node number troupe one kept → IsNodeRun d b node number troupe other last
        → Rises one → events_of one ≡ events_of other
        → (kept ≡ last) × (one ≡ other) }
{}

/// What happened to a served node that hosts a member, whatever its takes answered, is a node run,
/// with the record of its member: the events, what it gave in each and the differences are those
/// that a node record shows. It is one as far as it came, too, where a step had no number left to
/// another node.
pub fn served_nodes_are_node_runs<M: Module>()
    ensures run { (d : Deployment) (own : M) (node number : ℕ) (troupe : Troupe)
        (begun : NodeState M) (outputs : Outputs) (takes : List TakenFrom) (last : Served M)
        (kept : MemberRecord)
        → CanBoot d node (Some (M.declared own))
        → booting.boot_node M.declared M.turn M.first d (Some own) node ≡ Ok (begun, outputs)
        → serve_takes M.declared M.turn d node begun outputs.gives takes ≡ on last
        → All IsOfOctets takes
        → troupe_at d node ≡ Some number → slice_get d.troupes number ≡ Some troupe
        → member_record last.node.acting ≡ Some kept
        → IsServedRun d (behaviour M.declared M.turn M.first own) node number troupe
        last.happened kept }
    ensures so_far { (d : Deployment) (own : M) (node number : ℕ) (troupe : Troupe)
        (begun : NodeState M) (outputs : Outputs) (takes : List TakenFrom)
        → CanBoot d node (Some (M.declared own))
        → booting.boot_node M.declared M.turn M.first d (Some own) node ≡ Ok (begun, outputs)
        → All IsOfOctets takes
        → troupe_at d node ≡ Some number → slice_get d.troupes number ≡ Some troupe
        → IsServedSoFar d (behaviour M.declared M.turn M.first own) node number troupe
        (happened_by (serve_takes M.declared M.turn d node begun outputs.gives takes)) }
{}

/// So it is with a behaviour that keeps to the laws of modules, in place of a module.
pub fn plain_served_nodes_are_node_runs()
    ensures run { (d : Deployment) (b : Behaviour) (node number : ℕ) (troupe : Troupe)
        (begun : NodeState Behaviour) (outputs : Outputs) (takes : List TakenFrom)
        (last : Served Behaviour) (kept : MemberRecord)
        → IsModule b
        → CanBoot d node (Some b.declared)
        → booting.boot_node declared_of turn_of first_of d (Some b) node ≡ Ok (begun, outputs)
        → serve_takes declared_of turn_of d node begun outputs.gives takes ≡ on last
        → All IsOfOctets takes
        → troupe_at d node ≡ Some number → slice_get d.troupes number ≡ Some troupe
        → member_record last.node.acting ≡ Some kept
        → IsServedRun d b node number troupe last.happened kept }
    ensures so_far { (d : Deployment) (b : Behaviour) (node number : ℕ) (troupe : Troupe)
        (begun : NodeState Behaviour) (outputs : Outputs) (takes : List TakenFrom)
        → IsModule b
        → CanBoot d node (Some b.declared)
        → booting.boot_node declared_of turn_of first_of d (Some b) node ≡ Ok (begun, outputs)
        → All IsOfOctets takes
        → troupe_at d node ≡ Some number → slice_get d.troupes number ≡ Some troupe
        → IsServedSoFar d b node number troupe
        (happened_by (serve_takes declared_of turn_of d node begun outputs.gives takes)) }
{}

/// In every world that lines lead to each node lives by itself through what came to it: it boots,
/// and then bytes of other nodes, ticks, declarations and joins come to it in rising steps.
pub fn nodes_of_worlds_live<M: Module>()
    ensures { (d : Deployment) (modules : List M) (hosted : List (Option M))
        (lines : List Line) (begun last : WorldState M)
        → IsWorldOf M.declared M.turn M.first d modules hosted lines begun last
        → NodesLive M.declared M.turn M.first d hosted lines begun last }
{}

/// What came to a node is what the lines give to it, by the datagrams that were sent in the end.
pub fn nodes_get_what_lines_give<M: Module>()
    ensures { (d : Deployment) (modules : List M) (hosted : List (Option M))
        (lines : List Line) (begun last : WorldState M)
        → IsWorldOf M.declared M.turn M.first d modules hosted lines begun last
        → NodesGetWhatLinesGive M.declared M.turn d lines begun last }
{}

/// The datagrams that are from a node are those that it gave, at boot and in its steps, in order.
pub fn nodes_send_what_they_give<M: Module>()
    ensures { (d : Deployment) (modules : List M) (hosted : List (Option M))
        (lines : List Line) (begun last : WorldState M)
        → IsWorldOf M.declared M.turn M.first d modules hosted lines begun last
        → NodesSendWhatTheyGive M.declared M.turn M.first d hosted lines begun last }
{}

/// The facts of every world that lines lead to, of modules that agree, keep the headline: the
/// promise of a whole run.
pub fn worlds_keep_the_headline<M: Module>()
    ensures { (d : Deployment) (modules : List M) (hosted : List (Option M))
        (lines : List Line) (begun last : WorldState M)
        → IsWorldOf M.declared M.turn M.first d modules hosted lines begun last
        → Headline d (behaviours M.declared M.turn M.first modules) lines (facts_of last) }
{}

/// So it is with behaviours that keep to the laws of modules, in place of modules.
pub fn plain_worlds_keep_the_headline()
    ensures { (d : Deployment) (program : List Behaviour) (hosted : List (Option Behaviour))
        (lines : List Line) (begun last : WorldState Behaviour)
        → IsPlainWorldOf d program hosted lines begun last
        → Headline d program lines (facts_of last) }
{}
