// What holds of every two nodes of a world that lines lead to.
ghost use Rattle.std.specs.Prelude.{◌≡◌, ◌≢◌, ◌<◌, ℕ, Ok, Some, Option, List, length, map, slice_get};
ghost use Rattle.circus_segment.specs.Segment.{reading};
ghost use Rattle.circus_collate.specs.Deployment.{IsDeployment};
ghost use Rattle.circus_collate.specs.declared.deployment.Deployment.{Deployment};
ghost use Rattle.circus_pair.specs.Handed.{call_at, return_at};
ghost use Rattle.circus_pair.specs.TwoEnds.{Talk, IsTalk, acts_at_first, acts_at_second, Agree};
ghost use Rattle.circus_value.specs.declared.caller.Caller.{Caller};
ghost use Rattle.circus_wire.specs.Wire.{heard_from};
ghost use Rattle.circus_wire.specs.WireActs.{purpose_of};
ghost use Rattle.circus_wire.specs.WireStanding.{WireStands, pair_of};
ghost use Rattle.circus_wire.specs.declared.delivery.Heard.TheVariants.{Called, Returned};
ghost use Rattle.circus_member_rules.specs.declared.occurrence.Purpose.{Purpose};
ghost use Rattle.circus_node.specs.Booting.{AreOfTroupes};
ghost use Rattle.circus_schedule.specs.declared.line.Line.{Line};
ghost use Rattle.circus_world.specs.Sent.{Sent};
ghost use Rattle.circus_world.specs.WorldState.{WorldState, Standing};
ghost use Rattle.circus_world.specs.Boot.{before_any, all_booted, AreHosted};
ghost use Rattle.circus_world.specs.Lines.{Lead};
ghost use Rattle.circus_world_theory.specs.Histories.{beginning_of, acts_of, acts_between};

use circus_model::Module;

/// The pairs of each node stand for what has happened at them, so that all laws of pairs hold of them: of a message that
/// arrives, a call that waits, a number that is next (docs/PROTOCOL.md, "Paired messages").
pub fn pairs_stand_for_their_acts<M: Module>()
    ensures { (d : Deployment) (modules : List M) (hosted : List (Option M)) (lines : List Line)
        (booted last : WorldState M) (node : ℕ) (s : Standing M)
        → IsDeployment d → AreOfTroupes d (map M.declared modules)
        → AreHosted M.declared M.turn M.first d modules hosted
        → all_booted M.declared M.turn M.first hosted (before_any d modules) ≡ Ok booted
        → Lead M.declared M.turn lines booted last
        → slice_get last.nodes node ≡ Some s
        → WireStands s.node.wire (beginning_of d node)
        (acts_of M.declared M.turn M.first d hosted lines booted node) }
{}

/// What happens at the pair of a node with another one, and at that of the other one with it, is a talk of two ends: what
/// comes at one was sent by the other before. So a message arrives at most once, as it was handed over, and counts as
/// acknowledged whole only where it has arrived (docs/PROTOCOL.md, "Segments").
pub fn two_nodes_talk<M: Module>()
    ensures talk { (d : Deployment) (modules : List M) (hosted : List (Option M))
        (lines : List Line) (booted last : WorldState M) (node other : ℕ)
        → IsDeployment d → AreOfTroupes d (map M.declared modules)
        → AreHosted M.declared M.turn M.first d modules hosted
        → all_booted M.declared M.turn M.first hosted (before_any d modules) ≡ Ok booted
        → Lead M.declared M.turn lines booted last
        → node < length d.nodes → other < length d.nodes → node ≢ other
        → (talk : Talk) × IsTalk d.format talk
        × (acts_at_first talk
        ≡ acts_between M.declared M.turn M.first d hosted lines booted node other)
        × (acts_at_second talk
        ≡ acts_between M.declared M.turn M.first d hosted lines booted other node) }
    ensures agree { (d : Deployment) (modules : List M) (hosted : List (Option M))
        (lines : List Line) (booted last : WorldState M) (node other : ℕ)
        → IsDeployment d → AreOfTroupes d (map M.declared modules)
        → AreHosted M.declared M.turn M.first d modules hosted
        → all_booted M.declared M.turn M.first hosted (before_any d modules) ≡ Ok booted
        → Lead M.declared M.turn lines booted last
        → node < length d.nodes → other < length d.nodes → node ≢ other
        → Agree d.format (acts_between M.declared M.turn M.first d hosted lines booted node other)
        (acts_between M.declared M.turn M.first d hosted lines booted other node) }
{}

/// A message that arrives at a node by a datagram was handed over by the node that sent the datagram, in an earlier step, with
/// these bytes: a call by a call to this node, and a return by the return to the call that this node made with that number,
/// for the purpose that is told with it.
pub fn messages_were_handed_over<M: Module>()
    ensures calls { (d : Deployment) (modules : List M) (hosted : List (Option M))
        (lines : List Line) (booted last : WorldState M)
        (number : ℕ) (sent : Sent) (s : Standing M) (caller : Caller) (message : List ℕ)
        → IsDeployment d → AreOfTroupes d (map M.declared modules)
        → AreHosted M.declared M.turn M.first d modules hosted
        → all_booted M.declared M.turn M.first hosted (before_any d modules) ≡ Ok booted
        → Lead M.declared M.turn lines booted last
        → slice_get last.sent number ≡ Some sent → slice_get last.nodes sent.to ≡ Some s
        → heard_from s.node.wire sent.from (reading sent.bytes) ≡ Called caller message
        → (caller.node ≡ sent.from)
        × (call_at 0 (acts_between M.declared M.turn M.first d hosted lines booted sent.from
        sent.to) caller.number ≡ Some message) }
    ensures returns { (d : Deployment) (modules : List M) (hosted : List (Option M))
        (lines : List Line) (booted last : WorldState M)
        (number : ℕ) (sent : Sent) (s : Standing M) (call : ℕ) (purpose : Purpose)
        (message : List ℕ)
        → IsDeployment d → AreOfTroupes d (map M.declared modules)
        → AreHosted M.declared M.turn M.first d modules hosted
        → all_booted M.declared M.turn M.first hosted (before_any d modules) ≡ Ok booted
        → Lead M.declared M.turn lines booted last
        → slice_get last.sent number ≡ Some sent → slice_get last.nodes sent.to ≡ Some s
        → heard_from s.node.wire sent.from (reading sent.bytes) ≡ Returned call purpose message
        → (return_at (acts_between M.declared M.turn M.first d hosted lines booted sent.from
        sent.to) call ≡ Some message)
        × (purpose_of (pair_of (beginning_of d sent.to)) sent.from
        (acts_of M.declared M.turn M.first d hosted lines booted sent.to) call ≡ Some purpose) }
{}
