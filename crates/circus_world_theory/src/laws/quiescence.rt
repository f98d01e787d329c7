// What holds where nothing is lost.
ghost use Rattle.std.specs.Prelude.{◌≡◌, ◌≢◌, ◌<◌, ◌≤◌, ◌*◌, ◌⊎◌, ℕ, Option, List, All, length};
ghost use Rattle.circus_collate.specs.declared.deployment.Deployment.{Deployment};
ghost use Rattle.circus_pair.specs.TwoEnds.{Talk, IsTalk, acts_at_first, acts_at_second};
ghost use Rattle.circus_schedule.specs.declared.line.Line.{Line};
ghost use Rattle.circus_world.specs.WorldState.{WorldState};
ghost use Rattle.circus_world_theory.specs.Histories.{acts_of, acts_between};
ghost use Rattle.circus_model.specs.Behaviour.{behaviours};
ghost use Rattle.circus_model.specs.Execution.{history_of};
ghost use Rattle.circus_world_theory.specs.Worlds.{IsWorldOf};
ghost use Rattle.circus_world_theory.specs.Coming.{IsUndisturbed, AllCame, AllArrived};
ghost use Rattle.circus_world_theory.specs.Quiet.{IsDelivery, IsQuiet};
ghost use Rattle.circus_world_theory.specs.Still.{AllStill, CallsAreAsks, ReturnsAreReplies};
ghost use Rattle.circus_world_theory.specs.Told.{AllTold};
ghost use Rattle.circus_world_theory.specs.Done.{EndsEveryRoot};
ghost use Rattle.circus_world_theory.specs.Enough.{AreOnce, all_segments};

use circus_model::Module;

/// Where all datagrams that two ends have sent have come, with no tick and no stop, each call was
/// sent and is acknowledged whole, and each call and each return has arrived at the other end.
pub fn all_that_came_arrived()
    ensures { (format : ℕ) (talk : Talk) → (format ≡ 1) ⊎ (format ≡ 2) → IsTalk format talk
        → IsUndisturbed (acts_at_first talk) → IsUndisturbed (acts_at_second talk)
        → AllCame format (acts_at_first talk) (acts_at_second talk)
        → AllCame format (acts_at_second talk) (acts_at_first talk)
        → AllArrived format (acts_at_first talk) (acts_at_second talk)
        × AllArrived format (acts_at_second talk) (acts_at_first talk) }
{}

/// In a world that is quiet, each call that a node has handed over to another one was sent and is
/// acknowledged whole, and each call and each return has arrived.
pub fn where_nothing_is_lost_all_arrives<M: Module>()
    ensures { (d : Deployment) (modules : List M) (hosted : List (Option M)) (lines : List Line)
        (booted last : WorldState M) (node other : ℕ)
        → IsWorldOf M.declared M.turn M.first d modules hosted lines booted last
        → IsQuiet last lines → node < length d.nodes → other < length d.nodes → node ≢ other
        → let between = acts_between M.declared M.turn M.first d hosted lines booted in
        AllArrived d.format (between node other) (between other node) }
{}

/// In a world that deliveries alone lead to, each member stays as it booted: a founder is active
/// from its first call on, a spare is outside, each knows the views that it booted with, no node is
/// down to it, and it owes nobody a state.
pub fn where_all_is_delivered_members_stay<M: Module>()
    ensures { (d : Deployment) (modules : List M) (hosted : List (Option M)) (lines : List Line)
        (booted last : WorldState M)
        → IsWorldOf M.declared M.turn M.first d modules hosted lines booted last
        → All IsDelivery lines → AllStill d last }
{}

/// There each call is for an ask, and each return is the true reply to one: nobody is told to name
/// a newer view, to call another member, or that it may join.
pub fn where_all_is_delivered_messages_are_asks_and_replies<M: Module>()
    ensures asks { (d : Deployment) (modules : List M) (hosted : List (Option M))
        (lines : List Line) (booted last : WorldState M)
        → IsWorldOf M.declared M.turn M.first d modules hosted lines booted last
        → All IsDelivery lines
        → CallsAreAsks d (acts_of M.declared M.turn M.first d hosted lines booted) }
    ensures replies { (d : Deployment) (modules : List M) (hosted : List (Option M))
        (lines : List Line) (booted last : WorldState M)
        → IsWorldOf M.declared M.turn M.first d modules hosted lines booted last
        → All IsDelivery lines
        → ReturnsAreReplies (behaviours M.declared M.turn M.first modules) d
        (acts_of M.declared M.turn M.first d hosted lines booted) }
{}

/// In a world that is quiet, each ask that a member's record has, made with calls left, was called
/// at each founder of the troupe that it goes to; each call that was made to a member waits there
/// or has its return; what was returned to the calls of an ask that waits has been said to it; and
/// a member to which something came has gone on as far as it can.
pub fn where_nothing_is_lost_all_is_told<M: Module>()
    ensures { (d : Deployment) (modules : List M) (hosted : List (Option M)) (lines : List Line)
        (booted last : WorldState M)
        → IsWorldOf M.declared M.turn M.first d modules hosted lines booted last
        → IsQuiet last lines
        → AllTold d (acts_of M.declared M.turn M.first d hosted lines booted) last }
{}

/// Where nothing is lost, every root ends. Of a world that is quiet, where no AT LEAST asks for
/// more equal messages than there are founders, each founder of each root has performed its one run
/// to the end.
pub fn where_nothing_is_lost_every_root_ends<M: Module>()
    ensures { (lines : List Line) (last : WorldState M) → IsQuiet last lines
        → EndsEveryRoot M.declared M.turn M.first lines last }
{}

/// Of a world that deliveries alone lead to, no datagram of which is delivered twice, there are at
/// most twice as many datagrams as the messages of the program's history have segments. Each
/// segment is sent once, and acknowledged at most once.
pub fn where_nothing_is_repeated_few_are_sent<M: Module>()
    ensures { (d : Deployment) (modules : List M) (hosted : List (Option M)) (lines : List Line)
        (booted last : WorldState M)
        → IsWorldOf M.declared M.turn M.first d modules hosted lines booted last
        → All IsDelivery lines → AreOnce lines
        → let history = history_of (behaviours M.declared M.turn M.first modules) in
        length last.sent ≤ 2 * all_segments d history }
{}
