// Where the facts of a world show that its roots have ended.
ghost use Rattle.std.specs.Prelude.{◌≡◌, ◌≤◌, ◌<◌, ◌*◌, ℕ, List, [], Option, length, map};
ghost use Rattle.circus_collate.specs.declared.deployment.Deployment.{Deployment};
ghost use Rattle.circus_model.specs.Behaviour.{Behaviour};
ghost use Rattle.circus_model.specs.Execution.{history_of};
ghost use Rattle.circus_node.specs.Alike.{declared_of, turn_of};
ghost use Rattle.circus_schedule.specs.declared.line.Line.{Line};
ghost use Rattle.circus_world.specs.WorldState.{WorldState};
ghost use Rattle.circus_world_theory.specs.Worlds.{IsPlainWorldOf};
ghost use Rattle.circus_world_theory.specs.Done.{AskEnough};
ghost use Rattle.circus_world_theory.specs.Enough.{all_segments};
ghost use Rattle.circus_world_theory.specs.Quiet.{IsQuiet};
ghost use Rattle.circus_settle.specs.Settled.{Delivered, first_deliveries, HasSettled};
ghost use Rattle.circus_headline_theory.specs.Facts.{RootsEnd, facts_of};

/// Where deliveries alone led to a world and each datagram that was sent was delivered, its facts
/// show that each founder of each root has performed its one run to the end, if no AT LEAST asks
/// for more equal messages than there are founders.
pub fn quiet_worlds_show_ended_roots()
    ensures { (d : Deployment) (program : List Behaviour) (hosted : List (Option Behaviour))
        (lines : List Line) (booted last : WorldState Behaviour)
        → IsPlainWorldOf d program hosted lines booted last → IsQuiet last lines
        → AskEnough d (map declared_of program) → RootsEnd d (facts_of last) }
{}

/// So it is where a world settles from boot, by twice as many deliveries as the messages of the
/// program's history have segments, which leave nothing.
pub fn enough_deliveries_show_ended_roots()
    ensures none { (d : Deployment) (program : List Behaviour) (hosted : List (Option Behaviour))
        (most : ℕ) (booted : WorldState Behaviour) (done : Delivered Behaviour)
        → IsPlainWorldOf d program hosted [] booted booted
        → 2 * all_segments d (history_of program) ≤ most
        → HasSettled declared_of turn_of most booted done → done.given ≡ length done.world.sent }
    ensures roots { (d : Deployment) (program : List Behaviour) (hosted : List (Option Behaviour))
        (most : ℕ) (booted : WorldState Behaviour) (done : Delivered Behaviour)
        → IsPlainWorldOf d program hosted [] booted booted
        → 2 * all_segments d (history_of program) ≤ most
        → HasSettled declared_of turn_of most booted done
        → AskEnough d (map declared_of program) → RootsEnd d (facts_of done.world) }
{}

/// Where first datagrams were delivered from boot, and some that were sent are left, fewer
/// deliveries were made than that.
pub fn few_deliveries_leave_some()
    ensures { (d : Deployment) (program : List Behaviour) (hosted : List (Option Behaviour))
        (given : ℕ) (booted last : WorldState Behaviour)
        → IsPlainWorldOf d program hosted (first_deliveries given) booted last
        → given < length last.sent → given < 2 * all_segments d (history_of program) }
{}
