// What holds of every world that has settled.
ghost use Rattle.std.specs.Prelude.{◌≡◌, ◌≤◌, ◌<◌, ◌*◌, ℕ, Err, List, [], Option, length, map};
ghost use Rattle.circus_collate.specs.declared.deployment.Deployment.{Deployment};
ghost use Rattle.circus_schedule.specs.declared.line.Line.TheVariants.{Deliver};
ghost use Rattle.circus_model.specs.Behaviour.{behaviours};
ghost use Rattle.circus_model.specs.Execution.{history_of};
ghost use Rattle.circus_node.specs.Alike.{declared_of, turn_of};
ghost use Rattle.circus_record.specs.Naming.{Names};
ghost use Rattle.circus_world.specs.WorldState.{WorldState};
ghost use Rattle.circus_world.specs.Course.{step_line};
ghost use Rattle.circus_world.specs.Lines.{Lead};
ghost use Rattle.circus_world.specs.Alike.{world_as};
ghost use Rattle.circus_world_theory.specs.Worlds.{IsWorldOf};
ghost use Rattle.circus_world_theory.specs.Done.{AskEnough, RootsAreDone};
ghost use Rattle.circus_world_theory.specs.Enough.{all_segments};
ghost use Rattle.circus_world_theory.specs.Quiet.{IsQuiet};
ghost use Rattle.circus_settle.specs.Settled.{Delivered, first_deliveries, settle_world, HasSettled};
ghost use Rattle.circus_settle.specs.Summary.{settled_text};
ghost use Rattle.circus_settle.specs.Alike.{settling_as};

use circus_model::Module;

/// A world that has settled is what a schedule leaves that delivers the first datagrams in the
/// order of sending, each of which may be delivered: what holds of worlds that lines lead to holds
/// of it. More are delivered than asked for in no case, and fewer only where none is left; then the
/// world is quiet. So where as many as asked for can be delivered, they are.
pub fn settled_worlds_are_led_to<M: Module>()
    ensures lines { (most : ℕ) (world : WorldState M) (done : Delivered M)
        → HasSettled M.declared M.turn most world done
        → Lead M.declared M.turn (first_deliveries done.given) world done.world }
    ensures most { (most : ℕ) (world : WorldState M) (done : Delivered M)
        → HasSettled M.declared M.turn most world done → done.given ≤ most }
    ensures sent { (most : ℕ) (world : WorldState M) (done : Delivered M)
        → HasSettled M.declared M.turn most world done → done.given ≤ length done.world.sent }
    ensures all { (most : ℕ) (world : WorldState M) (done : Delivered M)
        → HasSettled M.declared M.turn most world done
        → done.given < length done.world.sent → done.given ≡ most }
    ensures quiet { (most : ℕ) (world : WorldState M) (done : Delivered M)
        → HasSettled M.declared M.turn most world done
        → done.given ≡ length done.world.sent → IsQuiet done.world (first_deliveries done.given) }
    ensures made { (most : ℕ) (world last : WorldState M)
        → Lead M.declared M.turn (first_deliveries most) world last
        → HasSettled M.declared M.turn most world (record { world = last; given = most }) }
{}

/// Where a node has no number left, so many datagrams were delivered before, and the next one can't
/// be.
pub fn settling_ends_as_steps_do<M: Module>()
    ensures { (most : ℕ) (world : WorldState M) (nodes : ℕ × ℕ)
        → settle_world M.declared M.turn most 0 world ≡ Err nodes
        → (given : ℕ) × (last : WorldState M) × (given < most)
        × Lead M.declared M.turn (first_deliveries given) world last
        × (given < length last.sent)
        × (step_line M.declared M.turn (Deliver given) last ≡ Err nodes) }
{}

/// Of a world that has just booted, twice as many deliveries as the messages of the program's
/// history have segments leave nothing. So every root ends then, where no AT LEAST asks for more
/// equal messages than there are founders.
pub fn enough_deliveries_leave_nothing<M: Module>()
    ensures none { (d : Deployment) (modules : List M) (hosted : List (Option M)) (most : ℕ)
        (booted : WorldState M) (done : Delivered M)
        → IsWorldOf M.declared M.turn M.first d modules hosted [] booted booted
        → 2 * all_segments d (history_of (behaviours M.declared M.turn M.first modules)) ≤ most
        → HasSettled M.declared M.turn most booted done → done.given ≡ length done.world.sent }
    ensures roots { (d : Deployment) (modules : List M) (hosted : List (Option M)) (most : ℕ)
        (booted : WorldState M) (done : Delivered M)
        → IsWorldOf M.declared M.turn M.first d modules hosted [] booted booted
        → 2 * all_segments d (history_of (behaviours M.declared M.turn M.first modules)) ≤ most
        → HasSettled M.declared M.turn most booted done
        → AskEnough d (map M.declared modules) → RootsAreDone d done.world }
{}

/// What settles comes to the same where behaviours stand for modules, and so does what is written
/// of it.
pub fn settling_depends_on_behaviours<M: Module>()
    ensures worlds { (most : ℕ) (world : WorldState M)
        → settling_as M.declared M.turn M.first (settle_world M.declared M.turn most 0 world)
        ≡ settle_world declared_of turn_of most 0 (world_as M.declared M.turn M.first world) }
    ensures texts { (names : Names) (given : ℕ) (world : WorldState M)
        → settled_text names given (world_as M.declared M.turn M.first world)
        ≡ settled_text names given world }
{}
