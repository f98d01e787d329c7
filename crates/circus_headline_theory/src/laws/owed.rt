// What holds of everything that a member makes.
ghost use Rattle.std.specs.Prelude.{◌≡◌, ◌↔◌, ℕ, true, List};
ghost use Rattle.circus_collate.specs.declared.view.View.{View};
ghost use Rattle.circus_value.specs.ValueTree.{ValueTree};
ghost use Rattle.circus_collate.specs.declared.deployment.Deployment.{Deployment};
ghost use Rattle.circus_collate.specs.declared.deployment.Troupe.{Troupe};
ghost use Rattle.circus_collate.specs.declared.kind.Kind.{Kind};
ghost use Rattle.circus_ring.specs.RingTable.{boot_views};
ghost use Rattle.circus_model.specs.Behaviour.{Behaviour};
ghost use Rattle.circus_record.specs.declared.record.MemberRecord.{MemberRecord};
ghost use Rattle.circus_performing.specs.Record.{IsRecord};
ghost use Rattle.circus_node.specs.Booting.{beginning_in, home_in};
ghost use Rattle.circus_node.specs.Trace.{Trace};
ghost use Rattle.circus_header.specs.declared.call.CallHeader.{CallHeader};
ghost use Rattle.circus_member_rules.specs.declared.occurrence.Occurrence.{Occurrence};
ghost use Rattle.circus_member_rules.specs.declared.place.Beginning.{Beginning};
ghost use Rattle.circus_member_rules.specs.declared.place.Place.{Place};
ghost use Rattle.circus_member_theory.specs.Past.{Past, followed};
ghost use Rattle.circus_member_theory.specs.Differences.{differences};
ghost use Rattle.circus_member_theory.specs.Made.{AreDistinct};
ghost use Rattle.circus_member_theory.specs.Order.{IsInOrder};
ghost use Rattle.circus_member_theory.specs.Owed.{AreReturned, AreRequested, AreAsked};
ghost use Rattle.circus_member_theory.specs.Timely.{IsTimely};
ghost use Rattle.circus_headline_theory.specs.Owed.Fanout.{Act, AreAnswers, CallsWhoIsOwed};
ghost use Rattle.circus_gather.specs.Gathering.{is_same_call};
ghost use Rattle.circus_gather.specs.declared.held.HeldCall.{HeldCall};
ghost use Rattle.circus_headline_theory.specs.Owed.SameCall.{SaySame};
ghost use Rattle.circus_headline_theory.specs.NodeRun.{past_of, runs_at_boot, IsOrdered};
ghost use Rattle.circus_headline_theory.specs.Trace.{made_of, Rises};
ghost use Rattle.circus_headline_theory.specs.Owed.OrderedMakes.{made_at_boot, BeginsRight};
ghost use Rattle.circus_headline_theory.specs.Owed.OrderedMakes.{StartInOrder};
ghost use Rattle.circus_headline_theory.specs.Owed.Living.{made_by, makes_in, told_by};
ghost use Rattle.circus_member_theory.specs.Living.{HasLived, kept_after, phase_at_boot};

use circus_model::Module;

/// A call gets one return, by the first case that applies, in the first step in which one does, and
/// none before: that it is of an older view than required, that it is before the first call that
/// the member performs, or the reply of its run. A state request gets one snapshot, at the first
/// moment at which the member is active and performs no run. Nobody else gets a return.
pub fn returns_are_owed<M: Module>()
    ensures { (place : Place) (views : List View) (beginning : Beginning) (hosted : M) (p : Past)
        → HasLived M.declared M.turn M.first place views beginning hosted p → AreDistinct p
        → AreReturned place.troupe (phase_at_boot beginning) (M.first hosted)
        (kept_after M.declared M.turn M.first place views beginning hosted p) p
        (made_by M.declared M.turn M.first place views beginning hosted p) }
{}

/// The calls to the Ringmaster, and for a state, are made in the step of their cause, once for each
/// and never else: Join as the member is told to join, the state requests as it is taken in, Active
/// as it has a state, Gone at a declaration of a node that a known view has, and last a Lookup for
/// each troupe of which a later view is wanted than is known, unless one is unanswered.
pub fn requests_are_owed<M: Module>()
    ensures { (place : Place) (views : List View) (beginning : Beginning) (hosted : M) (p : Past)
        → HasLived M.declared M.turn M.first place views beginning hosted p
        → AreRequested place views (phase_at_boot beginning)
        (kept_after M.declared M.turn M.first place views beginning hosted p) p
        (made_by M.declared M.turn M.first place views beginning hosted p) }
{}

/// The calls of asks are made in the step of their cause, and never else: as an ask is made, to
/// each entry of its server's view that isn't down; for a newer view, to each entry that it makes
/// due, while the ask is open; and again to a node whose Stale the known view satisfies. They stand
/// in the order of asking, then of the view, and name the views that are known in the step.
pub fn calls_are_owed<M: Module>()
    ensures { (place : Place) (views : List View) (beginning : Beginning) (hosted : M) (p : Past)
        → HasLived M.declared M.turn M.first place views beginning hosted p
        → AreAsked place views
        (kept_after M.declared M.turn M.first place views beginning hosted p) p
        (made_by M.declared M.turn M.first place views beginning hosted p) }
{}

/// What a member tells in each step are the differences of what has happened: in a step in which a
/// reply comes to an ask of a watchdog troupe that was open before it, that reply, where an earlier
/// one came and the first of them has another value.
pub fn differences_are_told<M: Module>()
    ensures { (place : Place) (views : List View) (beginning : Beginning) (hosted : M) (p : Past)
        → HasLived M.declared M.turn M.first place views beginning hosted p
        → told_by M.declared M.turn M.first place views beginning hosted p
        ≡ differences place views
        (kept_after M.declared M.turn M.first place views beginning hosted p) p }
{}

/// What a member makes in a step, and in which order, is a function of what has happened to it and
/// of its record. First comes what it makes of what comes: the calls of asks, the calls that are no
/// asks, and then the returns that no end of a run gives, as the calls came. Then the run that was
/// open goes on: the calls of the ask that it makes, or the returns as it ends. Once the member is
/// idle come the snapshots, and then what each run makes that starts. The Lookups come last, by
/// troupe.
pub fn steps_are_in_order<M: Module>()
    ensures { (place : Place) (views : List View) (beginning : Beginning) (hosted : M) (p : Past)
        (step : ℕ) (o : Occurrence)
        → HasLived M.declared M.turn M.first place views beginning hosted (followed p step o)
        → IsInOrder place views (phase_at_boot beginning) (M.first hosted)
        (kept_after M.declared M.turn M.first place views beginning hosted (followed p step o))
        p step o (makes_in M.declared M.turn M.first place views beginning hosted p step o) }
{}

/// Where all that a node made stands in its order, it is what its member owes, each in its step,
/// and nothing else. This is so by the order alone, whatever made it, if at boot the calls of the
/// asks of that step were made. For the calls of asks runs stand in the order of their starts, as
/// those of every record do that is in time (`starts`). For returns steps rise, and no two calls
/// or state requests were made by one node under one number.
pub fn order_says_what_is_made()
    ensures requested { (d : Deployment) (b : Behaviour) (node number : ℕ) (troupe : Troupe)
        (t : Trace) (kept : MemberRecord)
        → IsOrdered d b node number troupe kept t
        → BeginsRight (home_in d node number troupe).place (boot_views d.troupes) kept
        (made_at_boot t)
        → AreRequested (home_in d node number troupe).place (boot_views d.troupes)
        (phase_at_boot (beginning_in troupe node)) kept
        (past_of d b node number troupe kept t) (made_of t) }
    ensures asked { (d : Deployment) (b : Behaviour) (node number : ℕ) (troupe : Troupe)
        (t : Trace) (kept : MemberRecord)
        → IsOrdered d b node number troupe kept t
        → BeginsRight (home_in d node number troupe).place (boot_views d.troupes) kept
        (made_at_boot t)
        → StartInOrder kept.runs
        → AreAsked (home_in d node number troupe).place (boot_views d.troupes) kept
        (past_of d b node number troupe kept t) (made_of t) }
    ensures returned { (d : Deployment) (b : Behaviour) (node number : ℕ) (troupe : Troupe)
        (t : Trace) (kept : MemberRecord)
        → IsOrdered d b node number troupe kept t
        → BeginsRight (home_in d node number troupe).place (boot_views d.troupes) kept
        (made_at_boot t)
        → Rises t → AreDistinct (past_of d b node number troupe kept t)
        → AreReturned number (phase_at_boot (beginning_in troupe node)) b.first kept
        (past_of d b node number troupe kept t) (made_of t) }
    ensures starts { (d : Deployment) (b : Behaviour) (node number : ℕ) (troupe : Troupe)
        (p : Past) (state : List ValueTree) (kept : MemberRecord)
        → IsTimely (home_in d node number troupe).place (boot_views d.troupes)
        (phase_at_boot (beginning_in troupe node)) b.declared.procedures
        (runs_at_boot d b node number troupe) kept p
        → IsRecord b state kept → StartInOrder kept.runs }
{}

/// A call to many goes to whom it is owed, and to nobody else, whatever happens to it. At each time
/// every entry of the view that is known, and isn't down, has answered for good, or was called last
/// and has no answer yet, or said that the call is of an older view than one that is still to come.
/// Only an entry that isn't down is called, which was not called before, or whose last call the
/// view satisfies. The call is closed as each entry is down, or has replied, or has said that it is
/// before its first one; and what was said to it are the replies, in order.
pub fn calls_go_to_whom_they_are_owed()
    ensures { (header : CallHeader) (body : List ℕ) (kind : Kind) (first : View) (gone : List ℕ)
        (acts : List Act)
        → AreAnswers header body kind first gone acts
        → CallsWhoIsOwed header body kind first gone acts }
{}

/// Two calls that are held are taken for the same exactly where they say the same: the thread and
/// its place, the client and its place, the procedure and the bytes behind the header.
pub fn calls_are_the_same_that_say_the_same()
    ensures { (a b : HeldCall) → ((is_same_call a b ≡ true) ↔ SaySame a b) }
{}
