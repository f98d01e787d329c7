// What holds of a member's record behind every past, and of the words in which that is said.
ghost use Rattle.std.specs.Prelude.{◌≡◌, ℕ, true, false, List, Some};
ghost use Rattle.circus_collate.specs.Giving as giving;
ghost use Rattle.circus_collate.specs.Expecting.{expected_nodes};
ghost use Rattle.circus_collate.specs.declared.giving.Said.{Said as Arrival};
ghost use Rattle.circus_collate.specs.declared.kind.Kind.TheVariants as kind;
ghost use Rattle.circus_collate.specs.declared.view.View.{View};
ghost use Rattle.circus_gather.specs.Gathering.{is_counted};
ghost use Rattle.circus_gather.specs.declared.held.HeldCall.{HeldCall};
ghost use Rattle.circus_header.specs.declared.call.Request.TheVariants as request;
ghost use Rattle.circus_member_rules.specs.declared.place.Beginning.{Beginning};
ghost use Rattle.circus_member_rules.specs.declared.place.Place.{Place};
ghost use Rattle.circus_member_rules.specs.Step.{is_join, is_lookup};
ghost use Rattle.circus_performing.specs.Performing.{is_active, is_fetching};
ghost use Rattle.circus_member_theory.specs.Past.{Past};
ghost use Rattle.circus_member_theory.specs.Starts.{AreEnteredByCalls};
ghost use Rattle.circus_member_theory.specs.Timely.{IsTimely};
ghost use Rattle.circus_transfer.specs.declared.joiner.Joiner.TheVariants as joiner;
ghost use Rattle.circus_value.specs.Among.{is_among};
ghost use Rattle.circus_member_theory.specs.Counting.{HasOneThatPerforms, IsCallOf, IsUnanimous};
ghost use Rattle.circus_member_theory.specs.Living.{HasLived, kept_after};
ghost use Rattle.circus_member_theory.specs.Living.{phase_at_boot, runs_at_boot};

use circus_model::Module;

/// Nothing that a member does comes late or early, whatever happens to it. A root's founder has
/// entered its MAIN at boot. Each other run starts in the first step in which it may: the member is
/// active, the run before has ended, and the collator gives a call over all that arrived for its
/// index. Each ask of a thread that has calls left is answered in the first step in which its
/// collator gives a reply over all that came since it was asked. A spare is active from the first
/// step in which it has a state. And what may start or be answered by the end has been.
pub fn nothing_comes_late_or_early<M: Module>()
    ensures { (place : Place) (views : List View) (beginning : Beginning) (hosted : M) (p : Past)
        → HasLived M.declared M.turn M.first place views beginning hosted p
        → IsTimely place views (phase_at_boot beginning) (M.declared hosted).procedures
        (runs_at_boot M.declared beginning hosted)
        (kept_after M.declared M.turn M.first place views beginning hosted p) p }
{}

/// Each run that was started by a call is entered with the root, path and procedure of the call
/// that was given for it, with the arguments that its body spells, and at the call's clock with the
/// entry of the own troupe one greater.
pub fn runs_are_entered_as_called<M: Module>()
    ensures { (place : Place) (views : List View) (beginning : Beginning) (hosted : M) (p : Past)
        → HasLived M.declared M.turn M.first place views beginning hosted p
        → AreEnteredByCalls place views (phase_at_boot beginning) (M.declared hosted).procedures
        (runs_at_boot M.declared beginning hosted)
        (kept_after M.declared M.turn M.first place views beginning hosted p) p }
{}

/// Which phase is called active, which fetching, and which request a Join and which a Lookup.
pub fn words_say_what_they_mean()
    ensures active { (first : ℕ) → is_active (joiner.Active first) ≡ true }
    ensures fetching_is_not { (incarnation : ℕ)
        → is_active (joiner.Fetching incarnation) ≡ false }
    ensures asking_is_not { is_active joiner.Asking ≡ false }
    ensures outside_is_not { is_active joiner.Outside ≡ false }
    ensures fetching { (incarnation : ℕ) → is_fetching (joiner.Fetching incarnation) ≡ true }
    ensures active_fetches_none { (first : ℕ) → is_fetching (joiner.Active first) ≡ false }
    ensures asking_fetches_none { is_fetching joiner.Asking ≡ false }
    ensures outside_fetches_none { is_fetching joiner.Outside ≡ false }
    ensures joins { (troupe node : ℕ) → is_join (request.Join troupe node) ≡ true }
    ensures lookup_joins_not { (troupe : ℕ) → is_join (request.Lookup troupe) ≡ false }
    ensures active_joins_not { (troupe node count : ℕ)
        → is_join (request.Active troupe node count) ≡ false }
    ensures gone_joins_not { (troupe node : ℕ) → is_join (request.Gone troupe node) ≡ false }
    ensures looks_up { (troupe : ℕ) → is_lookup (request.Lookup troupe) ≡ true }
    ensures join_looks_not { (troupe node : ℕ) → is_lookup (request.Join troupe node) ≡ false }
    ensures active_looks_not { (troupe node count : ℕ)
        → is_lookup (request.Active troupe node count) ≡ false }
    ensures gone_looks_not { (troupe node : ℕ) → is_lookup (request.Gone troupe node) ≡ false }
{}

/// Under `Unanimous` the value that arrived first is given, and only where each node that is
/// expected to say it and isn't down has said something, and all that was said is equal.
pub fn unanimous_values_are_said_by_all<V: Eq>()
    ensures { (expected : V → List ℕ) (said : List (Arrival V)) (down : List ℕ) (place : ℕ)
        → giving.place_of_value V.eq expected said kind.Unanimous down ≡ Some place
        → IsUnanimous V.eq expected down said place }
{}

/// The nodes that are expected to say the value of an index are those of the entries that perform
/// calls from that index on or from an earlier one.
pub fn those_that_perform_are_expected()
    ensures only { (view : View) (index node : ℕ)
        → is_among (expected_nodes view index) node ≡ true → HasOneThatPerforms view index node }
    ensures all { (view : View) (index node : ℕ) → HasOneThatPerforms view index node
        → is_among (expected_nodes view index) node ≡ true }
{}

/// The calls that count for an index are those of that index, not of an older view than required,
/// whose client's view is known.
pub fn calls_of_known_views_count()
    ensures only { (troupe required : ℕ) (views : List View) (index : ℕ) (call : HeldCall)
        → is_counted troupe required views index call ≡ true
        → IsCallOf troupe required views index call }
    ensures all { (troupe required : ℕ) (views : List View) (index : ℕ) (call : HeldCall)
        → IsCallOf troupe required views index call
        → is_counted troupe required views index call ≡ true }
{}
