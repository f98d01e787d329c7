// What holds of whatever was said.
ghost use Rattle.std.specs.Prelude.{◌≡◌, ◌≢◌, ℕ, ◌*◌, ◌<◌, ◌≤◌, ◌++◌, true, List, length, take, slice_get, IsSome, Some};
ghost use Rattle.circus_collate.specs.Giving as giving;
ghost use Rattle.circus_collate.specs.Collating as collating;
ghost use Rattle.circus_collate.specs.declared.giving.Said.{Said as Arrival};
ghost use Rattle.circus_collate.specs.declared.kind.Kind.{Kind as Collator};
ghost use Rattle.circus_collate.specs.declared.kind.Kind.TheVariants as kind;
ghost use Rattle.circus_collate.specs.declared.collating.Collated.TheVariants as answers;

/// A value that a collator gives is one that was said (docs/PROTOCOL.md, "Collators").
pub fn given_values_were_said<V: Eq>()
    ensures { (expected : V → List ℕ) (said : List (Arrival V)) (collator : Collator)
        (down : List ℕ) (place : ℕ)
        → giving.place_of_value V.eq expected said collator down ≡ Some place
        → place < length said }
{}

/// Under `Majority` and `AtLeast` a value is given exactly where more than half of those that are expected to say
/// it, or so many of them, said it first. The one that is given is the first that counts of its value. Who is expected
/// may depend on the value, where equal values are expected of the same nodes.
pub fn values_are_given_by_votes<V: Eq>()
    ensures majority { (expected : V → List ℕ) (said : List (Arrival V)) (place : ℕ)
        → giving.majority V.eq expected said ≡ Some place
        → (s : Arrival V) × (slice_get said place ≡ Some s)
        × (giving.counts expected said place ≡ true)
        × (length (expected s.value) < 2 * giving.votes V.eq said (expected s.value) s.value) }
    ensures number { (expected : V → List ℕ) (said : List (Arrival V)) (number place : ℕ)
        → giving.IsOfEquals V.eq expected
        → giving.at_least V.eq expected said number ≡ Some place
        → (s : Arrival V) × (slice_get said place ≡ Some s)
        × (giving.counts expected said place ≡ true)
        × (number ≤ giving.votes V.eq said (expected s.value) s.value) }

    // A value that has the votes is not passed over.
    ensures some_majority { (expected : V → List ℕ) (said : List (Arrival V)) (value : V)
        → giving.IsOfEquals V.eq expected
        → length (expected value) < 2 * giving.votes V.eq said (expected value) value
        → IsSome (giving.majority V.eq expected said) }
    ensures some_number { (expected : V → List ℕ) (said : List (Arrival V)) (number : ℕ) (value : V)
        → giving.IsOfEquals V.eq expected → 1 ≤ number
        → number ≤ giving.votes V.eq said (expected value) value
        → IsSome (giving.at_least V.eq expected said number) }

    // Of two values that were said so often, the one that came to it first is given.
    ensures earliest { (expected : V → List ℕ) (said : List (Arrival V)) (number place arrivals : ℕ)
        (s : Arrival V) (value : V)
        → giving.IsOfEquals V.eq expected → 1 ≤ number
        → giving.at_least V.eq expected said number ≡ Some place → slice_get said place ≡ Some s
        → number ≤ giving.votes V.eq (take arrivals said) (expected value) value
        → number ≤ giving.votes V.eq (take arrivals said) (expected s.value) s.value }
{}

/// Where all that was said is equal, no collator differs.
pub fn equal_values_do_not_differ<V: Eq>()
    ensures { (nodes down : List ℕ) (said : List (Arrival V)) (collator : Collator) (one other : ℕ)
        → ((place : ℕ) → place < length said → giving.have_equal V.eq said 0 place ≡ true)
        → collating.collate V.eq nodes down said collator ≢ answers.Differ one other }
{}

/// More that is said later never takes a given value back, but for `Unanimous`.
pub fn given_values_stay<V: Eq>()
    ensures { (nodes down : List ℕ) (said later : List (Arrival V)) (collator : Collator)
        (place : ℕ) → collator ≢ kind.Unanimous
        → collating.collate V.eq nodes down said collator ≡ answers.Answer place
        → collating.collate V.eq nodes down (said ++ later) collator ≡ answers.Answer place }
{}
