// What holds of every text.
ghost use Rattle.std.specs.Prelude.{◌≡◌, ℕ, List};
ghost use Rattle.circus_place.specs.declared.place_fault.PlaceFault.{PlaceFault};
ghost use Rattle.circus_place.specs.ReadAs.{IsRefused};

/// A text that is refused is refused in one way: with one line and one cause.
pub fn one_refusal()
    ensures { (text : List ℕ) (one other : PlaceFault) → IsRefused text one → IsRefused text other
        → one ≡ other }
{}
