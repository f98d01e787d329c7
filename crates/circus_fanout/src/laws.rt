// What is known after every list of notices.
ghost use Rattle.std.specs.Prelude.{◌≡◌, ℕ, ◌<◌, List, length, Some, slice_get};
ghost use Rattle.circus_value.specs.Among.{is_among};
ghost use Rattle.circus_collate.specs.declared.view.View.{View};
ghost use Rattle.circus_fanout.specs.declared.known.Want.{Want};
ghost use Rattle.circus_fanout.specs.Notices.{Notices, views_of, IsHighest, was_declared, greatest_wanted};
ghost use Rattle.circus_fanout.specs.Knowing.{known_by};

/// The view that is known of a troupe is the first of the greatest incarnation among its boot view and its tables.
pub fn views_are_the_highest()
    ensures { (boot : List View) (notices : Notices) (troupe : ℕ) (view : View)
        → slice_get (known_by boot notices).views troupe ≡ Some view
        → IsHighest (views_of boot troupe notices) view }
{}

/// The nodes that are down are those that were declared.
pub fn down_are_declared()
    ensures { (boot : List View) (notices : Notices) (node : ℕ)
        → is_among (known_by boot notices).down node ≡ was_declared node notices }
{}

/// A view of a troupe is wanted in the greatest of all incarnations in which it was.
pub fn wanted_are_the_greatest()
    ensures { (boot : List View) (notices : Notices) (troupe : ℕ) (want : Want)
        → troupe < length boot
        → slice_get (known_by boot notices).wants troupe ≡ Some want
        → want.incarnation ≡ greatest_wanted troupe notices }
{}
