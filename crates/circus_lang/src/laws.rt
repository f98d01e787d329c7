// What holds of every list of tokens.
ghost use Rattle.std.specs.Prelude.{◌≡◌, ℕ, List, [], ◌++◌, Some};
ghost use Rattle.circus_syntax.specs.declared.stopping.Stop.{Stop};
ghost use Rattle.circus_syntax.specs.declared.stopping.StopCause.{StopCause};
ghost use Rattle.circus_syntax.specs.Placed.{Placed, AreTokens, AreWithin};
ghost use Rattle.circus_syntax.specs.Reader.{open_at, place_in};
ghost use Rattle.circus_syntax.specs.Spelling.{most_levels};
ghost use Rattle.circus_expression.specs.Ending.{Are, IsUnexpected, IsTooDeep, IsFilledIn};
ghost use Rattle.circus_lang.specs.Ending.{NoneEnds};
ghost use Rattle.circus_lang.specs.ModuleReading.{module_text};
ghost use Rattle.circus_lang.specs.WrittenModule.{WrittenModule, spelling_module, IsModule};

/// A module of no more levels than there may be is read to its end, whatever stands behind it.
pub fn modules_are_read()
    ensures { (own rest : List Placed) (w : WrittenModule) (end : ℕ)
        → Are spelling_module IsModule own w → AreWithin most_levels (spelling_module w)
        → module_text most_levels (open_at (own ++ rest) end) ≡ (w, open_at rest end) }
{}

/// What is read to its end is a module of no more levels than there may be, and its tree is answered.
pub fn read_is_a_module()
    ensures { (all rest : List Placed) (w : WrittenModule) (end : ℕ) → AreTokens all
        → module_text most_levels (open_at all end) ≡ (w, open_at rest end)
        → (own : List Placed) × (all ≡ own ++ rest) × Are spelling_module IsModule own w
        × AreWithin most_levels (spelling_module w) }
{}

/// No module begins another one, and tokens have one tree.
pub fn one_module()
    ensures { (own more : List Placed) (w other : WrittenModule)
        → Are spelling_module IsModule own w → Are spelling_module IsModule (own ++ more) other
        → (more ≡ []) × (w ≡ other) }
{}

/// Where reading stops and nothing is too deep, the tokens so far begin a module, and none goes on with the next one; none
/// of their beginnings is a module, and so neither are they at the end of the text.
pub fn stops_at_the_unexpected()
    ensures { (all left : List Placed) (w : WrittenModule) (stop : Stop) (end : ℕ) → AreTokens all
        → module_text most_levels (open_at all end)
        ≡ (w, record { rest = left; end = end; stop = Some stop })
        → stop.cause ≡ StopCause.Unexpected
        → IsUnexpected spelling_module IsModule all left × NoneEnds all left
        × (stop.place ≡ place_in left end) }
{}

/// Where reading stops and a level is too many, the tokens so far begin a module with the next one too, and in each such
/// module that one stands too deep; none of their beginnings is a module.
pub fn stops_at_the_too_deep()
    ensures { (all left : List Placed) (w : WrittenModule) (stop : Stop) (end : ℕ) → AreTokens all
        → module_text most_levels (open_at all end)
        ≡ (w, record { rest = left; end = end; stop = Some stop })
        → stop.cause ≡ StopCause.TooDeep
        → IsTooDeep spelling_module IsModule most_levels all left × NoneEnds all left
        × (stop.place ≡ place_in left end) }
{}

/// Where reading stops, the tree is that of a module which the tokens so far begin. What it has besides them stands at the
/// place of the stop.
pub fn a_stop_is_filled_in()
    ensures { (all left : List Placed) (w : WrittenModule) (stop : Stop) (end : ℕ) → AreTokens all
        → module_text most_levels (open_at all end)
        ≡ (w, record { rest = left; end = end; stop = Some stop })
        → IsFilledIn spelling_module IsModule most_levels all left stop.place w }
{}
