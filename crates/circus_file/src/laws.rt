// What holds of every list of tokens.
ghost use Rattle.std.specs.Prelude.{◌≡◌, ℕ, List, [], Some};
ghost use Rattle.circus_syntax.specs.declared.stopping.Stop.{Stop};
ghost use Rattle.circus_syntax.specs.declared.stopping.StopCause.{StopCause};
ghost use Rattle.circus_syntax.specs.Placed.{Placed, AreTokens, AreWithin};
ghost use Rattle.circus_syntax.specs.Reader.{open_at, place_in};
ghost use Rattle.circus_syntax.specs.Spelling.{most_levels};
ghost use Rattle.circus_expression.specs.Ending.{Are, IsUnexpected, IsTooDeep, IsFilledIn};
ghost use Rattle.circus_file.specs.ProgramReading.{program};
ghost use Rattle.circus_file.specs.WrittenProgram.{WrittenProgram, spelling_program, IsProgram};

/// A program of no more levels than there may be is read to its end.
pub fn programs_are_read()
    ensures { (all : List Placed) (w : WrittenProgram) (end : ℕ)
        → Are spelling_program IsProgram all w → AreWithin most_levels (spelling_program w)
        → program most_levels (open_at all end) ≡ (w, open_at [] end) }
{}

/// Where reading doesn't stop, no token is left; the tokens are a program of no more levels than there may be, and its tree
/// is answered.
pub fn read_is_a_program()
    ensures { (all left : List Placed) (w : WrittenProgram) (end : ℕ) → AreTokens all
        → program most_levels (open_at all end) ≡ (w, open_at left end)
        → (left ≡ []) × Are spelling_program IsProgram all w
        × AreWithin most_levels (spelling_program w) }
{}

/// Tokens have one tree.
pub fn one_program()
    ensures { (all : List Placed) (w other : WrittenProgram)
        → Are spelling_program IsProgram all w → Are spelling_program IsProgram all other
        → w ≡ other }
{}

/// Where reading stops and nothing is too deep, the tokens so far begin a program, and none goes on with the next one; at
/// the end of the text they are none.
pub fn stops_at_the_unexpected()
    ensures { (all left : List Placed) (w : WrittenProgram) (stop : Stop) (end : ℕ) → AreTokens all
        → program most_levels (open_at all end)
        ≡ (w, record { rest = left; end = end; stop = Some stop })
        → stop.cause ≡ StopCause.Unexpected
        → IsUnexpected spelling_program IsProgram all left × (stop.place ≡ place_in left end) }
{}

/// Where reading stops and a level is too many, the tokens so far begin a program with the next one too, and in each such
/// program that one stands too deep.
pub fn stops_at_the_too_deep()
    ensures { (all left : List Placed) (w : WrittenProgram) (stop : Stop) (end : ℕ) → AreTokens all
        → program most_levels (open_at all end)
        ≡ (w, record { rest = left; end = end; stop = Some stop })
        → stop.cause ≡ StopCause.TooDeep
        → IsTooDeep spelling_program IsProgram most_levels all left
        × (stop.place ≡ place_in left end) }
{}

/// Where reading stops, the tree is that of a program which the tokens so far begin. What it has besides them stands at the
/// place of the stop.
pub fn a_stop_is_filled_in()
    ensures { (all left : List Placed) (w : WrittenProgram) (stop : Stop) (end : ℕ) → AreTokens all
        → program most_levels (open_at all end)
        ≡ (w, record { rest = left; end = end; stop = Some stop })
        → IsFilledIn spelling_program IsProgram most_levels all left stop.place w }
{}
