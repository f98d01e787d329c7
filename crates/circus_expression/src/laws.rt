// What holds of every list of tokens.
ghost use Rattle.std.specs.Prelude.{◌≡◌, ℕ, List, ◌++◌, Some};
ghost use Rattle.circus_syntax.specs.declared.stopping.Stop.{Stop};
ghost use Rattle.circus_syntax.specs.declared.stopping.StopCause.{StopCause};
ghost use Rattle.circus_syntax.specs.Placed.{Placed, first, AreTokens, AreWithin};
ghost use Rattle.circus_syntax.specs.Reader.{open_at, place_in};
ghost use Rattle.circus_expression.specs.declared.operator.Chain.{Chain};
ghost use Rattle.circus_expression.specs.Ending.{Are, IsUnexpected, IsTooDeep, IsFilledIn, Ends};
ghost use Rattle.circus_expression.specs.ExpressionReading.{read_chain};
ghost use Rattle.circus_expression.specs.Written.{Written, spelling, IsWritten};

/// An expression of no more levels than these is read to its end, where the token behind it goes on no expression.
pub fn expressions_are_read()
    ensures { (levels : ℕ) (own rest : List Placed) (w : Written) (end : ℕ)
        → Are spelling IsWritten own w → AreWithin levels (spelling w) → Ends (first rest)
        → read_chain levels Chain.Expression (open_at (own ++ rest) end) ≡ (w, open_at rest end) }
{}

/// What is read to its end is an expression of no more levels than these, and its tree is answered.
pub fn read_is_an_expression()
    ensures { (levels : ℕ) (all rest : List Placed) (w : Written) (end : ℕ) → AreTokens all
        → read_chain levels Chain.Expression (open_at all end) ≡ (w, open_at rest end)
        → (own : List Placed) × (all ≡ own ++ rest) × Are spelling IsWritten own w
        × AreWithin levels (spelling w) }
{}

/// Where reading stops and nothing is too deep, the tokens so far begin an expression, and none goes on with the next
/// one.
pub fn stops_at_the_unexpected()
    ensures { (levels : ℕ) (all left : List Placed) (w : Written) (stop : Stop) (end : ℕ)
        → AreTokens all
        → read_chain levels Chain.Expression (open_at all end)
        ≡ (w, record { rest = left; end = end; stop = Some stop })
        → stop.cause ≡ StopCause.Unexpected
        → IsUnexpected spelling IsWritten all left × (stop.place ≡ place_in left end) }
{}

/// Where reading stops and a level is too many, the tokens so far begin an expression with the next one too, and in each
/// such expression that one stands too deep.
pub fn stops_at_the_too_deep()
    ensures { (levels : ℕ) (all left : List Placed) (w : Written) (stop : Stop) (end : ℕ)
        → AreTokens all
        → read_chain levels Chain.Expression (open_at all end)
        ≡ (w, record { rest = left; end = end; stop = Some stop })
        → stop.cause ≡ StopCause.TooDeep
        → IsTooDeep spelling IsWritten levels all left × (stop.place ≡ place_in left end) }
{}

/// Where reading stops, the tree is that of an expression which the tokens so far begin. What it has besides them stands
/// at the place of the stop.
pub fn a_stop_is_filled_in()
    ensures { (levels : ℕ) (all left : List Placed) (w : Written) (stop : Stop) (end : ℕ)
        → AreTokens all
        → read_chain levels Chain.Expression (open_at all end)
        ≡ (w, record { rest = left; end = end; stop = Some stop })
        → IsFilledIn spelling IsWritten levels all left stop.place w }
{}
