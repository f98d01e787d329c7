// What holds of every list of tokens.
ghost use Rattle.std.specs.Prelude.{◌≡◌, ℕ, false, List, ◌++◌, Some};
ghost use Rattle.circus_syntax.specs.declared.stopping.Stop.{Stop};
ghost use Rattle.circus_syntax.specs.declared.stopping.StopCause.{StopCause};
ghost use Rattle.circus_syntax.specs.Placed.{Placed, first, AreTokens, AreWithin};
ghost use Rattle.circus_syntax.specs.Reader.{open_at, place_in, passes};
ghost use Rattle.circus_expression.specs.Ending.{Are, IsUnexpected, IsTooDeep, IsFilledIn};
ghost use Rattle.circus_statement.specs.StatementReading.{begins_statement, block};
ghost use Rattle.circus_statement.specs.WrittenStatement.{WrittenStatement, spelling_listed, AreListed};

/// A word and the statements behind it, of no more levels than these, are read to their end, where the token behind them
/// begins no further statement.
pub fn statements_are_read()
    ensures { (levels : ℕ) (lead : List ℕ) (own rest : List Placed) (ss : List WrittenStatement)
        (end : ℕ)
        → Are (spelling_listed lead) AreListed own ss → AreWithin levels (spelling_listed lead ss)
        → passes begins_statement (first rest) ≡ false
        → block levels lead (open_at (own ++ rest) end) ≡ (ss, open_at rest end) }
{}

/// What is read to its end is the word and statements of no more levels than these, and their trees are answered.
pub fn read_are_statements()
    ensures { (levels : ℕ) (lead : List ℕ) (all rest : List Placed) (ss : List WrittenStatement)
        (end : ℕ) → AreTokens all
        → block levels lead (open_at all end) ≡ (ss, open_at rest end)
        → (own : List Placed) × (all ≡ own ++ rest) × Are (spelling_listed lead) AreListed own ss
        × AreWithin levels (spelling_listed lead ss) }
{}

/// Where reading stops and nothing is too deep, the tokens so far begin the word and statements, and none goes on with
/// the next one.
pub fn stops_at_the_unexpected()
    ensures { (levels : ℕ) (lead : List ℕ) (all left : List Placed) (ss : List WrittenStatement)
        (stop : Stop) (end : ℕ)
        → AreTokens all → block levels lead (open_at all end)
        ≡ (ss, record { rest = left; end = end; stop = Some stop })
        → stop.cause ≡ StopCause.Unexpected
        → IsUnexpected (spelling_listed lead) AreListed all left
        × (stop.place ≡ place_in left end) }
{}

/// Where reading stops and a level is too many, the tokens so far begin the word and statements with the next one too,
/// and in all such statements that one stands too deep.
pub fn stops_at_the_too_deep()
    ensures { (levels : ℕ) (lead : List ℕ) (all left : List Placed) (ss : List WrittenStatement)
        (stop : Stop) (end : ℕ)
        → AreTokens all → block levels lead (open_at all end)
        ≡ (ss, record { rest = left; end = end; stop = Some stop })
        → stop.cause ≡ StopCause.TooDeep
        → IsTooDeep (spelling_listed lead) AreListed levels all left
        × (stop.place ≡ place_in left end) }
{}

/// Where reading stops, the trees are those of statements which the tokens so far begin. What they have besides them
/// stands at the place of the stop.
pub fn a_stop_is_filled_in()
    ensures { (levels : ℕ) (lead : List ℕ) (all left : List Placed) (ss : List WrittenStatement)
        (stop : Stop) (end : ℕ)
        → AreTokens all → block levels lead (open_at all end)
        ≡ (ss, record { rest = left; end = end; stop = Some stop })
        → IsFilledIn (spelling_listed lead) AreListed levels all left stop.place ss }
{}
