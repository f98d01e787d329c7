// What holds of every list of tokens.
ghost use Rattle.std.specs.Prelude.{◌≡◌, ℕ, List, [], ◌++◌, Some, All};
ghost use Rattle.circus_text.specs.declared.token.Token.{Token};
ghost use Rattle.circus_text.specs.Token.{IsTokenIn};
ghost use Rattle.circus_syntax.specs.declared.stopping.Stop.{Stop};
ghost use Rattle.circus_syntax.specs.declared.stopping.StopCause.{StopCause};
ghost use Rattle.circus_syntax.specs.InterfaceTree.{InterfaceTree};
ghost use Rattle.circus_syntax.specs.Placed.{Placed, AreTokens};
ghost use Rattle.circus_syntax.specs.Read.{placed_from};
ghost use Rattle.circus_syntax.specs.Reader.{open_at, place_in};
ghost use Rattle.circus_syntax.specs.Reading.{interface};
ghost use Rattle.circus_syntax.specs.Spelling.{IsInterface, IsWithin, most_levels};
ghost use Rattle.circus_syntax.specs.Stopping.{IsUnexpected, IsTooDeep, IsFilledIn};

/// The tokens of a text, from any one on, are tokens that a text can have.
pub fn text_has_tokens()
    ensures { (text : List ℕ) (found : List Token) (at : ℕ) → All (IsTokenIn text) found
        → AreTokens (placed_from text found at) }
{}

/// An interface of no more levels than a type may have is read to its end, whatever stands behind it.
pub fn interfaces_are_read()
    ensures { (own rest : List Placed) (tree : InterfaceTree) (end : ℕ)
        → IsInterface own tree → IsWithin most_levels tree
        → interface most_levels (open_at (own ++ rest) end) ≡ (tree, open_at rest end) }
{}

/// What is read to its end is an interface of no more levels than a type may have, and its tree is answered.
pub fn read_is_an_interface()
    ensures { (all rest : List Placed) (tree : InterfaceTree) (end : ℕ) → AreTokens all
        → interface most_levels (open_at all end) ≡ (tree, open_at rest end)
        → (own : List Placed) × (all ≡ own ++ rest) × IsInterface own tree
        × IsWithin most_levels tree }
{}

/// No interface begins another one, and tokens have one tree.
pub fn one_interface()
    ensures { (own more : List Placed) (tree other : InterfaceTree)
        → IsInterface own tree → IsInterface (own ++ more) other → (more ≡ []) × (tree ≡ other) }
{}

/// Where reading stops and no type is too deep, the tokens so far begin an interface, and none goes on with the
/// next one; at the end of the text none of their beginnings is an interface.
pub fn stops_at_the_unexpected()
    ensures { (all left : List Placed) (tree : InterfaceTree) (stop : Stop) (end : ℕ)
        → AreTokens all
        → interface most_levels (open_at all end)
        ≡ (tree, record { rest = left; end = end; stop = Some stop })
        → stop.cause ≡ StopCause.Unexpected
        → IsUnexpected all left × (stop.place ≡ place_in left end) }
{}

/// Where reading stops and a type is too deep, the tokens so far begin an interface, and with the next one only
/// such as have too many levels.
pub fn stops_at_the_too_deep()
    ensures { (all left : List Placed) (tree : InterfaceTree) (stop : Stop) (end : ℕ)
        → AreTokens all
        → interface most_levels (open_at all end)
        ≡ (tree, record { rest = left; end = end; stop = Some stop })
        → stop.cause ≡ StopCause.TooDeep → IsTooDeep all left × (stop.place ≡ place_in left end) }
{}

/// Where reading stops, the tree is that of an interface which the tokens so far begin. What it has besides them stands
/// at the place of the stop, and none of its types is too deep. The stop is marked with the whole type and the list of
/// fields in which the first token stands that it has besides, where it stands in such ones.
pub fn a_stop_is_filled_in()
    ensures { (all left : List Placed) (tree : InterfaceTree) (stop : Stop) (end : ℕ)
        → AreTokens all
        → interface most_levels (open_at all end)
        ≡ (tree, record { rest = left; end = end; stop = Some stop })
        → IsFilledIn all left stop tree }
{}

/// Tokens that are left in one place are filled in to one interface alone, and the stop is marked in one way.
pub fn one_filling()
    ensures { (ts left : List Placed) (one other : Stop) (tree same : InterfaceTree)
        → IsFilledIn ts left one tree → IsFilledIn ts left other same → one.place ≡ other.place
        → (tree ≡ same) × (one.within ≡ other.within) × (one.list ≡ other.list) }
{}
