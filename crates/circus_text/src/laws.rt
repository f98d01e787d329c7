// What holds of the tokens of every text.
ghost use Rattle.std.specs.Prelude.{◌≡◌, ℕ, ◌≤◌, List, Result, All, AllPairs};
ghost use Rattle.std.specs.Fmt.{decimal};
ghost use Rattle.circus_text.specs.declared.token.Token.{Token};
ghost use Rattle.circus_text.specs.declared.lex_fault.LexFault.{LexFault};
ghost use Rattle.circus_text.specs.declared.token.TokenKind.TheVariants as kind;
ghost use Rattle.circus_text.specs.Form.{greatest_number, number_value};
ghost use Rattle.circus_text.specs.Token.{IsSpelling, IsTokenIn, IsBefore, Lexeme, lexemes_of, text_with_spaces, AreSpelled};
ghost use Rattle.circus_text.specs.Division.{AreTokensOf, IsAnswer};

/// A text has one answer: tokens, or one fault at one place.
pub fn one_answer()
    ensures { (text : List ℕ) (a b : Result (List Token) LexFault) → IsAnswer text a
        → IsAnswer text b
        → a ≡ b }
{}

/// The tokens of a text lie in it, each spelled as its kind, one behind another.
pub fn tokens_lie()
    ensures { (text : List ℕ) (found : List Token) → AreTokensOf text found
        → All (IsTokenIn text) found × AllPairs IsBefore found }
{}

/// What is written with one space between two tokens has these tokens.
pub fn spaced_tokens()
    ensures { (lexemes : List Lexeme) → AreSpelled lexemes
        → (found : List Token) × AreTokensOf (text_with_spaces lexemes) found
        × (lexemes_of (text_with_spaces lexemes) found ≡ lexemes) }
{}

/// What `{}` writes for a number is a number of that value.
pub fn decimal_numbers()
    ensures { (n : ℕ) → n ≤ greatest_number
        → IsSpelling kind.Number (decimal n) × (number_value (decimal n) ≡ n) }
{}
