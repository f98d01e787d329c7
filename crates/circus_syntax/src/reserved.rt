// The words that are no names.
ghost use Rattle.std.specs.Prelude.{◌≡◌, bytes_eq};
ghost use Rattle.std.specs.List.{list_any};
ghost use Rattle.circus_syntax.specs.Reserved.{is_reserved};

// The words that are no names.
const RESERVED: [&[u8]; 58] = [
    b"CIRCUS",
    b"PROGRAM",
    b"VERSION",
    b"BEGIN",
    b"END",
    b"TYPE",
    b"ERROR",
    b"PROCEDURE",
    b"RETURNS",
    b"REPORTS",
    b"BOOLEAN",
    b"CARDINAL",
    b"LONG",
    b"INTEGER",
    b"STRING",
    b"ARRAY",
    b"OF",
    b"SEQUENCE",
    b"RECORD",
    b"CHOICE",
    b"MODULE",
    b"IMPLEMENTS",
    b"ROOT",
    b"IMPORTS",
    b"VAR",
    b"MAIN",
    b"IF",
    b"THEN",
    b"ELSE",
    b"WHILE",
    b"DO",
    b"APPEND",
    b"TO",
    b"CALL",
    b"INTO",
    b"RETURN",
    b"RAISE",
    b"ON",
    b"OTHER",
    b"OR",
    b"AND",
    b"NOT",
    b"IS",
    b"DIV",
    b"MOD",
    b"TRUE",
    b"FALSE",
    b"LENGTH",
    b"RINGMASTER",
    b"PORT",
    b"TROUPE",
    b"CALLS",
    b"REPLIES",
    b"MEMBERS",
    b"SPARES",
    b"FIRST",
    b"MAJORITY",
    b"UNANIMOUS",
];

/// Whether a word is reserved, so that it is no name (docs/LANGUAGE.md, "Tokens").
#[tactic(auto, unfolding(crate::specs::Reserved::is_reserved, crate::specs::Reserved::reserved_words))]
pub fn is_reserved_word(word: &[u8]) -> bool
    ensures { result ≡ is_reserved word.now }
{
    is_one_of(&RESERVED, word)
}

/// Whether a word is one of these.
pub fn is_one_of(words: &[&[u8]], word: &[u8]) -> bool
    ensures { result ≡ list_any (λ w. bytes_eq w.now word.now) words.now }
{
    words.iter().any(|w| *w == word)
}
