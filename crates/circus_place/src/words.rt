// The words of placings.
ghost use Rattle.std.specs.Prelude.{◌≡◌};
ghost use Rattle.circus_place.specs.Words.{is_placing_word};

use circus_syntax::is_one_of;

// The words that name nothing in a placing.
const WORDS: [&[u8]; 12] = [
    b"PLACE", b"MACHINE", b"MEMBERS", b"WHERE", b"PRESENT", b"OR", b"AND", b"NOT", b"ALL",
    b"DIFFER", b"TRUE", b"FALSE",
];

/// Whether a word names nothing in a placing (docs/LANGUAGE.md, "Placing").
#[tactic(auto, unfolding(crate::specs::Words::is_placing_word, crate::specs::Words::placing_words))]
pub fn is_placing_word(word: &[u8]) -> bool
    ensures { result ≡ is_placing_word word.now }
{
    is_one_of(&WORDS, word)
}
