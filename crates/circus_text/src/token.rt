// Tokens, and what they stand for.
ghost use Rattle.std.specs.Prelude.{◌≡◌, ◌≤◌};
ghost use Rattle.circus_text.specs.Form.{greatest_number, number_value};
ghost use Rattle.circus_text.specs.Token.{bytes_of, content_of, LiesIn, IsTokenIn};

use crate::number::number_of;
use circus_value::{Duplicate, NoMemory};

/// What a token is.
#[derive(Clone, Copy, Debug, PartialEq, Eq)]
pub enum TokenKind {
    /// A letter, then letters and digits, at most 32 bytes.
    Word,
    /// Decimal digits, of a value of at most 9,223,372,036,854,775,807.
    Number,
    /// Bytes 32 to 126 between two quotes.
    Quoted,
    /// One of `:= <> <= >= => ; : , . = < > + - * & # ( ) [ ] { }`.
    Sign,
}

/// A token of a text: the bytes from `start` up to, but not including, `end` (docs/LANGUAGE.md, "Tokens").
#[derive(Clone, Copy, Debug, PartialEq, Eq)]
pub struct Token {
    pub kind: TokenKind,
    pub start: u32,
    pub end: u32,
}

impl Token {
    /// The token's bytes in its text.
    pub fn bytes<'a>(&self, text: &'a [u8]) -> &'a [u8]
        requires { LiesIn text.now self.now }
        ensures { result.now ≡ bytes_of text.now self.now }
    {
        &text[self.start as usize..self.end as usize]
    }

    /// The value of a number of the text.
    pub fn number(&self, text: &[u8]) -> u64
        requires in_text { IsTokenIn text.now self.now }
        requires number { self.now.kind ≡ TokenKind.Number }
        ensures value { result ≡ number_value (bytes_of text.now self.now) }
        ensures bounded { result ≤ greatest_number }
    {
        number_of(self.bytes(text)).unwrap()
    }

    /// What stands between the quotes of a string of the text.
    pub fn content<'a>(&self, text: &'a [u8]) -> &'a [u8]
        requires in_text { IsTokenIn text.now self.now }
        requires quoted { self.now.kind ≡ TokenKind.Quoted }
        ensures { result.now ≡ content_of (bytes_of text.now self.now) }
    {
        let bytes = self.bytes(text);
        &bytes[1..bytes.len() - 1]
    }
}

impl Duplicate for Token {
    fn copy(&self) -> Result<Self, NoMemory> {
        Ok(*self)
    }
}
