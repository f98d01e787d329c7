// A reader of tokens.
ghost use Rattle.std.specs.Prelude.{◌≡◌, ℕ, ◌≤◌, true, false, length, map, All, MatchOption, IfOk, IsTrue, Some, None, option_map};
ghost use Rattle.circus_text.specs.Token.{IsTokenIn, IsSpelling, bytes_of, content_of};
ghost use Rattle.circus_syntax.specs.Placed.{Placed, placed_of, is_lexeme, is_name, is_number, is_text, word, sign, digits};
ghost use Rattle.circus_syntax.specs.Read.{placed_from};
ghost use Rattle.circus_syntax.specs.Reader.{open_at, place, next, sees, skipped_by, stopped_by};
ghost use Rattle.circus_syntax.specs.Reading.{expect_token, name, number, quoted_text, names, stop_in_type, stop_in_list};
ghost use Rattle.circus_text.specs.Form.{longest_text, number_value};

use crate::reserved::is_reserved_word;
use crate::{Named, Nameds, Numeral, Stop, StopCause};
use circus_text::{Token, TokenKind, TokenList};
use circus_value::{Name, NoMemory, Octets};
use std::alloc::Global;
use std::marker::Model;

/// Reads the tokens of a text from the first on, up to the first with which nothing goes on. From there it
/// reads nothing more, and fills in what is left to answer (docs/LANGUAGE.md, "Interfaces").
#[derive(Drop)]
pub struct Reader<'a> {
    alloc: Global,
    text: &'a [u8],
    left: &'a [Token],
    stop: Option<Stop>,
}

impl<'a> Model for Reader<'a> {
    ghost use Rattle.std.specs.Prelude.{ℕ, ◌≤◌, List, length, map, All};
    ghost use Rattle.circus_text.specs.Form.{longest_text};
    ghost use Rattle.circus_text.specs.Token.{IsTokenIn};
    ghost use Rattle.circus_syntax.specs.Placed.{placed_of};
    ghost use Rattle.circus_syntax.specs.Reader.{Reader};

    ghost Value = { Reader };

    ghost view = { λ r. record { rest = map (placed_of r.text.now) r.left.now; end = length r.text.now; stop = r.stop } };

    ghost invariant = { λ r. All (IsTokenIn r.text.now) r.left.now × (length r.text.now ≤ longest_text) };
}

impl<'a> Reader<'a> {
    /// A reader at the first of these tokens of a text of at most 1,048,576 bytes. What it reads takes
    /// memory from this allocator.
    pub fn new(alloc: Global, text: &'a [u8], tokens: &'a [Token]) -> Self
        requires of_text { All (IsTokenIn text.now) tokens.now }
        requires short { length text.now ≤ longest_text }
        ensures { result ≡ open_at (map (placed_of text.now) tokens.now) (length text.now) }
    {
        Reader {
            alloc,
            text,
            left: tokens,
            stop: None,
        }
    }

    /// A reader at the token `at` of a text of at most 1,048,576 bytes. What it reads takes memory from this allocator.
    pub fn from_token(alloc: Global, text: &'a [u8], tokens: &'a TokenList, at: usize) -> Self
        requires of_text { All (IsTokenIn text.now) tokens.now }
        requires inside { at ≤ length tokens.now }
        requires short { length text.now ≤ longest_text }
        ensures { result ≡ open_at (placed_from text.now tokens.now at) (length text.now) }
    {
        Reader::new(alloc, text, &tokens.as_slice()[at..])
    }

    /// The allocator of what is read.
    pub fn alloc(&self) -> Global {
        self.alloc
    }

    /// How many tokens are left.
    pub fn tokens_left(&self) -> usize
        ensures { result ≡ length self.now.rest }
    {
        self.left.len()
    }

    /// Where and why reading stopped, or `None` where it goes on.
    pub fn stop(&self) -> Option<Stop>
        ensures { result ≡ self.now.stop }
    {
        self.stop
    }

    /// The place of the next token, or of the text's end, or where reading stopped.
    pub fn place(&self) -> u32
        ensures { result ≡ place self.now }
    {
        match (&self.stop, self.left.split_first()) {
            (Some(stop), _) => stop.place,
            (None, Some((token, _))) => token.start,
            (None, None) => self.text.len() as u32,
        }
    }

    /// Whether the next token is this word.
    pub fn sees_word(&self, bytes: &[u8]) -> bool
        ensures { result ≡ sees (is_lexeme (word bytes.now)) self.now }
    {
        self.sees(TokenKind::Word, bytes)
    }

    /// Whether the next token is this sign.
    pub fn sees_sign(&self, bytes: &[u8]) -> bool
        ensures { result ≡ sees (is_lexeme (sign bytes.now)) self.now }
    {
        self.sees(TokenKind::Sign, bytes)
    }

    /// Whether the next token is a number that is written so.
    pub fn sees_digits(&self, bytes: &[u8]) -> bool
        ensures { result ≡ sees (is_lexeme (digits bytes.now)) self.now }
    {
        self.sees(TokenKind::Number, bytes)
    }

    fn sees(&self, kind: TokenKind, bytes: &[u8]) -> bool
        ensures { result ≡ sees (is_lexeme (record { kind = kind; bytes = bytes.now })) self.now }
    {
        match (&self.stop, self.left.split_first()) {
            (None, Some((token, _))) => token.kind == kind && token.bytes(self.text) == bytes,
            _ => false,
        }
    }

    /// Whether the next token is a name.
    pub fn sees_name(&self) -> bool
        ensures { result ≡ sees is_name self.now }
    {
        self.next_name().is_some()
    }

    /// Whether the next token is a number.
    pub fn sees_number(&self) -> bool
        ensures { result ≡ sees is_number self.now }
    {
        self.next_number().is_some()
    }

    /// Whether the next token is a string.
    pub fn sees_text(&self) -> bool
        ensures { result ≡ sees is_text self.now }
    {
        self.next_text().is_some()
    }

    // The next token's bytes, if it is a name.
    fn next_name(&self) -> Option<&'a [u8]>
        ensures { MatchOption result (sees is_name self.now ≡ false)
            (λ bytes. (t : Placed) × (next self.now ≡ Some t) × (is_name t ≡ true)
            × (bytes.now ≡ t.bytes)) }
    {
        match (&self.stop, self.left.split_first()) {
            (None, Some((token, _))) => name_in(self.text, token),
            _ => None,
        }
    }

    // The next token's value, if it is a number.
    fn next_number(&self) -> Option<u64>
        ensures { MatchOption result (sees is_number self.now ≡ false)
            (λ value. (t : Placed) × (next self.now ≡ Some t) × (is_number t ≡ true)
            × (value ≡ number_value t.bytes)) }
    {
        match (&self.stop, self.left.split_first()) {
            (None, Some((token, _))) => number_in(self.text, token),
            _ => None,
        }
    }

    // What stands between the next token's quotes, if it is a string.
    fn next_text(&self) -> Option<&'a [u8]>
        ensures { MatchOption result (sees is_text self.now ≡ false)
            (λ content. (t : Placed) × (next self.now ≡ Some t) × (is_text t ≡ true)
            × (content.now ≡ content_of t.bytes)) }
    {
        match (&self.stop, self.left.split_first()) {
            (None, Some((token, _))) => text_in(self.text, token),
            _ => None,
        }
    }

    /// The next token's kind and its bytes, unless reading stopped: with it a grammar reads words of its own.
    pub fn next_token(&self) -> Option<(TokenKind, &'a [u8])>
        ensures { MatchOption result (next self.now ≡ None)
            (λ seen. (t : Placed) × (next self.now ≡ Some t) × (seen.0 ≡ t.kind)
            × (seen.1.now ≡ t.bytes) × IsSpelling t.kind t.bytes) }
    {
        match (&self.stop, self.left.split_first()) {
            (None, Some((token, _))) => Some((token.kind, token.bytes(self.text))),
            _ => None,
        }
    }

    /// Goes behind the next token, unless reading stopped.
    pub fn skip(&mut self)
        ensures { self.new ≡ skipped_by self.old.stop self.old.rest self.old.end }
    {
        if self.stop.is_none()
            && let Some((_, rest)) = self.left.split_first()
        {
            self.left = rest;
        }
    }

    /// Stops here, unless reading has stopped before.
    pub fn stop_here(&mut self, cause: StopCause)
        ensures { self.new ≡ stopped_by cause self.old.stop self.old.rest self.old.end }
    {
        if self.stop.is_none() {
            self.stop = Some(Stop {
                place: self.place(),
                cause,
                within: None,
                list: None,
            });
        }
    }

    /// Marks the stop, if there is one, with the place of a type.
    pub(crate) fn mark_type(&mut self, at: u32)
        ensures { self.new
            ≡ record {
              rest = self.old.rest;
              end = self.old.end;
              stop = option_map
                  (stop_in_type at) self.old.stop;
            } }
    {
        if let Some(stop) = &mut self.stop {
            stop.within = Some(at);
        }
    }

    /// Marks the stop, if there is one, with the place of a list.
    pub(crate) fn mark_list(&mut self, at: u32)
        ensures { self.new
            ≡ record {
              rest = self.old.rest;
              end = self.old.end;
              stop = option_map
                  (stop_in_list at) self.old.stop;
            } }
    {
        if let Some(stop) = &mut self.stop {
            stop.list = Some(at);
        }
    }

    /// Reads this word, or stops.
    pub fn word(&mut self, bytes: &[u8])
        ensures { expect_token (word bytes.now) self.old ≡ (tt, self.new) }
    {
        self.expect(TokenKind::Word, bytes);
    }

    /// Reads this sign, or stops.
    pub fn sign(&mut self, bytes: &[u8])
        ensures { expect_token (sign bytes.now) self.old ≡ (tt, self.new) }
    {
        self.expect(TokenKind::Sign, bytes);
    }

    /// Reads a number that is written so, or stops.
    pub fn digits(&mut self, bytes: &[u8])
        ensures { expect_token (digits bytes.now) self.old ≡ (tt, self.new) }
    {
        self.expect(TokenKind::Number, bytes);
    }

    #[tactic(auto, unfolding(crate::specs::Reading::expect_token))]
    fn expect(&mut self, kind: TokenKind, bytes: &[u8])
        ensures { expect_token (record { kind = kind; bytes = bytes.now }) self.old
            ≡ (tt, self.new) }
    {
        if self.sees(kind, bytes) {
            self.skip();
        } else {
            self.stop_here(StopCause::Unexpected);
        }
    }

    /// Reads a name, or stops and answers `x`. `NoMemory` leaves the reader where it is.
    #[tactic(auto, unfolding(crate::specs::Reading::name))]
    pub fn name(&mut self) -> Result<Named, NoMemory>
        ensures { IfOk result (λ named. name self.old ≡ (named, self.new)) }
    {
        let at = self.place();
        let mut name = Name::new(self.alloc);
        match self.next_name() {
            Some(bytes) => {
                name.append(bytes)?;
                self.skip();
            }
            None => {
                name.append(b"x")?;
                self.stop_here(StopCause::Unexpected);
            }
        }
        Ok(Named { name, at })
    }

    /// Reads a number, or stops and answers 0.
    #[tactic(auto, unfolding(crate::specs::Reading::number))]
    pub fn number(&mut self) -> Numeral
        ensures { number self.old ≡ (result, self.new) }
    {
        let at = self.place();
        match self.next_number() {
            Some(value) => {
                self.skip();
                Numeral { value, at }
            }
            None => {
                self.stop_here(StopCause::Unexpected);
                Numeral { value: 0, at }
            }
        }
    }

    /// Reads a string and answers what stands between its quotes, or stops and answers nothing between them.
    /// `NoMemory` leaves the reader where it is.
    #[tactic(auto, unfolding(crate::specs::Reading::quoted_text))]
    pub fn text(&mut self) -> Result<Octets, NoMemory>
        ensures { IfOk result (λ content.
            quoted_text self.old ≡ ((content, place self.old), self.new)) }
    {
        let mut content = Octets::new(self.alloc);
        match self.next_text() {
            Some(bytes) => {
                content.append(bytes)?;
                self.skip();
            }
            None => self.stop_here(StopCause::Unexpected),
        }
        Ok(content)
    }

    /// Reads names with commas between them, at least one.
    #[tactic(auto, unfolding(crate::specs::Reading::names))]
    pub fn names(&mut self) -> Result<Nameds, NoMemory>
        ensures { IfOk result (λ all. names self.old ≡ (all, self.new)) }
    {
        let mut names = Nameds::new(self.alloc);
        names.push(self.name()?)?;
        while self.sees_sign(b",") {
            self.sign(b",");
            names.push(self.name()?)?;
        }
        Ok(names)
    }
}

// The token's bytes, if it is a name.
fn name_in<'a>(text: &'a [u8], token: &Token) -> Option<&'a [u8]>
    requires { IsTokenIn text.now token.now }
    ensures { MatchOption result (is_name (placed_of text.now token.now) ≡ false)
        (λ bytes. (is_name (placed_of text.now token.now) ≡ true)
        × (bytes.now ≡ bytes_of text.now token.now)) }
{
    match token.kind {
        TokenKind::Word => {
            let bytes = token.bytes(text);
            if is_reserved_word(bytes) {
                None
            } else {
                Some(bytes)
            }
        }
        _ => None,
    }
}

// The token's value, if it is a number.
fn number_in(text: &[u8], token: &Token) -> Option<u64>
    requires { IsTokenIn text.now token.now }
    ensures { MatchOption result (is_number (placed_of text.now token.now) ≡ false)
        (λ value. (is_number (placed_of text.now token.now) ≡ true)
        × (value ≡ number_value (bytes_of text.now token.now))) }
{
    match token.kind {
        TokenKind::Number => Some(token.number(text)),
        _ => None,
    }
}

// What stands between the token's quotes, if it is a string.
fn text_in<'a>(text: &'a [u8], token: &Token) -> Option<&'a [u8]>
    requires { IsTokenIn text.now token.now }
    ensures { MatchOption result (is_text (placed_of text.now token.now) ≡ false)
        (λ content. (is_text (placed_of text.now token.now) ≡ true)
        × (content.now ≡ content_of (bytes_of text.now token.now))) }
{
    match token.kind {
        TokenKind::Quoted => Some(token.content(text)),
        _ => None,
    }
}
