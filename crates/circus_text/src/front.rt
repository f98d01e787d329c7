// What stands at the front of a text.
ghost use Rattle.std.specs.Prelude.{◌≡◌, ◌<◌, ◌↔◌, ◌==◌, ◌||◌, not, [], ◌∷◌, length, position, IsTrue, Contains};
ghost use Rattle.std.specs.List.{prefix_len};
ghost use Rattle.circus_text.specs.ByteClass.{newline, class_of, is_word_class, is_digit_class, is_space_class, is_printable, is_space};
ghost use Rattle.circus_text.specs.Form.{is_inside, double_signs, bad_place, is_long_number, HasForm};
ghost use Rattle.circus_text.specs.Front.{IsFirst, IsFront, IsLongestFront};

use crate::byte_class::{ByteClass, NEWLINE, QUOTE, is_printable, is_space};
use crate::number::number_of;
use crate::token::TokenKind;

// The most bytes that a word may have.
const LONGEST_WORD: usize = 32;

/// What a piece of a text is.
#[derive(Clone, Copy, Debug, PartialEq, Eq)]
pub enum Form {
    Token(TokenKind),
    Spacing,
    Comment,
}

/// What stands at the front of a text. Places are counted from the front.
#[derive(Clone, Copy, Debug)]
pub enum Front {
    /// The longest piece there, with its length.
    Piece(Form, usize),
    BadCharacter(usize),
    OpenString,
    LongNumber,
}

/// What stands at the front of a text that has a byte.
pub fn front_of(text: &[u8]) -> Front
    requires { 0 < length text.now }
    ensures { IsFront text.now result }
{
    match longest_form(text) {
        Some((form, len)) => front_with(text, form, len),
        None => match ByteClass::of(text[0]) {
            ByteClass::Quote => Front::OpenString,
            _ => Front::BadCharacter(0),
        },
    }
}

// What the longest piece is found to be: a good one, or one with a fault.
fn front_with(text: &[u8], form: Form, len: usize) -> Front
    requires { IsLongestFront text.now (Some (form, len)) }
    ensures { IsFront text.now result }
{
    let bytes = &text[..len];
    match bad_place(form, bytes) {
        Some(place) => Front::BadCharacter(place),
        None if is_long_number(form, bytes) => Front::LongNumber,
        None => Front::Piece(form, len),
    }
}

fn bad_place(form: Form, bytes: &[u8]) -> Option<usize>
    ensures { result ≡ bad_place form bytes.now }
{
    match form {
        Form::Token(TokenKind::Word) if bytes.len() > LONGEST_WORD => Some(LONGEST_WORD),
        Form::Token(TokenKind::Quoted) => first_unprintable(bytes),
        Form::Comment => first_foreign(bytes),
        _ => None,
    }
}

fn first_unprintable(bytes: &[u8]) -> Option<usize>
    ensures { result ≡ position (λ b. not (is_printable b)) bytes.now }
{
    bytes.iter().position(|b| !is_printable(*b))
}

// The first byte that no file may have.
fn first_foreign(bytes: &[u8]) -> Option<usize>
    ensures { result ≡ position (λ b. not (is_printable b || is_space b)) bytes.now }
{
    bytes
        .iter()
        .position(|b| !(is_printable(*b) || is_space(*b)))
}

fn is_long_number(form: Form, bytes: &[u8]) -> bool
    requires { HasForm form bytes.now }
    ensures { result ≡ is_long_number form bytes.now }
{
    match form {
        Form::Token(TokenKind::Number) => number_of(bytes).is_none(),
        _ => false,
    }
}

// The longest form at the front and its length, if any form begins there.
fn longest_form(text: &[u8]) -> Option<(Form, usize)>
    requires { 0 < length text.now }
    ensures { IsLongestFront text.now result }
{
    match ByteClass::of(text[0]) {
        ByteClass::Letter => Some((Form::Token(TokenKind::Word), word_len(text))),
        ByteClass::Digit => Some((Form::Token(TokenKind::Number), digits_len(text))),
        ByteClass::Quote => longest_quoted(text),
        ByteClass::Space => Some((Form::Spacing, spacing_len(text))),
        ByteClass::Mark => Some(longest_mark(text)),
        ByteClass::Other => None,
    }
}

// The string that the quote at the front opens, if its line closes it.
fn longest_quoted(text: &[u8]) -> Option<(Form, usize)>
    requires { IsFirst ByteClass.Quote text.now }
    ensures { IsLongestFront text.now result }
{
    let end = 1 + inside_len(&text[1..]);
    if end < text.len() && text[end] == QUOTE {
        Some((Form::Token(TokenKind::Quoted), end + 1))
    } else {
        None
    }
}

// The comment or the longest sign at the front.
fn longest_mark(text: &[u8]) -> (Form, usize)
    requires { IsFirst ByteClass.Mark text.now }
    ensures { IsLongestFront text.now (Some result) }
{
    if text.len() < 2 {
        return (Form::Token(TokenKind::Sign), 1);
    }
    if text[0] == b'-' && text[1] == b'-' {
        return (Form::Comment, 2 + line_len(&text[2..]));
    }
    if is_double_sign(text[0], text[1]) {
        (Form::Token(TokenKind::Sign), 2)
    } else {
        (Form::Token(TokenKind::Sign), 1)
    }
}

fn is_double_sign(first: u8, second: u8) -> bool
    ensures { IsTrue result ↔ Contains double_signs (first ∷ second ∷ []) }
{
    matches!(
        (first, second),
        (b':', b'=') | (b'<', b'>') | (b'<', b'=') | (b'>', b'=') | (b'=', b'>')
    )
}

fn word_len(text: &[u8]) -> usize
    ensures { result ≡ prefix_len (λ b. is_word_class (class_of b)) text.now }
{
    text.iter()
        .take_while(|b| ByteClass::of(**b).is_in_word())
        .count()
}

fn digits_len(text: &[u8]) -> usize
    ensures { result ≡ prefix_len (λ b. is_digit_class (class_of b)) text.now }
{
    text.iter()
        .take_while(|b| ByteClass::of(**b).is_digit())
        .count()
}

fn spacing_len(text: &[u8]) -> usize
    ensures { result ≡ prefix_len (λ b. is_space_class (class_of b)) text.now }
{
    text.iter()
        .take_while(|b| ByteClass::of(**b).is_space())
        .count()
}

// How many bytes stand before the first newline.
fn line_len(text: &[u8]) -> usize
    ensures { result ≡ prefix_len (λ b. not (b == newline)) text.now }
{
    text.iter().take_while(|b| **b != NEWLINE).count()
}

// How many bytes stand before the first quote or newline.
fn inside_len(text: &[u8]) -> usize
    ensures { result ≡ prefix_len is_inside text.now }
{
    text.iter()
        .take_while(|b| **b != QUOTE && **b != NEWLINE)
        .count()
}
