// Texts divided into tokens.
ghost use Rattle.std.specs.Prelude.{◌≡◌, ℕ, ◌≤◌, ◌⊎◌, length, List, Result, Ok, Err, ◌+◌, ◌++◌, IfOk, OnOk, All, AllPairs};
ghost use Rattle.circus_text.specs.declared.token.Token.{Token};
ghost use Rattle.circus_text.specs.declared.lex_fault.LexFault.{LexFault};
ghost use Rattle.circus_text.specs.Form.{longest_text};
ghost use Rattle.circus_text.specs.Front.{IsBadCharacter, IsOpenString, IsLongNumber};
ghost use Rattle.circus_text.specs.Token.{IsTokenIn, IsBefore};
ghost use Rattle.circus_text.specs.Division.{AreTokensOf, HasFault, IsAnswer, token_of};

use crate::front::{Form, Front, front_of};
use crate::{LexFault, Token, TokenList};
use circus_value::NoMemory;
use std::alloc::Global;

/// The tokens of a text of at most 1,048,576 bytes, in the order in which they stand in it
/// (docs/LANGUAGE.md, "Tokens").
///
/// From the front on, the longest token, spacing or comment is taken, until none begins or the one that
/// was taken has a fault, which is the answer then: `BadCharacter` at the first byte that can't stand at
/// its place, `OpenString` at the quote of a string that its line doesn't close, `LongNumber` at the first
/// digit of a number above 9,223,372,036,854,775,807. `NoMemory` can come at any token.
pub fn tokens(alloc: Global, text: &[u8]) -> Result<TokenList, LexFault>
    requires { length text.now ≤ longest_text }
    ensures found { IfOk result (AreTokensOf text.now) }
    ensures bad_character { (place : ℕ) → result ≡ Err (LexFault.BadCharacter place)
        → HasFault IsBadCharacter text.now place }
    ensures open_string { (place : ℕ) → result ≡ Err (LexFault.OpenString place)
        → HasFault IsOpenString text.now place }
    ensures long_number { (place : ℕ) → result ≡ Err (LexFault.LongNumber place)
        → HasFault IsLongNumber text.now place }

    // A text has one answer, so no other is given unless memory runs out.
    ensures only { (answer : Result (List Token) LexFault) → IsAnswer text.now answer
        → (result ≡ answer) ⊎ (result ≡ Err LexFault.NoMemory) }

    // Each token lies in the text and is spelled as its kind, and each ends before the later ones begin.
    ensures each { IfOk result (All (IsTokenIn text.now)) }
    ensures in_order { IfOk result (AllPairs IsBefore) }
{
    scan(alloc, text)
}

// The loop of `tokens`: the text's one answer, unless memory runs out.
fn scan(alloc: Global, text: &[u8]) -> Result<TokenList, LexFault>
    requires { length text.now ≤ longest_text }
    ensures { (result ≡ Err LexFault.NoMemory) ⊎ IsAnswer text.now result }
{
    let mut found = TokenList::new(alloc);
    let mut at = 0;
    while at < text.len() {
        match front_of(&text[at..]) {
            Front::Piece(form, len) => {
                push_token(&mut found, form, at, len)?;
                at += len;
            }
            Front::BadCharacter(place) => return Err(LexFault::BadCharacter((at + place) as u64)),
            Front::OpenString => return Err(LexFault::OpenString(at as u64)),
            Front::LongNumber => return Err(LexFault::LongNumber(at as u64)),
        }
    }
    Ok(found)
}

// Adds the token that a piece is, if it is one.
fn push_token(found: &mut TokenList, form: Form, at: usize, len: usize) -> Result<(), NoMemory>
    requires { at + len ≤ longest_text }
    ensures { OnOk result (found.new ≡ found.old ++ token_of at form len) }
{
    match form {
        Form::Token(kind) => found.push(Token {
            kind,
            start: at as u32,
            end: (at + len) as u32,
        }),
        Form::Spacing | Form::Comment => Ok(()),
    }
}
