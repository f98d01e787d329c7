// Reading the text of a placing.
ghost use Rattle.std.specs.Prelude.{◌≡◌, ◌⊎◌, ℕ, ◌≤◌, List, [], length, All, IsAscii, Some, None, IfOk, IfErr};
ghost use Rattle.circus_text.specs.declared.token.Token.{Token};
ghost use Rattle.circus_text.specs.Form.{longest_text};
ghost use Rattle.circus_text.specs.Token.{IsTokenIn};
ghost use Rattle.circus_text.specs.Division.{AreTokensOf};
ghost use Rattle.circus_text.specs.Lines.{line_of};
ghost use Rattle.circus_place.specs.Obeys.{Obeys};
ghost use Rattle.circus_fault.specs.declared.fault.Fault.{Fault};
ghost use Rattle.circus_fault.specs.Least.{least_from};
ghost use Rattle.circus_place.specs.declared.place_fault.PlaceCause.{PlaceCause};
ghost use Rattle.circus_place.specs.Written.{PlacingTree, placing_of};
ghost use Rattle.circus_place.specs.Grammar.{IsPlacing, IsWithin, most_levels};
ghost use Rattle.circus_place.specs.Rank.{rank_of};
ghost use Rattle.circus_place.specs.Faults.{placing_faults, read_faults};
ghost use Rattle.circus_place.specs.Means.{Means};
ghost use Rattle.circus_place.specs.ReadAs.{placed_tokens, lexical_answer, IsReadAs, IsLeastOf, IsRefused};

use crate::check::check;
use crate::meaning::meaning;
use crate::reading::placing;
use crate::{PlaceCause, PlaceFault, Placing, PlacingText};
use circus_syntax::{Reader, Stop};
use circus_text::{LONGEST_TEXT, LexFault, Token, TokenList, line_at, tokens};
use std::alloc::Global;

fn lexical_answer(text: &[u8], fault: LexFault) -> PlaceFault
    requires { length text.now ≤ longest_text }
    ensures { result ≡ lexical_answer text.now fault }
{
    match fault {
        LexFault::BadCharacter(place) => refusal_of(text, place, PlaceCause::BadCharacter),
        LexFault::OpenString(place) => refusal_of(text, place, PlaceCause::OpenString),
        LexFault::LongNumber(place) => refusal_of(text, place, PlaceCause::LongNumber),
        LexFault::NoMemory => PlaceFault::NoMemory,
    }
}

fn refusal_of(text: &[u8], place: u64, cause: PlaceCause) -> PlaceFault
    requires { length text.now ≤ longest_text }
    ensures { result ≡ PlaceFault.Refused (line_of text.now place) cause }
{
    PlaceFault::Refused(line_at(text, place), cause)
}

// The tokens of a text, if it isn't too long.
fn tokens_of(alloc: Global, text: &[u8]) -> Result<TokenList, PlaceFault>
    ensures short { IfOk result (λ found. length text.now ≤ longest_text) }
    ensures found { IfOk result (AreTokensOf text.now) }
    ensures each { IfOk result (All (IsTokenIn text.now)) }
    ensures err { IfErr result (λ e. (e ≡ PlaceFault.NoMemory) ⊎ IsRefused text.now e) }
{
    if text.len() > LONGEST_TEXT {
        return Err(PlaceFault::Refused(1, PlaceCause::TooLarge));
    }
    match tokens(alloc, text) {
        Ok(found) => Ok(found),
        Err(fault) => Err(lexical_answer(text, fault)),
    }
}

// The placing that a text means, or its least fault.
fn check_placing(
    alloc: Global,
    text: &[u8],
    written: &PlacingText,
    stop: &Option<Stop>,
) -> Result<Placing, PlaceFault>
    requires { length text.now ≤ longest_text }
    ensures clean { IfOk result (λ placing.
        (stop.now ≡ None) × (placing_faults (placing_of written.now) ≡ [])) }
    ensures means { IfOk result (λ placing. Means (placing_of written.now) placing) }
    ensures err { IfErr result (λ e.
        (e ≡ PlaceFault.NoMemory)
        ⊎ ((f : Fault PlaceCause)
        × (least_from rank_of None (read_faults stop.now (placing_of written.now)) ≡ Some f)
        × (e ≡ PlaceFault.Refused (line_of text.now f.place) f.cause))) }
{
    let (best, names) = check(alloc, written, stop)?;
    match best.fault {
        Some(fault) => Err(refusal_of(text, u64::from(fault.place), fault.cause)),
        None => Ok(meaning(alloc, written, &names)?),
    }
}

// The placing that the tokens of a text are.
fn read_tokens(alloc: Global, text: &[u8], found: &[Token]) -> Result<Placing, PlaceFault>
    requires short { length text.now ≤ longest_text }
    requires tokens { AreTokensOf text.now found.now }
    requires each { All (IsTokenIn text.now) found.now }
    ensures ok { IfOk result (λ placing. IsReadAs text.now placing) }
    ensures obeys { IfOk result (λ placing. Obeys placing) }
    ensures err { IfErr result (λ e. (e ≡ PlaceFault.NoMemory) ⊎ IsLeastOf text.now found.now e) }
{
    let mut reader = Reader::new(alloc, text, found);
    let written = placing(&mut reader)?;
    check_placing(alloc, text, &written, &reader.stop())
}

fn read(alloc: Global, text: &[u8]) -> Result<Placing, PlaceFault>
    ensures ok { IfOk result (λ placing. IsReadAs text.now placing) }
    ensures obeys { IfOk result (λ placing. Obeys placing) }
    ensures err { IfErr result (λ e. (e ≡ PlaceFault.NoMemory) ⊎ IsRefused text.now e) }
{
    let found = match tokens_of(alloc, text) {
        Ok(found) => found,
        Err(fault) => return Err(fault),
    };
    read_tokens(alloc, text, found.as_slice())
}

/// Reads the text of a placing (docs/LANGUAGE.md, "Placing").
///
/// A text of more than 1,048,576 bytes is `TooLarge` on line 1. Else its tokens are read, and where these have no
/// fault the placing with its rules. Of the faults of the first pass that has one the one at the least place is given,
/// at one place the first in the order of `PlaceCause`. `NoMemory` can come at any token.
pub fn read_place(alloc: Global, text: &[u8]) -> Result<Placing, PlaceFault>
    ensures ok { IfOk result (λ placing. IsReadAs text.now placing) }
    ensures obeys { IfOk result (λ placing. Obeys placing) }
    ensures named { IfOk result (λ placing. All (λ m. IsAscii m.name) placing.machines) }
    ensures err { IfErr result (λ e. (e ≡ PlaceFault.NoMemory) ⊎ IsRefused text.now e) }

    // A placing without a fault is read wherever memory suffices.
    ensures accepts { (found : List Token) (tree : PlacingTree) → length text.now ≤ longest_text
        → AreTokensOf text.now found
        → IsPlacing (placed_tokens text.now found) tree → IsWithin most_levels tree
        → placing_faults tree ≡ []
        → IfErr result (λ e. e ≡ PlaceFault.NoMemory) }
{
    read(alloc, text)
}
