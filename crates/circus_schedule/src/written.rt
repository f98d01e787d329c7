// A line as it is written.
ghost use Rattle.std.specs.Prelude.{◌≡◌, ◌≢◌, ◌<◌, ◌^◌, ◌∷◌, ◌++◌, ◌↔◌, ℕ, List, codes, IfNone, IfSome, IsTrue, MatchOption};
ghost use Rattle.std.specs.Char.{is_ascii_alphanumeric};
ghost use Rattle.std.specs.Fmt.{decimal};
ghost use Rattle.std.specs.List.{list_all};
ghost use Rattle.circus_collate.specs.Deployment.{is_word};
ghost use Rattle.circus_schedule.specs.WrittenLine.{IsName, Spells, SpellsNothing};
ghost use Rattle.circus_schedule.specs.Seen.Written.{written_as};

use crate::cut::cut_at;
use crate::decimal::decimal_at_most;
use circus_limits::LONGEST_NAME;

/// A line with the names of its nodes.
#[derive(Clone, Copy, Debug)]
pub enum Written<'a> {
    Deliver(u64),
    Tick(&'a [u8]),
    Crash(&'a [u8]),
    /// Who is down, and who is told.
    Down(&'a [u8], &'a [u8]),
    Join(&'a [u8]),
}

const TICK: &[u8] = b"tick ";

const CRASH: &[u8] = b"crash ";

const DOWN: &[u8] = b"down ";

const JOIN: &[u8] = b"join ";

const SPACE: u8 = b' ';

/// The line that the text is. `None` exactly where it is none. It takes no memory.
pub fn written_line(text: &[u8]) -> Option<Written<'_>>
    ensures some { IfSome result (λ line. Spells text.now (written_as line)) }
    ensures none { IfNone result (SpellsNothing text.now) }
{
    if let Some(number) = delivered(text) {
        return Some(Written::Deliver(number));
    }
    if let Some(node) = name_behind(TICK, text) {
        return Some(Written::Tick(node));
    }
    if let Some(node) = name_behind(CRASH, text) {
        return Some(Written::Crash(node));
    }
    if let Some(node) = name_behind(JOIN, text) {
        return Some(Written::Join(node));
    }
    let (node, told) = names_behind(DOWN, text)?;
    Some(Written::Down(node, told))
}

// What stands behind the text's beginning, where it begins so.
fn text_behind<'a>(beginning: &[u8], text: &'a [u8]) -> Option<&'a [u8]>
    ensures { MatchOption result ((rest : List ℕ) → text.now ≢ beginning.now ++ rest) (λ rest.
        text.now ≡ beginning.now ++ rest.now) }
{
    text.strip_prefix(beginning)
}

// The number of the datagram that the text delivers.
fn delivered(text: &[u8]) -> Option<u64>
    ensures some { IfSome result (λ number. text.now ≡ codes "deliver " ++ decimal number) }
    ensures none { IfNone result
        ((number : ℕ) → number < 2 ^ 64 → text.now ≢ codes "deliver " ++ decimal number) }
{
    match text {
        [b'd', b'e', b'l', b'i', b'v', b'e', b'r', b' ', digits @ ..] => {
            decimal_at_most(digits, u64::MAX)
        }
        _ => None,
    }
}

fn name_behind<'a>(beginning: &[u8], text: &'a [u8]) -> Option<&'a [u8]>
    ensures some { IfSome result (λ name.
        (text.now ≡ beginning.now ++ name.now) × IsName name.now) }
    ensures none { IfNone result
        ((name : List ℕ) → IsName name → text.now ≢ beginning.now ++ name) }
{
    let name = text_behind(beginning, text)?;
    if is_name(name) { Some(name) } else { None }
}

fn names_behind<'a>(beginning: &[u8], text: &'a [u8]) -> Option<(&'a [u8], &'a [u8])>
    ensures some { IfSome result (λ names.
        (text.now ≡ beginning.now ++ (names.0.now ++ SPACE ∷ names.1.now)) × IsName names.0.now
        × IsName names.1.now) }
    ensures none { IfNone result
        ((first second : List ℕ) → IsName first → IsName second
        → text.now ≢ beginning.now ++ (first ++ SPACE ∷ second)) }
{
    let (first, second) = cut_at(SPACE, text_behind(beginning, text)?)?;
    if are_names(first, second) {
        Some((first, second))
    } else {
        None
    }
}

fn are_names(first: &[u8], second: &[u8]) -> bool
    ensures { IsTrue result ↔ (IsName first.now × IsName second.now) }
{
    is_name(first) && is_name(second)
}

fn is_name(word: &[u8]) -> bool
    ensures { IsTrue result ↔ IsName word.now }
{
    word.len() <= LONGEST_NAME && is_word(word)
}

// A letter, then letters and digits.
#[tactic(auto, using(crate::proofs::Names::is_word_by_first))]
fn is_word(word: &[u8]) -> bool
    ensures { result ≡ is_word word.now }
{
    match word {
        [] => false,
        [first, others @ ..] => first.is_ascii_alphabetic() && are_in_words(others),
    }
}

// Letters and digits alone.
fn are_in_words(bytes: &[u8]) -> bool
    ensures { result ≡ list_all is_ascii_alphanumeric bytes.now }
{
    bytes.iter().all(|byte| byte.is_ascii_alphanumeric())
}
