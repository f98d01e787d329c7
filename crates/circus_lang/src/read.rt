// Reading a module from a token of a text on.
ghost use Rattle.std.specs.Prelude.{◌≡◌, ℕ, ◌+◌, ◌≤◌, ◌-◌, List, ◌++◌, length, map, drop, All, Err, IfOk, IfErr};
ghost use Rattle.circus_text.specs.Form.{longest_text};
ghost use Rattle.circus_text.specs.Token.{IsTokenIn};
ghost use Rattle.circus_syntax.specs.Placed.{Placed, placed_of, AreWithin};
ghost use Rattle.circus_syntax.specs.Read.{placed_from};
ghost use Rattle.circus_syntax.specs.Reader.{open_at, place_in};
ghost use Rattle.circus_syntax.specs.Spelling.{most_levels};
ghost use Rattle.circus_expression.specs.Ending.{Are, IsUnexpected, IsTooDeep};
ghost use Rattle.circus_lang.specs.Ending.{NoneEnds, BeginsWithin, fault_of};
ghost use Rattle.circus_lang.specs.ModuleStanding.{module_stands_for};
ghost use Rattle.circus_lang.specs.ModuleTree.{module_of};
ghost use Rattle.circus_lang.specs.ReadAt.{Answers, IsReadAt};
ghost use Rattle.circus_lang.specs.WrittenModule.{WrittenModule, spelling_module, IsModule};

use crate::module_reading::module_or_root;
use crate::{LangFault, ModuleText};
use circus_syntax::{Reader, Stop, StopCause};
use circus_text::TokenList;
use circus_value::NoMemory;
use std::alloc::Global;

/// What was read at some tokens.
#[derive(Debug, Drop)]
pub struct ReadModule {
    /// The module. What a stop cut is filled in with the names `x`, the type BOOLEAN and the expression `x`, whose places
    /// are that of the stop, and with empty lists.
    pub module: ModuleText,
    /// The number of the first token that wasn't read.
    pub next: usize,
    /// Where reading stopped, or `None` where the module was read to its end.
    pub stop: Option<Stop>,
}

/// Reads the module that begins at the token `at` of a text (docs/LANGUAGE.md, "Modules"), and answers it with the number
/// of the first token behind it.
///
/// `Expected` comes at the first token with which no module goes on, or at the end of the text, `Deep` at the first token
/// that opens level 65 in every module that goes on with it. `NoMemory` can come at any token.
pub fn read_module(
    alloc: Global,
    text: &[u8],
    tokens: &TokenList,
    at: usize,
) -> Result<(ModuleText, usize), LangFault>
    requires of_text { All (IsTokenIn text.now) tokens.now }
    requires inside { at ≤ length tokens.now }
    requires short { length text.now ≤ longest_text }

    // The tokens up to the one answered are the module whose tree is answered.
    ensures ok { IfOk result (λ read. IsReadAt text.now tokens.now at (module_of read.0) read.1) }

    // What was read begins a module within the levels, and none goes on with the next token, or only such as have too
    // many levels.
    ensures expected { (place : ℕ) → result ≡ Err (LangFault.Expected place) → (left : List Placed)
        × IsUnexpected spelling_module IsModule (placed_from text.now tokens.now at) left
        × NoneEnds (placed_from text.now tokens.now at) left
        × BeginsWithin (placed_from text.now tokens.now at) left
        × (place ≡ place_in left (length text.now)) }
    ensures deep { (place : ℕ) → result ≡ Err (LangFault.Deep place) → (left : List Placed)
        × IsTooDeep spelling_module IsModule most_levels (placed_from text.now tokens.now at) left
        × NoneEnds (placed_from text.now tokens.now at) left
        × BeginsWithin (placed_from text.now tokens.now at) left
        × (place ≡ place_in left (length text.now)) }

    // A module of at most 64 levels is read as its tree wherever memory suffices.
    ensures accepts { (own rest : List Placed) (w : WrittenModule)
        → placed_from text.now tokens.now at ≡ own ++ rest
        → Are spelling_module IsModule own w → AreWithin most_levels (spelling_module w)
        → IfOk result (λ read.
        (module_of read.0 ≡ module_stands_for w) × (read.1 ≡ at + length own))
        × IfErr result (λ e. e ≡ LangFault.NoMemory) }
{
    let read = read_module_text(alloc, text, tokens, at)?;
    match read.stop {
        None => Ok((read.module, read.next)),
        Some(stop) => Err(fault(stop)),
    }
}

/// Reads a module that begins at the token `at` of a text, as far as its tokens go (docs/LANGUAGE.md, "Modules"). Where
/// reading stops, what was read is there too. `NoMemory` is the only fault.
pub fn read_module_text(
    alloc: Global,
    text: &[u8],
    tokens: &TokenList,
    at: usize,
) -> Result<ReadModule, NoMemory>
    requires of_text { All (IsTokenIn text.now) tokens.now }
    requires inside { at ≤ length tokens.now }
    requires short { length text.now ≤ longest_text }
    ensures { IfOk result (λ read. Answers text.now tokens.now at read) }
{
    let mut reader = Reader::from_token(alloc, text, tokens, at);
    let module = module_or_root(&mut reader)?;
    Ok(ReadModule {
        module,
        next: tokens.len() - reader.tokens_left(),
        stop: reader.stop(),
    })
}

fn fault(stop: Stop) -> LangFault
    ensures { result ≡ fault_of stop }
{
    match stop.cause {
        StopCause::Unexpected => LangFault::Expected(u64::from(stop.place)),
        StopCause::TooDeep => LangFault::Deep(u64::from(stop.place)),
    }
}
