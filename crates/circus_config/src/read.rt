// Reading program files.
ghost use Rattle.std.specs.Prelude.{◌≡◌, ◌⊎◌, ◌≤◌, All, IsAscii, length, IfOk, IfErr};
ghost use Rattle.circus_text.specs.Form.{longest_text};
ghost use Rattle.circus_text.specs.Token.{IsTokenIn};
ghost use Rattle.circus_text.specs.Division.{AreTokensOf};
ghost use Rattle.circus_config.specs.declared.program_fault.ProgramFault.{ProgramFault};
ghost use Rattle.circus_config.specs.Told.{names_told};
ghost use Rattle.circus_config.specs.Program.{lexical_answer, IsProgramOf, IsRefused, IsPlan};

use crate::checking::plan;
use crate::interfaces::interfaces;
use crate::least::{Found, refusal_of};
use crate::{Plan, ProgramCause, ProgramFault};
use circus_file::program;
use circus_syntax::Reader;
use circus_text::{LONGEST_TEXT, LexFault, Token, TokenList, tokens};
use std::alloc::Global;

fn lexical_answer(text: &[u8], fault: LexFault) -> ProgramFault
    requires { length text.now ≤ longest_text }
    ensures { result ≡ lexical_answer text.now fault }
{
    match fault {
        LexFault::BadCharacter(place) => {
            refusal_of(text, Found::at(place, ProgramCause::BadCharacter))
        }
        LexFault::OpenString(place) => refusal_of(text, Found::at(place, ProgramCause::OpenString)),
        LexFault::LongNumber(place) => refusal_of(text, Found::at(place, ProgramCause::LongNumber)),
        LexFault::NoMemory => ProgramFault::NoMemory,
    }
}

// The tokens of a file, if it isn't too long.
fn tokens_of(alloc: Global, bytes: &[u8]) -> Result<TokenList, ProgramFault>
    ensures short { IfOk result (λ found. length bytes.now ≤ longest_text) }
    ensures found { IfOk result (AreTokensOf bytes.now) }
    ensures each { IfOk result (All (IsTokenIn bytes.now)) }
    ensures err { IfErr result (λ e. (e ≡ ProgramFault.NoMemory) ⊎ IsRefused bytes.now e) }
{
    if bytes.len() > LONGEST_TEXT {
        return Err(ProgramFault::Refused(1, ProgramCause::TooLarge));
    }
    match tokens(alloc, bytes) {
        Ok(found) => Ok(found),
        Err(fault) => Err(lexical_answer(bytes, fault)),
    }
}

// The plan of a file that has these tokens.
fn read_tokens(alloc: Global, bytes: &[u8], found: &[Token]) -> Result<Plan, ProgramFault>
    requires short { length bytes.now ≤ longest_text }
    requires tokens { AreTokensOf bytes.now found.now }
    requires each { All (IsTokenIn bytes.now) found.now }
    ensures ok { IfOk result (IsProgramOf bytes.now) }
    ensures err { IfErr result (λ e. (e ≡ ProgramFault.NoMemory) ⊎ IsRefused bytes.now e) }
{
    let mut reader = Reader::new(alloc, bytes, found);
    let text = program(&mut reader)?;
    let (least, made) = interfaces(alloc, text.interfaces.as_slice(), &reader.stop())?;
    let kept = least.found;
    match kept {
        Some(fault) => Err(refusal_of(bytes, fault)),
        None => plan(alloc, bytes, text, made),
    }
}

/// Reads a program file (docs/LANGUAGE.md, "Program files").
///
/// A file of more than 1,048,576 bytes is `TooLarge` on line 1. Else three passes are made: its tokens; reading, with the
/// rules of its interfaces; checking of its modules and its deployment. Of the faults of the first pass that has one the one
/// at the least place is given, at one place the first in the order of `ProgramCause`. `NoMemory` can come in any pass.
pub fn read_program(alloc: Global, bytes: &[u8]) -> Result<Plan, ProgramFault>
    ensures ok { IfOk result (IsProgramOf bytes.now) }
    ensures plan { IfOk result IsPlan }
    ensures err { IfErr result (λ e. (e ≡ ProgramFault.NoMemory) ⊎ IsRefused bytes.now e) }
    ensures told { IfErr result (λ e. All IsAscii (names_told e)) }
{
    read_lexed(alloc, bytes)
}

// Reads the tokens, where the file has them.
fn read_lexed(alloc: Global, bytes: &[u8]) -> Result<Plan, ProgramFault>
    ensures ok { IfOk result (IsProgramOf bytes.now) }
    ensures err { IfErr result (λ e. (e ≡ ProgramFault.NoMemory) ⊎ IsRefused bytes.now e) }
{
    match tokens_of(alloc, bytes) {
        Ok(found) => read_tokens(alloc, bytes, found.as_slice()),
        Err(fault) => Err(fault),
    }
}
