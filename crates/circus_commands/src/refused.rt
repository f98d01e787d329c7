// Why a program is refused, as it is written.
ghost use Rattle.std.specs.Prelude.{◌≡◌, ◌++◌, IsAscii, IsTrue, IfOk, IfErr, OnOk, string_bytes, codes};
ghost use Rattle.std.specs.Fmt.{decimal};
ghost use Rattle.std.specs.List.{AllByRecursion};
ghost use Rattle.circus_config.specs.Told.{names_in};
ghost use Rattle.circus_config.specs.Program.{IsProgramOf, IsPlan};
ghost use Rattle.circus_commands.specs.Refusal.{cause_text, refused_text, IsEndOfRefused};
ghost use Rattle.circus_commands.specs.Seen.Ending.{ending_of};
ghost use Rattle.circus_commands.specs.Status.{is_end};
ghost use Rattle.circus_commands.specs.declared.status.Status.TheVariants.{BadProgram};

use crate::{Ending, Status};
use circus_config::{Plan, ProgramCause, ProgramFault, read_program};
use circus_value::{Name, NoMemory, name_text};
use std::alloc::{AllocError, Global};

// Adds which module two roots share.
fn append_shared(
    text: &mut String,
    shared: &Name,
    first: &Name,
    second: &Name,
) -> Result<(), NoMemory>
    requires shared { IsAscii shared.now }
    requires first { IsAscii first.now }
    requires second { IsAscii second.now }
    ensures { OnOk result
        (string_bytes text.new
        ≡ string_bytes text.old
        ++ (codes "shared " ++ shared.now ++ codes " " ++ first.now ++ codes " " ++ second.now)) }
{
    let shared = name_text(shared);
    let first = name_text(first);
    let second = name_text(second);
    write!(text, "shared {shared} {first} {second}")?;
    Ok(())
}

// Adds what is lacking.
fn append_missing(text: &mut String, name: &Name) -> Result<(), NoMemory>
    requires { IsAscii name.now }
    ensures { OnOk result
        (string_bytes text.new ≡ string_bytes text.old ++ (codes "missing " ++ name.now)) }
{
    let name = name_text(name);
    write!(text, "missing {name}")?;
    Ok(())
}

// Adds a cause in words.
fn append_cause(text: &mut String, cause: &ProgramCause) -> Result<(), NoMemory>
    requires { AllByRecursion IsAscii (names_in cause.now) }
    ensures { OnOk result (string_bytes text.new ≡ string_bytes text.old ++ cause_text cause.now) }
{
    match cause {
        ProgramCause::BadCharacter => text.push_str("bad character"),
        ProgramCause::OpenString => text.push_str("open string"),
        ProgramCause::LongNumber => text.push_str("long number"),
        ProgramCause::Syntax => text.push_str("syntax"),
        ProgramCause::Deep => text.push_str("nested too deep"),
        ProgramCause::UnknownName => text.push_str("unknown name"),
        ProgramCause::Repeated => text.push_str("repeated name"),
        ProgramCause::OutOfRange => text.push_str("out of range"),
        ProgramCause::TooLarge => text.push_str("too large"),
        ProgramCause::Mistyped => text.push_str("type mismatch"),
        ProgramCause::NoReturn => text.push_str("no return"),
        ProgramCause::Forward => text.push_str("forward import"),
        ProgramCause::Shared(shared, first, second) => append_shared(text, shared, first, second),
        ProgramCause::Missing(name) => append_missing(text, name),
        ProgramCause::TooMany => text.push_str("too many"),
    }
}

// Adds the line of a refusal.
fn append_line(text: &mut String, number: u32) -> Result<(), NoMemory>
    ensures { OnOk result
        (string_bytes text.new
        ≡ string_bytes text.old ++ (codes "program line " ++ decimal number ++ codes ": ")) }
{
    write!(text, "program line {number}: ")?;
    Ok(())
}

// The end of a program that is refused.
fn end_of_refused(alloc: Global, number: u32, cause: &ProgramCause) -> Result<Ending, NoMemory>
    requires { AllByRecursion IsAscii (names_in cause.now) }
    ensures ending { IfOk result (λ ending.
        ending_of ending ≡ record { status = BadProgram; text = refused_text number cause.now }) }
    ensures status { IfOk result (λ ending. ending.status ≡ BadProgram) }
{
    let mut text = String::new(alloc);
    append_line(&mut text, number)?;
    append_cause(&mut text, cause)?;
    text.push_str("\n")?;
    Ok(Ending::of(Status::BadProgram, text))
}

/// The plan that a program file means, or the end of one that is refused (docs/GUIDE.md, "Statuses").
pub fn plan_of(alloc: Global, bytes: &[u8]) -> Result<Result<Plan, Ending>, NoMemory>
    ensures program { IfOk result (λ read. IfOk read (IsProgramOf bytes.now)) }
    ensures plan { IfOk result (λ read. IfOk read IsPlan) }
    ensures refused { IfOk result (λ read.
        IfErr read (λ ending. IsEndOfRefused bytes.now (ending_of ending))) }
    ensures status { IfOk result (λ read. IfErr read (λ ending. IsTrue (is_end ending.status))) }
{
    match read_program(alloc, bytes) {
        Ok(plan) => Ok(Ok(plan)),
        Err(ProgramFault::Refused(number, cause)) => Ok(Err(end_of_refused(
            alloc, number, &cause,
        )?)),
        Err(ProgramFault::NoMemory) => Err(AllocError),
    }
}
