// The best choice of machines for a placing, as it is written.
ghost use Rattle.std.specs.Prelude.{◌≡◌, ◌++◌, ◌≤◌, ◌<◌, All, IsAscii, IsTrue, length, IfOk, OnOk, string_bytes, codes};
ghost use Rattle.std.specs.Fmt.{decimal};
ghost use Rattle.circus_record.specs.Line.{line};
ghost use Rattle.circus_place.specs.Obeys.{Obeys};
ghost use Rattle.circus_commands.specs.Status.{is_end};
ghost use Rattle.circus_commands.specs.Seen.Ending.{ending_of};
ghost use Rattle.circus_commands.specs.Placed.{cause_text, refused_text, name_of, member_line, member_lines, choice_text, IsEndOfChoice, IsEndOfPlacing};
ghost use Rattle.circus_commands.specs.declared.status.Status.TheVariants.{BadPlacing, Done};
ghost use Rattle.circus_place.specs.Choice.{kept_by};

use crate::{Ending, Status};
use circus_place::{Machine, PlaceCause, PlaceFault, Placement, Placing, place, read_place};
use circus_value::{NoMemory, name_text};
use std::alloc::{AllocError, Global};

// A cause in words.
fn cause_text(cause: PlaceCause) -> &'static str
    ensures { result.now ≡ cause_text cause }
{
    match cause {
        PlaceCause::BadCharacter => "bad character",
        PlaceCause::OpenString => "open string",
        PlaceCause::LongNumber => "long number",
        PlaceCause::Syntax => "syntax",
        PlaceCause::Deep => "nested too deep",
        PlaceCause::UnknownName => "unknown name",
        PlaceCause::Repeated => "repeated name",
        PlaceCause::OutOfRange => "out of range",
        PlaceCause::TooLarge => "too large",
        PlaceCause::TooMany => "too many",
    }
}

// Adds where a text is refused.
fn append_place(text: &mut String, number: u32) -> Result<(), NoMemory>
    ensures { OnOk result
        (string_bytes text.new
        ≡ string_bytes text.old ++ (codes "place line " ++ decimal number ++ codes ": ")) }
{
    write!(text, "place line {number}: ")?;
    Ok(())
}

// Adds where a text is refused, and why.
fn append_refusal(text: &mut String, number: u32, cause: PlaceCause) -> Result<(), NoMemory>
    ensures { OnOk result
        (string_bytes text.new ≡ string_bytes text.old ++ refused_text number cause) }
{
    append_place(text, number)?;
    text.push_str(cause_text(cause))?;
    text.push_str("\n")?;
    Ok(())
}

// The end of a placing whose text is refused.
fn refusal(alloc: Global, number: u32, cause: PlaceCause) -> Result<Ending, NoMemory>
    ensures ending { IfOk result (λ ending.
        ending_of ending ≡ record { status = BadPlacing; text = refused_text number cause }) }
    ensures status { IfOk result (λ ending. IsTrue (is_end ending.status)) }
{
    let mut text = String::new(alloc);
    append_refusal(&mut text, number, cause)?;
    Ok(Ending::of(Status::BadPlacing, text))
}

// Adds the line of a member.
fn append_member(text: &mut String, member: usize, machine: &Machine) -> Result<(), NoMemory>
    requires { IsAscii machine.now.name }
    ensures { OnOk result
        (string_bytes text.new ≡ string_bytes text.old ++ member_line member machine.now.name) }
{
    let name = name_text(&machine.name);
    writeln!(text, "member {member} {name}")?;
    Ok(())
}

// Adds the lines of the members that are placed on these machines.
fn append_members(text: &mut String, machines: &[Machine], chosen: &[u16]) -> Result<(), NoMemory>
    requires named { All (λ m. IsAscii m.name) machines.now }
    requires inside { All (λ number. number < length machines.now) chosen.now }
    requires few { length chosen.now ≤ 5 }
    ensures { OnOk result
        (string_bytes text.new ≡ string_bytes text.old ++ member_lines machines.now 1 chosen.now) }
{
    let mut member = 1;
    for number in chosen {
        append_member(text, member, &machines[usize::from(*number)])?;
        member += 1;
    }
    Ok(())
}

// The end of a placing whose best choice this is.
fn choice(alloc: Global, placing: &Placing, chosen: &Placement) -> Result<Ending, NoMemory>
    requires named { All (λ m. IsAscii m.name) placing.now.machines }
    requires inside { All (λ number. number < length placing.now.machines) chosen.now.members }
    requires few { length chosen.now.members ≤ 5 }
    requires kept { chosen.now.kept ≡ kept_by placing.now chosen.now.members }
    ensures ending { IfOk result (λ ending.
        ending_of ending
        ≡ record { status = Done; text = choice_text placing.now chosen.now.members }) }
    ensures status { IfOk result (λ ending. IsTrue (is_end ending.status)) }
{
    let mut text = String::new(alloc);
    text.push_str("circus place 1\n")?;
    append_members(
        &mut text,
        placing.machines.as_slice(),
        chosen.members.as_slice(),
    )?;
    append_kept(&mut text, chosen.kept)?;
    Ok(Ending::of(Status::Done, text))
}

// Adds how many members are kept.
fn append_kept(text: &mut String, kept: u16) -> Result<(), NoMemory>
    ensures { OnOk result
        (string_bytes text.new ≡ string_bytes text.old ++ line (codes "kept " ++ decimal kept)) }
{
    writeln!(text, "kept {kept}")?;
    Ok(())
}

// The end of a placing that is read.
fn best(alloc: Global, placing: &Placing) -> Result<Ending, NoMemory>
    requires obeys { Obeys placing.now }
    requires named { All (λ m. IsAscii m.name) placing.now.machines }
    ensures ending { IfOk result (λ ending. IsEndOfChoice placing.now (ending_of ending)) }
    ensures status { IfOk result (λ ending. IsTrue (is_end ending.status)) }
{
    match place(alloc, placing)? {
        Some(chosen) => choice(alloc, placing, &chosen),
        None => Ending::of_line(alloc, Status::NoPlacement, "no placement\n"),
    }
}

/// What comes of the text of a placing.
pub fn end_of_placing(alloc: Global, text: &[u8]) -> Result<Ending, NoMemory>
    ensures ending { IfOk result (λ ending. IsEndOfPlacing text.now (ending_of ending)) }
    ensures status { IfOk result (λ ending. IsTrue (is_end ending.status)) }
{
    match read_place(alloc, text) {
        Ok(placing) => best(alloc, &placing),
        Err(PlaceFault::Refused(number, cause)) => {
            let refused = refusal(alloc, number, cause)?;
            Ok(refused)
        }
        Err(PlaceFault::NoMemory) => Err(AllocError),
    }
}
