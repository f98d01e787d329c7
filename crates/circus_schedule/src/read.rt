// Schedules, read line by line.
ghost use Rattle.std.specs.Prelude.{◌≡◌, ◌≤◌, ◌^◌, ◌⊎◌, [], ◌∷◌, ◌≢◌, length, List, Result, Err, Some, IfErr, IfOk, All};
ghost use Rattle.circus_schedule.specs.declared.line.Line.{Line};
ghost use Rattle.circus_schedule.specs.declared.schedule_fault.ScheduleFault.{ScheduleFault};
ghost use Rattle.circus_schedule.specs.TextLines.{lines_of};
ghost use Rattle.circus_schedule.specs.Meaning.{numbers_of, names_in, first_unknown, line_of, IsReadAs, NamesBelow};
ghost use Rattle.circus_schedule.specs.Answer.{most_lines, HasFault, IsAnswer};
ghost use Rattle.circus_schedule.specs.Seen.Table.{number_in};
ghost use Rattle.circus_schedule.specs.Seen.Written.{written_as};

use crate::cut::cut_at;
use crate::node_numbers::NodeNumbers;
use crate::written::{Written, written_line};
use crate::{Line, Lines, ScheduleFault};
use circus_collate::Deployment;
use circus_value::Name;
use std::alloc::Global;

/// How many lines a schedule has at most.
pub const MOST_LINES: u32 = 200_000;

const NEWLINE: u8 = b'\n';

/// The lines of a schedule for the nodes of a deployment (docs/FORMATS.md, "Schedules").
///
/// Else the first line that has a fault, counted from 1: `BadLine` where it is spelled as none is, `UnknownNode` with the
/// first of its names that no node has, and `TooManyLines` at the 200,001st line, whatever it says. `NoMemory` can come at
/// any line. It takes time in proportion to the bytes, and for each name that of a look-up.
pub fn read_schedule(
    alloc: Global,
    bytes: &[u8],
    deployment: &Deployment,
) -> Result<Lines, ScheduleFault>
    requires { length deployment.now.nodes ≤ 2 ^ 16 }
    ensures answer { (result ≡ Err ScheduleFault.NoMemory)
        ⊎ IsAnswer (numbers_of deployment.now.nodes) bytes.now result }

    // A text has one answer, so no other is given unless memory runs out.
    ensures only { (answer : Result (List Line) ScheduleFault)
        → IsAnswer (numbers_of deployment.now.nodes) bytes.now answer
        → (result ≡ answer) ⊎ (result ≡ Err ScheduleFault.NoMemory) }

    // Each line asks for nodes of the deployment alone.
    ensures nodes { IfOk result (All (NamesBelow (length deployment.now.nodes))) }
{
    let numbers = NodeNumbers::of(alloc, deployment.nodes.as_slice())?;
    read_lines(alloc, bytes, &numbers)
}

fn read_lines(alloc: Global, bytes: &[u8], numbers: &NodeNumbers) -> Result<Lines, ScheduleFault>
    ensures { (result ≡ Err ScheduleFault.NoMemory)
        ⊎ IsAnswer (number_in numbers.now) bytes.now result }
{
    let mut lines = Lines::new(alloc);
    let mut number = 0;
    let mut rest = bytes;
    while !rest.is_empty() {
        let (text, after) = first_line(rest);
        number += 1;
        lines.push(read_line(alloc, number, text, numbers)?)?;
        rest = after;
    }
    Ok(lines)
}

// The first line of a text, and what follows it.
fn first_line(text: &[u8]) -> (&[u8], &[u8])
    requires { text.now ≢ [] }
    ensures { lines_of text.now ≡ result.0.now ∷ lines_of result.1.now }
{
    match cut_at(NEWLINE, text) {
        Some(cut) => cut,
        None => (text, &[]),
    }
}

// What the line of this number is.
fn read_line(
    alloc: Global,
    number: u32,
    text: &[u8],
    numbers: &NodeNumbers,
) -> Result<Line, ScheduleFault>
    ensures ok { IfOk result (λ line.
        (number ≤ most_lines) × IsReadAs (number_in numbers.now) text.now line) }
    ensures err { IfErr result (λ fault.
        (fault ≡ ScheduleFault.NoMemory) ⊎ HasFault (number_in numbers.now) number text.now fault) }
{
    if number > MOST_LINES {
        return Err(ScheduleFault::TooManyLines(number));
    }
    let Some(written) = written_line(text) else {
        return Err(ScheduleFault::BadLine(number));
    };
    match line_of(&written, numbers) {
        Ok(line) => Ok(line),
        Err(name) => Err(unknown_node(alloc, number, name)),
    }
}

// The line with numbers for names, or the first name that no node has.
fn line_of<'a>(written: &Written<'a>, numbers: &NodeNumbers) -> Result<Line, &'a [u8]>
    ensures ok { IfOk result (λ line.
        line_of (number_in numbers.now) (written_as written.now) ≡ Some line) }
    ensures err { IfErr result (λ name.
        first_unknown (number_in numbers.now) (names_in (written_as written.now)) ≡ Some name.now) }
{
    match *written {
        Written::Deliver(number) => Ok(Line::Deliver(number)),
        Written::Tick(node) => Ok(Line::Tick(number_of(node, numbers)?)),
        Written::Crash(node) => Ok(Line::Crash(number_of(node, numbers)?)),
        Written::Down(node, told) => {
            Ok(Line::Down(number_of(node, numbers)?, number_of(told, numbers)?))
        }
        Written::Join(node) => Ok(Line::Join(number_of(node, numbers)?)),
    }
}

// The number of the node of this name, or the name where there is none.
fn number_of<'a>(name: &'a [u8], numbers: &NodeNumbers) -> Result<u16, &'a [u8]>
    ensures ok { IfOk result (λ number. number_in numbers.now name.now ≡ Some number) }
    ensures err { IfErr result (λ unknown.
        (number_in numbers.now name.now ≡ None) × (unknown.now ≡ name.now)) }
{
    numbers.get(name).ok_or(name)
}

fn unknown_node(alloc: Global, number: u32, name: &[u8]) -> ScheduleFault
    ensures { (result ≡ ScheduleFault.NoMemory)
        ⊎ (result ≡ ScheduleFault.UnknownNode number name.now) }
{
    let mut copy = Name::new(alloc);
    match copy.append(name) {
        Ok(()) => ScheduleFault::UnknownNode(number, copy),
        Err(_) => ScheduleFault::NoMemory,
    }
}
