// Lines as a schedule is written.
ghost use Rattle.std.specs.Prelude.{◌≡◌, ◌++◌, [], ◌∷◌, All, IfOk, OnOk, string_bytes};
ghost use Rattle.circus_schedule.specs.WrittenLine.{text_of};
ghost use Rattle.circus_schedule.specs.TextLines.{newline};
ghost use Rattle.circus_schedule.specs.ScheduleText.{IsShort, line_written, lines_text};

use circus_record::Naming;
use circus_schedule::Line;
use circus_value::{ListOf, NoMemory, Octets};
use std::alloc::Global;

/// The text of lines, each with its newline (docs/FORMATS.md, "Schedules"), by what nodes are called. `NoMemory` is the one
/// fault.
pub fn show_lines<N: Naming>(alloc: Global, names: &N, lines: &[Line]) -> Result<Octets, NoMemory>
    ensures text { IfOk result (λ text. text ≡ lines_text (N.names names.now).node lines.now) }
    ensures short { IfOk result (λ _. All IsShort lines.now) }
{
    let mut text = String::new(alloc);
    for line in lines {
        append_line(&mut text, names, line)?;
    }
    Ok(ListOf::of(text.into_bytes()))
}

// Adds the text of a line.
fn append_line<N: Naming>(text: &mut String, names: &N, line: &Line) -> Result<(), NoMemory>
    ensures text { OnOk result (string_bytes text.new
        ≡ string_bytes text.old
        ++ (text_of (line_written (N.names names.now).node line.now) ++ newline ∷ [])) }
    ensures short { OnOk result (IsShort line.now) }
{
    match *line {
        Line::Deliver(number) => writeln!(text, "deliver {number}")?,
        Line::Tick(node) => {
            let node = names.node(usize::from(node));
            writeln!(text, "tick {node}")?
        }
        Line::Crash(node) => {
            let node = names.node(usize::from(node));
            writeln!(text, "crash {node}")?
        }
        Line::Down(node, told) => {
            let node = names.node(usize::from(node));
            let told = names.node(usize::from(told));
            writeln!(text, "down {node} {told}")?
        }
        Line::Join(node) => {
            let node = names.node(usize::from(node));
            writeln!(text, "join {node}")?
        }
    }
    Ok(())
}
