// The pieces of a history (docs/FORMATS.md, "History").
ghost use Rattle.std.specs.Prelude.{◌≡◌, ◌++◌, OnOk, string_bytes};
ghost use Rattle.circus_commands.specs.HistoryLines.{ask_lines, entry_line, ending_line, heading};

use circus_model::{Ask, Run};
use circus_record::{AskLine, EndLine, Naming, ReplyLine, RunLine};
use circus_value::NoMemory;

/// Adds the name of a module, and how many runs it has. `NoMemory` is the one fault.
pub fn append_heading(text: &mut String, name: &str, count: usize) -> Result<(), NoMemory>
    ensures { OnOk result
        (string_bytes text.new ≡ string_bytes text.old ++ heading name.now count) }
{
    writeln!(text, "module {name} count {count}")?;
    Ok(())
}

/// Adds the entry of a run. `NoMemory` is the one fault.
pub fn append_entry<N: Naming>(
    text: &mut String,
    names: &N,
    place: u128,
    run: &Run,
) -> Result<(), NoMemory>
    ensures { OnOk result (string_bytes text.new
        ≡ string_bytes text.old ++ entry_line (N.names names.now) place run.now) }
{
    let line = RunLine {
        place,
        step: None,
        root: names.troupe(usize::from(run.root)),
        path: &run.path,
        procedure: run.procedure,
        entry: &run.entry,
        arguments: &run.arguments,
    };
    line.append_to(text)
}

/// Adds the end of a run. `NoMemory` is the one fault.
pub fn append_end(text: &mut String, place: u128, run: &Run) -> Result<(), NoMemory>
    ensures { OnOk result
        (string_bytes text.new ≡ string_bytes text.old ++ ending_line place run.now) }
{
    let line = EndLine {
        place,
        step: None,
        end: &run.end,
        outcome: &run.outcome,
        state: &run.state,
    };
    line.append_to(text)
}

/// Adds an ask with its reply. `NoMemory` is the one fault.
pub fn append_ask<N: Naming>(
    text: &mut String,
    names: &N,
    number: usize,
    ask: &Ask,
) -> Result<(), NoMemory>
    ensures { OnOk result (string_bytes text.new
        ≡ string_bytes text.old ++ ask_lines (N.names names.now) number ask.now) }
{
    let line = AskLine {
        number,
        step: None,
        callee: names.troupe(usize::from(ask.callee)),
        index: ask.index,
        procedure: ask.procedure,
        arguments: &ask.arguments,
        state: &ask.state,
    };
    let reply = ReplyLine {
        number,
        step: None,
        after: &ask.after,
        reply: &ask.reply,
    };
    line.append_to(text)?;
    reply.append_to(text)
}
