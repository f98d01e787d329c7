// The history of a program, put piece by piece.
ghost use Rattle.std.specs.Prelude.{◌≡◌, ℕ, List, All, IsAscii, IsErrOf, OnOk};
ghost use Rattle.circus_outside.specs.Faults.{Rose};
ghost use Rattle.circus_report.specs.Run.{IsPut};
ghost use Rattle.circus_commands.specs.HistoryLines.{ask_lines, asks_lines, entry_line, ending_line, run_lines, runs_lines, heading, module_lines, modules_lines, history_text};
ghost use Rattle.circus_commands.specs.Seen.Upshot.{end_of_performance};
ghost use Rattle.circus_program.specs.Seen.Put.{IsPutEnd};

use crate::ended::end_of_stop;
use circus_commands::{Performance, Status, append_ask, append_end, append_entry, append_heading};
use circus_model::{Ask, Run, Runs};
use circus_outside::Sink;
use circus_record::{Naming, ProgramNames};
use circus_report::{RunFault, put_lines};
use circus_value::NoMemory;
use std::alloc::Global;

/// Puts the history of a program, and answers the status of that where all was written.
pub fn put_history<K: Sink>(alloc: Global, performance: Performance, sink: &mut K) -> Status
    requires { All IsAscii performance.names }
    ensures { IsPutEnd (end_of_performance performance) (K.written sink.old) (K.written sink.new)
        (K.faults sink.old) (K.faults sink.new) result }
{
    let Performance { names, history } = performance;
    let names = ProgramNames::new(&[], names.as_slice());
    match put_all(alloc, &names, history.as_slice(), sink) {
        Ok(()) => Status::Done,
        Err(fault) => end_of_stop(fault),
    }
}

// Puts the first line, and modules with their runs.
fn put_all<N: Naming, K: Sink>(
    alloc: Global,
    names: &N,
    modules: &[Runs],
    sink: &mut K,
) -> Result<(), RunFault>
    ensures put { IsPut (history_text (N.names names.now) modules.now) (K.written sink.old)
        (K.written sink.new) result }
    ensures rose { IsErrOf result RunFault.SinkFailed
        → Rose (K.faults sink.old) (K.faults sink.new) }
    ensures count { OnOk result (K.faults sink.new ≡ K.faults sink.old) }
{
    let mut text = String::new(alloc);
    put_added(Ok(()), "circus history 1\n".as_bytes(), sink)?;
    put_modules(&mut text, names, modules, sink)
}

// Puts modules with their runs. What is put stands in the text until it is.
fn put_modules<N: Naming, K: Sink>(
    text: &mut String,
    names: &N,
    modules: &[Runs],
    sink: &mut K,
) -> Result<(), RunFault>
    ensures put { IsPut (modules_lines (N.names names.now) 0 modules.now) (K.written sink.old)
        (K.written sink.new) result }
    ensures rose { IsErrOf result RunFault.SinkFailed
        → Rose (K.faults sink.old) (K.faults sink.new) }
    ensures count { OnOk result (K.faults sink.new ≡ K.faults sink.old) }
{
    for (number, runs) in modules.iter().enumerate() {
        put_module(text, names, number, runs, sink)?;
    }
    Ok(())
}

// Puts a module with its runs.
fn put_module<N: Naming, K: Sink>(
    text: &mut String,
    names: &N,
    number: usize,
    runs: &Runs,
    sink: &mut K,
) -> Result<(), RunFault>
    ensures put { IsPut (module_lines (N.names names.now) number runs.now) (K.written sink.old)
        (K.written sink.new) result }
    ensures rose { IsErrOf result RunFault.SinkFailed
        → Rose (K.faults sink.old) (K.faults sink.new) }
    ensures count { OnOk result (K.faults sink.new ≡ K.faults sink.old) }
{
    put_heading(text, names.troupe(number), runs.len(), sink)?;
    put_runs(text, names, runs.as_slice(), sink)
}

// Puts the name of a module, and how many runs it has.
fn put_heading<K: Sink>(
    text: &mut String,
    name: &str,
    count: usize,
    sink: &mut K,
) -> Result<(), RunFault>
    ensures put { IsPut (heading name.now count) (K.written sink.old)
        (K.written sink.new) result }
    ensures rose { IsErrOf result RunFault.SinkFailed
        → Rose (K.faults sink.old) (K.faults sink.new) }
    ensures count { OnOk result (K.faults sink.new ≡ K.faults sink.old) }
{
    text.clear();
    let added = append_heading(text, name, count);
    put_added(added, text.as_bytes(), sink)
}

// Puts the runs of a module with their asks.
fn put_runs<N: Naming, K: Sink>(
    text: &mut String,
    names: &N,
    runs: &[Run],
    sink: &mut K,
) -> Result<(), RunFault>
    ensures put { IsPut (runs_lines (N.names names.now) 0 runs.now) (K.written sink.old)
        (K.written sink.new) result }
    ensures rose { IsErrOf result RunFault.SinkFailed
        → Rose (K.faults sink.old) (K.faults sink.new) }
    ensures count { OnOk result (K.faults sink.new ≡ K.faults sink.old) }
{
    for (place, run) in runs.iter().enumerate() {
        put_run(text, names, place as u128, run, sink)?;
    }
    Ok(())
}

// Puts a run with its asks.
fn put_run<N: Naming, K: Sink>(
    text: &mut String,
    names: &N,
    place: u128,
    run: &Run,
    sink: &mut K,
) -> Result<(), RunFault>
    ensures put { IsPut (run_lines (N.names names.now) place run.now) (K.written sink.old)
        (K.written sink.new) result }
    ensures rose { IsErrOf result RunFault.SinkFailed
        → Rose (K.faults sink.old) (K.faults sink.new) }
    ensures count { OnOk result (K.faults sink.new ≡ K.faults sink.old) }
{
    put_entry(text, names, place, run, sink)?;
    put_asks(text, names, run.asks.as_slice(), sink)?;
    put_end(text, place, run, sink)
}

// Puts the entry of a run.
fn put_entry<N: Naming, K: Sink>(
    text: &mut String,
    names: &N,
    place: u128,
    run: &Run,
    sink: &mut K,
) -> Result<(), RunFault>
    ensures put { IsPut (entry_line (N.names names.now) place run.now) (K.written sink.old)
        (K.written sink.new) result }
    ensures rose { IsErrOf result RunFault.SinkFailed
        → Rose (K.faults sink.old) (K.faults sink.new) }
    ensures count { OnOk result (K.faults sink.new ≡ K.faults sink.old) }
{
    text.clear();
    let added = append_entry(text, names, place, run);
    put_added(added, text.as_bytes(), sink)
}

// Puts the end of a run.
fn put_end<K: Sink>(text: &mut String, place: u128, run: &Run, sink: &mut K) -> Result<(), RunFault>
    ensures put { IsPut (ending_line place run.now) (K.written sink.old)
        (K.written sink.new) result }
    ensures rose { IsErrOf result RunFault.SinkFailed
        → Rose (K.faults sink.old) (K.faults sink.new) }
    ensures count { OnOk result (K.faults sink.new ≡ K.faults sink.old) }
{
    text.clear();
    let added = append_end(text, place, run);
    put_added(added, text.as_bytes(), sink)
}

// Puts the asks of a run with their replies.
fn put_asks<N: Naming, K: Sink>(
    text: &mut String,
    names: &N,
    asks: &[Ask],
    sink: &mut K,
) -> Result<(), RunFault>
    ensures put { IsPut (asks_lines (N.names names.now) 0 asks.now) (K.written sink.old)
        (K.written sink.new) result }
    ensures rose { IsErrOf result RunFault.SinkFailed
        → Rose (K.faults sink.old) (K.faults sink.new) }
    ensures count { OnOk result (K.faults sink.new ≡ K.faults sink.old) }
{
    for (number, ask) in asks.iter().enumerate() {
        put_ask(text, names, number, ask, sink)?;
    }
    Ok(())
}

// Puts an ask with its reply.
fn put_ask<N: Naming, K: Sink>(
    text: &mut String,
    names: &N,
    number: usize,
    ask: &Ask,
    sink: &mut K,
) -> Result<(), RunFault>
    ensures put { IsPut (ask_lines (N.names names.now) number ask.now) (K.written sink.old)
        (K.written sink.new) result }
    ensures rose { IsErrOf result RunFault.SinkFailed
        → Rose (K.faults sink.old) (K.faults sink.new) }
    ensures count { OnOk result (K.faults sink.new ≡ K.faults sink.old) }
{
    text.clear();
    let added = append_ask(text, names, number, ask);
    put_added(added, text.as_bytes(), sink)
}

// Puts a text, if there was memory for it.
fn put_added<K: Sink>(
    added: Result<(), NoMemory>,
    text: &[u8],
    sink: &mut K,
) -> Result<(), RunFault>
    ensures put { (piece : List ℕ) → OnOk added (text.now ≡ piece)
        → IsPut piece (K.written sink.old) (K.written sink.new) result }
    ensures rose { IsErrOf result RunFault.SinkFailed
        → Rose (K.faults sink.old) (K.faults sink.new) }
    ensures count { OnOk result (K.faults sink.new ≡ K.faults sink.old) }
{
    added?;
    put_lines(sink, text)?;
    Ok(())
}
