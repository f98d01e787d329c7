// A walk along the runs of a record.
ghost use Rattle.std.specs.Prelude.{◌≡◌, ℕ, ◌≤◌, ◌<◌, length, drop, IfOk};
ghost use Rattle.std.specs.Bool.{Decides};
ghost use Rattle.circus_performing.specs.Performing as performing;
ghost use Rattle.circus_dues.specs.Seen.Steps as steps;

use circus_header::{CallHeader, Reply};
use circus_model::is_spent;
use circus_performing::RunStart;
use circus_record::{AskRecord, RunRecord};
use circus_value::{Clock, Duplicate, NoMemory};

/// How far a record has come: how many of its runs have ended, and how many asks the next one has made, if it has started.
#[derive(Clone, Copy, Debug, PartialEq, Eq, Drop)]
pub(crate) struct Walk {
    pub ended: usize,
    pub asked: Option<usize>,
}

/// The clock at which the ask of a number is made.
pub(crate) fn clock_at(run: &RunRecord, number: usize) -> &Clock
    requires { number ≤ length run.now.asks }
    ensures { result.now ≡ steps.clock_at run.now number }
{
    clock_behind(&run.entry, &run.asks.as_slice()[..number])
}

// The clock behind asks: that after the last one that was answered, at first that at the entry.
fn clock_behind<'a>(entry: &'a Clock, asks: &'a [AskRecord]) -> &'a Clock
    ensures { result.now ≡ performing.clock_after entry.now asks.now }
{
    let Some((last, before)) = asks.split_last() else {
        return entry;
    };
    match &last.after {
        Some(after) => after,
        None => clock_behind(entry, before),
    }
}

/// The first ask, from a number on, for which the thread has calls left.
#[tactic(auto, using(crate::proofs::NextAsks::next_there))]
pub(crate) fn next_ask(run: &RunRecord, from: usize) -> Option<usize>
    requires { from ≤ length run.now.asks }
    ensures { result
        ≡ steps.next_ask from (steps.clock_at run.now from) (drop from run.now.asks) }
{
    let mut number = from;
    let mut clock = clock_at(run, from);
    while number < run.asks.len() {
        if !is_spent(clock) {
            return Some(number);
        }
        if let Some(after) = &run.asks.as_slice()[number].after {
            clock = after;
        }
        number += 1;
    }
    None
}

/// What the calls of an ask say, but for the views that they name.
pub(crate) fn header_of(
    troupe: u16,
    index: u32,
    run: &RunRecord,
    number: u16,
    ask: &AskRecord,
) -> Result<CallHeader, NoMemory>
    requires { number ≤ length run.now.asks }
    ensures { IfOk result (λ header.
        header ≡ steps.header_of troupe index run.now number ask.now) }
{
    let mut path = run.path.copy()?;
    path.push(number)?;
    Ok(CallHeader {
        root: run.root,
        path,
        client: troupe,
        client_incarnation: 0,
        client_index: index,
        server: ask.callee,
        server_incarnation: 0,
        procedure: ask.procedure,
        clock: clock_at(run, usize::from(number)).copy()?,
    })
}

/// Whether an ask shows that it was answered so in a step.
pub(crate) fn shows_answer(ask: &AskRecord, at: u64, reply: &Reply) -> bool
    ensures { result ≡ steps.shows_answer ask.now at reply.now }
{
    match (&ask.answered, &ask.reply, &ask.after) {
        (Some(answered), Some(outcome), Some(clock)) => {
            *answered == at && *outcome == reply.outcome && *clock == reply.clock
        }
        _ => false,
    }
}

/// Whether a run was entered so in a step.
pub(crate) fn is_entered(run: &RunRecord, at: u64, start: &RunStart) -> bool
    ensures { result ≡ steps.is_entered run.now at start.now }
{
    run.started == at && is_start(run, start)
}

fn is_start(run: &RunRecord, start: &RunStart) -> bool
    ensures { result ≡ steps.is_start run.now start.now }
{
    run.root == start.root
        && run.path == start.path
        && run.procedure == start.procedure
        && run.arguments == start.arguments
        && run.entry == start.clock
}

/// Whether a step is not behind another.
pub(crate) fn is_by(step: Option<u64>, at: u64) -> bool
    ensures { result ≡ steps.is_by step at }
{
    match step {
        Some(step) => step <= at,
        None => false,
    }
}

/// Whether runs were performed one by one, each of their asks in its turn.
pub(crate) fn is_in_order(runs: &[RunRecord]) -> bool
    ensures { result ≡ steps.runs_in_order 0 runs.now }
{
    let mut step = 0;
    let mut place = 0;
    while place < runs.len() {
        let run = &runs[place];
        place += 1;
        if run.started < step || !is_run_in_order(run) {
            return false;
        }
        match run.ended {
            Some(ended) => step = ended,
            None => return place == runs.len(),
        }
    }
    true
}

fn is_run_in_order(run: &RunRecord) -> bool
    ensures { result ≡ steps.run_in_order run.now }
{
    are_asked_in_order(run.started, run.asks.as_slice()) && ends_in_order(run)
}

// From this step on each ask is made as the one before it was answered.
fn are_asked_in_order(started: u64, asks: &[AskRecord]) -> bool
    ensures { result ≡ steps.asks_in_order started asks.now }
{
    let mut step = started;
    let mut place = 0;
    while place < asks.len() {
        let ask = &asks[place];
        place += 1;
        if ask.asked != step {
            return false;
        }
        match ask.answered {
            Some(answered) if answered >= step => step = answered,
            Some(_) => return false,
            None => return place == asks.len(),
        }
    }
    true
}

// A run that has ended did so in the step of its last answer, all its asks being answered.
fn ends_in_order(run: &RunRecord) -> bool
    ensures { result ≡ steps.ends_in_order run.now }
{
    match run.ended {
        Some(ended) => {
            ended == step_after(run.started, run.asks.as_slice())
                && are_answered(run.asks.as_slice())
        }
        None => true,
    }
}

fn step_after(started: u64, asks: &[AskRecord]) -> u64
    ensures { result ≡ performing.step_after started asks.now }
{
    let Some((last, before)) = asks.split_last() else {
        return started;
    };
    match last.answered {
        Some(answered) => answered,
        None => step_after(started, before),
    }
}

fn are_answered(asks: &[AskRecord]) -> bool
    ensures { result ≡ steps.are_answered asks.now }
{
    asks.iter().all(|ask| ask.answered.is_some())
}
