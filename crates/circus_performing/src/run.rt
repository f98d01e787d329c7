// A run under way.
ghost use Rattle.std.specs.Prelude.{◌≡◌, IfOk, IfSome, IsSome, slice_index};
ghost use Rattle.circus_performing.specs.Performing as performing;

use crate::RunStart;
use circus_model::LanguageError;
use circus_record::{AskRecord, RunRecord};
use circus_value::{Clock, Duplicate, ListOf, NoMemory, Outcome, State, Values};
use std::alloc::Global;

/// What a run asks for.
#[derive(Drop)]
pub(crate) struct Asked {
    pub callee: u16,
    pub procedure: u16,
    pub arguments: Values,
    pub state: State,
}

/// The run once it is entered in a step.
pub(crate) fn begin_run(alloc: Global, start: RunStart, step: u64) -> RunRecord
    ensures { result ≡ performing.begin_run step start }
{
    RunRecord {
        path: start.path,
        root: start.root,
        procedure: start.procedure,
        arguments: start.arguments,
        entry: start.clock,
        asks: ListOf::new(alloc),
        outcome: None,
        state: None,
        end: None,
        started: step,
        ended: None,
    }
}

/// A run's clock, where its last ask was answered.
pub(crate) fn current_clock(run: &RunRecord) -> &Clock
    requires { IfSome (performing.last_of run.now.asks) (λ ask. IsSome ask.after) }
    ensures { result.now ≡ performing.clock_after run.now.entry run.now.asks }
{
    match run.asks.as_slice().last() {
        Some(
            AskRecord {
                after: Some(clock),
                ..
            },
        ) => clock,
        _ => &run.entry,
    }
}

// The ask that is made in a step, at a clock.
fn made_ask(clock: &Clock, asked: Asked, step: u64) -> AskRecord
    ensures { result
        ≡ performing.made_ask step clock.now asked.callee asked.procedure asked.arguments
        asked.state }
{
    let index = count_of(clock, asked.callee);
    AskRecord {
        callee: asked.callee,
        index,
        procedure: asked.procedure,
        arguments: asked.arguments,
        state: asked.state,
        reply: None,
        after: None,
        asked: step,
        answered: None,
    }
}

// How many calls a thread has made to a module.
fn count_of(clock: &Clock, module: u16) -> u32
    ensures { result ≡ slice_index clock.now «module» }
{
    clock.get(usize::from(module)).copied().unwrap_or(0)
}

// The ask with its reply, and the clock after it.
fn answered_ask(ask: AskRecord, reply: Outcome, clock: Clock, step: u64) -> AskRecord
    ensures { result ≡ performing.answered_ask step reply clock ask }
{
    let mut ask = ask;
    ask.reply = Some(reply);
    ask.after = Some(clock);
    ask.answered = Some(step);
    ask
}

// The run once it has made one ask more.
fn with_ask(run: RunRecord, ask: AskRecord) -> Result<RunRecord, NoMemory>
    ensures { IfOk result (λ more. more ≡ performing.with_ask run ask) }
{
    let mut run = run;
    run.asks.push(ask)?;
    Ok(run)
}

/// The reply of a thread that has made all its calls.
pub(crate) fn refusal(alloc: Global) -> Outcome
    ensures { result ≡ performing.refusal }
{
    LanguageError::ThreadSpent.raised_outcome(alloc)
}

/// The run that waits for the reply to what it asks in a step.
pub(crate) fn waiting_run(run: RunRecord, asked: Asked, step: u64) -> Result<RunRecord, NoMemory>
    requires { IfSome (performing.last_of run.asks) (λ ask. IsSome ask.after) }
    ensures { IfOk result (λ waiting.
        waiting ≡ performing.with_ask run
        (performing.made_ask step
        (performing.clock_after run.entry run.asks) asked.callee asked.procedure asked.arguments
        asked.state)) }
{
    let ask = made_ask(current_clock(&run), asked, step);
    with_ask(run, ask)
}

/// The run once what it asks in a step is refused.
pub(crate) fn refused_run(
    alloc: Global,
    run: RunRecord,
    asked: Asked,
    step: u64,
) -> Result<RunRecord, NoMemory>
    requires { IfSome (performing.last_of run.asks) (λ ask. IsSome ask.after) }
    ensures { IfOk result (λ refused.
        refused ≡ performing.with_refusal step asked.callee asked.procedure asked.arguments
        asked.state run) }
{
    let clock = current_clock(&run).copy()?;
    let ask = made_ask(&clock, asked, step);
    with_ask(run, answered_ask(ask, refusal(alloc), clock, step))
}

/// The run once its last ask has a reply, with the clock after it.
pub(crate) fn replied_run(
    run: RunRecord,
    reply: Outcome,
    clock: Clock,
    step: u64,
) -> Result<RunRecord, NoMemory>
    ensures { IfOk result (λ replied. replied ≡ performing.with_reply step reply clock run) }
{
    let mut run = run;
    let Some(ask) = run.asks.pop() else {
        return Ok(run);
    };
    with_ask(run, answered_ask(ask, reply, clock, step))
}

/// The run once it has ended in a step.
pub(crate) fn ended_run(
    run: RunRecord,
    outcome: Outcome,
    state: State,
    step: u64,
) -> Result<RunRecord, NoMemory>
    requires { IfSome (performing.last_of run.asks) (λ ask. IsSome ask.after) }
    ensures { IfOk result (λ ended. ended ≡ performing.ended_run step outcome state run) }
{
    let end = current_clock(&run).copy()?;
    let mut run = run;
    run.outcome = Some(outcome);
    run.state = Some(state);
    run.end = Some(end);
    run.ended = Some(step);
    Ok(run)
}
