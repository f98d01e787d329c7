// Whether a record is what its module does.
ghost use Rattle.std.specs.Prelude.{◌≡◌, ℕ, false, List, [], Some, None, IfOk, IfSome, IfNone, slice_index};
ghost use Rattle.std.specs.Bool.{Decides};
ghost use Rattle.circus_value.specs.ValueTree.{ValueTree};
ghost use Rattle.circus_value.specs.declared.outcome.Outcome.{Outcome as Ended};
ghost use Rattle.circus_model.specs.Behaviour.{Behaviour};
ghost use Rattle.circus_model.specs.Lawful.{IsState};
ghost use Rattle.circus_performing.specs.Performing.{is_active, refusal};
ghost use Rattle.circus_performing.specs.Record.{behaviour, IsRecord};
ghost use Rattle.circus_dues.specs.WalkRecord.{StillWaits, GoOn, state_asked};
ghost use Rattle.circus_dues.specs.Seen.Following.{next_of, WaitsBehind, IsAsk, IsShown, IsAnswer, IsEnd, IsRunOf};

use crate::fitting::{import_answers, is_state, is_taken};
use circus_model::{LanguageError, Module, Signature, Turn, is_spent};
use circus_record::{AskRecord, MemberRecord, RunRecord};
use circus_transfer::Joiner;
use circus_value::{Clock, Duplicate, NoMemory, Outcome, State, Values};
use std::alloc::Global;

// The reply to an ask, the clock after it, and the step in which it came.
#[derive(Clone, Copy)]
struct Answer<'r> {
    reply: &'r Outcome,
    after: &'r Clock,
    step: u64,
}

/// Whether a member's record follows its module: its runs, asks, outcomes and states are turns of the module on the replies
/// so far, from the state with which the member became active (docs/PROTOCOL.md, "Performing"). `NoMemory` is the one fault.
pub fn follows<M: Module>(
    alloc: Global,
    module: &M,
    began: &State,
    kept: &MemberRecord,
) -> Result<bool, NoMemory>
    ensures { IfOk result (λ follows.
        Decides follows
        (IsRecord (behaviour M.declared M.turn M.first «module».now) began.now kept.now)) }
{
    if !may_perform(kept) || !is_state(module.signature(), began) {
        return Ok(false);
    }
    go_on(alloc, module, began, kept)
}

// A member that isn't active has performed nothing.
fn may_perform(kept: &MemberRecord) -> bool
    ensures { Decides result (is_active kept.now.phase ≡ false → kept.now.runs ≡ []) }
{
    matches!(kept.phase, Joiner::Active(_)) || kept.runs.is_empty()
}

// The runs follow, one after the other, and lead to the record's count and state.
fn go_on<M: Module>(
    alloc: Global,
    module: &M,
    began: &State,
    kept: &MemberRecord,
) -> Result<bool, NoMemory>
    requires { IsState (M.declared «module».now) began.now }
    ensures { IfOk result (λ follows.
        Decides follows
        (GoOn (behaviour M.declared M.turn M.first «module».now) kept.now 0 began.now
        kept.now.runs)) }
{
    let mut state = began;
    let mut count = kept.from;
    let mut runs = kept.runs.as_slice();
    while let Some((run, others)) = runs.split_first() {
        if !is_run_of(alloc, module, state, run)? {
            return Ok(false);
        }
        let Some(after) = &run.state else {
            let state = last_asked(state, run.asks.as_slice());
            return Ok(others.is_empty() && is_at(kept, count, state));
        };
        state = after;
        count = count.saturating_add(1);
        runs = others;
    }
    Ok(is_at(kept, count, state))
}

// The record has this count and this state.
fn is_at(kept: &MemberRecord, count: u32, state: &State) -> bool
    ensures { Decides result ((kept.now.count ≡ count) × (kept.now.state ≡ state.now)) }
{
    kept.count == count && are_same(&kept.state, state)
}

// The state in which the last ask was made.
fn last_asked<'r>(before: &'r State, asks: &'r [AskRecord]) -> &'r State
    ensures { result.now ≡ state_asked before.now asks.now }
{
    match asks.last() {
        Some(ask) => &ask.state,
        None => before,
    }
}

// A run that begins in this state is one of the module, as far as it goes.
fn is_run_of<M: Module>(
    alloc: Global,
    module: &M,
    state: &State,
    run: &RunRecord,
) -> Result<bool, NoMemory>
    requires { IsState (M.declared «module».now) state.now }
    ensures { IfOk result (λ is.
        Decides is
        (IsRunOf (behaviour M.declared M.turn M.first «module».now) state.now run.now)) }
{
    if !is_taken(module.signature(), run.procedure, &run.arguments) {
        return Ok(false);
    }
    let mut turn = module.start(state.copy()?, run.procedure, &run.arguments)?;
    let mut clock = &run.entry;
    let mut step = run.started;
    let mut asks = run.asks.as_slice();
    while let Some((ask, others)) = asks.split_first() {
        let Some(paused) = paused_at(turn, ask, clock, step) else {
            return Ok(false);
        };
        let Some(answer) = answer_to(alloc, module.signature(), clock, ask) else {
            return Ok(others.is_empty() && still_waits(run, clock, ask));
        };
        turn = module.resume(paused, answer.reply)?;
        clock = answer.after;
        step = answer.step;
        asks = others;
    }
    Ok(is_end(run, turn, clock, step))
}

// What waits behind the turn, where that is the ask, made at this clock and in this step.
fn paused_at<P: Drop>(turn: Turn<P>, ask: &AskRecord, clock: &Clock, step: u64) -> Option<P>
    ensures ask { IfSome result (λ paused.
        WaitsBehind turn paused × IsAsk (next_of turn) clock.now step ask.now) }
    ensures none { IfNone result (IsAsk (next_of turn) clock.now step ask.now → ⊥) }
{
    match turn {
        Turn::Asks {
            callee,
            procedure,
            arguments,
            state,
            paused,
        } => {
            let is = ask.callee == callee
                && ask.procedure == procedure
                && are_same(&ask.arguments, &arguments)
                && are_same(&ask.state, &state)
                && is_made_at(ask, clock, step);
            if is { Some(paused) } else { None }
        }
        Turn::Ends {
            outcome: _,
            state: _,
        } => None,
    }
}

// The ask has its callee's count of the clock as index, and was made in this step.
fn is_made_at(ask: &AskRecord, clock: &Clock, step: u64) -> bool
    ensures { Decides result
        ((ask.now.index ≡ slice_index clock.now ask.now.callee) × (ask.now.asked ≡ step)) }
{
    ask.index == count_of(clock, ask.callee) && ask.asked == step
}

// How many calls a thread has made to a module.
fn count_of(clock: &Clock, module: u16) -> u32
    ensures { result ≡ slice_index clock.now «module» }
{
    clock.get(usize::from(module)).copied().unwrap_or(0)
}

// How an ask was answered, where that is so as its callee may answer.
fn answer_to<'r>(
    alloc: Global,
    signature: &Signature,
    clock: &Clock,
    ask: &'r AskRecord,
) -> Option<Answer<'r>>
    ensures answer { IfSome result (λ a.
        IsAnswer signature.now clock.now ask.now a.reply.now a.after.now a.step) }
    ensures none { IfNone result
        ((reply : Ended) (after : List ℕ) (step : ℕ)
        → IsAnswer signature.now clock.now ask.now reply after step → ⊥) }
{
    let answer = answer_of(ask)?;
    let fits = import_answers(&signature.imports, ask.callee, ask.procedure, answer.reply);
    if fits && (!is_spent(clock) || is_refused(alloc, clock, ask, answer)) {
        Some(answer)
    } else {
        None
    }
}

fn answer_of(ask: &AskRecord) -> Option<Answer<'_>>
    ensures answer { IfSome result (λ a. IsShown ask.now a.reply.now a.after.now a.step) }
    ensures none { IfNone result
        ((reply : Ended) (after : List ℕ) (step : ℕ) → IsShown ask.now reply after step → ⊥) }
{
    match (&ask.reply, &ask.after, &ask.answered) {
        (Some(reply), Some(after), Some(step)) => Some(Answer {
            reply,
            after,
            step: *step,
        }),
        _ => None,
    }
}

// It was answered as a spent thread is: at once, by the error for that, with the clock as it was.
fn is_refused(alloc: Global, clock: &Clock, ask: &AskRecord, answer: Answer<'_>) -> bool
    ensures { Decides result
        ((answer.entry.reply.now ≡ refusal) × (answer.entry.after.now ≡ clock.now)
        × (answer.entry.step ≡ ask.now.asked)) }
{
    let refusal = LanguageError::ThreadSpent.raised_outcome(alloc);
    is_same_outcome(answer.reply, &refusal)
        && is_same_clock(answer.after, clock)
        && answer.step == ask.asked
}

// The ask waits, and its thread has calls left; the run has no end.
fn still_waits(run: &RunRecord, clock: &Clock, ask: &AskRecord) -> bool
    ensures { (b : Behaviour) (state : List ValueTree)
        → Decides result (StillWaits b state run.now clock.now ask.now) }
{
    ask.reply.is_none()
        && ask.after.is_none()
        && ask.answered.is_none()
        && !is_spent(clock)
        && has_no_end(run)
}

fn has_no_end(run: &RunRecord) -> bool
    ensures { Decides result
        ((run.now.outcome ≡ None) × (run.now.state ≡ None) × (run.now.end ≡ None)
        × (run.now.ended ≡ None)) }
{
    run.outcome.is_none() && run.state.is_none() && run.end.is_none() && run.ended.is_none()
}

// The run ends with this turn, at this clock and in this step.
fn is_end<P: Drop>(run: &RunRecord, turn: Turn<P>, clock: &Clock, step: u64) -> bool
    ensures { Decides result (IsEnd run.now (next_of turn) clock.now step) }
{
    match turn {
        Turn::Ends { outcome, state } => {
            is_ended_with(run, &outcome, &state) && is_ended_at(run, clock, step)
        }
        Turn::Asks {
            callee: _,
            procedure: _,
            arguments: _,
            state: _,
            paused: _,
        } => false,
    }
}

fn is_ended_with(run: &RunRecord, outcome: &Outcome, state: &State) -> bool
    ensures { Decides result
        ((run.now.outcome ≡ Some outcome.now) × (run.now.state ≡ Some state.now)) }
{
    match (&run.outcome, &run.state) {
        (Some(ended), Some(after)) => is_same_outcome(ended, outcome) && are_same(after, state),
        _ => false,
    }
}

fn is_ended_at(run: &RunRecord, clock: &Clock, step: u64) -> bool
    ensures { Decides result ((run.now.end ≡ Some clock.now) × (run.now.ended ≡ Some step)) }
{
    match (&run.end, &run.ended) {
        (Some(end), Some(ended)) => is_same_clock(end, clock) && *ended == step,
        _ => false,
    }
}

fn are_same(one: &Values, other: &Values) -> bool
    ensures { Decides result (one.now ≡ other.now) }
{
    one == other
}

fn is_same_outcome(one: &Outcome, other: &Outcome) -> bool
    ensures { Decides result (one.now ≡ other.now) }
{
    one == other
}

fn is_same_clock(one: &Clock, other: &Clock) -> bool
    ensures { Decides result (one.now ≡ other.now) }
{
    one == other
}
