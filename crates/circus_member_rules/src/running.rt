// What a member's record shows of its runs.
ghost use Rattle.std.specs.Prelude.{◌≡◌, ◌≤◌, [], length, IfOk, option_map, unwrap_or};
ghost use Rattle.circus_limits.specs.Limits.{most_asks};
ghost use Rattle.circus_performing.specs.Performing as performing;
ghost use Rattle.circus_member_rules.specs.Callable.{HasFewAsks};
ghost use Rattle.circus_member_rules.specs.Rules as rules;
ghost use Rattle.circus_member_rules.specs.Step as step;

use crate::{AskName, arguments_in};
use circus_collate::View;
use circus_gather::HeldCall;
use circus_header::{CallHeader, Reply};
use circus_model::{LanguageError, Module, ProcedureShapes};
use circus_performing::{Performer, RunStart};
use circus_record::{AskRecord, MemberRecord, RunRecord};
use circus_transfer::Joiner;
use circus_value::{Clock, Duplicate, ListOf, NoMemory, Outcome, Values};
use std::alloc::Global;

/// The index of the run that was entered last. It stays at the greatest. It takes no memory.
pub fn index_of_last(kept: &MemberRecord) -> u32
    ensures { result ≡ rules.index_of_last kept.now }
{
    let before = kept.runs.len().saturating_sub(1) as u64;
    u64::from(kept.from)
        .saturating_add(before)
        .min(u64::from(u32::MAX)) as u32
}

/// The name of the last run's last ask. It takes no memory.
pub fn name_of_last(kept: &MemberRecord) -> AskName
    requires { HasFewAsks kept.now }
    ensures { result ≡ step.name_of_last kept.now }
{
    let asks = match kept.runs.as_slice().last() {
        Some(run) => run.asks.len(),
        None => 0,
    };
    AskName {
        run: index_of_last(kept),
        ask: asks.saturating_sub(1) as u16,
    }
}

/// That of the open ask, `None` where none is open. It takes no memory.
pub fn name_of_open<M: Module>(performer: &Performer<M>) -> Option<AskName>
    ensures { result
        ≡ option_map (λ _.
        step.name_of_last performer.now.kept) (performing.open_ask performer.now.kept) }
{
    performer.open_ask()?;
    Some(name_of_last(performer.record()))
}

/// Whether a member is active and performs no run. It takes no memory.
pub fn is_idle<M: Module>(performer: &Performer<M>) -> bool
    ensures { result ≡ step.is_idle performer.now.kept }
{
    matches!(performer.record().phase, Joiner::Active(_)) && performer.open_ask().is_none()
}

// The clock behind asks: that after the last one that was answered, at first that at the entry.
fn clock_behind<'a>(entry: &'a Clock, asks: &'a [AskRecord]) -> &'a Clock
    ensures { result.now ≡ performing.clock_after entry.now asks.now }
{
    let Some((last, before)) = asks.split_last() else {
        return entry;
    };
    match &last.after {
        Some(after) => after,
        None => clock_behind(entry, before),
    }
}

/// What a run's open ask asks (docs/PROTOCOL.md, "Calls out"). Which views its calls name is said as each is made.
/// `NoMemory` where memory runs out.
pub fn header_of_ask(
    alloc: Global,
    troupe: u16,
    kept: &MemberRecord,
    run: &RunRecord,
    ask: &AskRecord,
) -> Result<CallHeader, NoMemory>
    requires { length run.now.asks ≤ most_asks }
    ensures { IfOk result (λ header. header ≡ step.header_of_ask troupe kept.now run.now ask.now) }
{
    let mut path = run.path.copy()?;
    path.push(run.asks.len().saturating_sub(1) as u16)?;
    Ok(CallHeader {
        root: run.root,
        path,
        client: troupe,
        client_incarnation: 0,
        client_index: index_of_last(kept),
        server: ask.callee,
        server_incarnation: 0,
        procedure: ask.procedure,
        clock: clock_behind(&run.entry, run.asks.as_slice()).copy()?,
    })
}

/// The reply of a run that has ended. `NoMemory` where memory runs out.
pub fn reply_of_run(alloc: Global, run: &RunRecord) -> Result<Reply, NoMemory>
    ensures { IfOk result (λ reply. reply ≡ step.reply_of_run run.now) }
{
    Ok(Reply {
        clock: clock_at_end(alloc, run)?,
        outcome: outcome_of(alloc, run)?,
    })
}

fn clock_at_end(alloc: Global, run: &RunRecord) -> Result<Clock, NoMemory>
    ensures { IfOk result (λ clock. clock ≡ unwrap_or run.now.end []) }
{
    match &run.end {
        Some(clock) => clock.copy(),
        None => Ok(ListOf::new(alloc)),
    }
}

fn outcome_of(alloc: Global, run: &RunRecord) -> Result<Outcome, NoMemory>
    ensures { IfOk result (λ outcome. outcome ≡ unwrap_or run.now.outcome performing.refusal) }
{
    match &run.outcome {
        Some(outcome) => outcome.copy(),
        None => Ok(LanguageError::ThreadSpent.raised_outcome(alloc)),
    }
}

// The clock at the entry of a call's run, which counts the call. A count stays at the greatest.
fn clock_at_entry(troupe: u16, clock: &Clock) -> Result<Clock, NoMemory>
    ensures { IfOk result (λ entry. entry ≡ rules.clock_at_entry troupe clock.now) }
{
    let mut entry = clock.copy()?;
    let place = usize::from(troupe);
    if let Some(count) = clock.get(place).copied() {
        entry.set(place, count.saturating_add(1));
    }
    Ok(entry)
}

/// How the run of a call is entered (docs/PROTOCOL.md, "Performing"). `NoMemory` where memory runs out.
pub fn start_of_call(
    alloc: Global,
    troupe: u16,
    procedures: &ProcedureShapes,
    call: &HeldCall,
) -> Result<RunStart, NoMemory>
    ensures { IfOk result (λ start. start ≡ step.start_by_call troupe procedures.now call.now) }
{
    let procedure = call.header.procedure;
    Ok(RunStart {
        root: call.header.root,
        path: call.header.path.copy()?,
        procedure,
        arguments: arguments_in(alloc, procedures, procedure, &call.body)?,
        clock: clock_at_entry(troupe, &call.header.clock)?,
    })
}

/// How the run of a root's founder is entered, in a program of so many modules (docs/PROTOCOL.md, "Performing"). `NoMemory`
/// where memory runs out.
#[tactic(auto, using(circus_collate::proofs::Going::map_more, circus_collate::proofs::Going::map_all))]
pub fn main_start(alloc: Global, troupe: u16, views: &[View]) -> Result<RunStart, NoMemory>
    ensures { IfOk result (λ start. start ≡ step.main_start troupe views.now) }
{
    let mut clock = Clock::new(alloc);
    for _view in views {
        clock.push(0)?;
    }
    Ok(RunStart {
        root: troupe,
        path: ListOf::new(alloc),
        procedure: 0,
        arguments: Values::new(alloc),
        clock,
    })
}
