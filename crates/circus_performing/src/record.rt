// What becomes of a member's record.
ghost use Rattle.std.specs.Prelude.{◌≡◌, IfOk, OnOk};
ghost use Rattle.circus_performing.specs.Performing as performing;

use circus_record::{MemberRecord, RunRecord};
use circus_transfer::Joiner;
use circus_value::{Duplicate, NoMemory, Outcome, State, Values};
use std::alloc::Global;

/// Whether a member fetches a state.
pub(crate) fn is_fetching(phase: Joiner) -> bool
    ensures { result ≡ performing.is_fetching phase }
{
    matches!(phase, Joiner::Fetching(_))
}

/// The record becomes that of a member which is active from a count on, with a state.
pub(crate) fn make_active(kept: &mut MemberRecord, state: State, count: u32, step: u64)
    ensures { kept.new ≡ performing.active_record step state count kept.old }
{
    kept.phase = Joiner::Active(count);
    kept.from = count;
    kept.active_at = step;
    kept.count = count;
    kept.state = state;
}

// A run's state: that after it, or that of its last ask.
fn state_by(alloc: Global, run: &RunRecord) -> Result<State, NoMemory>
    ensures { IfOk result (λ state. state ≡ performing.state_by run.now) }
{
    match (&run.state, run.asks.as_slice().last()) {
        (Some(state), _) => state.copy(),
        (None, Some(ask)) => ask.state.copy(),
        (None, None) => Ok(Values::new(alloc)),
    }
}

// The index of the next call, once a run has ended, or hasn't.
fn next_count(outcome: &Option<Outcome>, count: u32) -> u32
    ensures { result ≡ performing.next_count outcome.now count }
{
    match outcome {
        Some(_) => count.saturating_add(1),
        None => count,
    }
}

/// The record gets a run behind the others. After `NoMemory` it may have changed.
pub(crate) fn add_run(
    alloc: Global,
    kept: &mut MemberRecord,
    run: RunRecord,
) -> Result<(), NoMemory>
    ensures { OnOk result (kept.new ≡ performing.with_run kept.old run) }
{
    kept.state = state_by(alloc, &run)?;
    kept.count = next_count(&run.outcome, kept.count);
    kept.runs.push(run)
}
