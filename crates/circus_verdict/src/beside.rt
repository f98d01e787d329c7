// A record beside the runs that a module performs when nothing is replicated.
ghost use Rattle.std.specs.Prelude.{◌≡◌, ◌+◌, ◌≤◌, ℕ, length, Some, IfSome, IfNone, IsSomeAnd, option_copied, slice_get};
ghost use Rattle.std.specs.Bool.{Decides};
ghost use Rattle.circus_record.specs.declared.record.AskRecord.{AskRecord as Kept};
ghost use Rattle.circus_member_theory.specs.Stands.{AsksThat, IsAnsweredSo, WaitsFor, AreAnsweredSo, IsEnteredSo, IsPerformed, IsUnderWay};
ghost use Rattle.circus_verdict.specs.Beside.{IsSoFar, IsRight, IsFirstWrongRun};

use crate::same::Same;
use circus_model::{Ask, Run};
use circus_record::{AskRecord, MemberRecord, RunRecord};

// A value is told, and it is this one.
fn is_told<T: Same>(told: &Option<T>, value: &T) -> bool
    ensures { Decides result (told.now ≡ Some value.now) }
{
    match told {
        Some(told) => told.is_same(value),
        None => false,
    }
}

// It asks what an ask of the history does, in the same state.
fn asks_that(ask: &Ask, kept: &AskRecord) -> bool
    ensures { Decides result (AsksThat ask.now kept.now) }
{
    kept.callee == ask.callee
        && kept.index == ask.index
        && kept.procedure == ask.procedure
        && kept.arguments.is_same(&ask.arguments)
        && kept.state.is_same(&ask.state)
}

// And had that ask's reply.
fn is_answered_so(ask: &Ask, kept: &AskRecord) -> bool
    ensures { Decides result (IsAnsweredSo ask.now kept.now) }
{
    asks_that(ask, kept) && is_told(&kept.reply, &ask.reply) && is_told(&kept.after, &ask.after)
}

// Or waits for it.
fn waits_for(ask: &Ask, kept: &AskRecord) -> bool
    ensures { Decides result (WaitsFor ask.now kept.now) }
{
    asks_that(ask, kept) && kept.reply.is_none() && kept.after.is_none()
}

// Asks of the history were made and answered, one by one.
fn are_answered_so(asks: &[Ask], made: &[AskRecord]) -> bool
    ensures { Decides result (AreAnsweredSo asks.now made.now) }
{
    if asks.len() != made.len() {
        return false;
    }
    for (place, kept) in made.iter().enumerate() {
        if !is_answered_so(&asks[place], kept) {
            return false;
        }
    }
    true
}

// It was entered as a run of the history is.
fn is_entered_so(run: &Run, kept: &RunRecord) -> bool
    ensures { Decides result (IsEnteredSo run.now kept.now) }
{
    kept.root == run.root
        && kept.path.is_same(&run.path)
        && kept.procedure == run.procedure
        && kept.arguments.is_same(&run.arguments)
        && kept.entry.is_same(&run.entry)
}

// It is that run, from its entry to its end.
fn is_performed(run: &Run, kept: &RunRecord) -> bool
    ensures { Decides result (IsPerformed run.now kept.now) }
{
    is_entered_so(run, kept)
        && are_answered_so(run.asks.as_slice(), kept.asks.as_slice())
        && is_told(&kept.outcome, &run.outcome)
        && is_told(&kept.state, &run.state)
        && is_told(&kept.end, &run.end)
}

// It is that run as far as an ask that waits.
fn is_under_way(run: &Run, kept: &RunRecord) -> bool
    ensures { Decides result ((waiting : Kept) × IsUnderWay run.now kept.now waiting) }
{
    let Some((waiting, made)) = kept.asks.as_slice().split_last() else {
        return false;
    };
    match run.asks.get(made.len()) {
        Some(ask) => {
            is_entered_so(run, kept)
                && are_answered_so(&run.asks.as_slice()[..made.len()], made)
                && waits_for(ask, waiting)
                && has_no_end(kept)
        }
        None => false,
    }
}

// It has not ended.
fn has_no_end(kept: &RunRecord) -> bool
    ensures { Decides result
        ((kept.now.outcome ≡ None) × (kept.now.state ≡ None) × (kept.now.end ≡ None)) }
{
    kept.outcome.is_none() && kept.state.is_none() && kept.end.is_none()
}

// It is that run as far as it goes.
fn is_so_far(run: &Run, kept: &RunRecord) -> bool
    ensures { Decides result (IsSoFar run.now kept.now) }
{
    is_performed(run, kept) || is_under_way(run, kept)
}

fn run_at(runs: &[Run], place: usize) -> Option<&Run>
    ensures { option_copied result ≡ slice_get runs.now place }
{
    runs.get(place)
}

// There is a run of the history, and it is that as far as it goes.
fn is_that(there: Option<&Run>, kept: &RunRecord) -> bool
    ensures { Decides result (IsSomeAnd (option_copied there.entry) (λ run. IsSoFar run kept.now)) }
{
    match there {
        Some(run) => is_so_far(run, kept),
        None => false,
    }
}

/// The number of the first run of a record that isn't the one which the module performs in its place.
pub(crate) fn first_wrong_run(runs: &[Run], kept: &MemberRecord) -> Option<usize>
    requires { kept.now.from + length kept.now.runs ≤ 4294967296 }
    ensures wrong { IfSome result (IsFirstWrongRun runs.now kept.now) }
    ensures right { IfNone result ((number : ℕ) → IsRight runs.now kept.now number) }
{
    for (number, run) in kept.runs.as_slice().iter().enumerate() {
        if !is_that(run_at(runs, kept.from as usize + number), run) {
            return Some(number);
        }
    }
    None
}
