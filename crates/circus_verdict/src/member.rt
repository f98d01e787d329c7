// What is said of a record of a node that hosts a member.
ghost use Rattle.std.specs.Prelude.{◌≡◌, ◌<◌, ◌≤◌, ◌+◌, [], ◌∷◌, true, false, length, map, All, None, Some, slice_get, IfOk};
ghost use Rattle.std.specs.Bool.{Decides};
ghost use Rattle.circus_limits.specs.Limits.{most_modules};
ghost use Rattle.circus_collate.specs.Deployment.{IsDeployment};
ghost use Rattle.circus_model.specs.Agree.{Agree};
ghost use Rattle.circus_model.specs.Behaviour.{Behaviour, behaviours};
ghost use Rattle.circus_model.specs.History as history_specs;
ghost use Rattle.circus_record.specs.declared.record.AskRecord.{AskRecord as Asked};
ghost use Rattle.circus_performing.specs.Performing as performing;
ghost use Rattle.circus_performing.specs.Performing.{before_any};
ghost use Rattle.circus_node.specs.Booting.{AreOfTroupes};
ghost use Rattle.circus_node.specs.Booting as booting;
ghost use Rattle.circus_world.specs.Legal as legal;
ghost use Rattle.circus_verdict.specs.Audited.{JoinsSo};
ghost use Rattle.circus_verdict.specs.Verdict.{IsVerdict};
ghost use Rattle.circus_verdict.specs.Seen.Judged.{state_in, IsJudged};
ghost use Rattle.circus_verdict.specs.Seen.Judging.{FewRuns, HasCounts, HasRunSo, IsCounted, MaySay, whole_record};
ghost use Rattle.circus_verdict.specs.Seen.Living.{HasCome};

use crate::Verdict;
use crate::beside::first_wrong_run;
use crate::living::{Subject, live_through};
use crate::same::Same;
use circus_audit::{Given, GivenEvent};
use circus_collate::Deployment;
use circus_limits::MOST_ASKS;
use circus_model::{History, Module, Run, run_alone};
use circus_node::{Home, troupe_at};
use circus_record::{AskRecord, MemberRecord, RunRecord};
use circus_transfer::Joiner;
use circus_value::{Clock, ListOf, NoMemory, State};
use std::alloc::Global;

/// What is said of a record of a node that hosts a member, of which the first event is boot.
pub(crate) fn audit_member<M: Module>(
    alloc: Global,
    given: &Given,
    boot: &GivenEvent,
    later: &[GivenEvent],
    deployment: &Deployment,
    modules: &[M],
    home: &Home,
) -> Result<Verdict, NoMemory>
    requires deployment { IsDeployment deployment.now }
    requires modules { AreOfTroupes deployment.now (map M.declared modules.now) }
    requires agree { Agree (behaviours M.declared M.turn M.first modules.now) }
    requires within { given.now.node < length deployment.now.nodes }
    requires home { booting.home_of deployment.now given.now.node ≡ Some home.now }
    requires few { FewRuns given.now.member }
    requires says { MaySay deployment.now
        (behaviours M.declared M.turn M.first modules.now) given.now }
    requires boot { boot.now.event ≡ None }
    requires come { All (HasCome deployment.now given.now.node) later.now }
    requires joins { JoinsSo (legal.is_spare deployment.now given.now.node) given.now.events }
    requires events { given.now.events ≡ boot.now ∷ later.now }
    ensures { IfOk result
        (IsVerdict deployment.now
        (behaviours M.declared M.turn M.first modules.now) given.now) }
{
    let module = &modules[usize::from(home.place.troupe)];
    let Some(said) = &given.member else {
        return Ok(Verdict::NotARun);
    };
    if !are_counted(said.runs.as_slice(), deployment.troupes.len()) {
        return Ok(Verdict::NotARun);
    }
    let active = is_active(said.phase);
    if !says_no_more(active, said) {
        return Ok(Verdict::NotARun);
    }
    let nothing = has_done_nothing(alloc, said.phase, module.first_state()?);
    let of = Subject {
        alloc,
        deployment,
        home,
        signature: module.signature(),
        kept: whole(active, said, &nothing),
    };
    let Some(lived) = live_through(&of, module, boot, later)? else {
        return Ok(Verdict::NotARun);
    };
    if !active {
        return Ok(Verdict::Yes);
    }
    judge_active(alloc, given, said, lived.dues.began(), deployment, modules)
}

// Of an active member all is said, and of another one nothing but its phase.
fn says_no_more(active: bool, said: &MemberRecord) -> bool
    ensures { Decides result (active ≡ false → said.now ≡ before_any said.now.phase []) }
{
    active || is_apart(said)
}

// The record of a member: what is said of it where it is active, else that of one that has done nothing.
fn whole<'r>(active: bool, said: &'r MemberRecord, nothing: &'r MemberRecord) -> &'r MemberRecord
    ensures { result.now ≡ whole_record active said.now nothing.now }
{
    if active { said } else { nothing }
}

// The record of a member that has done nothing.
fn has_done_nothing(alloc: Global, phase: Joiner, first: State) -> MemberRecord
    ensures { result ≡ before_any phase first }
{
    MemberRecord {
        phase,
        from: 0,
        active_at: 0,
        count: 0,
        runs: ListOf::new(alloc),
        state: first,
    }
}

// Each run made no more asks than one may, and each clock that it shows has a count for each of so many modules.
fn are_counted(runs: &[RunRecord], modules: usize) -> bool
    ensures { Decides result (All (IsCounted modules) runs.now) }
{
    for run in runs {
        if !is_counted(run, modules) {
            return false;
        }
    }
    true
}

fn is_counted(run: &RunRecord, modules: usize) -> bool
    ensures { Decides result (IsCounted modules run.now) }
{
    run.asks.len() <= usize::from(MOST_ASKS)
        && have_counts(run.asks.as_slice(), modules)
        && has_counts(&run.end, modules)
}

fn have_counts(asks: &[AskRecord], modules: usize) -> bool
    ensures { Decides result (All (λ (ask : Asked). HasCounts modules ask.after) asks.now) }
{
    for ask in asks {
        if !has_counts(&ask.after, modules) {
            return false;
        }
    }
    true
}

fn has_counts(clock: &Option<Clock>, modules: usize) -> bool
    ensures { Decides result (HasCounts modules clock.now) }
{
    match clock {
        Some(counts) => counts.len() == modules,
        None => true,
    }
}

fn is_active(phase: Joiner) -> bool
    ensures { result ≡ performing.is_active phase }
{
    matches!(phase, Joiner::Active(_))
}

// The record is that of an active member, and says all of it.
fn judge_active<M: Module>(
    alloc: Global,
    given: &Given,
    kept: &MemberRecord,
    activation_state: &State,
    deployment: &Deployment,
    modules: &[M],
) -> Result<Verdict, NoMemory>
    requires agree { Agree (behaviours M.declared M.turn M.first modules.now) }
    requires few_modules { length modules.now ≤ most_modules }
    requires ran { HasRunSo deployment.now
        (behaviours M.declared M.turn M.first modules.now) given.now kept.now
        activation_state.now }
    requires said { given.now.member ≡ Some kept.now }
    requires active { performing.is_active kept.now.phase ≡ true }
    requires few { kept.now.from + length kept.now.runs ≤ 4294967296 }
    ensures { IfOk result
        (IsVerdict deployment.now
        (behaviours M.declared M.turn M.first modules.now) given.now) }
{
    let Some(number) = troupe_at(deployment, given.node) else {
        unreachable!()
    };
    let first = first_of(modules, number)?;
    let history = run_alone(alloc, modules)?;
    let runs = runs_of(&history, number);
    Ok(judge_runs(runs, &first, activation_state, kept))
}

// The first state of a module.
fn first_of<M: Module>(modules: &[M], number: u16) -> Result<State, NoMemory>
    requires { number < length modules.now }
    ensures { IfOk result (λ state. (b : Behaviour)
        → slice_get (behaviours M.declared M.turn M.first modules.now) number ≡ Some b
        → state ≡ b.first) }
{
    modules[usize::from(number)].first_state()
}

// The runs of a module in a history.
fn runs_of(history: &History, number: u16) -> &[Run]
    ensures { result.now ≡ history_specs.runs_of history.now number }
{
    match history.get(usize::from(number)) {
        Some(runs) => runs.as_slice(),
        None => &[],
    }
}

// The record of a member that became active with a state, beside the runs that its module performs from its first state on.
fn judge_runs(runs: &[Run], first: &State, activation_state: &State, kept: &MemberRecord) -> Verdict
    requires { kept.now.from + length kept.now.runs ≤ 4294967296 }
    ensures { IsJudged runs.now first.now activation_state.now kept.now result }
{
    if runs.len() < kept.from as usize {
        return Verdict::Run(kept.from);
    }
    let is_begun_right = is_state_behind(runs, first, kept.from, activation_state);
    match first_wrong_run(runs, kept) {
        Some(number) if is_begun_right => Verdict::Run(kept.from + number as u32),
        None if is_begun_right || !kept.runs.is_empty() => Verdict::Yes,
        _ => Verdict::Run(kept.from),
    }
}

// It is the state behind so many runs.
fn is_state_behind(runs: &[Run], first: &State, count: u32, state: &State) -> bool
    ensures { Decides result (state.now ≡ state_in runs.now first.now count) }
{
    match count.checked_sub(1) {
        None => state.is_same(first),
        Some(last) => match runs.get(last as usize) {
            Some(run) => state.is_same(&run.state),
            None => state.is_same(first),
        },
    }
}

// Nothing is said of a member but its phase.
fn is_apart(said: &MemberRecord) -> bool
    ensures { Decides result (said.now ≡ before_any said.now.phase []) }
{
    said.from == 0
        && said.active_at == 0
        && said.count == 0
        && said.runs.is_empty()
        && said.state.is_empty()
}
