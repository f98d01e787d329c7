// What a member owes, as far as its record has come.
ghost use Rattle.std.specs.Prelude.{◌-◌, ◌≡◌, ℕ, ◌≤◌, ◌<◌, ◌++◌, length, slice_get, Some, None, true, false, option_map, option_and_then, IfSome, IfOk, OnOk, take};
ghost use Rattle.std.specs.Prelude.{nat_le};
ghost use Rattle.std.specs.Option.{option_map_or};
ghost use Rattle.circus_limits.specs.Limits.{most_asks};
ghost use Rattle.circus_value.specs.Fits.{all_fit};
ghost use Rattle.circus_header.specs.CallFields.{IsIncarnation};
ghost use Rattle.circus_gather.specs.Gathering as gathering;
ghost use Rattle.circus_member_rules.specs.Callable.{IsReply};
ghost use Rattle.circus_transfer.specs.Joining.{after_join};
ghost use Rattle.circus_member_rules.specs.OpenAsks.{asking_of};
ghost use Rattle.circus_member_rules.specs.Rules as rules;
ghost use Rattle.circus_member_rules.specs.Step as step;
ghost use Rattle.circus_dues.specs.Seen.Parts.{with_table};
ghost use Rattle.circus_performing.specs.Performing as performing;
ghost use Rattle.circus_performing.specs.Record.{count_after};
ghost use Rattle.circus_dues.specs.Seen.Owing as owing;
ghost use Rattle.circus_dues.specs.Seen.Owing.{MayOwe, MayPerform, MayBeSent, HasFewAsked, asked_at};
ghost use Rattle.circus_dues.specs.Seen.Sound.{IsSoundOwing};
ghost use Rattle.circus_dues.specs.Seen.Steps as steps;

use crate::calls::CallsIn;
use crate::calls_out::CallsOut;
use crate::walk::{Walk, header_of, is_by, is_entered, next_ask, shows_answer};
use circus_collate::Table;
use circus_header::Request;
use circus_member_rules::{AskName, Difference, Effects, Occurrence, Place, start_of_call};
use circus_model::Signature;
use circus_performing::RunStart;
use circus_record::{AskRecord, MemberRecord, RunRecord};
use circus_transfer::Joiner;
use circus_value::{ListOf, NoMemory, State};
use std::alloc::Global;

/// Where a member stands, what it declares, and its record in the end.
#[derive(Clone, Copy)]
pub(crate) struct Frame<'r> {
    pub alloc: Global,
    pub place: &'r Place,
    pub signature: &'r Signature,
    pub kept: &'r MemberRecord,
}

/// What is kept of what came, how far the record has come by then, and whether that was in time.
pub(crate) struct Owing {
    pub out: CallsOut,
    pub calls: CallsIn,
    pub phase: Joiner,
    pub began: State,
    pub walk: Walk,
    pub is_timely: bool,
}

// Written out, so that dropping one is one step of a proof (docs/PROOFS.md, "Cost").
impl Drop for Owing {
    fn drop(self) {
        let Owing {
            out: _,
            calls: _,
            phase: _,
            began: _,
            walk: _,
            is_timely: _,
        } = self;
    }
}

impl Owing {
    /// A step, in which this happens: what is made, and a reply that differs.
    pub fn step(
        &mut self,
        of: &Frame<'_>,
        at: u64,
        occurrence: Occurrence,
    ) -> Result<(Effects, Option<Difference>), NoMemory>
        requires sound { IsSoundOwing of.now.signature.now of.now.place.now of.now.kept.now
            self.old }
        requires comes { owing.CanCome of.now.signature.now of.now.place.now.troupe
            (length self.old.out.known.views) occurrence }
        ensures kept { OnOk result
            (self.new ≡ owing.stepped of.now.place.now of.now.kept.now at
            of.now.signature.now.procedures occurrence self.old) }
        ensures made { IfOk result (λ done.
            done.0 ≡ owing.made_by_step of.now.place.now of.now.kept.now at
            of.now.signature.now.procedures occurrence self.old) }
        ensures told { IfOk result (λ done. done.1 ≡ owing.told_by occurrence self.old) }
    {
        let mut effects = ListOf::new(of.alloc);
        let told = self.take(of, at, occurrence, &mut effects)?;
        self.go_on(of, at, &mut effects)?;
        self.give_states(of, &mut effects)?;
        self.start_runs(of, at, &mut effects)?;
        self.conclude(of, &mut effects)?;
        Ok((effects, told))
    }

    /// The open ask is answered where its collator gives a reply, and its run goes on.
    pub fn go_on(&mut self, of: &Frame<'_>, at: u64, effects: &mut Effects) -> Result<(), NoMemory>
        requires may { MayOwe of.now.place.now self.old }
        requires run { IfSome self.old.walk.asked (λ _.
            IfSome (slice_get of.now.kept.now.runs self.old.walk.ended)
            (MayPerform of.now.place.now.troupe)) }
        requires fresh { IfSome self.old.walk.asked (λ _.
            gathering.reply_of self.old.calls.gathered (owing.index of.now.kept.now self.old)
            ≡ None) }
        ensures kept { OnOk result
            (self.new ≡ owing.gone_on of.now.place.now of.now.kept.now at self.old) }
        ensures made { OnOk result
            (effects.new ≡ effects.old
            ++ owing.made_going_on of.now.place.now of.now.kept.now at self.old) }
    {
        let kept = of.kept;
        let Some(run) = kept.runs.get(self.walk.ended) else {
            return Ok(());
        };
        let Some(asked) = self.walk.asked else {
            return Ok(());
        };
        let number = asked.saturating_sub(1);
        let Some(ask) = run.asks.get(number) else {
            return Ok(());
        };
        let name = self.name(kept, number);
        if !self.agrees(name, ask, at) {
            self.is_timely = false;
            return Ok(());
        }
        if self.out.value(name).is_none() {
            return Ok(());
        }
        self.pass(of, at, run, asked, effects)
    }

    // The record says of the open ask what its collator gives.
    fn agrees(&self, name: AskName, ask: &AskRecord, at: u64) -> bool
        ensures { result
            ≡ owing.agrees at ask.now
            (option_and_then (rules.value_of_ask self.now.out.known)
            (asking_of self.now.out.asks name)) }
    {
        match self.out.value(name) {
            Some(reply) => shows_answer(ask, at, reply),
            None => !is_by(ask.answered, at),
        }
    }

    /// The state is given to those that asked for it, where no run is under way.
    pub fn give_states(&mut self, of: &Frame<'_>, effects: &mut Effects) -> Result<(), NoMemory>
        requires fits { all_fit of.now.signature.now.variables
            (owing.state_of of.now.kept.now self.old) ≡ true }
        requires there { self.old.walk.ended ≤ length of.now.kept.now.runs }
        ensures kept { OnOk result
            (self.new ≡ owing.given_states self.old) }
        ensures made { OnOk result
            (effects.new ≡ effects.old
            ++ owing.states_given of.now.kept.now self.old) }
    {
        if !is_active(self.phase) || self.walk.asked.is_some() {
            return Ok(());
        }
        let kept = of.kept;
        let count = self.index(kept);
        let state = state_behind(&self.began, &kept.runs.as_slice()[..self.walk.ended]);
        self.calls
            .give_states(state, &of.signature.variables, count, effects)
    }

    /// What comes is taken, and a reply that differs told.
    pub fn take(
        &mut self,
        of: &Frame<'_>,
        at: u64,
        occurrence: Occurrence,
        effects: &mut Effects,
    ) -> Result<Option<Difference>, NoMemory>
        requires may { MayOwe of.now.place.now self.old }
        requires comes { owing.CanCome of.now.signature.now of.now.place.now.troupe
            (length self.old.out.known.views) occurrence }
        ensures kept { OnOk result
            (self.new ≡ owing.behind of.now.kept.now at occurrence self.old) }
        ensures made { OnOk result
            (effects.new ≡ effects.old
            ++ owing.made_at_once of.now.place.now occurrence self.old) }
        ensures told { IfOk result (λ told.
            told ≡ owing.told_by occurrence self.old) }
    {
        match occurrence {
            Occurrence::Asked {
                header,
                body,
                sender,
            } => self
                .calls
                .take(&mut self.out.known, header, body, sender, effects)?,
            Occurrence::Fetched {
                incarnation,
                sender,
            } => self.calls.take_request(incarnation, sender, effects)?,
            Occurrence::Replied { name, from, reply } => {
                return self.out.take_reply(name, from, reply);
            }
            Occurrence::IsStale {
                name,
                server,
                from,
                incarnation,
            } => self
                .out
                .take_stale(name, server, from, incarnation, effects)?,
            Occurrence::IsBefore { name, from } => self.out.take_before(name, from),
            Occurrence::Told { request, table } => {
                self.take_table(of, request, table, effects)?;
            }
            Occurrence::Restored { state, count } => {
                self.take_state(of, at, state, count, effects)?;
            }
            Occurrence::Declared(node) => self.out.declare(of.place, node, effects)?,
            Occurrence::Joins => self.join(of.place, effects)?,
        }
        Ok(None)
    }

    // The Ringmaster answers a request.
    fn take_table(
        &mut self,
        of: &Frame<'_>,
        request: Request,
        table: Table,
        effects: &mut Effects,
    ) -> Result<(), NoMemory>
        requires may { MayOwe of.now.place.now self.old }
        requires view { IsIncarnation table.view.incarnation }
        ensures kept { OnOk result
            (self.new ≡ record self.old {
              out = with_table self.old.out request table.view;
              phase = owing.phase_by_table request table self.old.phase;
            }) }
        ensures made { OnOk result
            (effects.new ≡ effects.old
            ++ owing.made_by_table of.now.place.now request table self.old) }
    {
        let before = self.phase;
        self.phase = phase_by_table(before, request, &table);
        let taken_in = !is_fetching(before) && is_fetching(self.phase);
        self.out
            .take_table(of.place, request, table, taken_in, effects)
    }

    // A state comes: a member that fetches one is active from its count on.
    fn take_state(
        &mut self,
        of: &Frame<'_>,
        at: u64,
        state: State,
        count: u32,
        effects: &mut Effects,
    ) -> Result<(), NoMemory>
        requires may { MayOwe of.now.place.now self.old }
        ensures kept { OnOk result
            (self.new
            ≡ owing.restored of.now.kept.now at state count self.old) }
        ensures made { OnOk result
            (effects.new ≡ effects.old
            ++ owing.made_by_state of.now.place.now count self.old) }
    {
        if !is_fetching(self.phase) {
            return Ok(());
        }
        self.phase = self.phase.state(count);
        self.began = state;
        if of.kept.from != count || of.kept.active_at != at {
            self.is_timely = false;
        }
        let request = Request::Active(of.place.troupe, of.place.node, count);
        self.out.request(request, effects)?;
        self.calls.begin(count, effects)
    }

    // The member is told to join.
    fn join(&mut self, place: &Place, effects: &mut Effects) -> Result<(), NoMemory>
        requires may { MayOwe place.now self.old }
        ensures kept { OnOk result
            (self.new ≡ record self.old { phase = after_join self.old.phase }) }
        ensures made { OnOk result
            (effects.new ≡ effects.old ++ rules.join_call place.now self.old.out.known) }
    {
        self.phase = self.phase.join();
        let request = Request::Join(place.troupe, place.node);
        self.out.request(request, effects)
    }

    /// The next runs start, as far as they may.
    pub fn start_runs(
        &mut self,
        of: &Frame<'_>,
        at: u64,
        effects: &mut Effects,
    ) -> Result<(), NoMemory>
        requires { IsSoundOwing of.now.signature.now of.now.place.now of.now.kept.now self.old }
        ensures kept { OnOk result
            (self.new ≡ owing.started_runs of.now.place.now of.now.kept.now at
            of.now.signature.now.procedures self.old) }
        ensures made { OnOk result
            (effects.new ≡ effects.old
            ++ owing.made_starting_runs of.now.place.now of.now.kept.now at
            of.now.signature.now.procedures self.old) }
    {
        if !is_active(self.phase) {
            self.is_timely = self.is_timely && !self.starts_by(of.kept, at);
            return Ok(());
        }
        while self.is_timely && self.walk.asked.is_none() {
            let Some(start) = self.next_start(of)? else {
                self.is_timely = !self.starts_by(of.kept, at);
                return Ok(());
            };
            self.enter(of, at, &start, effects)?;
        }
        Ok(())
    }

    /// All runs have ended, or the next one waits at its last ask.
    pub fn is_walked(&self, kept: &MemberRecord) -> bool
        ensures { result ≡ owing.is_walked kept.now self.now }
    {
        match (kept.runs.get(self.walk.ended), self.walk.asked) {
            (Some(run), Some(asked)) => run.ended.is_none() && asked == run.asks.len(),
            (None, None) => true,
            _ => false,
        }
    }

    /// The end of a step: asks that are settled are closed, and views that are wanted looked up.
    pub fn conclude(&mut self, of: &Frame<'_>, effects: &mut Effects) -> Result<(), NoMemory>
        requires may { MayOwe of.now.place.now self.old }
        requires waits { HasFewAsked self.old.walk }
        ensures kept { OnOk result
            (self.new ≡ owing.concluded of.now.kept.now self.old) }
        ensures made { OnOk result
            (effects.new ≡ effects.old ++ rules.lookups self.old.out.known) }
    {
        let waits = self.waiting(of.kept);
        self.out.conclude(waits, effects)
    }

    // The name of the ask that waits.
    fn waiting(&self, kept: &MemberRecord) -> Option<AskName>
        requires { HasFewAsked self.now.walk }
        ensures { result
            ≡ option_map (λ asked. record {
              run = count_after kept.now.from self.now.walk.ended;
              ask = asked - 1;
            }) self.now.walk.asked }
    {
        let asked = self.walk.asked?;
        Some(self.name(kept, asked.saturating_sub(1)))
    }

    /// The run that is under way asks on from the ask of this number, or ends.
    pub fn pass(
        &mut self,
        of: &Frame<'_>,
        at: u64,
        run: &RunRecord,
        from: usize,
        effects: &mut Effects,
    ) -> Result<(), NoMemory>
        requires from { from ≤ length run.now.asks }
        requires there { self.old.walk.ended < length of.now.kept.now.runs }
        requires may { MayOwe of.now.place.now self.old }
        requires run { MayPerform of.now.place.now.troupe run.now }
        requires fresh { gathering.reply_of self.old.calls.gathered
            (owing.index of.now.kept.now self.old) ≡ None }
        ensures kept { OnOk result
            (self.new ≡ owing.passed of.now.place.now of.now.kept.now at self.old run.now from) }
        ensures made { OnOk result
            (effects.new ≡ effects.old
            ++ owing.made_by_pass of.now.place.now of.now.kept.now at self.old run.now from) }
    {
        match next_ask(run, from) {
            Some(number) => self.ask(of, at, run, number, effects),
            None => self.end(of, at, run, effects),
        }
    }

    // It asks.
    fn ask(
        &mut self,
        of: &Frame<'_>,
        at: u64,
        run: &RunRecord,
        number: usize,
        effects: &mut Effects,
    ) -> Result<(), NoMemory>
        requires may { MayOwe of.now.place.now self.old }
        requires few { length run.now.asks ≤ most_asks }
        requires ask { IfSome (slice_get run.now.asks number)
            (MayBeSent of.now.place.now.troupe run.now number) }
        ensures kept { OnOk result
            (self.new ≡ asked_at of.now.place.now of.now.kept.now at self.old run.now number) }
        ensures made { OnOk result
            (effects.new ≡ effects.old
            ++ owing.calls_at of.now.place.now of.now.kept.now self.old run.now number) }
        ensures may { OnOk result (MayOwe of.now.place.now self.new) }
    {
        let Some(ask) = run.asks.get(number) else {
            return Ok(());
        };
        let name = self.name(of.kept, number);
        let header = header_of(of.place.troupe, name.run, run, name.ask, ask)?;
        self.walk.asked = Some(number + 1);
        self.is_timely = self.is_timely && !is_by(ask.answered, at);
        self.out.open(of.place, name, header, ask, effects)
    }

    // It ends, if the record says so.
    fn end(
        &mut self,
        of: &Frame<'_>,
        at: u64,
        run: &RunRecord,
        effects: &mut Effects,
    ) -> Result<(), NoMemory>
        requires there { self.old.walk.ended < length of.now.kept.now.runs }
        requires reply { IfSome run.now.ended (λ n. IsReply (step.reply_of_run run.now)) }
        requires fresh { gathering.reply_of self.old.calls.gathered
            (owing.index of.now.kept.now self.old) ≡ None }
        ensures kept { OnOk result
            (self.new ≡ owing.ended_at of.now.kept.now at self.old run.now) }
        ensures made { OnOk result
            (effects.new ≡ effects.old
            ++ owing.answers_at of.now.kept.now at self.old run.now) }
    {
        if run.ended != Some(at) {
            self.is_timely = false;
            return Ok(());
        }
        let index = self.index(of.kept);
        // Never beyond the runs that there are.
        let ended = self.walk.ended.saturating_add(1).min(of.kept.runs.len());
        self.walk = Walk { ended, asked: None };
        self.calls.end(index, run, effects)
    }

    // The next run is entered so, if the record says so.
    pub fn enter(
        &mut self,
        of: &Frame<'_>,
        at: u64,
        start: &RunStart,
        effects: &mut Effects,
    ) -> Result<(), NoMemory>
        requires may { MayOwe of.now.place.now self.old }
        requires run { IfSome (slice_get of.now.kept.now.runs self.old.walk.ended)
            (λ run. steps.is_entered run at start.now ≡ true
            → MayPerform of.now.place.now.troupe run) }
        requires fresh { gathering.reply_of self.old.calls.gathered
            (owing.index of.now.kept.now self.old) ≡ None }
        ensures kept { OnOk result
            (self.new ≡ owing.entered of.now.place.now of.now.kept.now at self.old start.now) }
        ensures made { OnOk result
            (effects.new ≡ effects.old
            ++ owing.made_entering of.now.place.now of.now.kept.now at self.old start.now) }
    {
        let kept = of.kept;
        let Some(run) = kept.runs.get(self.walk.ended) else {
            self.is_timely = false;
            return Ok(());
        };
        if !is_entered(run, at, start) {
            self.is_timely = false;
            return Ok(());
        }
        let index = self.index(kept);
        self.calls.start(index);
        self.pass(of, at, run, 0, effects)
    }

    // How the next run may be entered.
    fn next_start(&self, of: &Frame<'_>) -> Result<Option<RunStart>, NoMemory>
        ensures { IfOk result (λ start.
            start ≡ owing.next_start of.now.place.now of.now.kept.now
            of.now.signature.now.procedures self.now) }
    {
        let index = u64::from(of.kept.from).saturating_add(self.walk.ended as u64);
        if index > u64::from(u32::MAX) {
            return Ok(None);
        }
        let ready = self
            .calls
            .ready(index as u32, of.place.calls, &self.out.known)?;
        match ready {
            Some(call) => {
                let procedures = &of.signature.procedures;
                let start = start_of_call(of.alloc, of.place.troupe, procedures, call)?;
                Ok(Some(start))
            }
            None => Ok(None),
        }
    }

    /// The record says that the next run started by then.
    pub fn starts_by(&self, kept: &MemberRecord, at: u64) -> bool
        ensures { result ≡ option_map_or (λ run. nat_le run.started at)
            (slice_get kept.now.runs self.now.walk.ended) false }
    {
        match kept.runs.get(self.walk.ended) {
            Some(run) => run.started <= at,
            None => false,
        }
    }

    // The index of the next run.
    fn index(&self, kept: &MemberRecord) -> u32
        ensures { result ≡ count_after kept.now.from self.now.walk.ended }
    {
        u64::from(kept.from)
            .saturating_add(self.walk.ended as u64)
            .min(u64::from(u32::MAX)) as u32
    }

    // The name of an ask of the run that is under way.
    fn name(&self, kept: &MemberRecord, number: usize) -> AskName
        requires { number < most_asks }
        ensures { result
            ≡ record { run = count_after kept.now.from self.now.walk.ended; ask = number } }
    {
        AskName {
            run: self.index(kept),
            ask: number as u16,
        }
    }
}

// The state behind runs, at first the one with which the member became active.
fn state_behind<'a>(began: &'a State, runs: &'a [RunRecord]) -> &'a State
    ensures { result.now ≡ performing.state_after began.now runs.now }
{
    let Some((last, before)) = runs.split_last() else {
        return began;
    };
    match &last.state {
        Some(state) => state,
        None => state_behind(began, before),
    }
}

// The phase once a request was answered.
fn phase_by_table(phase: Joiner, request: Request, table: &Table) -> Joiner
    ensures { result ≡ owing.phase_by_table request table.now phase }
{
    match request {
        Request::Join(_, _) => phase.table(table),
        _ => phase,
    }
}

pub(crate) fn is_active(phase: Joiner) -> bool
    ensures { result ≡ performing.is_active phase }
{
    matches!(phase, Joiner::Active(_))
}

fn is_fetching(phase: Joiner) -> bool
    ensures { result ≡ performing.is_fetching phase }
{
    matches!(phase, Joiner::Fetching(_))
}
