// The lines of a member, one by one.
ghost use Rattle.std.specs.Prelude.{◌≡◌, ◌≤◌, ◌^◌, length, drop};
ghost use Rattle.circus_value_text.specs.Seen.Given.{GivesAll, GivesAt, PassesTo};
ghost use Rattle.circus_node.specs.Accepting as accepting;
ghost use Rattle.circus_audit.specs.Seen.Lines as lines;

use crate::member_line::{After, Asked, Entered, Performs, Phase};
use crate::values::{imported_procedure, outcome_behind, values_behind};
use crate::words::{end, read_module};
use circus_collate::Deployment;
use circus_model::{Signature, procedure_numbered};
use circus_record::{AskRecord, AskRecords, RunRecord};
use circus_transfer::Joiner;
use circus_value::{Clock, Name, Outcome, State, Values};
use circus_value_text::{Unread, pass, read_asks, read_clock, read_long, read_number, read_word};
use std::alloc::Global;

const OUTSIDE: &[u8] = b"outside";

const ASKING: &[u8] = b"asking";

const FETCHING: &[u8] = b"fetching";

const FROM: &[u8] = b"from ";

const AT: &[u8] = b" at ";

const COUNT: &[u8] = b" count ";

const STEP: &[u8] = b" step ";

const PATH: &[u8] = b" path ";

const PROCEDURE: &[u8] = b" procedure ";

const CLOCK: &[u8] = b" clock ";

const ARGUMENTS: &[u8] = b" arguments ";

const STATE: &[u8] = b" state ";

const TO: &[u8] = b" to ";

const INDEX: &[u8] = b" index ";

/// The lines of a member are read by the program, what its module declares, and how many events there were.
#[derive(Clone, Copy)]
pub(crate) struct LineReader<'a> {
    pub alloc: Global,
    pub modules: &'a [Name],
    pub deployment: &'a Deployment,
    pub signature: &'a Signature,
    pub events: u64,
}

// A number of four bytes behind a mark.
pub(crate) fn long_behind(line: &[u8], at: usize, mark: &[u8]) -> Result<(u32, usize), Unread>
    requires { at ≤ length line.now }
    ensures { GivesAt line.now at result (lines.long_behind mark.now) }
{
    let inner = pass(line, at, mark)?;
    read_long(line, inner)
}

// A number of two bytes behind a mark.
fn word_behind(line: &[u8], at: usize, mark: &[u8]) -> Result<(u16, usize), Unread>
    requires { at ≤ length line.now }
    ensures { GivesAt line.now at result (lines.word_behind mark.now) }
{
    let inner = pass(line, at, mark)?;
    read_word(line, inner)
}

// A module behind a mark.
fn module_behind(
    line: &[u8],
    at: usize,
    mark: &[u8],
    modules: &[Name],
) -> Result<(u16, usize), Unread>
    requires at { at ≤ length line.now }
    requires modules { length modules.now ≤ 2 ^ 16 }
    ensures { GivesAt line.now at result (lines.name_behind mark.now modules.now) }
{
    let inner = pass(line, at, mark)?;
    read_module(line, inner, modules)
}

// The place behind this number, which stands at a place.
fn pass_this(line: &[u8], at: usize, number: u64) -> Result<usize, Unread>
    requires { at ≤ length line.now }
    ensures { PassesTo line.now result (lines.behind_this number (drop at line.now)) }
{
    let (read, next) = read_long(line, at)?;
    if u64::from(read) == number {
        Ok(next)
    } else {
        Err(Unread::Unlike)
    }
}

fn is_root(deployment: &Deployment, module: u16) -> bool
    ensures { result ≡ accepting.is_root deployment.now «module» }
{
    match deployment.troupes.get(usize::from(module)) {
        Some(troupe) => troupe.root,
        None => false,
    }
}

// A step of so many events.
fn read_step(line: &[u8], at: usize, events: u64) -> Result<(u64, usize), Unread>
    requires { at ≤ length line.now }
    ensures { GivesAt line.now at result (lines.step_read events) }
{
    if events > 0 {
        read_number(line, at, events - 1)
    } else {
        Err(Unread::Unlike)
    }
}

// A step behind a mark.
fn step_behind(line: &[u8], at: usize, mark: &[u8], events: u64) -> Result<(u64, usize), Unread>
    requires { at ≤ length line.now }
    ensures { GivesAt line.now at result (lines.step_behind mark.now events) }
{
    let inner = pass(line, at, mark)?;
    read_step(line, inner, events)
}

// This number, and a step.
fn numbered_step(line: &[u8], at: usize, number: u64, events: u64) -> Result<(u64, usize), Unread>
    requires { at ≤ length line.now }
    ensures { GivesAt line.now at result (lines.numbered_step number events) }
{
    let next = pass_this(line, at, number)?;
    step_behind(line, next, STEP, events)
}

/// A clock of so many counts behind its word.
pub(crate) fn clock_behind(
    alloc: Global,
    line: &[u8],
    at: usize,
    modules: usize,
) -> Result<(Clock, usize), Unread>
    requires { at ≤ length line.now }
    ensures { GivesAt line.now at result (lines.clock_behind modules) }
{
    let inner = pass(line, at, CLOCK)?;
    read_clock(alloc, line, inner, modules)
}

// A state behind its word.
fn read_state(
    alloc: Global,
    line: &[u8],
    at: usize,
    signature: &Signature,
) -> Result<(State, usize), Unread>
    requires { at ≤ length line.now }
    ensures { GivesAt line.now at result (lines.state_read signature.now) }
{
    values_behind(alloc, line, at, STATE, &signature.variables)
}

// The phase of a member that is active.
fn read_active(line: &[u8], at: usize, events: u64) -> Result<(Phase, usize), Unread>
    requires { at ≤ length line.now }
    ensures { GivesAt line.now at result (lines.active_read events) }
{
    let (from, next) = long_behind(line, at, FROM)?;
    let (since, next) = step_behind(line, next, AT, events)?;
    let (count, next) = long_behind(line, next, COUNT)?;
    Ok((Phase::Active(from, since, count), next))
}

// The phase of a member that is active, up to the end.
fn read_active_line(line: &[u8], at: usize, events: u64) -> Result<Phase, Unread>
    requires { at ≤ length line.now }
    ensures { GivesAll result (lines.active_line events (drop at line.now)) }
{
    let (phase, next) = read_active(line, at, events)?;
    end(line, next)?;
    Ok(phase)
}

/// The phase of a member of whose node there were so many events, from a place on.
pub(crate) fn read_phase(line: &[u8], at: usize, events: u64) -> Result<Phase, Unread>
    requires { at ≤ length line.now }
    ensures { GivesAll result (lines.phase_read events (drop at line.now)) }
{
    let word = &line[at..];
    if word == OUTSIDE {
        Ok(Phase::Apart(Joiner::Outside))
    } else if word == ASKING {
        Ok(Phase::Apart(Joiner::Asking))
    } else if word == FETCHING {
        Ok(Phase::Apart(Joiner::Fetching(0)))
    } else {
        read_active_line(line, at, events)
    }
}

fn begin_run(alloc: Global, entered: Entered, performs: Performs) -> RunRecord
    ensures { result ≡ lines.run_begun entered performs }
{
    RunRecord {
        path: entered.path,
        root: entered.root,
        procedure: performs.procedure,
        arguments: performs.arguments,
        entry: performs.entry,
        asks: AskRecords::new(alloc),
        outcome: None,
        state: None,
        end: None,
        started: entered.started,
        ended: None,
    }
}

fn ask_made(asked: Asked, procedure: u16, arguments: Values, state: State) -> AskRecord
    ensures { result ≡ lines.ask_made asked procedure arguments state }
{
    AskRecord {
        callee: asked.callee,
        index: asked.index,
        procedure,
        arguments,
        state,
        reply: None,
        after: None,
        asked: asked.asked,
        answered: None,
    }
}

fn answer_ask(ask: AskRecord, after: After, reply: Outcome) -> AskRecord
    ensures { result ≡ lines.answer_ask ask after reply }
{
    let mut answered = ask;
    answered.reply = Some(reply);
    answered.after = Some(after.clock);
    answered.answered = Some(after.step);
    answered
}

fn end_run(run: RunRecord, after: After, outcome: Outcome, state: State) -> RunRecord
    ensures { result ≡ lines.run_ended run after outcome state }
{
    let mut ended = run;
    ended.outcome = Some(outcome);
    ended.state = Some(state);
    ended.end = Some(after.clock);
    ended.ended = Some(after.step);
    ended
}

impl LineReader<'_> {
    // A root behind its word.
    fn read_root(&self, line: &[u8], at: usize) -> Result<(u16, usize), Unread>
        requires at { at ≤ length line.now }
        requires modules { length self.now.modules.now ≤ 2 ^ 16 }
        ensures { GivesAt line.now at result
            (lines.root_read self.now.modules.now self.now.deployment.now) }
    {
        let (root, next) = module_behind(line, at, PATH, self.modules)?;
        if is_root(self.deployment, root) {
            Ok((root, next))
        } else {
            Err(Unread::Unlike)
        }
    }

    // Where the run at a place was entered.
    fn read_entered(&self, line: &[u8], at: usize, place: u32) -> Result<(Entered, usize), Unread>
        requires at { at ≤ length line.now }
        requires modules { length self.now.modules.now ≤ 2 ^ 16 }
        ensures { GivesAt line.now at result
            (lines.entered_read self.now.modules.now self.now.deployment.now self.now.events
            (length line.now) place) }
    {
        let (started, next) = numbered_step(line, at, u64::from(place), self.events)?;
        let (root, next) = self.read_root(line, next)?;
        let (path, next) = read_asks(self.alloc, line, next)?;
        Ok((
            Entered {
                started,
                root,
                path,
            },
            next,
        ))
    }

    // The arguments of a procedure.
    fn read_arguments(
        &self,
        line: &[u8],
        at: usize,
        procedure: u16,
        entry: Clock,
    ) -> Result<(Performs, usize), Unread>
        requires { at ≤ length line.now }
        ensures { GivesAt line.now at result
            (lines.arguments_read self.now.signature.now procedure entry) }
    {
        let Some(shape) = procedure_numbered(&self.signature.procedures, procedure) else {
            return Err(Unread::Unlike);
        };
        let (arguments, next) = values_behind(self.alloc, line, at, ARGUMENTS, &shape.arguments)?;
        Ok((
            Performs {
                procedure,
                entry,
                arguments,
            },
            next,
        ))
    }

    // What a run performs.
    fn read_performs(&self, line: &[u8], at: usize) -> Result<(Performs, usize), Unread>
        requires { at ≤ length line.now }
        ensures { GivesAt line.now at result
            (lines.performs_read self.now.modules.now self.now.signature.now) }
    {
        let (procedure, next) = word_behind(line, at, PROCEDURE)?;
        let (entry, next) = clock_behind(self.alloc, line, next, self.modules.len())?;
        self.read_arguments(line, next, procedure, entry)
    }

    // The run at a place.
    fn read_run_parts(
        &self,
        line: &[u8],
        at: usize,
        place: u32,
    ) -> Result<(RunRecord, usize), Unread>
        requires at { at ≤ length line.now }
        requires modules { length self.now.modules.now ≤ 2 ^ 16 }
        ensures { GivesAt line.now at result
            (lines.run_parts self.now.modules.now self.now.deployment.now self.now.signature.now
            self.now.events (length line.now) place) }
    {
        let (entered, next) = self.read_entered(line, at, place)?;
        let (performs, next) = self.read_performs(line, next)?;
        Ok((begin_run(self.alloc, entered, performs), next))
    }

    /// The run at a place, whose line stands from a place on.
    pub fn read_run(&self, line: &[u8], at: usize, place: u32) -> Result<RunRecord, Unread>
        requires at { at ≤ length line.now }
        requires modules { length self.now.modules.now ≤ 2 ^ 16 }
        ensures { GivesAll result
            (lines.run_read self.now.modules.now self.now.deployment.now self.now.signature.now
            self.now.events (length line.now) place (drop at line.now)) }
    {
        let (run, next) = self.read_run_parts(line, at, place)?;
        end(line, next)?;
        Ok(run)
    }

    // Whom the ask with a number asks.
    fn read_asked(&self, line: &[u8], at: usize, number: u64) -> Result<(Asked, usize), Unread>
        requires at { at ≤ length line.now }
        requires modules { length self.now.modules.now ≤ 2 ^ 16 }
        ensures { GivesAt line.now at result
            (lines.asked_read self.now.modules.now self.now.events number) }
    {
        let (asked, next) = numbered_step(line, at, number, self.events)?;
        let (callee, next) = module_behind(line, next, TO, self.modules)?;
        let (index, next) = long_behind(line, next, INDEX)?;
        Ok((
            Asked {
                asked,
                callee,
                index,
            },
            next,
        ))
    }

    // What an ask asks for, by its procedure.
    fn read_wanted(
        &self,
        line: &[u8],
        at: usize,
        asked: Asked,
        procedure: u16,
    ) -> Result<(AskRecord, usize), Unread>
        requires { at ≤ length line.now }
        ensures { GivesAt line.now at result
            (lines.wanted_read self.now.signature.now asked procedure) }
    {
        let Some(shape) = imported_procedure(&self.signature.imports, asked.callee, procedure)
        else {
            return Err(Unread::Unlike);
        };
        let (arguments, next) = values_behind(self.alloc, line, at, ARGUMENTS, &shape.arguments)?;
        let (state, next) = read_state(self.alloc, line, next, self.signature)?;
        Ok((ask_made(asked, procedure, arguments, state), next))
    }

    // The ask with a number.
    fn read_ask_parts(
        &self,
        line: &[u8],
        at: usize,
        number: u64,
    ) -> Result<(AskRecord, usize), Unread>
        requires at { at ≤ length line.now }
        requires modules { length self.now.modules.now ≤ 2 ^ 16 }
        ensures { GivesAt line.now at result
            (lines.ask_parts self.now.modules.now self.now.signature.now self.now.events number) }
    {
        let (asked, next) = self.read_asked(line, at, number)?;
        let (procedure, next) = word_behind(line, next, PROCEDURE)?;
        self.read_wanted(line, next, asked, procedure)
    }

    /// The ask with a number, whose line stands from a place on.
    pub fn read_ask(&self, line: &[u8], at: usize, number: u64) -> Result<AskRecord, Unread>
        requires at { at ≤ length line.now }
        requires modules { length self.now.modules.now ≤ 2 ^ 16 }
        ensures { GivesAll result
            (lines.ask_read self.now.modules.now self.now.signature.now self.now.events number
            (drop at line.now)) }
    {
        let (ask, next) = self.read_ask_parts(line, at, number)?;
        end(line, next)?;
        Ok(ask)
    }

    // The step and the clock of a reply to an ask with a number, or of the end of a run at a place.
    fn read_after(&self, line: &[u8], at: usize, number: u64) -> Result<(After, usize), Unread>
        requires { at ≤ length line.now }
        ensures { GivesAt line.now at result
            (lines.after_read (length self.now.modules.now) self.now.events number) }
    {
        let (step, next) = numbered_step(line, at, number, self.events)?;
        let (clock, next) = clock_behind(self.alloc, line, next, self.modules.len())?;
        Ok((After { step, clock }, next))
    }

    // The reply to an ask, by its procedure.
    fn read_reply_by(
        &self,
        line: &[u8],
        at: usize,
        ask: AskRecord,
        after: After,
    ) -> Result<(AskRecord, usize), Unread>
        requires { at ≤ length line.now }
        ensures { GivesAt line.now at result (lines.reply_by self.now.signature.now ask after) }
    {
        let Some(shape) = imported_procedure(&self.signature.imports, ask.callee, ask.procedure)
        else {
            return Err(Unread::Unlike);
        };
        let (reply, next) = outcome_behind(self.alloc, line, at, shape)?;
        Ok((answer_ask(ask, after, reply), next))
    }

    // The reply to an ask with a number.
    fn read_reply_parts(
        &self,
        line: &[u8],
        at: usize,
        number: u64,
        ask: AskRecord,
    ) -> Result<(AskRecord, usize), Unread>
        requires { at ≤ length line.now }
        ensures { GivesAt line.now at result
            (lines.reply_parts
            (length self.now.modules.now) self.now.signature.now self.now.events number ask) }
    {
        let (after, next) = self.read_after(line, at, number)?;
        self.read_reply_by(line, next, ask, after)
    }

    /// The reply to an ask with a number, which the ask has then. Its line stands from a place on.
    pub fn read_reply(
        &self,
        line: &[u8],
        at: usize,
        number: u64,
        ask: AskRecord,
    ) -> Result<AskRecord, Unread>
        requires { at ≤ length line.now }
        ensures { GivesAll result
            (lines.reply_read
            (length self.now.modules.now) self.now.signature.now self.now.events number ask
            (drop at line.now)) }
    {
        let (ask, next) = self.read_reply_parts(line, at, number, ask)?;
        end(line, next)?;
        Ok(ask)
    }

    // The end of a run, by its procedure.
    fn read_end_by(
        &self,
        line: &[u8],
        at: usize,
        run: RunRecord,
        after: After,
    ) -> Result<(RunRecord, usize), Unread>
        requires { at ≤ length line.now }
        ensures { GivesAt line.now at result (lines.end_by self.now.signature.now run after) }
    {
        let Some(shape) = procedure_numbered(&self.signature.procedures, run.procedure) else {
            return Err(Unread::Unlike);
        };
        let (outcome, next) = outcome_behind(self.alloc, line, at, shape)?;
        let (state, next) = read_state(self.alloc, line, next, self.signature)?;
        Ok((end_run(run, after, outcome, state), next))
    }

    // The end of the run at a place.
    fn read_end_parts(
        &self,
        line: &[u8],
        at: usize,
        place: u32,
        run: RunRecord,
    ) -> Result<(RunRecord, usize), Unread>
        requires { at ≤ length line.now }
        ensures { GivesAt line.now at result
            (lines.end_parts
            (length self.now.modules.now) self.now.signature.now self.now.events place run) }
    {
        let (after, next) = self.read_after(line, at, u64::from(place))?;
        self.read_end_by(line, next, run, after)
    }

    /// The end of the run at a place, which the run has then. Its line stands from a place on.
    pub fn read_end(
        &self,
        line: &[u8],
        at: usize,
        place: u32,
        run: RunRecord,
    ) -> Result<RunRecord, Unread>
        requires { at ≤ length line.now }
        ensures { GivesAll result
            (lines.end_read (length self.now.modules.now) self.now.signature.now self.now.events
            place run (drop at line.now)) }
    {
        let (run, next) = self.read_end_parts(line, at, place, run)?;
        end(line, next)?;
        Ok(run)
    }

    /// The state of a member that is idle, at the end of its last line.
    pub fn read_idle(&self, line: &[u8], at: usize) -> Result<State, Unread>
        requires { at ≤ length line.now }
        ensures { GivesAll result (lines.idle_read self.now.signature.now (drop at line.now)) }
    {
        let (state, next) = read_state(self.alloc, line, at, self.signature)?;
        end(line, next)?;
        Ok(state)
    }

    /// The state of a member that waits for the reply to the ask with a number, at the end of its last line.
    pub fn read_waiting(&self, line: &[u8], at: usize, number: u64) -> Result<State, Unread>
        requires { at ≤ length line.now }
        ensures { GivesAll result
            (lines.waiting_read self.now.signature.now number (drop at line.now)) }
    {
        let next = pass_this(line, at, number)?;
        let (state, last) = read_state(self.alloc, line, next, self.signature)?;
        end(line, last)?;
        Ok(state)
    }
}
