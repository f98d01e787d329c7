// What an active member did, by one more line.
ghost use Rattle.std.specs.Prelude.{◌≡◌, ◌≤◌, ◌^◌, length, drop};
ghost use Rattle.circus_value_text.specs.Seen.Given.{GivesAll};
ghost use Rattle.circus_performing.specs.Record.{count_after};
ghost use Rattle.circus_audit.specs.Seen.Performing as performing;

use crate::member_lines::LineReader;
use crate::performed::{After, Current, Performed};
use circus_record::{AskRecord, MemberRecord, RunRecord, RunRecords};
use circus_transfer::Joiner;
use circus_value::State;
use circus_value_text::{Unread, behind_mark, pass};

const RUN: &[u8] = b"run ";

const ASK: &[u8] = b"ask ";

const REPLY: &[u8] = b"reply ";

const END: &[u8] = b"end ";

const IDLE: &[u8] = b"now idle";

const WAITING: &[u8] = b"now waiting ask ";

/// The place of the run behind so many. `None` where it isn't a number of four bytes.
pub(crate) fn place_behind(from: u32, runs: usize) -> Option<u32>
    ensures { result ≡ performing.place_behind from runs }
{
    if runs <= (u32::MAX - from) as usize {
        Some(from + runs as u32)
    } else {
        None
    }
}

// The count of a member behind so many runs.
fn count_behind(from: u32, runs: usize) -> u32
    ensures { result ≡ count_after from runs }
{
    if runs <= (u32::MAX - from) as usize {
        from + runs as u32
    } else {
        u32::MAX
    }
}

// The record of a member, of which no line is left.
fn finish(from: u32, since: u64, count: u32, runs: RunRecords, state: State) -> After
    ensures { result ≡ performing.finish_record from since count runs state }
{
    After::Last(MemberRecord {
        phase: Joiner::Active(from),
        from,
        active_at: since,
        count,
        runs,
        state,
    })
}

fn with_ask(run: RunRecord, ask: AskRecord) -> Result<RunRecord, Unread>
    ensures { GivesAll result (performing.ask_kept run ask) }
{
    let mut run = run;
    run.asks.push(ask)?;
    Ok(run)
}

impl LineReader<'_> {
    // The line of a run, behind its word.
    fn begin_run(&self, performed: Performed, line: &[u8], at: usize) -> Result<After, Unread>
        requires at { at ≤ length line.now }
        requires modules { length self.now.modules.now ≤ 2 ^ 16 }
        ensures { GivesAll result
            (performing.run_begins self.now.modules.now self.now.deployment.now
            self.now.signature.now self.now.events (length line.now) performed (drop at line.now)) }
    {
        let Some(place) = place_behind(performed.from, performed.runs.len()) else {
            return Err(Unread::Unlike);
        };
        let run = self.read_run(line, at, place)?;
        let mut performed = performed;
        performed.current = Current::Run(run);
        Ok(After::On(performed))
    }

    // The last line of a member that is idle, behind its words.
    fn end_idle(&self, performed: Performed, line: &[u8], at: usize) -> Result<After, Unread>
        requires { at ≤ length line.now }
        ensures { GivesAll result
            (performing.idles self.now.signature.now performed (drop at line.now)) }
    {
        if count_behind(performed.from, performed.runs.len()) != performed.count {
            return Err(Unread::Unlike);
        }
        let state = self.read_idle(line, at)?;
        Ok(finish(
            performed.from,
            performed.since,
            performed.count,
            performed.runs,
            state,
        ))
    }

    // By a line where no run is performed.
    fn read_next(&self, performed: Performed, line: &[u8]) -> Result<After, Unread>
        requires { length self.now.modules.now ≤ 2 ^ 16 }
        ensures { GivesAll result
            (performing.next_read self.now.modules.now self.now.deployment.now
            self.now.signature.now self.now.events performed line.now) }
    {
        match behind_mark(line, 0, RUN) {
            Some(at) => self.begin_run(performed, line, at),
            None => {
                let at = pass(line, 0, IDLE)?;
                self.end_idle(performed, line, at)
            }
        }
    }

    // The line of an ask, behind its word.
    fn begin_ask(
        &self,
        performed: Performed,
        run: RunRecord,
        line: &[u8],
        at: usize,
    ) -> Result<After, Unread>
        requires at { at ≤ length line.now }
        requires modules { length self.now.modules.now ≤ 2 ^ 16 }
        ensures { GivesAll result
            (performing.ask_begins self.now.modules.now self.now.signature.now self.now.events
            performed run (drop at line.now)) }
    {
        let ask = self.read_ask(line, at, run.asks.len() as u64)?;
        let mut performed = performed;
        performed.current = Current::Ask(run, ask);
        Ok(After::On(performed))
    }

    // The line of a run's end, behind its word.
    fn end_run(
        &self,
        performed: Performed,
        run: RunRecord,
        line: &[u8],
        at: usize,
    ) -> Result<After, Unread>
        requires { at ≤ length line.now }
        ensures { GivesAll result
            (performing.run_ends self.now.modules.now self.now.signature.now self.now.events
            performed run (drop at line.now)) }
    {
        let Some(place) = place_behind(performed.from, performed.runs.len()) else {
            return Err(Unread::Unlike);
        };
        let ended = self.read_end(line, at, place, run)?;
        let mut performed = performed;
        performed.runs.push(ended)?;
        performed.current = Current::Nothing;
        Ok(After::On(performed))
    }

    // By a line where a run is performed.
    fn read_in_run(
        &self,
        performed: Performed,
        run: RunRecord,
        line: &[u8],
    ) -> Result<After, Unread>
        requires { length self.now.modules.now ≤ 2 ^ 16 }
        ensures { GivesAll result
            (performing.run_goes_on self.now.modules.now self.now.signature.now self.now.events
            performed run line.now) }
    {
        match behind_mark(line, 0, ASK) {
            Some(at) => self.begin_ask(performed, run, line, at),
            None => {
                let at = pass(line, 0, END)?;
                self.end_run(performed, run, line, at)
            }
        }
    }

    // The line of a reply, behind its word.
    fn take_reply(
        &self,
        performed: Performed,
        run: RunRecord,
        ask: AskRecord,
        line: &[u8],
        at: usize,
    ) -> Result<After, Unread>
        requires { at ≤ length line.now }
        ensures { GivesAll result
            (performing.reply_comes self.now.modules.now self.now.signature.now self.now.events
            performed run ask (drop at line.now)) }
    {
        let answered = self.read_reply(line, at, run.asks.len() as u64, ask)?;
        let run = with_ask(run, answered)?;
        let mut performed = performed;
        performed.current = Current::Run(run);
        Ok(After::On(performed))
    }

    // The last line of a member that waits, behind its words.
    fn end_waiting(
        &self,
        performed: Performed,
        run: RunRecord,
        ask: AskRecord,
        line: &[u8],
        at: usize,
    ) -> Result<After, Unread>
        requires { at ≤ length line.now }
        ensures { GivesAll result
            (performing.waits self.now.signature.now performed run ask (drop at line.now)) }
    {
        let Some(place) = place_behind(performed.from, performed.runs.len()) else {
            return Err(Unread::Unlike);
        };
        if place != performed.count {
            return Err(Unread::Unlike);
        }
        let state = self.read_waiting(line, at, run.asks.len() as u64)?;
        let mut runs = performed.runs;
        runs.push(with_ask(run, ask)?)?;
        Ok(finish(
            performed.from,
            performed.since,
            performed.count,
            runs,
            state,
        ))
    }

    // By a line where a reply is awaited.
    fn read_in_ask(
        &self,
        performed: Performed,
        run: RunRecord,
        ask: AskRecord,
        line: &[u8],
    ) -> Result<After, Unread>
        ensures { GivesAll result
            (performing.ask_goes_on self.now.modules.now self.now.signature.now self.now.events
            performed run ask line.now) }
    {
        match behind_mark(line, 0, REPLY) {
            Some(at) => self.take_reply(performed, run, ask, line, at),
            None => {
                let at = pass(line, 0, WAITING)?;
                self.end_waiting(performed, run, ask, line, at)
            }
        }
    }

    /// By one more line of the member.
    pub fn read_performed(&self, performed: Performed, line: &[u8]) -> Result<After, Unread>
        requires { length self.now.modules.now ≤ 2 ^ 16 }
        ensures { GivesAll result
            (performing.performed_after self.now.modules.now self.now.deployment.now
            self.now.signature.now self.now.events performed line.now) }
    {
        let Performed {
            from,
            since,
            count,
            runs,
            current,
        } = performed;
        let rest = Performed {
            from,
            since,
            count,
            runs,
            current: Current::Nothing,
        };
        match current {
            Current::Nothing => self.read_next(rest, line),
            Current::Run(run) => self.read_in_run(rest, run, line),
            Current::Ask(run, ask) => self.read_in_ask(rest, run, ask, line),
        }
    }
}
