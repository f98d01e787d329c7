// A record, by one more line.
ghost use Rattle.std.specs.Prelude.{◌≡◌, ◌≤◌, ◌^◌, length, drop};
ghost use Rattle.circus_value_text.specs.Seen.Given.{GivesAll, PassesTo};
ghost use Rattle.circus_audit.specs.Seen.Names as names;
ghost use Rattle.circus_audit.specs.Seen.Reading as reading;

use crate::differences::{ReplyReader, events_apart};
use crate::happening::{all_noted, read_happening};
use crate::member_line::Phase;
use crate::member_lines::{LineReader, read_phase};
use crate::noted::{Happened, Notes};
use crate::performed::{After, Current, Performed};
use crate::setting::Hosted;
use crate::stage::Stage;
use crate::views::read_view;
use crate::words::{end, read_node};
use crate::{Given, GivenEvents};
use circus_collate::Views;
use circus_config::Plan;
use circus_node::troupe_at;
use circus_record::{MemberRecord, RunRecords};
use circus_transfer::Joiner;
use circus_value::Values;
use circus_value_text::{Unread, behind_mark, pass};
use std::alloc::Global;

const FIRST: &[u8] = b"circus node 1 ";

const MEMBER: &[u8] = b"member ";

const RINGMASTER: &[u8] = b"ringmaster ";

const SPACE: &[u8] = b" ";

const LIVE: &[u8] = b" live ";

const LIVE_ALONE: &[u8] = b" live";

const NOTHING: &[u8] = b"";

/// Lines are read by the program, the node of the record, and what the module of its member declares.
#[derive(Clone, Copy)]
pub(crate) struct Reader<'a> {
    pub alloc: Global,
    pub plan: &'a Plan,
    pub own: u16,
    pub hosted: &'a Option<Hosted>,
}

/// The node of the first line.
pub(crate) fn read_own(plan: &Plan, line: &[u8]) -> Result<u16, Unread>
    requires { length plan.now.deployment.nodes ≤ 2 ^ 16 }
    ensures { GivesAll result (reading.own_read plan.now line.now) }
{
    let at = pass(line, 0, FIRST)?;
    let (own, next) = read_node(line, at, plan.deployment.nodes.as_slice())?;
    end(line, next)?;
    Ok(own)
}

fn node_name(plan: &Plan, node: u16) -> &[u8]
    ensures { result.now ≡ names.name_at (reading.node_names plan.now) node }
{
    match plan.deployment.nodes.get(usize::from(node)) {
        Some(host) => host.name.as_slice(),
        None => NOTHING,
    }
}

fn module_name(plan: &Plan, module: u16) -> &[u8]
    ensures { result.now ≡ names.name_at plan.now.names «module» }
{
    match plan.names.get(usize::from(module)) {
        Some(name) => name.as_slice(),
        None => NOTHING,
    }
}

fn before_any(alloc: Global, phase: Joiner) -> MemberRecord
    ensures { result ≡ reading.record_apart phase }
{
    MemberRecord {
        phase,
        from: 0,
        active_at: 0,
        count: 0,
        runs: RunRecords::new(alloc),
        state: Values::new(alloc),
    }
}

// By the phase of a member.
fn by_phase(alloc: Global, notes: Notes, phase: Phase) -> Stage
    ensures { result ≡ reading.by_phase notes phase }
{
    match phase {
        Phase::Apart(joiner) => Stage::Done(notes, Some(before_any(alloc, joiner)), None),
        Phase::Active(from, since, count) => Stage::Runs(
            notes,
            Performed {
                from,
                since,
                count,
                runs: RunRecords::new(alloc),
                current: Current::Nothing,
            },
        ),
    }
}

// By a line of an active member.
fn by_after(notes: Notes, after: After) -> Stage
    ensures { result ≡ reading.after_line notes after }
{
    match after {
        After::On(performed) => Stage::Runs(notes, performed),
        After::Last(kept) => Stage::Done(notes, Some(kept), None),
    }
}

// The views so far: the record may end behind those of all modules.
fn with_views(plan: &Plan, notes: Notes, views: Views) -> Stage
    ensures { result ≡ reading.with_views plan.now notes views }
{
    if views.len() == plan.names.len() {
        Stage::Done(notes, None, Some(views))
    } else {
        Stage::Watching(notes, views)
    }
}

impl Reader<'_> {
    // Who the member of a module is and that its node is live, and where its phase stands.
    fn pass_who(&self, line: &[u8], at: usize, module: u16) -> Result<usize, Unread>
        requires { at ≤ length line.now }
        ensures { PassesTo line.now result
            (reading.who_read self.now.plan.now self.now.own «module» (drop at line.now)) }
    {
        let node_end = pass(line, at, node_name(self.plan, self.own))?;
        let name = pass(line, node_end, SPACE)?;
        let name_end = pass(line, name, module_name(self.plan, module))?;
        pass(line, name_end, LIVE)
    }

    // The first line of a member, behind its word.
    fn begin_member(
        &self,
        notes: Notes,
        hosted: &Hosted,
        line: &[u8],
        at: usize,
    ) -> Result<Stage, Unread>
        requires { at ≤ length line.now }
        ensures { GivesAll result
            (reading.member_begins self.now.plan.now self.now.own notes hosted.now
            (drop at line.now)) }
    {
        let place = self.pass_who(line, at, hosted.module)?;
        let phase = read_phase(line, place, notes.len() as u64)?;
        Ok(by_phase(self.alloc, notes, phase))
    }

    // The Ringmaster's line, behind its word.
    fn begin_ring(&self, notes: Notes, line: &[u8], at: usize) -> Result<Stage, Unread>
        requires { at ≤ length line.now }
        ensures { GivesAll result (reading.ring_begins self.now.plan.now notes (drop at line.now)) }
    {
        let place = pass(line, at, node_name(self.plan, 0))?;
        if &line[place..] == LIVE_ALONE {
            Ok(with_views(self.plan, notes, Views::new(self.alloc)))
        } else {
            Err(Unread::Unlike)
        }
    }

    // By a line of an event.
    fn read_event_line(&self, happened: Happened, line: &[u8]) -> Result<Stage, Unread>
        requires { length self.now.plan.now.deployment.nodes ≤ 2 ^ 16 }
        ensures { GivesAll result
            (reading.event_line_read self.now.plan.now self.now.own happened line.now) }
    {
        let nodes = self.plan.deployment.nodes.as_slice();
        let next = read_happening(self.alloc, happened, line, nodes, self.own)?;
        Ok(Stage::Events(next))
    }

    // The first line of a member, behind its word, where the node hosts one.
    fn begin_member_if(&self, happened: Happened, line: &[u8], at: usize) -> Result<Stage, Unread>
        requires { at ≤ length line.now }
        ensures { GivesAll result
            (reading.member_if self.now.plan.now self.now.own
            (reading.noted_by happened) self.now.hosted.now (drop at line.now)) }
    {
        let notes = all_noted(happened.earlier, happened.last)?;
        match self.hosted {
            Some(hosted) => self.begin_member(notes, hosted, line, at),
            None => Err(Unread::Unlike),
        }
    }

    // The Ringmaster's line, behind its word, where the node hosts no member.
    fn begin_ring_if(&self, happened: Happened, line: &[u8], at: usize) -> Result<Stage, Unread>
        requires { at ≤ length line.now }
        ensures { GivesAll result
            (reading.ring_at self.now.plan.now self.now.own (reading.noted_by happened)
            (drop at line.now)) }
    {
        let notes = all_noted(happened.earlier, happened.last)?;
        match troupe_at(&self.plan.deployment, self.own) {
            Some(_) => Err(Unread::Unlike),
            None => self.begin_ring(notes, line, at),
        }
    }

    // By a line before those of a member or of views.
    fn read_events(&self, happened: Happened, line: &[u8]) -> Result<Stage, Unread>
        requires { length self.now.plan.now.deployment.nodes ≤ 2 ^ 16 }
        ensures { GivesAll result
            (reading.events_go_on self.now.plan.now self.now.own self.now.hosted.now happened
            line.now) }
    {
        if let Some(at) = behind_mark(line, 0, MEMBER) {
            return self.begin_member_if(happened, line, at);
        }
        match behind_mark(line, 0, RINGMASTER) {
            Some(at) => self.begin_ring_if(happened, line, at),
            None => self.read_event_line(happened, line),
        }
    }

    // By a line of an active member.
    fn read_runs(&self, notes: Notes, performed: Performed, line: &[u8]) -> Result<Stage, Unread>
        requires { length self.now.plan.now.names ≤ 2 ^ 16 }
        ensures { GivesAll result
            (reading.runs_go_on self.now.plan.now self.now.hosted.now notes performed line.now) }
    {
        let Some(hosted) = self.hosted else {
            return Err(Unread::Unlike);
        };
        let reader = LineReader {
            alloc: self.alloc,
            modules: self.plan.names.as_slice(),
            deployment: &self.plan.deployment,
            signature: &hosted.signature,
            events: notes.len() as u64,
        };
        let after = reader.read_performed(performed, line)?;
        Ok(by_after(notes, after))
    }

    // By the line of a view.
    fn read_views(&self, notes: Notes, views: Views, line: &[u8]) -> Result<Stage, Unread>
        requires { length self.now.plan.now.deployment.nodes ≤ 2 ^ 16 }
        ensures { GivesAll result (reading.views_go_on self.now.plan.now notes views line.now) }
    {
        let Ok(troupe) = u16::try_from(views.len()) else {
            return Err(Unread::Unlike);
        };
        let name = module_name(self.plan, troupe);
        let nodes = self.plan.deployment.nodes.as_slice();
        let view = read_view(self.alloc, line, troupe, name, nodes)?;
        let mut views = views;
        views.push(view)?;
        Ok(with_views(self.plan, notes, views))
    }

    /// By one more line behind the first one. `Unlike` where the line can't stand there.
    pub fn read_line(&self, stage: Stage, line: &[u8]) -> Result<Stage, Unread>
        requires nodes { length self.now.plan.now.deployment.nodes ≤ 2 ^ 16 }
        requires modules { length self.now.plan.now.names ≤ 2 ^ 16 }
        ensures { GivesAll result
            (reading.stage_after self.now.plan.now self.now.own self.now.hosted.now stage
            line.now) }
    {
        match stage {
            Stage::Events(happened) => self.read_events(happened, line),
            Stage::Runs(notes, performed) => self.read_runs(notes, performed, line),
            Stage::Watching(notes, views) => self.read_views(notes, views, line),
            Stage::Done(_, _, _) => Err(Unread::Unlike),
        }
    }

    // The events, by the record of the member, where there is one.
    fn read_noted(&self, kept: &Option<MemberRecord>, notes: Notes) -> Result<GivenEvents, Unread>
        requires { length self.now.plan.now.deployment.nodes ≤ 2 ^ 16 }
        ensures { GivesAll result
            (reading.events_by self.now.plan.now self.now.own self.now.hosted.now kept.now notes) }
    {
        match (self.hosted, kept) {
            (Some(hosted), Some(kept)) => {
                let reader = ReplyReader {
                    alloc: self.alloc,
                    nodes: self.plan.deployment.nodes.as_slice(),
                    modules: self.plan.names.len(),
                    own: self.own,
                };
                reader.read_events(&hosted.signature.imports, kept, notes)
            }
            (None, None) => events_apart(self.alloc, notes),
            _ => Err(Unread::Unlike),
        }
    }

    /// What a record says, where its text may end here, and else `Unlike`.
    pub fn finish(&self, stage: Stage) -> Result<Given, Unread>
        requires { length self.now.plan.now.deployment.nodes ≤ 2 ^ 16 }
        ensures { GivesAll result
            (reading.given_by self.now.plan.now self.now.own self.now.hosted.now stage) }
    {
        let Stage::Done(notes, member, views) = stage else {
            return Err(Unread::Unlike);
        };
        let events = self.read_noted(&member, notes)?;
        Ok(Given {
            node: self.own,
            events,
            member,
            views,
        })
    }
}
