// Replies that differ, by the asks of a member.
ghost use Rattle.std.specs.Prelude.{◌≡◌, ◌≤◌, ◌^◌, length, map, option_copied, codes};
ghost use Rattle.circus_record.specs.Naming.{host_name};
ghost use Rattle.circus_value_text.specs.Seen.Given.{Gives, GivesAll, GivesAt};
ghost use Rattle.circus_audit.specs.Seen.Differing as differing;
ghost use Rattle.circus_audit.specs.Seen.Events as events;

use crate::differing::Replied;
use crate::member_lines::clock_behind;
use crate::noted::{Differing, Noted, Notes};
use crate::values::{imported_procedure, outcome_behind};
use crate::words::{end, read_other};
use crate::{GivenEvent, GivenEvents};
use circus_collate::Host;
use circus_header::Reply;
use circus_model::{Imports, ProcedureShape};
use circus_node::{Difference, Differences};
use circus_record::{AskRecord, MemberRecord};
use circus_value_text::{Unread, pass};
use std::alloc::Global;

const SPACE: &[u8] = b" ";

/// Replies are read by the nodes of the program, the number of its modules, and the node of the record.
#[derive(Clone, Copy)]
pub(crate) struct ReplyReader<'a> {
    pub alloc: Global,
    pub nodes: &'a [Host],
    pub modules: usize,
    pub own: u16,
}

// The ask of a member with a number in the run at a place.
pub(crate) fn ask_named(kept: &MemberRecord, run: u32, ask: u32) -> Option<&AskRecord>
    ensures { option_copied result ≡ differing.ask_named kept.now run ask }
{
    let place = run.checked_sub(kept.from)?;
    kept.runs.get(place as usize)?.asks.get(ask as usize)
}

// Another node behind a blank.
fn other_behind(text: &[u8], at: usize, nodes: &[Host], own: u16) -> Result<(u16, usize), Unread>
    requires at { at ≤ length text.now }
    requires nodes { length nodes.now ≤ 2 ^ 16 }
    ensures { GivesAt text.now at result
        (events.other_behind (codes " ") (map host_name nodes.now) own) }
{
    let inner = pass(text, at, SPACE)?;
    read_other(text, inner, nodes, own)
}

fn difference_of(each: &Differing, first: Replied, second: Replied) -> Difference
    ensures { result ≡ differing.difference_of each.now first second }
{
    Difference {
        run: each.run,
        ask: each.ask,
        first: first.node,
        first_reply: first.reply,
        second: second.node,
        second_reply: second.reply,
    }
}

impl ReplyReader<'_> {
    // A reply of another node to a call of a procedure.
    fn read_replied(
        &self,
        text: &[u8],
        at: usize,
        procedure: &ProcedureShape,
    ) -> Result<(Replied, usize), Unread>
        requires at { at ≤ length text.now }
        requires nodes { length self.now.nodes.now ≤ 2 ^ 16 }
        ensures { GivesAt text.now at result
            (differing.replied_read
            (map host_name self.now.nodes.now) self.now.modules self.now.own procedure.now) }
    {
        let (node, next) = other_behind(text, at, self.nodes, self.own)?;
        let (clock, next) = clock_behind(self.alloc, text, next, self.modules)?;
        let (outcome, next) = outcome_behind(self.alloc, text, next, procedure)?;
        Ok((
            Replied {
                node,
                reply: Reply { clock, outcome },
            },
            next,
        ))
    }

    // Two replies to a call of a procedure, and the place behind them.
    fn read_replies_parts(
        &self,
        text: &[u8],
        each: &Differing,
        procedure: &ProcedureShape,
    ) -> Result<(Difference, usize), Unread>
        requires nodes { length self.now.nodes.now ≤ 2 ^ 16 }
        requires text { text.now ≡ each.now.replies }
        ensures { Gives (λ d.
            d) text.now result
            (differing.replies_parts
            (map host_name self.now.nodes.now) self.now.modules self.now.own each.now
            procedure.now) }
    {
        let (first, next) = self.read_replied(text, 0, procedure)?;
        let (second, next) = self.read_replied(text, next, procedure)?;
        Ok((difference_of(each, first, second), next))
    }

    /// Two replies to a call of a procedure.
    pub fn read_replies(
        &self,
        each: &Differing,
        procedure: &ProcedureShape,
    ) -> Result<Difference, Unread>
        requires { length self.now.nodes.now ≤ 2 ^ 16 }
        ensures { GivesAll result
            (differing.replies_read
            (map host_name self.now.nodes.now) self.now.modules self.now.own each.now
            procedure.now) }
    {
        let text = each.replies.as_slice();
        let (difference, next) = self.read_replies_parts(text, each, procedure)?;
        end(text, next)?;
        Ok(difference)
    }

    // The replies to an ask of a member.
    fn read_difference(
        &self,
        imports: &Imports,
        kept: &MemberRecord,
        each: &Differing,
    ) -> Result<Difference, Unread>
        requires { length self.now.nodes.now ≤ 2 ^ 16 }
        ensures { GivesAll result
            (differing.difference_read
            (map host_name self.now.nodes.now) self.now.modules self.now.own imports.now kept.now
            each.now) }
    {
        let Some(ask) = ask_named(kept, each.run, each.ask) else {
            return Err(Unread::Unlike);
        };
        match imported_procedure(imports, ask.callee, ask.procedure) {
            Some(procedure) => self.read_replies(each, procedure),
            None => Err(Unread::Unlike),
        }
    }

    // The replies that differ in an event.
    fn read_differences(
        &self,
        imports: &Imports,
        kept: &MemberRecord,
        all: &[Differing],
    ) -> Result<Differences, Unread>
        requires { length self.now.nodes.now ≤ 2 ^ 16 }
        ensures { GivesAll result
            (differing.each_read
            (differing.difference_read
            (map host_name self.now.nodes.now) self.now.modules self.now.own imports.now kept.now)
            all.now) }
    {
        let mut differences = Differences::new(self.alloc);
        for each in all {
            let difference = self.read_difference(imports, kept, each)?;
            differences.push(difference)?;
        }
        Ok(differences)
    }

    // An event, by its lines.
    fn read_event(
        &self,
        imports: &Imports,
        kept: &MemberRecord,
        noted: Noted,
    ) -> Result<GivenEvent, Unread>
        requires { length self.now.nodes.now ≤ 2 ^ 16 }
        ensures { GivesAll result
            (differing.event_of
            (map host_name self.now.nodes.now) self.now.modules self.now.own imports.now kept.now
            noted) }
    {
        let differences = self.read_differences(imports, kept, noted.differing.as_slice())?;
        Ok(GivenEvent {
            event: noted.event,
            gives: noted.gives,
            differences,
        })
    }

    /// The events of a node that hosts a member, by the imports of its module.
    pub fn read_events(
        &self,
        imports: &Imports,
        kept: &MemberRecord,
        notes: Notes,
    ) -> Result<GivenEvents, Unread>
        requires { length self.now.nodes.now ≤ 2 ^ 16 }
        ensures { GivesAll result
            (differing.events_of
            (map host_name self.now.nodes.now) self.now.modules self.now.own imports.now kept.now
            notes) }
    {
        let mut events = GivenEvents::new(self.alloc);
        for noted in notes.into_items() {
            let event = self.read_event(imports, kept, noted)?;
            events.push(event)?;
        }
        Ok(events)
    }
}

// An event of a node that hosts no member, in which no replies can differ.
fn event_apart(alloc: Global, noted: Noted) -> Result<GivenEvent, Unread>
    ensures { GivesAll result (differing.event_apart noted) }
{
    if noted.differing.is_empty() {
        Ok(GivenEvent {
            event: noted.event,
            gives: noted.gives,
            differences: Differences::new(alloc),
        })
    } else {
        Err(Unread::Unlike)
    }
}

/// The events of a node that hosts no member.
pub(crate) fn events_apart(alloc: Global, notes: Notes) -> Result<GivenEvents, Unread>
    ensures { GivesAll result (differing.events_apart notes) }
{
    let mut events = GivenEvents::new(alloc);
    for noted in notes.into_items() {
        let event = event_apart(alloc, noted)?;
        events.push(event)?;
    }
    Ok(events)
}
