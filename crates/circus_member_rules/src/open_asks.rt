// The asks that aren't closed.
ghost use Rattle.std.specs.Prelude.{◌≡◌, ◌<◌, ◌++◌, [], length, IfOk, IfSome, OnOk, slice_get, slice_set, option_copied, option_and_then};
ghost use Rattle.std.specs.Option.{option_map_or};
ghost use Rattle.circus_header.specs.CallFields.{IsIncarnation};
ghost use Rattle.circus_fanout.specs.Asking as asking;
ghost use Rattle.circus_member_rules.specs.OpenAsks.{is_waiting, asking_of, with_ask, with_asking};
ghost use Rattle.circus_member_rules.specs.Rules as rules;
ghost use Rattle.circus_member_rules.specs.Seen.Closing as closing;
ghost use Rattle.circus_member_rules.specs.Callable.{AreViews, MayCall, AllMayCall};

use crate::calls_out::{is_settled, take_reply, take_stale, view_calls};
use crate::{AskName, Difference, Effects};
use circus_collate::View;
use circus_fanout::{Fanout, Known};
use circus_header::Reply;
use circus_value::NoMemory;
use indexmap::IndexMap;
use std::alloc::Global;
use std::marker::Model;

/// The asks of a member that aren't closed, by name, in the order of asking (docs/PROTOCOL.md, "Calls out").
#[derive(Drop)]
pub struct OpenAsks {
    asks: IndexMap<AskName, Fanout>,
}

impl Model for OpenAsks {
    ghost use Rattle.std.specs.Prelude.{List};
    ghost use Rattle.circus_fanout.specs.Asking.{Asking};
    ghost use Rattle.circus_member_rules.specs.declared.occurrence.AskName.{AskName};
    ghost use Rattle.circus_member_rules.specs.Seen.AsksCode.{asks_code};

    ghost Value = { List (AskName × Asking) };

    ghost coded = { asks_code };

    ghost view = { λ a. a.asks.entries };
}

impl OpenAsks {
    /// No asks. It takes no memory.
    pub fn new(alloc: Global) -> Self
        ensures { result ≡ [] }
    {
        OpenAsks {
            asks: IndexMap::new(alloc),
        }
    }

    /// The ask of a name, if it is open.
    pub fn get(&self, name: AskName) -> Option<&Fanout>
        ensures { option_copied result ≡ asking_of self.now name }
    {
        self.asks.get(&name)
    }

    /// Opens an ask, behind the others.
    pub fn open(&mut self, name: AskName, fanout: Fanout) -> Result<(), NoMemory>
        ensures { OnOk result (self.new ≡ with_ask self.old name fanout) }
    {
        match self.asks.insert(name, fanout) {
            Ok(_) => Ok(()),
            Err(_) => Err(NoMemory {}),
        }
    }

    /// A node replies to an ask, and tells where that differs.
    pub fn take_reply(
        &mut self,
        name: AskName,
        from: u16,
        reply: Reply,
    ) -> Result<Option<Difference>, NoMemory>
        ensures kept { OnOk result
            (self.new ≡ with_asking name (asking.with_reply from reply) self.old) }
        ensures told { IfOk result (λ told.
            told ≡ option_and_then (rules.difference_by name from reply)
            (asking_of self.old name)) }
    {
        match self.asks.get_mut(&name) {
            Some(fanout) => take_reply(name, fanout, from, reply),
            None => Ok(None),
        }
    }

    /// A node answers an ask that it is before its first call.
    pub fn take_before(&mut self, name: AskName, from: u16)
        ensures { self.new ≡ with_asking name (asking.with_before from) self.old }
    {
        if let Some(fanout) = self.asks.get_mut(&name) {
            fanout.before(from);
        }
    }

    /// A node answers an ask that it is of an older view than of this incarnation.
    pub fn take_stale(
        &mut self,
        alloc: Global,
        known: &Known,
        name: AskName,
        from: u16,
        incarnation: u32,
        effects: &mut Effects,
    ) -> Result<(), NoMemory>
        requires asks { AllMayCall known.now self.old }
        requires views { AreViews known.now }
        ensures kept { OnOk result
            (self.new ≡ with_asking name (rules.after_stale known.now from incarnation) self.old) }
        ensures made { OnOk result
            (effects.new ≡ effects.old
            ++ option_map_or (rules.call_again known.now name from incarnation)
            (asking_of self.old name) []) }
    {
        match self.asks.get_mut(&name) {
            Some(fanout) => take_stale(alloc, known, name, fanout, from, incarnation, effects),
            None => Ok(()),
        }
    }

    /// A new view of a troupe is known.
    pub fn new_view(
        &mut self,
        alloc: Global,
        known: &Known,
        view: &View,
        effects: &mut Effects,
    ) -> Result<(), NoMemory>
        requires asks { AllMayCall known.now self.old }
        requires view { IsIncarnation view.now.incarnation }
        ensures kept { OnOk result (self.new ≡ rules.with_new_view known.now view.now self.old) }
        ensures made { OnOk result
            (effects.new ≡ effects.old ++ rules.calls_for_a_new_view known.now view.now self.old) }
    {
        for place in 0..self.asks.len() {
            self.see_at(alloc, known, view, place, effects)?;
        }
        Ok(())
    }

    // The ask at a place sees a new view.
    fn see_at(
        &mut self,
        alloc: Global,
        known: &Known,
        view: &View,
        place: usize,
        effects: &mut Effects,
    ) -> Result<(), NoMemory>
        requires place { place < length self.old }
        requires may { IfSome (slice_get self.old place) (λ e. MayCall known.now e.1) }
        requires view { IsIncarnation view.now.incarnation }
        ensures kept { IfSome (slice_get self.old place) (λ e.
            OnOk result (self.new
            ≡ slice_set self.old place (rules.seen_by_ask known.now view.now e))) }
        ensures made { IfSome (slice_get self.old place) (λ e.
            OnOk result (effects.new ≡ effects.old ++ closing.calls_by_ask known.now view.now e)) }
    {
        let (name, fanout) = self.asks.pair_mut(place);
        view_calls(alloc, known, view, *name, fanout, effects)
    }

    /// Closes an ask that has a value, where it is settled.
    pub fn close(&mut self, known: &Known, name: AskName)
        ensures { self.new ≡ closing.close_ask known.now name self.old }
    {
        let settled = match self.asks.get(&name) {
            Some(fanout) => is_settled(known, fanout),
            None => false,
        };
        if settled {
            let _ = self.asks.shift_remove(&name);
        }
    }

    /// Closes each ask but the one that waits for its value, where it is settled.
    pub fn close_all(&mut self, known: &Known, waiting: Option<AskName>)
        ensures { self.new ≡ rules.close_asks known.now (is_waiting waiting) self.old }
    {
        self.asks.retain(
            |name: &AskName, fanout: &mut Fanout| -> bool
                ensures { (result
                    ≡ rules.stays_open known.entry.now (is_waiting waiting) (name.now, fanout.old))
                    × (fanout.new ≡ fanout.old) }
            { stays_open(known, waiting, *name, fanout) },
        );
    }
}

// Whether an ask stays open.
fn stays_open(known: &Known, waiting: Option<AskName>, name: AskName, fanout: &Fanout) -> bool
    ensures { result ≡ rules.stays_open known.now (is_waiting waiting) (name, fanout.now) }
{
    waiting == Some(name) || !is_settled(known, fanout)
}
