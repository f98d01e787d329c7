// The calls that wait.
ghost use Rattle.std.specs.Prelude.{◌≡◌, not, ◌++◌, [], ◌∷◌, filter, map, OnOk, OnErr, IfOk};
ghost use Rattle.circus_gather.specs.Gathering as gathering;
ghost use Rattle.circus_gather.specs.Seen.Groups.{is_in_group};
ghost use Rattle.circus_gather.specs.Seen.Slots as slots_seen;

use crate::HeldCall;
use crate::call_value::CallValue;
use crate::group::{Group, is_of_index};
use crate::held::index_of;
use crate::places::{Places, note, places_without, take};
use crate::slots::{all_calls, call_at, empty_slots, give_up};
use circus_collate::{Said, Views};
use circus_value::{Callers, ListOf, NoMemory};
use indexmap::IndexMap;
use std::alloc::Global;
use std::marker::Model;

/// The calls to a module that wait for their reply, in order of arrival. Those of one index are found at once.
#[derive(Drop)]
pub(crate) struct Waiting {
    alloc: Global,
    module: u16,
    slots: Vec<Option<HeldCall>>,
    places: Places,
}

impl Model for Waiting {
    ghost use Rattle.circus_gather.specs.Seen.Groups.{Waits};
    ghost use Rattle.circus_gather.specs.Seen.Slots.{items_in, AreFound};

    ghost Value = { Waits };

    ghost view = { λ a. record { «module» = a.module; calls = items_in a.slots.items } };

    ghost invariant = { λ a. AreFound a.module a.slots.items a.places.entries };
}

impl Waiting {
    /// No calls, for a member of this module. It takes no memory.
    pub fn new(alloc: Global, module: u16) -> Self
        ensures { result ≡ record { «module» = «module»; calls = [] } }
    {
        Waiting {
            alloc,
            module,
            slots: Vec::new(alloc),
            places: IndexMap::new(alloc),
        }
    }

    /// The module of the member.
    pub fn module(&self) -> u16
        ensures { result ≡ self.now.«module» }
    {
        self.module
    }

    /// Adds a call behind the others. After `NoMemory` nothing has changed.
    pub fn push(&mut self, call: HeldCall) -> Result<(), NoMemory>
        ensures ok { OnOk result
            (self.new ≡ record self.old { calls = self.old.calls ++ call ∷ [] }) }
        ensures err { OnErr result (self.new ≡ self.old) }
    {
        let index = index_of(self.module, &call.header);
        let place = self.slots.len();
        self.slots.reserve(1)?;
        note(self.alloc, &mut self.places, index, place)?;
        self.slots.push_reserved(Some(call));
        Ok(())
    }

    /// Who made the calls of an index, in order of arrival.
    pub fn callers_of(&self, index: u32) -> Result<Callers, NoMemory>
        ensures { IfOk result (λ callers.
            callers ≡ gathering.callers
            (filter (gathering.is_of_index self.now.«module» index) self.now.calls)) }
    {
        match self.places.get(&index) {
            Some(places) => senders_at(self.alloc, self.slots.as_slice(), places.as_slice()),
            None => Ok(ListOf::new(self.alloc)),
        }
    }

    /// Takes out the calls of an index.
    pub fn remove_of(&mut self, index: u32)
        ensures { self.new
            ≡ record self.old {
              calls = filter (λ c.
                  not (gathering.is_of_index self.old.«module» index c)) self.old.calls;
            } }
    {
        let places = take(self.alloc, &mut self.places, index);
        empty_slots(&mut self.slots, places.as_slice());
        give_up(&mut self.slots, &self.places);
    }

    /// Who made the calls of a group, in order of arrival.
    pub fn callers(&self, group: Group) -> Result<Callers, NoMemory>
        ensures { IfOk result (λ callers.
            callers ≡ gathering.callers
            (filter (is_in_group self.now.«module» group) self.now.calls)) }
    {
        let calls = all_calls(self.alloc, self.slots.as_slice())?;
        callers_in(self.alloc, self.module, calls.as_slice(), group)
    }

    /// Takes out the calls of a group. After `NoMemory` nothing has changed.
    pub fn remove(&mut self, group: Group) -> Result<(), NoMemory>
        ensures ok { OnOk result
            (self.new ≡ record self.old
            { calls = filter (λ c. not (is_in_group self.old.«module» group c)) self.old.calls }) }
        ensures err { OnErr result (self.new ≡ self.old) }
    {
        let module = self.module;
        self.places = places_without(self.alloc, module, self.slots.as_slice(), group)?;
        self.slots.retain(|slot| group.spares(module, slot));
        Ok(())
    }

    /// What is said by the calls that count for a run, in order of arrival.
    pub fn values_said(
        &self,
        required: u32,
        views: &Views,
        index: u32,
    ) -> Result<ListOf<Said<CallValue<'_>>>, NoMemory>
        ensures { IfOk result (λ said.
            said ≡ map gathering.as_said
            (filter (gathering.is_counted self.now.«module» required views.now index)
            self.now.calls)) }
    {
        match self.places.get(&index) {
            Some(places) => said_at(
                self.alloc,
                self.module,
                self.slots.as_slice(),
                places.as_slice(),
                required,
                views,
                index,
            ),
            None => Ok(ListOf::new(self.alloc)),
        }
    }
}

// Who made the calls at places.
#[tactic(auto, using(crate::proofs::Standing::made_more, crate::proofs::Standing::made_none, crate::proofs::Standing::made_all))]
fn senders_at(
    alloc: Global,
    slots: &[Option<HeldCall>],
    places: &[usize],
) -> Result<Callers, NoMemory>
    ensures { IfOk result (λ callers.
        callers ≡ gathering.callers (slots_seen.calls_at slots.now places.now)) }
{
    let mut callers = ListOf::new(alloc);
    for place in places {
        if let Some(call) = call_at(slots, *place) {
            callers.push(call.sender)?;
        }
    }
    Ok(callers)
}

#[tactic(auto, using(circus_collate::proofs::Going::made_more, circus_collate::proofs::Going::passed_over, circus_collate::proofs::Going::made_all))]
fn callers_in(
    alloc: Global,
    module: u16,
    calls: &[CallValue<'_>],
    group: Group,
) -> Result<Callers, NoMemory>
    ensures { IfOk result (λ callers.
        callers ≡ gathering.callers (filter (is_in_group «module» group) calls.now)) }
{
    let mut callers = ListOf::new(alloc);
    for call in calls {
        if group.has(module, call.call()) {
            callers.push(call.sender())?;
        }
    }
    Ok(callers)
}

// What is said by the calls at places that count for a run.
#[tactic(auto, using(crate::proofs::Standing::passed_more, crate::proofs::Standing::passed_over, crate::proofs::Standing::passed_none, crate::proofs::Standing::passed_all))]
fn said_at<'a>(
    alloc: Global,
    module: u16,
    slots: &'a [Option<HeldCall>],
    places: &[usize],
    required: u32,
    views: &Views,
    index: u32,
) -> Result<ListOf<Said<CallValue<'a>>>, NoMemory>
    ensures { IfOk result (λ said.
        said ≡ map gathering.as_said
        (filter (gathering.is_counted «module» required views.now index)
        (slots_seen.calls_at slots.now places.now))) }
{
    let mut said = ListOf::new(alloc);
    for place in places {
        if let Some(call) = call_at(slots, *place)
            && is_counted(module, required, views, index, call)
        {
            said.push(as_said(call))?;
        }
    }
    Ok(said)
}

fn as_said(call: &HeldCall) -> Said<CallValue<'_>>
    ensures { result ≡ gathering.as_said call.now }
{
    Said {
        node: call.sender.node,
        value: CallValue::of(call),
    }
}

#[tactic(auto, unfolding(crate::specs::Gathering::is_counted))]
fn is_counted(module: u16, required: u32, views: &Views, index: u32, call: &HeldCall) -> bool
    ensures { result ≡ gathering.is_counted «module» required views.now index call.now }
{
    is_of_index(module, index, call)
        && required <= call.header.server_incarnation
        && is_known(views, call.header.client, call.header.client_incarnation)
}

fn is_known(views: &Views, troupe: u16, incarnation: u32) -> bool
    ensures { result ≡ gathering.is_known views.now troupe incarnation }
{
    match views.get(usize::from(troupe)) {
        Some(view) => incarnation <= view.incarnation,
        None => false,
    }
}
