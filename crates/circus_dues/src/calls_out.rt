// The calls out of a member and its requests, by its record in the end (docs/PROTOCOL.md, "Calls out").
ghost use Rattle.std.specs.Prelude.{◌≡◌, ◌≤◌, [], ◌++◌, true, if◌then◌else◌, length, IfOk, OnOk, option_copied, option_and_then};
ghost use Rattle.std.specs.Option.{option_map_or};
ghost use Rattle.circus_value.specs.ShapeTree.{FieldTrees};
ghost use Rattle.circus_limits.specs.Limits.{most_modules};
ghost use Rattle.circus_header.specs.CallFields.{IsRequest, IsIncarnation};
ghost use Rattle.circus_external.specs.Spelling.{spelling_of_all, fields_admit};
ghost use Rattle.circus_fanout.specs.Asking as asking;
ghost use Rattle.circus_fanout.specs.Knowing as knowing;
ghost use Rattle.circus_member_rules.specs.Callable.{IsAsked};
ghost use Rattle.circus_member_rules.specs.OpenAsks.{is_waiting, asking_of, with_asking};
ghost use Rattle.circus_member_rules.specs.Rules as rules;
ghost use Rattle.circus_member_rules.specs.Step as step;
ghost use Rattle.circus_dues.specs.Seen.Parts.{MayCallFor, StillMayCall, with_table, calls_by_table, states_by_table, with_opened, calls_by_opening};

use circus_collate::{Table, View, Views};
use circus_fanout::{Fanout, Known};
use circus_header::{CallHeader, Reply, Request};
use circus_member_rules::{
    AskName, Difference, Effects, OpenAsks, Place, ask_for_states, body_of, calls_of_ask, givers,
    look_up, request_to_ring, tell_gone, value_of_ask,
};
use circus_record::AskRecord;
use circus_value::{ListOf, NoMemory, Nodes};
use std::alloc::Global;
use std::marker::Model;

/// What a member knows, and the asks that aren't closed.
pub(crate) struct CallsOut {
    alloc: Global,
    pub known: Known,
    asks: OpenAsks,
}

// Written out, so that dropping one is one step of a proof (docs/PROOFS.md, "Cost").
impl Drop for CallsOut {
    fn drop(self) {
        let CallsOut {
            alloc: _,
            known: _,
            asks: _,
        } = self;
    }
}

impl Model for CallsOut {
    ghost use Rattle.circus_dues.specs.Seen.Parts.{CallsOut};
    ghost use Rattle.circus_dues.specs.Seen.PartsCode.{calls_out_code};

    ghost Value = { CallsOut };

    ghost coded = { calls_out_code };

    ghost view = { λ a. record { known = a.known; asks = a.asks } };
}

impl CallsOut {
    /// At boot, with a view of each troupe.
    pub fn new(alloc: Global, views: Views) -> Result<Self, NoMemory>
        requires { length views ≤ 65536 }
        ensures { IfOk result (λ out.
            out ≡ record { known = knowing.at_boot views; asks = [] }) }
    {
        Ok(CallsOut {
            alloc,
            known: Known::new(alloc, views)?,
            asks: OpenAsks::new(alloc),
        })
    }

    /// A node replies to an ask, and tells where that differs.
    pub fn take_reply(
        &mut self,
        name: AskName,
        from: u16,
        reply: Reply,
    ) -> Result<Option<Difference>, NoMemory>
        ensures kept { OnOk result
            (self.new ≡ record self.old {
              asks = with_asking name (asking.with_reply from reply) self.old.asks;
            }) }
        ensures told { IfOk result (λ told.
            told ≡ option_and_then (rules.difference_by name from reply)
            (asking_of self.old.asks name)) }
        ensures may { OnOk result (StillMayCall self.old self.new) }
    {
        self.asks.take_reply(name, from, reply)
    }

    /// It answers that the ask is before its first call.
    pub fn take_before(&mut self, name: AskName, from: u16)
        ensures kept { self.new
            ≡ record self.old { asks = with_asking name (asking.with_before from) self.old.asks } }
        ensures may { StillMayCall self.old self.new }
    {
        self.asks.take_before(name, from);
    }

    /// It answers that the ask is of an older view than of this incarnation.
    pub fn take_stale(
        &mut self,
        name: AskName,
        server: u16,
        from: u16,
        incarnation: u32,
        effects: &mut Effects,
    ) -> Result<(), NoMemory>
        requires { (place : Place) × MayCallFor place self.old }
        ensures kept { let k = self.old.known in
            OnOk result (self.new ≡ record {
              known = knowing.want_view k server incarnation;
              asks = with_asking name (rules.after_stale k from incarnation) self.old.asks;
            }) }
        ensures made { OnOk result
            (effects.new ≡ effects.old
            ++ option_map_or (rules.call_again self.old.known name from incarnation)
            (asking_of self.old.asks name) []) }
        ensures may { OnOk result (StillMayCall self.old self.new) }
    {
        self.asks
            .take_stale(self.alloc, &self.known, name, from, incarnation, effects)?;
        self.known.want(server, incarnation);
        Ok(())
    }

    /// The Ringmaster answers a request; where it takes the member in, states are asked for.
    pub fn take_table(
        &mut self,
        place: &Place,
        request: Request,
        table: Table,
        taken_in: bool,
        effects: &mut Effects,
    ) -> Result<(), NoMemory>
        requires may { MayCallFor place.now self.old }
        requires view { IsIncarnation table.view.incarnation }
        ensures kept { OnOk result (self.new ≡ with_table self.old request table.view) }
        ensures made { OnOk result
            (effects.new ≡ effects.old
            ++ (calls_by_table self.old request table.view
            ++ states_by_table place.now taken_in
            (step.known_by_table self.old.known request table.view).down table.view)) }
        ensures may { OnOk result (MayCallFor place.now self.new) }
    {
        let incarnation = table.view.incarnation;
        let nodes = self.givers_once(taken_in, place, &table.view)?;
        self.know(place, request, table.view, effects)?;
        ask_for_states(
            self.alloc,
            place.troupe,
            incarnation,
            nodes.as_slice(),
            effects,
        )
    }

    // Those that are asked for the state, once the member is taken in.
    fn givers_once(&self, taken_in: bool, place: &Place, view: &View) -> Result<Nodes, NoMemory>
        ensures { IfOk result (λ nodes.
            nodes ≡ (if taken_in
            then rules.givers place.now.node self.now.known.down view.now
            else [])) }
    {
        if !taken_in {
            return Ok(ListOf::new(self.alloc));
        }
        givers(self.alloc, place.node, self.known.down_nodes(), view)
    }

    // The Ringmaster has answered with a view, which is known where it is newer.
    fn know(
        &mut self,
        place: &Place,
        request: Request,
        view: View,
        effects: &mut Effects,
    ) -> Result<(), NoMemory>
        requires may { MayCallFor place.now self.old }
        requires view { IsIncarnation view.incarnation }
        ensures kept { OnOk result (self.new ≡ with_table self.old request view) }
        ensures made { OnOk result
            (effects.new ≡ effects.old ++ calls_by_table self.old request view) }
    {
        let troupe = view.troupe;
        hear(&mut self.known, request, troupe);
        if !self.known.tell(view) {
            return Ok(());
        }
        match self.known.view(troupe) {
            Some(view) => self.asks.new_view(self.alloc, &self.known, view, effects),
            None => Ok(()),
        }
    }

    /// A node is declared to be down.
    pub fn declare(
        &mut self,
        place: &Place,
        node: u16,
        effects: &mut Effects,
    ) -> Result<(), NoMemory>
        requires { MayCallFor place.now self.old }
        ensures kept { OnOk result
            (self.new ≡ record self.old { known = knowing.note_down self.old.known node }) }
        ensures made { OnOk result
            (effects.new ≡ effects.old
            ++ rules.gone_call place.now (knowing.note_down self.old.known node) node) }
        ensures may { OnOk result (MayCallFor place.now self.new) }
    {
        self.known.declare(node)?;
        tell_gone(self.alloc, place, &self.known, node, effects)
    }

    /// A request to the Ringmaster.
    pub fn request(&self, request: Request, effects: &mut Effects) -> Result<(), NoMemory>
        requires { IsRequest request }
        ensures { OnOk result
            (effects.new ≡ effects.old ++ rules.request_to_ring self.now.known request) }
    {
        request_to_ring(self.alloc, &self.known, request, effects)
    }

    /// An ask is made, with this header: it is opened, and sent to each entry of its server's view that isn't down.
    pub fn open(
        &mut self,
        place: &Place,
        name: AskName,
        header: CallHeader,
        ask: &AskRecord,
        effects: &mut Effects,
    ) -> Result<(), NoMemory>
        requires may { MayCallFor place.now self.old }
        requires asked { IsAsked header }
        requires client { header.client ≡ place.now.troupe }
        requires server { header.server ≡ ask.now.callee }
        requires body { (fields : FieldTrees) × (fields_admit fields ask.now.arguments ≡ true) }
        ensures kept { OnOk result
            (self.new ≡ with_opened self.old name
            (asking.begin_asking header (spelling_of_all ask.now.arguments) place.now.replies)) }
        ensures made { OnOk result
            (effects.new ≡ effects.old ++ calls_by_opening self.old.known name
            (asking.begin_asking header (spelling_of_all ask.now.arguments) place.now.replies)) }
        ensures may { OnOk result (MayCallFor place.now self.new) }
    {
        let Some(view) = self.known.view(ask.callee) else {
            return Ok(());
        };
        let body = body_of(self.alloc, &ask.arguments)?;
        let down = self.known.down_nodes();
        let (fanout, sends) = Fanout::begin(self.alloc, header, body, place.replies, view, down)?;
        calls_of_ask(
            self.alloc,
            &self.known,
            name,
            &fanout,
            sends.as_slice(),
            effects,
        )?;
        self.asks.open(name, fanout)
    }

    /// The reply that the collator gives to an open ask.
    pub fn value(&self, name: AskName) -> Option<&Reply>
        ensures { option_copied result
            ≡ option_and_then (rules.value_of_ask self.now.known) (asking_of self.now.asks name) }
    {
        value_of_ask(&self.known, self.asks.get(name)?)
    }

    /// The end of a step: asks that are settled are closed, but the one that waits, and the views that are wanted looked up.
    pub fn conclude(
        &mut self,
        waits: Option<AskName>,
        effects: &mut Effects,
    ) -> Result<(), NoMemory>
        requires { length self.old.known.views ≤ most_modules }
        ensures kept { OnOk result
            (self.new ≡ record {
              known = knowing.note_lookup self.old.known rules.ringmaster;
              asks = rules.close_asks self.old.known (is_waiting waits) self.old.asks;
            }) }
        ensures made { OnOk result (effects.new ≡ effects.old ++ rules.lookups self.old.known) }
        ensures may { OnOk result (StillMayCall self.old self.new) }
    {
        self.asks.close_all(&self.known, waits);
        look_up(self.alloc, &mut self.known, effects)
    }
}

// The Ringmaster has answered a request for a troupe's view.
fn hear(known: &mut Known, request: Request, troupe: u16)
    ensures { known.new ≡ step.answered_by_ring known.old request troupe }
{
    if let Request::Lookup(_) = request {
        known.answer(troupe);
    }
}
