// A step so far: what the member is, and what it has made.
ghost use Rattle.std.specs.Prelude.{◌≡◌, ◌≤◌, [], if◌then◌else◌, length, IfOk, OnOk, option_map};
ghost use Rattle.circus_limits.specs.Limits.{most_modules};
ghost use Rattle.circus_header.specs.CallFields.{IsIncarnation};
ghost use Rattle.circus_model.specs.Lawful.{IsState};
ghost use Rattle.circus_performing.specs.Performing as performing;
ghost use Rattle.circus_performing.specs.Record.{behaviour};
ghost use Rattle.circus_member_rules.specs.MemberState.{behind};
ghost use Rattle.circus_member_rules.specs.Rules as rules;
ghost use Rattle.circus_member_rules.specs.Step as step;
ghost use Rattle.circus_member_rules.specs.Seen.Closing.{closed_by};
ghost use Rattle.circus_member.specs.Seen.Within as within;
ghost use Rattle.circus_member_rules.specs.Callable.{AreViews, AllMayCall, AreReplies, AreHosts};
ghost use Rattle.circus_member_rules.specs.Happening.{IsHome, CanHappen};
ghost use Rattle.circus_member_rules.specs.Seen.Sound.{AreOpen, IsSound, HasTurned, MayStart};

use crate::member_state::MemberState;
use circus_collate::{Table, View};
use circus_fanout::{Fanout, Known};
use circus_header::{CallHeader, Reply, Request};
use circus_member_rules::{
    AskName, Concern, Difference, Effects, Occurrence, answer_all, ask_for_states, begin_at,
    body_of, calls_of_ask, close_by, givers, header_of_ask, index_of_last, is_idle, look_up,
    name_of_last, name_of_open, reply_message, reply_of_run, request_to_ring, start_of_call,
    take_call, take_state_request, tell_gone, value_of_ask,
};
use circus_model::Module;
use circus_performing::{Performer, RunStart};
use circus_transfer::{Joiner, snapshot};
use circus_value::{Caller, Duplicate, ListOf, NoMemory, Nodes, Parts, State};
use std::marker::Model;
use std::mem;

/// A member in a step, and what it has made so far.
#[derive(Drop)]
pub(crate) struct Doing<M: Module> {
    pub member: MemberState<M>,
    pub effects: Effects,
}

impl<M: Module> Model for Doing<M> {
    ghost use Rattle.circus_member_rules.specs.MemberState.{Doing};
    ghost use Rattle.circus_member.specs.Seen.StateCode.{doing_code};
    ghost use Rattle.circus_member.specs.Seen.Parts.{member_of};

    ghost Value = { Doing M };

    ghost coded = { doing_code M.code };

    ghost view = { λ a. record { member = member_of a.member; effects = a.effects } };
}

impl<M: Module> Doing<M> {
    /// The same in a box, in which a step moves it (docs/PROOFS.md, "Speed").
    pub fn into_box(self) -> Result<Box<Self>, NoMemory>
        ensures { IfOk result (λ doing. doing.value ≡ self) }
    {
        let alloc = self.member.alloc;
        Ok(Box::new(alloc, self)?)
    }

    /// What happens is handled, and a reply that differs is told.
    pub fn handle(
        mut doing: Box<Self>,
        at: u64,
        occurrence: Occurrence,
    ) -> Result<(Box<Self>, Option<Difference>), NoMemory>
        requires sound { let m = doing.value.member in
            IsSound (behaviour M.declared M.turn M.first m.performing.hosted) m }
        requires can { let m = doing.value.member in
            CanHappen (M.declared m.performing.hosted) m occurrence }
        ensures kept { IfOk result (λ done.
            done.0.value ≡ behind doing.value (step.handle at occurrence doing.value.member)) }
        ensures told { IfOk result (λ done.
            done.1 ≡ step.difference occurrence doing.value.member) }
        ensures sound { IfOk result (λ done.
            IsSound (behaviour M.declared M.turn M.first done.0.value.member.performing.hosted)
            done.0.value.member) }
    {
        let inside = &mut *doing;
        match occurrence {
            Occurrence::Asked {
                header,
                body,
                sender,
            } => {
                inside.handle_call(header, body, sender)?;
                Ok((doing, None))
            }
            Occurrence::Fetched {
                incarnation,
                sender,
            } => {
                inside.handle_fetch(incarnation, sender)?;
                Ok((doing, None))
            }
            Occurrence::Replied { name, from, reply } => {
                let difference = inside.handle_reply(name, from, reply)?;
                Ok((doing, difference))
            }
            Occurrence::IsStale {
                name,
                server,
                from,
                incarnation,
            } => {
                inside.handle_stale(name, server, from, incarnation)?;
                Ok((doing, None))
            }
            Occurrence::IsBefore { name, from } => {
                inside.handle_before(name, from);
                Ok((doing, None))
            }
            Occurrence::Told { request, table } => {
                inside.handle_table(request, table)?;
                Ok((doing, None))
            }
            Occurrence::Restored { state, count } => {
                Ok((Doing::restore(doing, at, state, count)?, None))
            }
            Occurrence::Declared(node) => {
                inside.handle_down(node)?;
                Ok((doing, None))
            }
            Occurrence::Joins => {
                inside.joins()?;
                Ok((doing, None))
            }
        }
    }

    fn handle_call(
        &mut self,
        header: CallHeader,
        body: Parts,
        sender: Caller,
    ) -> Result<(), NoMemory>
        requires { AreReplies self.old.member.gathered.replies }
        ensures { OnOk result
            (self.new ≡ behind self.old (step.handle_call self.old.member header body sender)) }
    {
        take_call(
            self.member.alloc,
            &mut self.member.known,
            &mut self.member.gather,
            &mut self.effects,
            header,
            body,
            sender,
        )
    }

    fn handle_fetch(&mut self, incarnation: u32, sender: Caller) -> Result<(), NoMemory>
        requires { IsIncarnation incarnation }
        ensures { OnOk result
            (self.new ≡ behind self.old (step.handle_fetch self.old.member incarnation sender)) }
    {
        take_state_request(
            self.member.alloc,
            &mut self.member.gather,
            &mut self.member.requests,
            &mut self.effects,
            incarnation,
            sender,
        )
    }

    fn handle_reply(
        &mut self,
        name: AskName,
        from: u16,
        reply: Reply,
    ) -> Result<Option<Difference>, NoMemory>
        ensures kept { OnOk result
            (self.new ≡ behind self.old (step.handle_reply self.old.member name from reply)) }
        ensures told { IfOk result (λ told.
            told ≡ step.difference (Occurrence.Replied name from reply) self.old.member) }
    {
        self.member.asks.take_reply(name, from, reply)
    }

    fn handle_stale(
        &mut self,
        name: AskName,
        server: u16,
        from: u16,
        incarnation: u32,
    ) -> Result<(), NoMemory>
        requires asks { AllMayCall self.old.member.known self.old.member.asks }
        requires views { AreViews self.old.member.known }
        ensures { OnOk result
            (self.new ≡ behind self.old
            (step.handle_stale self.old.member name server from incarnation)) }
    {
        self.member.asks.take_stale(
            self.member.alloc,
            &self.member.known,
            name,
            from,
            incarnation,
            &mut self.effects,
        )?;
        self.member.known.want(server, incarnation);
        Ok(())
    }

    fn handle_before(&mut self, name: AskName, from: u16)
        ensures { self.new ≡ behind self.old (step.before self.old.member name from) }
    {
        self.member.asks.take_before(name, from);
    }

    // The Ringmaster answers a request.
    fn handle_table(&mut self, request: Request, table: Table) -> Result<(), NoMemory>
        requires home { IsHome
            (M.declared self.old.member.performing.hosted) self.old.member.place
            self.old.member.known.views }
        requires asks { AreOpen
            (M.declared self.old.member.performing.hosted) self.old.member.place.troupe
            (length self.old.member.known.views) self.old.member.asks }
        requires table { IsIncarnation table.view.incarnation }
        ensures { OnOk result
            (self.new ≡ behind self.old (step.handle_table self.old.member request table)) }
    {
        let before = self.member.performer.record().phase;
        take_in(&mut self.member.performer, request, &table);
        let taken_in = is_taken_in(before, self.member.performer.record().phase);
        let incarnation = table.view.incarnation;
        let nodes = self.givers_once(taken_in, &table.view)?;
        self.know(request, table.view)?;
        ask_for_states(
            self.member.alloc,
            self.member.place.troupe,
            incarnation,
            nodes.as_slice(),
            &mut self.effects,
        )
    }

    // Those that are asked for the state, once the member was taken in.
    fn givers_once(&self, taken_in: bool, view: &View) -> Result<Nodes, NoMemory>
        ensures { IfOk result (λ nodes.
            nodes ≡ (if taken_in
            then rules.givers self.now.member.place.node self.now.member.known.down view.now
            else [])) }
    {
        if !taken_in {
            return Ok(ListOf::new(self.member.alloc));
        }
        givers(
            self.member.alloc,
            self.member.place.node,
            self.member.known.down_nodes(),
            view,
        )
    }

    // The Ringmaster has answered with a view, which is known where it is newer.
    fn know(&mut self, request: Request, view: View) -> Result<(), NoMemory>
        requires home { IsHome
            (M.declared self.old.member.performing.hosted) self.old.member.place
            self.old.member.known.views }
        requires asks { AreOpen
            (M.declared self.old.member.performing.hosted) self.old.member.place.troupe
            (length self.old.member.known.views) self.old.member.asks }
        requires view { IsIncarnation view.incarnation }
        ensures { OnOk result (self.new ≡ within.seen_by self.old request view) }
    {
        let troupe = view.troupe;
        hear(&mut self.member.known, request, troupe);
        if !self.member.known.tell(view) {
            return Ok(());
        }
        let Some(view) = self.member.known.view(troupe) else {
            return Ok(());
        };
        self.member.asks.new_view(
            self.member.alloc,
            &self.member.known,
            view,
            &mut self.effects,
        )
    }

    fn handle_down(&mut self, node: u16) -> Result<(), NoMemory>
        requires { AreHosts self.old.member.place }
        ensures { OnOk result
            (self.new ≡ behind self.old (step.declared_down self.old.member node)) }
    {
        self.member.known.declare(node)?;
        tell_gone(
            self.member.alloc,
            &self.member.place,
            &self.member.known,
            node,
            &mut self.effects,
        )
    }

    fn joins(&mut self) -> Result<(), NoMemory>
        requires { IsHome
            (M.declared self.old.member.performing.hosted) self.old.member.place
            self.old.member.known.views }
        ensures { OnOk result (self.new ≡ behind self.old (step.joins self.old.member)) }
    {
        self.member.performer.join();
        let request = Request::Join(self.member.place.troupe, self.member.place.node);
        request_to_ring(
            self.member.alloc,
            &self.member.known,
            request,
            &mut self.effects,
        )
    }

    // A state comes to a member in a box.
    fn restore(doing: Box<Self>, at: u64, state: State, count: u32) -> Result<Box<Self>, NoMemory>
        requires sound { let m = doing.value.member in
            IsSound (behaviour M.declared M.turn M.first m.performing.hosted) m }
        requires state { IsState (M.declared doing.value.member.performing.hosted) state }
        ensures kept { IfOk result (λ d.
            d.value ≡ behind doing.value (step.handle_state at doing.value.member state count)) }
        ensures sound { IfOk result (λ d.
            IsSound (behaviour M.declared M.turn M.first d.value.member.performing.hosted)
            d.value.member) }
    {
        Box::into_inner(doing)
            .handle_state(at, state, count)?
            .into_box()
    }

    // A state comes: one that fetches a state has it, and is active from its count on.
    fn handle_state(mut self, at: u64, state: State, count: u32) -> Result<Self, NoMemory>
        requires sound { IsSound
            (behaviour M.declared M.turn M.first self.member.performing.hosted) self.member }
        requires state { IsState (M.declared self.member.performing.hosted) state }
        ensures kept { IfOk result (λ d.
            d ≡ behind self (step.handle_state at self.member state count)) }
        ensures sound { IfOk result (λ d.
            IsSound (behaviour M.declared M.turn M.first d.member.performing.hosted) d.member) }
    {
        if !is_fetching(self.member.performer.record().phase) {
            return Ok(self);
        }
        self.member = self.member.activate(state, count, at)?;
        self.begin(count)?;
        Ok(self)
    }

    // The member is active from this call on, and tells so.
    fn begin(&mut self, count: u32) -> Result<(), NoMemory>
        requires { IsHome
            (M.declared self.old.member.performing.hosted) self.old.member.place
            self.old.member.known.views }
        ensures { OnOk result (self.new ≡ step.begin_behind self.old count) }
    {
        let request = Request::Active(self.member.place.troupe, self.member.place.node, count);
        request_to_ring(
            self.member.alloc,
            &self.member.known,
            request,
            &mut self.effects,
        )?;
        begin_at(
            self.member.alloc,
            &mut self.member.gather,
            &mut self.effects,
            count,
        )
    }

    /// The execution goes on as far as it can.
    pub fn execute(doing: Box<Self>, at: u64) -> Result<Box<Self>, NoMemory>
        requires { let m = doing.value.member in
            IsSound (behaviour M.declared M.turn M.first m.performing.hosted) m }
        ensures { IfOk result (λ d. d.value ≡ step.execute M.declared M.turn at doing.value) }
    {
        let mut doing = Doing::answer_open(doing, at)?;
        'starts: loop {
            doing.give_states()?;
            match doing.next_start()? {
                Some(start) => doing = Doing::enter_boxed(doing, start, at)?,
                None => return Ok(doing),
            }
        }
    }

    // The open ask is answered, if its collator gives a value, and the run goes on.
    fn answer_open(doing: Box<Self>, at: u64) -> Result<Box<Self>, NoMemory>
        requires { let m = doing.value.member in
            IsSound (behaviour M.declared M.turn M.first m.performing.hosted) m }
        ensures { IfOk result (λ d. d.value ≡ step.answered_open M.turn at doing.value) }
    {
        match doing.value_of_open()? {
            Some(reply) => Doing::answer_boxed(doing, reply, at),
            None => Ok(doing),
        }
    }

    fn value_of_open(&self) -> Result<Option<Reply>, NoMemory>
        ensures { IfOk result (λ value. value ≡ step.value_of_open self.now.member) }
    {
        let Some(name) = name_of_open(&self.member.performer) else {
            return Ok(None);
        };
        let Some(fanout) = self.member.asks.get(name) else {
            return Ok(None);
        };
        match value_of_ask(&self.member.known, fanout) {
            Some(reply) => Ok(Some(reply.copy()?)),
            None => Ok(None),
        }
    }

    // So of a member in a box, out of which it comes only here and in `enter_boxed`: its performer is handed over by value.
    fn answer_boxed(doing: Box<Self>, reply: Reply, at: u64) -> Result<Box<Self>, NoMemory>
        requires sound { let m = doing.value.member in
            IsSound (behaviour M.declared M.turn M.first m.performing.hosted) m }
        requires value { step.value_of_open doing.value.member ≡ Some reply }
        ensures { IfOk result (λ d. d.value ≡ step.answered_by M.turn at doing.value reply) }
    {
        Box::into_inner(doing).answer(reply, at)?.into_box()
    }

    fn answer(mut self, reply: Reply, at: u64) -> Result<Self, NoMemory>
        requires sound { IsSound
            (behaviour M.declared M.turn M.first self.member.performing.hosted) self.member }
        requires value { step.value_of_open self.member ≡ Some reply }
        ensures { IfOk result (λ d. d ≡ step.answered_by M.turn at self reply) }
    {
        self.member = self.member.answer(reply, at)?;
        self.after_turns()?;
        Ok(self)
    }

    /// A run is entered.
    pub fn enter(mut self, start: RunStart, at: u64) -> Result<Self, NoMemory>
        requires sound { IsSound
            (behaviour M.declared M.turn M.first self.member.performing.hosted) self.member }
        requires may { MayStart (M.declared self.member.performing.hosted) self.member start }
        ensures { IfOk result (λ d. d ≡ step.enter_run_of M.turn at self start) }
    {
        let count = self.member.performer.record().count;
        self.member.gather.started(count);
        self.member = self.member.enter(start, at)?;
        self.after_turns()?;
        Ok(self)
    }

    fn enter_boxed(doing: Box<Self>, start: RunStart, at: u64) -> Result<Box<Self>, NoMemory>
        requires sound { let m = doing.value.member in
            IsSound (behaviour M.declared M.turn M.first m.performing.hosted) m }
        requires may { let m = doing.value.member in
            MayStart (M.declared m.performing.hosted) m start }
        ensures { IfOk result (λ d. d.value ≡ step.enter_run_of M.turn at doing.value start) }
    {
        Box::into_inner(doing).enter(start, at)?.into_box()
    }

    // Behind turns of the last run: it asks, or has ended.
    fn after_turns(&mut self) -> Result<(), NoMemory>
        requires { HasTurned
            (behaviour M.declared M.turn M.first self.old.member.performing.hosted)
            self.old.member }
        ensures { OnOk result (self.new ≡ step.after_turns self.old) }
    {
        let member = &self.member;
        if member.performer.open_ask().is_some() {
            self.open_ask()
        } else {
            self.end_run()
        }
    }

    // A call is sent to each entry of the view that isn't down.
    fn open_ask(&mut self) -> Result<(), NoMemory>
        requires { HasTurned
            (behaviour M.declared M.turn M.first self.old.member.performing.hosted)
            self.old.member }
        ensures { OnOk result (self.new ≡ within.opened_last self.old) }
    {
        let Some(last) = self.member.performer.last_run() else {
            return Ok(());
        };
        let Some(ask) = self.member.performer.open_ask() else {
            return Ok(());
        };
        let Some(view) = self.member.known.view(ask.callee) else {
            return Ok(());
        };
        let record = self.member.performer.record();
        let name = name_of_last(record);
        let header = header_of_ask(
            self.member.alloc,
            self.member.place.troupe,
            record,
            last,
            ask,
        )?;
        let body = body_of(self.member.alloc, &ask.arguments)?;
        let (fanout, sends) = Fanout::begin(
            self.member.alloc,
            header,
            body,
            self.member.place.replies,
            view,
            self.member.known.down_nodes(),
        )?;
        calls_of_ask(
            self.member.alloc,
            &self.member.known,
            name,
            &fanout,
            sends.as_slice(),
            &mut self.effects,
        )?;
        self.member.asks.open(name, fanout)
    }

    // The run has ended: its callers are answered, and its reply is kept.
    fn end_run(&mut self) -> Result<(), NoMemory>
        requires turned { HasTurned
            (behaviour M.declared M.turn M.first self.old.member.performing.hosted)
            self.old.member }
        requires ended { performing.open_ask self.old.member.performing.kept ≡ None }
        ensures { OnOk result (self.new ≡ within.ended_last self.old) }
    {
        let Some(last) = self.member.performer.last_run() else {
            return Ok(());
        };
        let index = index_of_last(self.member.performer.record());
        let reply = reply_of_run(self.member.alloc, last)?;
        let message = reply_message(self.member.alloc, &reply)?;
        let callers = self.member.gather.finish(index, reply)?;
        answer_all(self.member.alloc, &callers, message, &mut self.effects)
    }

    // Those that asked for its state are given it.
    fn give_states(&mut self) -> Result<(), NoMemory>
        ensures { OnOk result (self.new ≡ step.given_states self.old) }
    {
        if self.member.requests.is_empty() {
            return Ok(());
        }
        if !is_idle(&self.member.performer) {
            return Ok(());
        }
        let record = self.member.performer.record();
        let variables = &self.member.performer.signature().variables;
        let message = snapshot(self.member.alloc, &record.state, variables, record.count)?;
        answer_all(
            self.member.alloc,
            &self.member.requests,
            message,
            &mut self.effects,
        )?;
        self.member.requests = ListOf::new(self.member.alloc);
        Ok(())
    }

    // How the run of the call that starts next is entered.
    fn next_start(&self) -> Result<Option<RunStart>, NoMemory>
        ensures { IfOk result (λ start.
            start ≡ option_map
            (step.start_by_call self.now.member.place.troupe
            (M.declared self.now.member.performing.hosted).procedures)
            (step.next_start self.now.member)) }
    {
        if !is_idle(&self.member.performer) {
            return Ok(None);
        }
        let ready = self.member.gather.ready(
            self.member.performer.record().count,
            self.member.place.calls,
            self.member.known.views(),
            self.member.known.down_nodes(),
        )?;
        match ready {
            Some(call) => {
                let procedures = &self.member.performer.signature().procedures;
                let start = start_of_call(
                    self.member.alloc,
                    self.member.place.troupe,
                    procedures,
                    call,
                )?;
                Ok(Some(start))
            }
            None => Ok(None),
        }
    }

    /// The asks that a step concerns are closed, and the one that waited before it.
    pub fn close(&mut self, concern: Concern, waited: Option<AskName>)
        ensures { self.new ≡ closed_by concern waited self.old }
    {
        let waits = name_of_open(&self.member.performer);
        close_by(
            &mut self.member.asks,
            &self.member.known,
            waits,
            concern,
            waited,
        );
    }

    /// The views that are wanted are looked up.
    pub fn look_up(&mut self) -> Result<(), NoMemory>
        requires { length self.old.member.known.views ≤ most_modules }
        ensures { OnOk result (self.new ≡ step.look_up self.old) }
    {
        look_up(self.member.alloc, &mut self.member.known, &mut self.effects)
    }

    /// The name of the ask that waits for its value.
    pub fn waited(&self) -> Option<AskName>
        ensures { let kept = self.now.member.performing.kept in
            result ≡ option_map (λ _. step.name_of_last kept) (performing.open_ask kept) }
    {
        name_of_open(&self.member.performer)
    }

    /// What it has made, which it gives away.
    pub fn take_effects(&mut self) -> Effects
        ensures made { result ≡ self.old.effects }
        ensures left { self.new ≡ record self.old { effects = [] } }
    {
        let none = ListOf::new(self.member.alloc);
        mem::replace(&mut self.effects, none)
    }
}

// Whether a member fetches a state.
fn is_fetching(phase: Joiner) -> bool
    ensures { result ≡ performing.is_fetching phase }
{
    matches!(phase, Joiner::Fetching(_))
}

// Whether a member has been taken in between these phases.
fn is_taken_in(before: Joiner, after: Joiner) -> bool
    ensures { result ≡ step.is_taken_in before after }
{
    !is_fetching(before) && is_fetching(after)
}

// The Ringmaster has answered a request for a troupe's view.
fn hear(known: &mut Known, request: Request, troupe: u16)
    ensures { known.new ≡ step.answered_by_ring known.old request troupe }
{
    if let Request::Lookup(_) = request {
        known.answer(troupe);
    }
}

// It has answered the member's Join.
fn take_in<M: Module>(performer: &mut Performer<M>, request: Request, table: &Table)
    ensures { performer.new
        ≡ record performer.old { kept = step.kept_by_table performer.old.kept request table.now } }
{
    if let Request::Join(_, _) = request {
        performer.take_in(table);
    }
}
