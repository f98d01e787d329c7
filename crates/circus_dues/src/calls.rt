// The calls in of a member, by its record in the end (docs/PROTOCOL.md, "Calls in").
ghost use Rattle.std.specs.Prelude.{◌≡◌, [], ◌∷◌, ◌++◌, true, None, IfOk, OnOk, option_copied};
ghost use Rattle.circus_value.specs.Fits.{all_fit};
ghost use Rattle.circus_header.specs.CallFields.{IsIncarnation};
ghost use Rattle.circus_transfer.specs.Snapshot.{snapshot_bytes};
ghost use Rattle.circus_gather.specs.Gathering as gathering;
ghost use Rattle.circus_member_rules.specs.Callable.{AreReplies, IsReply};
ghost use Rattle.circus_member_rules.specs.Messages as messages;
ghost use Rattle.circus_member_rules.specs.Rules as rules;
ghost use Rattle.circus_member_rules.specs.Step as step;

use circus_collate::Kind;
use circus_fanout::Known;
use circus_gather::{Gather, HeldCall};
use circus_header::CallHeader;
use circus_member_rules::{
    Effects, answer_all, begin_at, reply_message, reply_of_run, take_call, take_state_request,
};
use circus_record::RunRecord;
use circus_transfer::snapshot;
use circus_value::{Caller, Callers, ListOf, NoMemory, Parts, Shapes, State};
use std::alloc::Global;
use std::marker::Model;

/// The asks that wait for their return, and the state requests that wait for a snapshot.
pub(crate) struct CallsIn {
    alloc: Global,
    gather: Gather,
    requests: Callers,
}

// Written out, so that dropping one is one step of a proof (docs/PROOFS.md, "Cost").
impl Drop for CallsIn {
    fn drop(self) {
        let CallsIn {
            alloc: _,
            gather: _,
            requests: _,
        } = self;
    }
}

impl Model for CallsIn {
    ghost use Rattle.circus_dues.specs.Seen.Parts.{CallsIn};
    ghost use Rattle.circus_dues.specs.Seen.PartsCode.{calls_in_code};

    ghost Value = { CallsIn };

    ghost coded = { calls_in_code };

    ghost view = { λ a. record { gathered = a.gather; requests = a.requests } };
}

impl CallsIn {
    /// Those of a member of this troupe at boot, which performs the calls from this index on.
    pub fn new(alloc: Global, troupe: u16, from: u32) -> Self
        ensures { result ≡ record { gathered = gathering.before_any troupe from; requests = [] } }
    {
        CallsIn {
            alloc,
            gather: Gather::new(alloc, troupe, from),
            requests: ListOf::new(alloc),
        }
    }

    /// An ask comes: it is answered at once, or waits, and the view of its client is wanted.
    pub fn take(
        &mut self,
        known: &mut Known,
        header: CallHeader,
        body: Parts,
        sender: Caller,
        effects: &mut Effects,
    ) -> Result<(), NoMemory>
        requires { AreReplies self.old.gathered.replies }
        ensures held { OnOk result
            (self.new ≡ record self.old {
              gathered = gathering.with_call self.old.gathered
                  (record { header = header; body = body; sender = sender });
            }) }
        ensures wanted { OnOk result
            (known.new ≡ rules.wanted_by_call
            (gathering.answer_to self.old.gathered header) header known.old) }
        ensures made { OnOk result
            (effects.new ≡ effects.old
            ++ rules.answer_at_once (gathering.answer_to self.old.gathered header) sender) }
    {
        take_call(
            self.alloc,
            known,
            &mut self.gather,
            effects,
            header,
            body,
            sender,
        )
    }

    /// The state is asked for: asks of older views are told.
    pub fn take_request(
        &mut self,
        incarnation: u32,
        sender: Caller,
        effects: &mut Effects,
    ) -> Result<(), NoMemory>
        requires { IsIncarnation incarnation }
        ensures held { OnOk result
            (self.new ≡ record {
              gathered = gathering.with_required self.old.gathered incarnation;
              requests = self.old.requests ++ sender ∷ [];
            }) }
        ensures made { OnOk result
            (effects.new ≡ effects.old ++ rules.stale_answers self.old.gathered incarnation) }
    {
        take_state_request(
            self.alloc,
            &mut self.gather,
            &mut self.requests,
            effects,
            incarnation,
            sender,
        )
    }

    /// The member is active from this call on: asks of earlier ones are told.
    pub fn begin(&mut self, first: u32, effects: &mut Effects) -> Result<(), NoMemory>
        ensures held { OnOk result
            (self.new ≡ record self.old {
              gathered = gathering.with_first self.old.gathered first;
            }) }
        ensures made { OnOk result
            (effects.new ≡ effects.old ++ rules.before_answers self.old.gathered first) }
    {
        begin_at(self.alloc, &mut self.gather, effects, first)
    }

    /// The call that the collator gives for the run of an index.
    pub fn ready(
        &self,
        index: u32,
        kind: Kind,
        known: &Known,
    ) -> Result<Option<&HeldCall>, NoMemory>
        ensures { IfOk result (λ call.
            option_copied call ≡ gathering.call_to_start self.now.gathered known.now.views
            known.now.down kind index) }
    {
        self.gather
            .ready(index, kind, known.views(), known.down_nodes())
    }

    /// The run of an index has started.
    pub fn start(&mut self, index: u32)
        ensures { self.new
            ≡ record self.old { gathered = gathering.with_start self.old.gathered index } }
    {
        self.gather.started(index);
    }

    /// It has ended: those that wait for it get its reply.
    pub fn end(
        &mut self,
        index: u32,
        run: &RunRecord,
        effects: &mut Effects,
    ) -> Result<(), NoMemory>
        requires reply { IsReply (step.reply_of_run run.now) }
        requires fresh { gathering.reply_of self.old.gathered index ≡ None }
        ensures held { OnOk result
            (self.new ≡ record self.old {
              gathered = gathering.with_end self.old.gathered index (step.reply_of_run run.now);
            }) }
        ensures made { OnOk result
            (effects.new ≡ effects.old
            ++ rules.answers (messages.reply_message (step.reply_of_run run.now))
            (gathering.answered_by_end self.old.gathered index)) }
    {
        let reply = reply_of_run(self.alloc, run)?;
        let message = reply_message(self.alloc, &reply)?;
        let callers = self.gather.finish(index, reply)?;
        answer_all(self.alloc, &callers, message, effects)
    }

    /// The state is given to those that asked for it.
    pub fn give_states(
        &mut self,
        state: &State,
        variables: &Shapes,
        count: u32,
        effects: &mut Effects,
    ) -> Result<(), NoMemory>
        requires { all_fit variables.now state.now ≡ true }
        ensures held { OnOk result (self.new ≡ record self.old { requests = [] }) }
        ensures made { OnOk result
            (effects.new ≡ effects.old
            ++ rules.answers (snapshot_bytes count state.now) self.old.requests) }
    {
        if self.requests.is_empty() {
            return Ok(());
        }
        let message = snapshot(self.alloc, state, variables, count)?;
        answer_all(self.alloc, &self.requests, message, effects)?;
        self.requests = ListOf::new(self.alloc);
        Ok(())
    }
}
