// What a member keeps of the calls to it.
ghost use Rattle.std.specs.Prelude.{◌≡◌, [], ◌∷◌, ◌++◌, nat_eq, None, OnOk, OnErr, IfOk, option_copied};
ghost use Rattle.std.specs.Map.{lookup};
ghost use Rattle.circus_gather.specs.Gathering as gathering;

use crate::call_value::CallValue;
use crate::expectation::ExpectedCallers;
use crate::group::Group;
use crate::held::index_of;
use crate::waiting::Waiting;
use crate::{Added, HeldCall};
use circus_collate::{Kind, Said, View, Views, place_given};
use circus_header::{CallHeader, Reply};
use circus_value::{Caller, Callers, Duplicate, ListOf, NoMemory, Nodes, Parts};
use indexmap::IndexMap;
use std::alloc::Global;
use std::marker::Model;

/// The calls to a member that wait, and the replies of those that were performed (docs/PROTOCOL.md, "Calls in").
pub struct Gather {
    alloc: Global,
    from: u32,
    required: u32,
    open_run: Option<u32>,
    replies: IndexMap<u32, Reply>,
    waiting: Waiting,
}

// Written out, so that dropping one is one step of a proof (docs/PROOFS.md, "Cost").
impl Drop for Gather {
    fn drop(self) {
        let Gather {
            alloc: _,
            from: _,
            required: _,
            open_run: _,
            replies: _,
            waiting: _,
        } = self;
    }
}

impl Model for Gather {
    ghost use Rattle.circus_gather.specs.Gathering.{Gathered};
    ghost use Rattle.circus_gather.specs.Seen.GatheredCode.{gathered_code};

    ghost Value = { Gathered };

    ghost coded = { gathered_code };

    ghost view = { λ a. record { «module» = a.waiting.module; from = a.from; required = a.required; open_run = a.open_run; replies = a.replies.entries; held = a.waiting.calls } };
}

impl Gather {
    /// Before any call, for a member of this module that performs the calls from this index on. A member that isn't
    /// active yet says 0. It takes no memory.
    pub fn new(alloc: Global, module: u16, from: u32) -> Self
        ensures { result ≡ gathering.before_any «module» from }
    {
        Gather {
            alloc,
            from,
            required: 0,
            open_run: None,
            replies: IndexMap::new(alloc),
            waiting: Waiting::new(alloc, module),
        }
    }

    /// Takes a call, and says what it gets at once. After `NoMemory` the call counts as not arrived.
    pub fn add(
        &mut self,
        header: CallHeader,
        body: Parts,
        sender: Caller,
    ) -> Result<Added, NoMemory>
        ensures answer { IfOk result (λ added. added ≡ gathering.answer_to self.old header) }
        ensures kept { OnOk result
            (self.new ≡ gathering.with_call self.old
            (record { header = header; body = body; sender = sender })) }
        ensures refused { OnErr result (self.new ≡ self.old) }
    {
        let added = self.answer_to(&header)?;
        if matches!(added, Added::Held) {
            self.waiting.push(HeldCall {
                header,
                body,
                sender,
            })?;
        }
        Ok(added)
    }

    // What a call gets at once.
    fn answer_to(&self, header: &CallHeader) -> Result<Added, NoMemory>
        ensures { IfOk result (λ added. added ≡ gathering.answer_to self.now header.now) }
    {
        if header.server_incarnation < self.required {
            return Ok(Added::Stale(self.required));
        }
        let index = index_of(self.waiting.module(), header);
        if index < self.from {
            return Ok(Added::Before(self.from));
        }
        match self.reply_of(index) {
            Some(reply) => Ok(Added::Reply(reply.copy()?)),
            None => Ok(Added::Held),
        }
    }

    /// The reply of an index, where it was performed. It takes no memory.
    pub fn reply_of(&self, index: u32) -> Option<&Reply>
        ensures { option_copied result ≡ gathering.reply_of self.now index }
    {
        self.replies.get(&index)
    }

    /// The greatest incarnation of the state requests so far, or 0. It takes no memory.
    pub fn required_incarnation(&self) -> u32
        ensures { result ≡ self.now.required }
    {
        self.required
    }

    /// The held call that the collator gives for the run of an index, over those that count: they are of that index
    /// and not of an older view than required, and their client's view is known. `None` exactly where it gives none.
    pub fn ready(
        &self,
        index: u32,
        kind: Kind,
        views: &Views,
        down: &Nodes,
    ) -> Result<Option<&HeldCall>, NoMemory>
        ensures { IfOk result (λ call.
            option_copied call ≡ gathering.call_to_start self.now views.now down.now kind index) }
    {
        let nobody = View {
            troupe: 0,
            incarnation: 0,
            entries: ListOf::new(self.alloc),
        };
        let said = self.waiting.values_said(self.required, views, index)?;
        let callers = ExpectedCallers {
            views,
            nobody: &nobody,
        };
        Ok(given_call(kind, &callers, down, said.as_slice()))
    }

    /// Notes that the run of an index is started, so that `require` spares its callers. It takes no memory.
    pub fn started(&mut self, index: u32)
        ensures { self.new ≡ gathering.with_start self.old index }
    {
        self.open_run = Some(index);
    }

    /// Keeps the reply of a run that has ended, and says who gets it, in order of arrival. After `NoMemory` the run
    /// counts as not ended.
    pub fn finish(&mut self, index: u32, reply: Reply) -> Result<Callers, NoMemory>
        requires { gathering.reply_of self.old index ≡ None }
        ensures callers { IfOk result (λ callers.
            callers ≡ gathering.answered_by_end self.old index) }
        ensures kept { OnOk result (self.new ≡ gathering.with_end self.old index reply) }
        ensures refused { OnErr result (self.new ≡ self.old) }
    {
        let callers = self.waiting.callers_of(index)?;
        keep(&mut self.replies, index, reply)?;
        self.waiting.remove_of(index);
        self.open_run = None;
        Ok(callers)
    }

    /// Takes a state request of an incarnation, and says who is told that a later view is required, in order of
    /// arrival. After `NoMemory` the request counts as not arrived.
    pub fn require(&mut self, incarnation: u32) -> Result<Callers, NoMemory>
        ensures callers { IfOk result (λ callers.
            callers ≡ gathering.stale_answers self.old incarnation) }
        ensures kept { OnOk result (self.new ≡ gathering.with_required self.old incarnation) }
        ensures refused { OnErr result (self.new ≡ self.old) }
    {
        let required = self.required.max(incarnation);
        let group = Group::Stale {
            required,
            open_run: self.open_run,
        };
        let callers = self.waiting.callers(group)?;
        self.waiting.remove(group)?;
        self.required = required;
        Ok(callers)
    }

    /// Notes that the member is active from an index on, and says who is told that their calls are before it, in
    /// order of arrival. After `NoMemory` the member counts as not active.
    pub fn activate(&mut self, from: u32) -> Result<Callers, NoMemory>
        ensures callers { IfOk result (λ callers.
            callers ≡ gathering.before_answers self.old from) }
        ensures kept { OnOk result (self.new ≡ gathering.with_first self.old from) }
        ensures refused { OnErr result (self.new ≡ self.old) }
    {
        let group = Group::Before(from);
        let callers = self.waiting.callers(group)?;
        self.waiting.remove(group)?;
        self.from = from;
        Ok(callers)
    }
}

// Keeps the reply of an index that was not performed.
fn keep(replies: &mut IndexMap<u32, Reply>, index: u32, reply: Reply) -> Result<(), NoMemory>
    requires { lookup (nat_eq index) replies.old.entries ≡ None }
    ensures ok { OnOk result (replies.new.entries ≡ replies.old.entries ++ (index, reply) ∷ []) }
    ensures err { OnErr result (replies.new.entries ≡ replies.old.entries) }
{
    replies.insert(index, reply)?;
    Ok(())
}

// The call that a collator gives of what was said.
#[tactic(auto, unfolding(crate::specs::Gathering::given_call))]
fn given_call<'a>(
    kind: Kind,
    callers: &ExpectedCallers<'_>,
    down: &Nodes,
    said: &[Said<CallValue<'a>>],
) -> Option<&'a HeldCall>
    ensures { option_copied result
        ≡ gathering.given_call callers.now.views.now down.now kind said.now }
{
    let place = place_given(kind, callers, down, said)?;
    let said = said.get(place)?;
    Some(said.value.call())
}
