// A call to many.
ghost use Rattle.std.specs.Prelude.{◌≡◌, [], slice_get, option_copied, option_map, OnOk, OnErr, IfOk};
ghost use Rattle.circus_fanout.specs.Asking as asking;

use crate::asked::{
    Asked, Sending, after_stale, all_done, calls_for_a_view, mark, next, with_calls,
};
use crate::{Next, Sends, Watched};
use circus_collate::{Collated, Kind, Said, View, collate};
use circus_header::{CallHeader, Reply};
use circus_value::{ListOf, Message, NoMemory, Nodes};
use std::alloc::Global;
use std::marker::Model;

/// A call to every member of a troupe, from its asking until it is answered by all (docs/PROTOCOL.md, "Calls out").
/// The views and the nodes that are down are given to each call; they are those that the caller knows then.
pub struct Fanout {
    alloc: Global,
    header: CallHeader,
    body: Message,
    kind: Kind,
    asked: Vec<Asked>,
    said: ListOf<Said<Reply>>,
}

// Written out, so that dropping one is one step of a proof (docs/PROOFS.md, "Cost").
impl Drop for Fanout {
    fn drop(self) {
        let Fanout {
            alloc: _,
            header: _,
            body: _,
            kind: _,
            asked: _,
            said: _,
        } = self;
    }
}

impl Model for Fanout {
    ghost use Rattle.circus_fanout.specs.Asking.{Asking};
    ghost use Rattle.circus_fanout.specs.Seen.AskingCode.{asking_code};

    ghost Value = { Asking };

    ghost coded = { asking_code };

    ghost view = { λ a. record { header = a.header; body = a.body; kind = a.kind; asked = a.asked.items; said = a.said } };
}

impl Fanout {
    /// The call, its arguments and the collator of its replies, and what is sent for it at first: to each entry of
    /// the view that isn't down. `NoMemory` is the one fault.
    pub fn begin(
        alloc: Global,
        header: CallHeader,
        body: Message,
        kind: Kind,
        view: &View,
        down: &Nodes,
    ) -> Result<(Fanout, Sends), NoMemory>
        ensures fanout { IfOk result (λ begun.
            begun.0 ≡ asking.with_view view.now down.now (asking.begin_asking header body kind)) }
        ensures sends { IfOk result (λ begun.
            begun.1 ≡ asking.calls_for_a_view view.now down.now []) }
    {
        let mut fanout = Fanout {
            alloc,
            header,
            body,
            kind,
            asked: Vec::new(alloc),
            said: ListOf::new(alloc),
        };
        let sends = fanout.new_view(view, down)?;
        Ok((fanout, sends))
    }

    /// What is sent for a new view, in its order: to each entry that isn't down and was not sent the call, or whose
    /// last answer is that its view was older and that this view satisfies. After `NoMemory` nothing has changed.
    pub fn new_view(&mut self, view: &View, down: &Nodes) -> Result<Sends, NoMemory>
        ensures kept { OnOk result (self.new ≡ asking.with_view view.now down.now self.old) }
        ensures sends { IfOk result (λ sends.
            sends ≡ asking.calls_for_a_view view.now down.now self.old.asked) }
        ensures refused { OnErr result (self.new ≡ self.old) }
    {
        let sends = calls_for_a_view(self.alloc, view, down, self.asked.as_slice())?;
        self.asked = with_calls(self.alloc, self.asked.as_slice(), &sends)?;
        Ok(sends)
    }

    /// Takes a node's reply, and compares it with the first one under `Watchdog`. After `NoMemory` nothing has
    /// changed.
    pub fn replied(&mut self, node: u16, reply: Reply) -> Result<Watched, NoMemory>
        ensures kept { OnOk result (self.new ≡ asking.with_reply node reply self.old) }
        ensures watched { IfOk result (λ watched.
            watched ≡ asking.watch_reply self.old.kind self.old.said reply) }
        ensures refused { OnErr result (self.new ≡ self.old) }
    {
        let watched = watch(self.kind, self.said.as_slice(), &reply);
        self.said.push(Said { node, value: reply })?;
        mark(self.asked.as_mut_slice(), node, Sending::Settled);
        Ok(watched)
    }

    /// Takes a node's answer that the call is before its first one. It takes no memory.
    pub fn before(&mut self, node: u16)
        ensures { self.new ≡ asking.with_before node self.old }
    {
        mark(self.asked.as_mut_slice(), node, Sending::Settled);
    }

    /// Takes a node's answer that the call was of an older view than this incarnation. `Lookup` comes exactly where
    /// that is above the view's, and `Leave` exactly where it isn't and the node is no entry of the view or is
    /// down. It takes no memory.
    pub fn stale(&mut self, node: u16, incarnation: u32, view: &View, down: &Nodes) -> Next
        ensures kept { self.new ≡ asking.with_stale view.now down.now node incarnation self.old }
        ensures next { result ≡ asking.next view.now down.now node incarnation }
    {
        let next = next(view, down, node, incarnation);
        mark(
            self.asked.as_mut_slice(),
            node,
            after_stale(next, incarnation),
        );
        next
    }

    /// What the collator answers to the replies. It takes no memory.
    pub fn answer(&self, view: &View, down: &Nodes) -> Collated
        ensures { result ≡ asking.answer view.now down.now self.now }
    {
        collate(
            self.kind,
            &view.expects(index_of(&self.header)),
            down,
            self.said.as_slice(),
        )
    }

    /// Whether each entry of the view that isn't down has replied, or answered that the call is before its first
    /// one. It takes no memory.
    pub fn settled(&self, view: &View, down: &Nodes) -> bool
        ensures { result ≡ asking.all_settled view.now down.now self.now }
    {
        all_done(view, down, self.asked.as_slice())
    }

    /// The reply at a place, counted from 0 in order of arrival, as `answer` names it. `None` exactly past the last.
    /// It takes no memory.
    pub fn reply_at(&self, place: usize) -> Option<&Reply>
        ensures { option_copied result ≡ asking.reply_at self.now place }
    {
        match self.said.get(place) {
            Some(said) => Some(&said.value),
            None => None,
        }
    }

    /// What was said at a place, by which node. `None` exactly past the last. It takes no memory.
    pub fn said_at(&self, place: usize) -> Option<&Said<Reply>>
        ensures { option_copied result ≡ slice_get self.now.said place }
    {
        self.said.get(place)
    }

    /// The header that it began with. It takes no memory.
    pub fn header(&self) -> &CallHeader
        ensures { result.now ≡ self.now.header }
    {
        &self.header
    }

    /// The arguments that it began with. It takes no memory.
    pub fn body(&self) -> &Message
        ensures { result.now ≡ self.now.body }
    {
        &self.body
    }
}

// Which call to its server it is.
fn index_of(header: &CallHeader) -> u32
    ensures { result ≡ asking.index_of header.now }
{
    header
        .clock
        .get(usize::from(header.server))
        .copied()
        .unwrap_or(0)
}

// Whether a reply differs from the first of those before it, where that is watched.
fn watch(kind: Kind, said: &[Said<Reply>], reply: &Reply) -> Watched
    ensures { result ≡ asking.watch_reply kind said.now reply.now }
{
    match (kind, said.first()) {
        (Kind::Watchdog, Some(first)) if first.value != *reply => Watched::Differs(0, said.len()),
        _ => Watched::Quiet,
    }
}
