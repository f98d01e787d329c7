// The pairs of a node with all other ones.
ghost use Rattle.std.specs.Prelude.{◌≡◌, ◌≢◌, ◌⊎◌, ℕ, ◌<◌, ◌≤◌, [], ◌++◌, length, true, IfOk, OnOk, OnErr, Ok, Err, slice_get, option_copied};
ghost use Rattle.circus_limits.specs.Limits.{most_nodes};
ghost use Rattle.circus_segment.specs.Segment.{Piece, IsSegment, reading};
ghost use Rattle.circus_segment.specs.Seen.Pieces.{piece};
ghost use Rattle.circus_pair.specs.declared.fault.PairFault.TheVariants.{Spent as NoNumber};
ghost use Rattle.circus_exchange.specs.Limits.{never_used};
ghost use Rattle.circus_exchange.specs.Exchange.{IsSendable};
ghost use Rattle.circus_wire.specs.declared.fault.WireFault.TheVariants.{Spent};
ghost use Rattle.circus_wire.specs.Wire.{Beginning};
ghost use Rattle.circus_wire.specs.Wire as model;
ghost use Rattle.circus_wire.specs.WireActs.{WireActs, begun, followed_by, CallTo, AnswerTo, CameFrom, TickAll, StopOf};
ghost use Rattle.circus_wire.specs.WireStanding.{WireStands, owed_to, heard_after, ticks_owed, suspects_owed};

use crate::delivery::{Batch, Batches, Delivery, Heard};
use crate::fault::WireFault;
use crate::peer::Peer;
use circus_pair::{Datagrams, PairFault, Segment, read_segment};
use circus_value::{Caller, ListOf, Message, NoMemory, Nodes};
use std::alloc::Global;
use std::marker::Model;

/// The pairs of a node with the other ones, and what each of its calls was made for (docs/PROTOCOL.md, "Paired
/// messages"). A node has no pair with itself.
///
/// Clauses see what the pairs know and the purposes of calls that had no return; `specs/Wire.antt` says what each
/// call does to them. Where a wire stands for a list of acts (`specs/WireStanding.antt`), each call adds its act, and
/// what it answers is what is owed.
#[derive(Drop)]
pub struct Wire<P> {
    alloc: Global,
    own: u16,
    format: u8,
    /// In the order of their nodes.
    peers: Vec<Peer<P>>,
}

impl<P> Model for Wire<P> {
    ghost use Rattle.circus_wire.specs.Wire.{WireState};
    ghost use Rattle.circus_wire.specs.Seen.Kept.{AreKept};
    ghost use Rattle.circus_wire.specs.Seen.PeerCode.{wire_code};

    ghost Value = { WireState P };

    ghost coded = { wire_code P.code };

    ghost view = { λ a. record { own = a.own; format = a.format; peers = a.peers.items } };

    ghost invariant = { λ a. AreKept a.own a.format a.peers.items };
}

// The place of another node among the others.
fn place_of(own: u16, node: u16) -> usize
    requires { node ≢ own }
    ensures { result ≡ model.place_of own node }
{
    if own < node {
        usize::from(node) - 1
    } else {
        usize::from(node)
    }
}

// The node at a place among the others.
fn node_at(own: u16, place: usize) -> u16
    requires { place < most_nodes }
    ensures { result ≡ model.node_at own place }
{
    let place = place as u16;
    if place < own { place } else { place + 1 }
}

impl<P: Drop> Wire<P> {
    /// The wire of a node of so many, of which the first is node 0, before anything has happened, in segment format 1
    /// or 2. A program has at most 64 nodes. `NoMemory` is the one fault.
    pub fn new(alloc: Global, own: u16, nodes: usize, format: u8) -> Result<Self, NoMemory>
        requires format { (format ≡ 1) ⊎ (format ≡ 2) }
        requires own { own < nodes }
        requires few { nodes ≤ most_nodes }
        ensures value { IfOk result (λ wire.
            wire ≡ model.before_any
            (record { own = own; nodes = nodes; first = 0; format = format })) }
        ensures stands { IfOk result (λ wire.
            WireStands wire (record { own = own; nodes = nodes; first = 0; format = format })
            begun) }
    {
        Wire::starting_at(alloc, own, nodes, 0, format)
    }

    /// Such a wire, of which the first call to each node has a number of its own.
    pub fn starting_at(
        alloc: Global,
        own: u16,
        nodes: usize,
        number: u32,
        format: u8,
    ) -> Result<Self, NoMemory>
        requires format { (format ≡ 1) ⊎ (format ≡ 2) }
        requires own { own < nodes }
        requires few { nodes ≤ most_nodes }
        ensures value { IfOk result (λ wire.
            wire ≡ model.before_any
            (record { own = own; nodes = nodes; first = number; format = format })) }
        ensures stands { IfOk result (λ wire.
            WireStands wire (record { own = own; nodes = nodes; first = number; format = format })
            begun) }
    {
        let peers = fresh_peers(alloc, nodes - 1, number, format)?;
        Ok(Wire {
            alloc,
            own,
            format,
            peers,
        })
    }

    // The pair with a node, if it is another one.
    fn peer(&self, node: u16) -> Option<&Peer<P>>
        ensures { option_copied result ≡ model.peer_at self.now node }
    {
        if node == self.own {
            return None;
        }
        self.peers.get(place_of(self.own, node))
    }

    /// Whether a node is another one that was not declared down. It takes no memory.
    pub fn is_up(&self, node: u16) -> bool
        ensures { result ≡ model.is_up self.now node }
    {
        match self.peer(node) {
            Some(peer) => !peer.is_stopped(),
            None => false,
        }
    }

    /// Hands a call to another node over, which was not declared down, for a purpose, and answers what is sent: its
    /// segments, or nothing where it has to wait (docs/PROTOCOL.md, "The window"). `Spent` with the node where the
    /// number would be 4,294,967,295. After a fault nothing has changed.
    pub fn call(&mut self, to: u16, message: Message, purpose: P) -> Result<Batch, WireFault>
        requires up { model.is_up self.old to ≡ true }
        requires sendable { IsSendable self.old.format message }
        ensures stands { (b : Beginning) (acts : WireActs P) → WireStands self.old b acts
            → OnOk result (WireStands self.new b (followed_by acts (CallTo to message purpose))) }
        ensures owed { (b : Beginning) (acts : WireActs P) → WireStands self.old b acts
            → IfOk result (λ sent. sent ≡ owed_to b acts (CallTo to message purpose) to) }

        // By what the pairs know.
        ensures sent { IfOk result (λ sent. sent ≡ model.sent_by_call self.old to message) }
        ensures state { OnOk result (self.new ≡ model.called_to self.old to message purpose) }
        ensures err { OnErr result (self.new ≡ self.old) }
        ensures remains { model.Remains self.old self.new }

        // Where no number is left, and only there.
        ensures spent { model.next_number self.old to ≡ never_used → result ≡ Err (Spent to) }
        ensures spent_only { (node : ℕ) → result ≡ Err (Spent node)
            → (node ≡ to) × (model.next_number self.old to ≡ never_used) }
    {
        match self.hand_call(to, message, purpose) {
            Ok(datagrams) => Ok(Batch { to, datagrams }),
            Err(PairFault::Spent) => Err(WireFault::Spent(to)),
            Err(PairFault::NoMemory) => Err(WireFault::NoMemory),
        }
    }

    fn hand_call(&mut self, to: u16, message: Message, purpose: P) -> Result<Datagrams, PairFault>
        requires up { model.is_up self.old to ≡ true }
        requires sendable { IsSendable self.old.format message }
        ensures left { OnOk result (model.next_number self.old to < never_used) }
        ensures sent { IfOk result (λ datagrams.
            datagrams ≡ (model.sent_by_call self.old to message).datagrams) }
        ensures state { OnOk result (self.new ≡ model.called_to self.old to message purpose) }
        ensures err { OnErr result (self.new ≡ self.old) }
        ensures remains { model.Remains self.old self.new }
        ensures spent { model.next_number self.old to ≡ never_used → result ≡ Err NoNumber }
        ensures spent_only { result ≡ Err NoNumber → model.next_number self.old to ≡ never_used }
    {
        let place = place_of(self.own, to);
        self.peers[place].call(message, purpose)
    }

    /// Whether a call of another node has arrived whole and has had no return. It takes no memory.
    pub fn awaits_return(&self, caller: Caller) -> bool
        ensures { result ≡ model.is_awaited self.now caller }
    {
        match self.peer(caller.node) {
            Some(peer) => peer.awaits_return(caller.number),
            None => false,
        }
    }

    /// Hands the return to a call over, and answers what is sent (docs/PROTOCOL.md, "Returns"). Where the call does not
    /// await its return, nothing is sent and nothing has changed. A node that was declared down is sent returns too.
    /// After `NoMemory` nothing has changed.
    pub fn answer(&mut self, caller: Caller, message: Message) -> Result<Batch, NoMemory>
        requires { IsSendable self.old.format message }
        ensures stands { (b : Beginning) (acts : WireActs P) → WireStands self.old b acts
            → OnOk result (WireStands self.new b (followed_by acts (AnswerTo caller message))) }
        ensures owed { (b : Beginning) (acts : WireActs P) → WireStands self.old b acts
            → model.IsOther self.old caller.node
            → IfOk result (λ sent. sent ≡ owed_to b acts (AnswerTo caller message) caller.node) }
        ensures sent { IfOk result (λ sent. sent ≡ model.sent_by_answer self.old caller message) }
        ensures state { OnOk result (self.new ≡ model.answer_caller self.old caller message) }
        ensures err { OnErr result (self.new ≡ self.old) }
        ensures remains { model.Remains self.old self.new }
    {
        let to = caller.node;
        if !self.awaits_return(caller) {
            return Ok(Batch {
                to,
                datagrams: Datagrams::new(self.alloc),
            });
        }
        let datagrams = self.hand_return(caller, message)?;
        Ok(Batch { to, datagrams })
    }

    fn hand_return(&mut self, caller: Caller, message: Message) -> Result<Datagrams, NoMemory>
        requires awaited { model.is_awaited self.old caller ≡ true }
        requires sendable { IsSendable self.old.format message }
        ensures sent { IfOk result (λ datagrams.
            datagrams ≡ (model.sent_by_answer self.old caller message).datagrams) }
        ensures state { OnOk result (self.new ≡ model.answer_caller self.old caller message) }
        ensures err { OnErr result (self.new ≡ self.old) }
        ensures remains { model.Remains self.old self.new }
    {
        let place = place_of(self.own, caller.node);
        self.peers[place].answer(caller.number, message)
    }

    /// Takes a datagram of another node, also of one that was declared down, and answers what is sent and what came of
    /// it (docs/PROTOCOL.md, "Segments"). The purpose of a call whose return arrives is handed out, and is kept no
    /// longer. The data of the datagram is copied where it is kept. After `NoMemory` nothing has changed.
    pub fn deliver(&mut self, from: u16, datagram: &[u8]) -> Result<Delivery<P>, NoMemory>
        requires { model.IsOther self.old from }
        ensures stands { (b : Beginning) (acts : WireActs P) (s : Piece)
            → WireStands self.old b acts → reading datagram.now ≡ Ok s
            → OnOk result (WireStands self.new b (followed_by acts (CameFrom from s))) }
        ensures owed { (b : Beginning) (acts : WireActs P) (s : Piece) → WireStands self.old b acts
            → reading datagram.now ≡ Ok s
            → IfOk result (λ delivery. delivery.sent ≡ owed_to b acts (CameFrom from s) from) }
        ensures heard { (b : Beginning) (acts : WireActs P) (s : Piece) → WireStands self.old b acts
            → reading datagram.now ≡ Ok s
            → IfOk result (λ delivery. delivery.heard ≡ heard_after b acts from s) }

        // By what the pairs know. A datagram that is no segment is dropped, and changes nothing.
        ensures sent { IfOk result (λ delivery.
            delivery.sent ≡ model.sent_by_datagram self.old from (reading datagram.now)) }
        ensures told { IfOk result (λ delivery.
            delivery.heard ≡ model.heard_from self.old from (reading datagram.now)) }
        ensures state { OnOk result
            (self.new ≡ model.after_datagram self.old from (reading datagram.now)) }
        ensures err { OnErr result (self.new ≡ self.old) }
        ensures remains { model.Remains self.old self.new }
    {
        match read_segment(datagram) {
            Ok(segment) => self.hear(from, &segment),
            Err(_) => Ok(Delivery {
                sent: Batch {
                    to: from,
                    datagrams: Datagrams::new(self.alloc),
                },
                heard: Heard::Dropped,
            }),
        }
    }

    fn hear(&mut self, from: u16, segment: &Segment<'_>) -> Result<Delivery<P>, NoMemory>
        requires other { model.IsOther self.old from }
        requires segment { IsSegment (piece segment.now) }
        ensures sent { IfOk result (λ delivery.
            delivery.sent ≡ model.sent_by_datagram self.old from (Ok (piece segment.now))) }
        ensures told { IfOk result (λ delivery.
            delivery.heard ≡ model.heard_from self.old from (Ok (piece segment.now))) }
        ensures state { OnOk result
            (self.new ≡ model.after_datagram self.old from (Ok (piece segment.now))) }
        ensures err { OnErr result (self.new ≡ self.old) }
        ensures remains { model.Remains self.old self.new }
    {
        let place = place_of(self.own, from);
        self.peers[place].take(from, segment)
    }

    /// Lets a tick come to each pair with a node that was not declared down, in node order, and answers what is sent
    /// and which nodes are suspected now (docs/PROTOCOL.md, "Ticks"). After `NoMemory` some of the pairs may have had it,
    /// and what they send is lost.
    pub fn tick(&mut self) -> Result<(Batches, Nodes), NoMemory>
        ensures stands { (b : Beginning) (acts : WireActs P) → WireStands self.old b acts
            → OnOk result (WireStands self.new b (followed_by acts TickAll)) }
        ensures owed { (b : Beginning) (acts : WireActs P) → WireStands self.old b acts
            → IfOk result (λ tick. tick.0 ≡ ticks_owed b acts) }
        ensures suspects { (b : Beginning) (acts : WireActs P) → WireStands self.old b acts
            → IfOk result (λ tick. tick.1 ≡ suspects_owed b acts) }

        // By what the pairs know.
        ensures state { OnOk result (self.new ≡ model.all_ticked self.old) }
        ensures sent { IfOk result (λ tick. tick.0 ≡ model.sent_by_tick self.old) }
        ensures suspected { IfOk result (λ tick. tick.1 ≡ model.suspected_by_tick self.old) }
        ensures remains { model.Remains self.old self.new }
    {
        self.tick_all()
    }

    fn tick_all(&mut self) -> Result<(Batches, Nodes), NoMemory>
        ensures state { OnOk result (self.new ≡ model.all_ticked self.old) }
        ensures sent { IfOk result (λ tick. tick.0 ≡ model.sent_by_tick self.old) }
        ensures suspected { IfOk result (λ tick. tick.1 ≡ model.suspected_by_tick self.old) }
        ensures remains { model.Remains self.old self.new }
    {
        let mut sends = ListOf::new(self.alloc);
        let mut suspects = ListOf::new(self.alloc);
        for place in 0..self.peers.len() {
            self.tick_at(place, &mut sends, &mut suspects)?;
        }
        Ok((sends, suspects))
    }

    // Lets a tick come to the pair at a place, unless its node was declared down.
    fn tick_at(
        &mut self,
        place: usize,
        sends: &mut Batches,
        suspects: &mut Nodes,
    ) -> Result<(), NoMemory>
        requires { place < length self.old.peers }
        ensures state { OnOk result (self.new ≡ model.ticked_at self.old place) }
        ensures sent { OnOk result
            (sends.new ≡ sends.old
            ++ model.of_peer [] (model.batches (model.node_at self.old.own place))
            (slice_get self.old.peers place)) }
        ensures suspected { OnOk result
            (suspects.new ≡ suspects.old
            ++ model.of_peer [] (model.suspicion (model.node_at self.old.own place))
            (slice_get self.old.peers place)) }
        ensures remains { model.Remains self.old self.new }
    {
        let node = node_at(self.own, place);
        self.peers[place].tick(node, sends, suspects)
    }

    /// Another node was declared down: nothing that comes from it is acknowledged any more, it gets no tick, and no call
    /// that waits is sent. The purposes of its calls stay, since its datagrams are taken, and a return that arrives
    /// finds its purpose. It takes no memory.
    pub fn stop(&mut self, node: u16)
        requires { model.IsOther self.old node }
        ensures stands { (b : Beginning) (acts : WireActs P) → WireStands self.old b acts
            → WireStands self.new b (followed_by acts (StopOf node)) }
        ensures state { self.new ≡ model.stopped_at self.old node }
        ensures remains { model.Remains self.old self.new }
    {
        let place = place_of(self.own, node);
        self.peers[place].stop();
    }
}

// So many pairs before any call.
fn fresh_peers<P: Drop>(
    alloc: Global,
    count: usize,
    number: u32,
    format: u8,
) -> Result<Vec<Peer<P>>, NoMemory>
    requires { (format ≡ 1) ⊎ (format ≡ 2) }
    ensures { IfOk result (λ peers. peers.items ≡ model.fresh_peers count number format) }
{
    let mut peers = Vec::with_capacity(alloc, count)?;
    for _place in 0..count {
        peers.push(Peer::new(alloc, number, format))?;
    }
    Ok(peers)
}
