// The pair with one other node, and what its calls were made for.
ghost use Rattle.std.specs.Prelude.{◌≡◌, ◌⊎◌, ◌<◌, ◌++◌, [], ◌∷◌, true, false, if◌then◌else◌, IfOk, OnOk, OnErr, Ok, Err};
ghost use Rattle.std.specs.FinMap as map;
ghost use Rattle.circus_segment.specs.Segment.{IsSegment};
ghost use Rattle.circus_segment.specs.Seen.Pieces.{piece};
ghost use Rattle.circus_pair.specs.declared.fault.PairFault.TheVariants.{Spent};
ghost use Rattle.circus_exchange.specs.Limits.{never_used};
ghost use Rattle.circus_exchange.specs.Exchange.{IsSendable, awaits_return, datagrams_of_call, datagrams_of_return, datagrams_after};
ghost use Rattle.circus_wire.specs.Wire.{fresh_peer, peer_called, peer_answered, peer_heard, peer_ticked, peer_stopped, batches, suspicion, heard_by, hear_arrival, drop_purpose};

use crate::delivery::{Batch, Batches, Delivery, Heard};
use circus_exchange::{ByCall, NEVER_USED};
use circus_pair::{Arrived, Datagrams, Pair, PairFault, Segment, Taken, Ticked};
use circus_value::{Caller, Message, NoMemory, Nodes};
use std::alloc::Global;
use std::marker::Model;

/// A pair, and what its calls were made for that have had no return. Clauses see both.
#[derive(Drop)]
pub(crate) struct Peer<P> {
    pair: Pair,
    purposes: ByCall<P>,
    /// Whether the other node was declared down.
    stopped: bool,
}

impl<P> Model for Peer<P> {
    ghost use Rattle.circus_wire.specs.Wire.{PeerState};
    ghost use Rattle.circus_wire.specs.Seen.Kept.{IsKept};
    ghost use Rattle.circus_wire.specs.Seen.PeerCode.{peer_code};

    ghost Value = { PeerState P };

    ghost coded = { peer_code P.code };

    ghost view = { λ a. record { exchange = a.pair; purposes = a.purposes } };

    ghost invariant = { λ a. IsKept a.pair a.purposes a.stopped };
}

impl<P> Peer<P> {
    /// A pair before any call, whose first call has a number. It takes no memory.
    pub fn new(alloc: Global, number: u32, format: u8) -> Self
        requires { (format ≡ 1) ⊎ (format ≡ 2) }
        ensures { result ≡ fresh_peer number format }
    {
        Peer {
            pair: Pair::starting_at(alloc, number, format),
            purposes: ByCall::new(alloc),
            stopped: false,
        }
    }

    /// Whether the other node was declared down.
    pub fn is_stopped(&self) -> bool
        ensures { result ≡ self.now.exchange.stopped }
    {
        self.stopped
    }

    /// Whether a call of the other node has arrived whole and has had no return.
    pub fn awaits_return(&self, number: u32) -> bool
        ensures { result ≡ awaits_return self.now.exchange number }
    {
        self.pair.awaits_return(number)
    }
}

impl<P: Drop> Peer<P> {
    /// Hands a call over that is made for a purpose. After a fault nothing has changed.
    pub fn call(&mut self, message: Message, purpose: P) -> Result<Datagrams, PairFault>
        requires sendable { IsSendable self.old.exchange.format message }
        requires up { self.old.exchange.stopped ≡ false }
        ensures left { OnOk result (self.old.exchange.next < never_used) }
        ensures datagrams { IfOk result (λ datagrams.
            datagrams ≡ datagrams_of_call self.old.exchange message) }
        ensures state { OnOk result (self.new ≡ peer_called self.old message purpose) }
        ensures err { OnErr result (self.new ≡ self.old) }
        ensures spent { self.old.exchange.next ≡ never_used → result ≡ Err Spent }
        ensures spent_only { result ≡ Err Spent → self.old.exchange.next ≡ never_used }
    {
        let number = self.pair.next_number();
        if number == NEVER_USED {
            return Err(PairFault::Spent);
        }
        if self.purposes.insert(number, purpose).is_err() {
            return Err(PairFault::NoMemory);
        }
        match self.pair.send_call(message) {
            Ok((_, datagrams)) => Ok(datagrams),
            Err(fault) => {
                let _ = self.purposes.take(number);
                Err(fault)
            }
        }
    }

    /// Hands the return to a call over that awaits it. After `NoMemory` nothing has changed.
    pub fn answer(&mut self, number: u32, message: Message) -> Result<Datagrams, NoMemory>
        requires sendable { IsSendable self.old.exchange.format message }
        requires awaited { awaits_return self.old.exchange number ≡ true }
        ensures datagrams { IfOk result (λ datagrams.
            datagrams ≡ datagrams_of_return self.old.exchange number message) }
        ensures state { OnOk result (self.new ≡ peer_answered self.old number message) }
        ensures err { OnErr result (self.new ≡ self.old) }
    {
        self.pair.send_return(number, message)
    }

    /// Takes the segment that a datagram of the other node is. After `NoMemory` nothing has changed.
    pub fn take(&mut self, node: u16, segment: &Segment<'_>) -> Result<Delivery<P>, NoMemory>
        requires { IsSegment (piece segment.now) }
        ensures sent { IfOk result (λ delivery.
            delivery.sent ≡ record
            { to = node; datagrams = datagrams_after self.old.exchange (piece segment.now) }) }
        ensures heard { IfOk result (λ delivery.
            delivery.heard ≡ heard_by self.old node (piece segment.now)) }
        ensures state { OnOk result (self.new ≡ peer_heard self.old (piece segment.now)) }
        ensures err { OnErr result (self.new ≡ self.old) }
    {
        let Taken {
            datagrams,
            arrived,
            dropped,
        } = self.pair.take(segment)?;
        let sent = Batch {
            to: node,
            datagrams,
        };
        let heard = if dropped {
            Heard::Dropped
        } else {
            hand_out(&mut self.purposes, node, arrived)
        };
        Ok(Delivery { sent, heard })
    }

    /// Lets a tick come, unless the node was declared down, and adds what is sent to it, and the node where it is
    /// suspected now.
    pub fn tick(
        &mut self,
        node: u16,
        sends: &mut Batches,
        suspects: &mut Nodes,
    ) -> Result<(), NoMemory>
        ensures state { OnOk result (self.new ≡ peer_ticked self.old) }
        ensures sent { OnOk result (sends.new ≡ sends.old ++ batches node self.old) }
        ensures suspected { OnOk result (suspects.new ≡ suspects.old ++ suspicion node self.old) }
        ensures format { self.new.exchange.format ≡ self.old.exchange.format }
    {
        if self.stopped {
            return Ok(());
        }
        let tick = self.pair.tick()?;
        note_tick(node, tick, sends, suspects)
    }

    /// The other node was declared down.
    pub fn stop(&mut self)
        ensures { self.new ≡ peer_stopped self.old }
    {
        self.pair.stop();
        self.stopped = true;
    }
}

// Adds what a tick sends to a node, and the node where it is suspected.
fn note_tick(
    node: u16,
    tick: Ticked,
    sends: &mut Batches,
    suspects: &mut Nodes,
) -> Result<(), NoMemory>
    ensures sent { OnOk result
        (sends.new ≡ sends.old ++ record { to = node; datagrams = tick.datagrams } ∷ []) }
    ensures suspected { OnOk result
        (suspects.new ≡ suspects.old ++ (if tick.suspect then node ∷ [] else [])) }
{
    let Ticked { datagrams, suspect } = tick;
    sends.push(Batch {
        to: node,
        datagrams,
    })?;
    if suspect {
        suspects.push(node)?;
    }
    Ok(())
}

// What came of a segment that was taken, by what arrived; the purpose of a call whose return arrived is handed out.
fn hand_out<P: Drop>(purposes: &mut ByCall<P>, node: u16, arrived: Arrived) -> Heard<P>
    ensures heard { result ≡ hear_arrival (map.get purposes.old) node arrived }
    ensures purposes { purposes.new ≡ drop_purpose arrived purposes.old }
{
    match arrived {
        Arrived::Nothing => Heard::Taken,
        Arrived::ArrivedCall(number, message) => Heard::Called(Caller { node, number }, message),
        Arrived::ArrivedReturn(number, message) => match purposes.take(number) {
            Some(purpose) => Heard::Returned(number, purpose, message),
            None => Heard::Taken,
        },
    }
}
