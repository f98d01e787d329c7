// A pair: one end of the paired messages between two nodes.
ghost use Rattle.std.specs.Prelude.{◌≡◌, ◌⊎◌, ℕ, ◌+◌, ◌<◌, not, ◌&&◌, is_some, true, false, IfOk, OnOk, OnErr, Ok, Err};
ghost use Rattle.circus_segment.specs.Seen.Pieces.{piece};
ghost use Rattle.circus_pair.specs.declared.fault.PairFault.TheVariants.{Spent};
ghost use Rattle.circus_segment.specs.Segment.{IsSegment};
ghost use Rattle.circus_exchange.specs.Limits.{never_used};
ghost use Rattle.circus_pair.specs.Acts.{Call, Return, Came, Tick, Stop, Acts, none_yet, more, taken_by};
ghost use Rattle.circus_pair.specs.Handed.{calls_made, return_at};
ghost use Rattle.circus_pair.specs.Taken.{has_arrived};
ghost use Rattle.circus_pair.specs.Sending.{outputs, takes_after};
ghost use Rattle.circus_pair.specs.Ticking.{suspects_after};
ghost use Rattle.circus_pair.specs.Standing.{StandsFor, arrival_after};

use crate::fault::PairFault;
use circus_exchange::{Exchange, NEVER_USED, Taken, Ticked};
use circus_segment::{Datagrams, Segment};
use circus_value::{Message, NoMemory};
use std::alloc::Global;
use std::marker::Model;

/// One end of the paired messages between two nodes (docs/PROTOCOL.md, "Paired messages"). It keeps what is
/// sent and not acknowledged, what has come and is not whole, and how long the other end has been silent.
///
/// Clauses see what the end knows; `specs/Exchange.antt` says what each call does to it. Where a pair stands for
/// a lawful list of acts (`specs/Standing.antt`), each call adds its act, and what it answers is what is owed.
#[derive(Drop)]
pub struct Pair {
    alloc: Global,
    exchange: Exchange,
}

impl Model for Pair {
    ghost use Rattle.circus_exchange.specs.declared.exchange.Exchange.{Exchange};
    ghost use Rattle.circus_exchange.specs.contracts.exchange.Exchange as model;

    ghost Value = { Exchange };

    ghost coded = { model.the_row.coded };

    ghost use Rattle.circus_pair.specs.Seen.Fresh.{IsFresh};

    ghost view = { λ a. a.exchange };

    ghost invariant = { λ a. IsFresh a.exchange };
}

impl Pair {
    ghost use Rattle.circus_exchange.specs.Exchange.{IsSendable, start, send_call, datagrams_of_call, send_return, datagrams_of_return, awaits_return, takes, after, datagrams_after, arrived_after, count_tick, is_suspect, datagrams_of_tick, stop_exchange};

    /// An end before any call, in segment format 1 or 2. It takes no memory.
    pub fn new(alloc: Global, format: u8) -> Pair
        requires { (format ≡ 1) ⊎ (format ≡ 2) }
        ensures value { result ≡ start 0 format }
        ensures stands { StandsFor result 0 format none_yet }
    {
        Pair::starting_at(alloc, 0, format)
    }

    /// An end whose first call has a number of its own. It takes no memory.
    pub fn starting_at(alloc: Global, number: u32, format: u8) -> Pair
        requires { (format ≡ 1) ⊎ (format ≡ 2) }
        ensures value { result ≡ start number format }
        ensures stands { StandsFor result number format none_yet }
    {
        Pair {
            alloc,
            exchange: Exchange::new(alloc, number, format),
        }
    }

    /// Hands a call over, and answers its number and what is sent: its segments, or nothing where it has to
    /// wait, since 64 calls are sent and not acknowledged whole (docs/PROTOCOL.md, "The window"). The other end
    /// was not declared down. `Spent` where the number would be 4,294,967,295. After a fault nothing has changed.
    pub fn send_call(&mut self, message: Message) -> Result<(u32, Datagrams), PairFault>
        requires sendable { IsSendable self.old.format message }
        requires up { self.old.stopped ≡ false }
        ensures stands { (first format : ℕ) (acts : Acts) → StandsFor self.old first format acts
            → OnOk result (StandsFor self.new first format (more acts (Call message))) }
        ensures numbered { (first format : ℕ) (acts : Acts) → StandsFor self.old first format acts
            → IfOk result (λ sent. sent.0 ≡ first + calls_made acts) }
        ensures owed { (first format : ℕ) (acts : Acts) → StandsFor self.old first format acts
            → IfOk result (λ sent. sent.1 ≡ outputs (start first format) acts (Call message)) }

        // By what the end knows.
        ensures number { IfOk result (λ sent. sent.0 ≡ self.old.next) }
        ensures datagrams { IfOk result (λ sent. sent.1 ≡ datagrams_of_call self.old message) }
        ensures state { OnOk result (self.new ≡ send_call self.old message) }
        ensures err { OnErr result (self.new ≡ self.old) }
        ensures format { self.new.format ≡ self.old.format }
        ensures down { self.new.stopped ≡ self.old.stopped }

        // Where no number is left, and only there.
        ensures spent { self.old.next ≡ never_used → result ≡ Err Spent }
        ensures spent_only { result ≡ Err Spent → self.old.next ≡ never_used }
    {
        self.hand_call(message)
    }

    fn hand_call(&mut self, message: Message) -> Result<(u32, Datagrams), PairFault>
        requires sendable { IsSendable self.old.format message }
        requires up { self.old.stopped ≡ false }
        ensures left { OnOk result (self.old.next < never_used) }
        ensures number { IfOk result (λ sent. sent.0 ≡ self.old.next) }
        ensures datagrams { IfOk result (λ sent. sent.1 ≡ datagrams_of_call self.old message) }
        ensures state { OnOk result (self.new ≡ send_call self.old message) }
        ensures err { OnErr result (self.new ≡ self.old) }
        ensures format { self.new.format ≡ self.old.format }
        ensures down { self.new.stopped ≡ self.old.stopped }
        ensures spent { self.old.next ≡ never_used → result ≡ Err Spent }
        ensures spent_only { result ≡ Err Spent → self.old.next ≡ never_used }
    {
        let number = self.exchange.next;
        if number == NEVER_USED {
            return Err(PairFault::Spent);
        }
        match self.exchange.send_call(self.alloc, message) {
            Ok(datagrams) => Ok((number, datagrams)),
            Err(_) => Err(PairFault::NoMemory),
        }
    }

    /// Hands the return to a call over, which has arrived whole and has had none, and answers what is sent
    /// (docs/PROTOCOL.md, "Returns"). After `NoMemory` nothing has changed.
    pub fn send_return(&mut self, call: u32, message: Message) -> Result<Datagrams, NoMemory>
        requires sendable { IsSendable self.old.format message }
        requires awaited { awaits_return self.old call ≡ true }
        ensures datagrams { IfOk result (λ datagrams.
            datagrams ≡ datagrams_of_return self.old call message) }
        ensures state { OnOk result (self.new ≡ send_return self.old call message) }
        ensures stands { (first format : ℕ) (acts : Acts) → StandsFor self.old first format acts
            → OnOk result (StandsFor self.new first format (more acts (Return call message))) }
        ensures owed { (first format : ℕ) (acts : Acts) → StandsFor self.old first format acts
            → IfOk result (λ datagrams.
            datagrams ≡ outputs (start first format) acts (Return call message)) }
        ensures err { OnErr result (self.new ≡ self.old) }
        ensures format { self.new.format ≡ self.old.format }
        ensures down { self.new.stopped ≡ self.old.stopped }
    {
        self.exchange.send_return(self.alloc, call, message)
    }

    /// Takes the segment that a datagram of the other end is, and answers what is sent, what has arrived by it,
    /// and whether it was dropped (docs/PROTOCOL.md, "Segments"). Its data is copied where it is kept. After `NoMemory`
    /// nothing has changed.
    pub fn take(&mut self, segment: &Segment<'_>) -> Result<Taken, NoMemory>
        requires { IsSegment (piece segment.now) }
        ensures datagrams { IfOk result (λ taken.
            taken.datagrams ≡ datagrams_after self.old (piece segment.now)) }
        ensures arrived { IfOk result (λ taken.
            taken.arrived ≡ arrived_after self.old (piece segment.now)) }
        ensures dropped { IfOk result (λ taken.
            taken.dropped ≡ not (takes self.old (piece segment.now))) }
        ensures state { OnOk result (self.new ≡ after self.old (piece segment.now)) }
        ensures stands { (first format : ℕ) (acts : Acts) → StandsFor self.old first format acts
            → OnOk result (StandsFor self.new first format (more acts (Came (piece segment.now)))) }
        ensures owed { (first format : ℕ) (acts : Acts) → StandsFor self.old first format acts
            → IfOk result (λ taken.
            taken.datagrams ≡ outputs (start first format) acts (Came (piece segment.now))) }
        ensures heard { (first format : ℕ) (acts : Acts) → StandsFor self.old first format acts
            → IfOk result (λ taken.
            taken.arrived ≡ arrival_after (start first format) acts (piece segment.now)) }
        ensures drops { (first format : ℕ) (acts : Acts) → StandsFor self.old first format acts
            → IfOk result (λ taken.
            taken.dropped ≡ not (takes_after (start first format) acts (piece segment.now))) }
        ensures err { OnErr result (self.new ≡ self.old) }
        ensures format { self.new.format ≡ self.old.format }
        ensures down { self.new.stopped ≡ self.old.stopped }
    {
        self.exchange.take(self.alloc, segment)
    }

    /// What a tick sends again or asks for, and whether the other end is suspected now (docs/PROTOCOL.md,
    /// "Ticks"). The other end was not declared down. After `NoMemory` nothing has changed.
    pub fn tick(&mut self) -> Result<Ticked, NoMemory>
        requires up { self.old.stopped ≡ false }
        ensures datagrams { IfOk result (λ tick. tick.datagrams ≡ datagrams_of_tick self.old) }
        ensures suspect { IfOk result (λ tick. tick.suspect ≡ is_suspect self.old) }
        ensures state { OnOk result (self.new ≡ count_tick self.old) }
        ensures stands { (first format : ℕ) (acts : Acts) → StandsFor self.old first format acts
            → OnOk result (StandsFor self.new first format (more acts Tick)) }
        ensures owed { (first format : ℕ) (acts : Acts) → StandsFor self.old first format acts
            → IfOk result (λ tick. tick.datagrams ≡ outputs (start first format) acts Tick) }
        ensures suspects { (first format : ℕ) (acts : Acts) → StandsFor self.old first format acts
            → IfOk result (λ tick. tick.suspect ≡ suspects_after (start first format) acts) }
        ensures err { OnErr result (self.new ≡ self.old) }
        ensures format { self.new.format ≡ self.old.format }
        ensures down { self.new.stopped ≡ self.old.stopped }
    {
        self.exchange.tick(self.alloc)
    }

    /// The other end was declared down: nothing is acknowledged any more, and no call that waits is sent.
    pub fn stop(&mut self)
        ensures state { self.new ≡ stop_exchange self.old }
        ensures stands { (first format : ℕ) (acts : Acts) → StandsFor self.old first format acts
            → StandsFor self.new first format (more acts Stop) }
        ensures format { self.new.format ≡ self.old.format }
    {
        self.exchange.stop();
    }

    /// The number of the next call; where it is 4,294,967,295, which is never used, no call can be handed over any more.
    pub fn next_number(&self) -> u32
        ensures value { result ≡ self.now.next }
        ensures counted { (first format : ℕ) (acts : Acts) → StandsFor self.now first format acts
            → result ≡ first + calls_made acts }
    {
        self.exchange.next
    }

    /// Whether a call has arrived whole and has had no return.
    pub fn awaits_return(&self, call: u32) -> bool
        ensures value { result ≡ awaits_return self.now call }
        ensures owed { (first format : ℕ) (acts : Acts) → StandsFor self.now first format acts
            → result ≡ (has_arrived (taken_by (start first format) acts) 0 call && not
            (is_some (return_at acts call))) }
    {
        self.exchange.awaits_return(call)
    }
}
