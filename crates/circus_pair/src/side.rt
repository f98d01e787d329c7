// One of two ends that are put together.
ghost use Rattle.std.specs.Prelude.{◌≡◌, ◌⊎◌, [], length, nat_lt, slice_get, false, IfOk, OnOk, OnErr, Some, Err};
ghost use Rattle.circus_pair.specs.declared.two_ends.TwoFault.TheVariants.{NoSuch, Spent};
ghost use Rattle.circus_pair.specs.Acts.{Call, Return, Tick};
ghost use Rattle.circus_segment.specs.Segment.{reading};
ghost use Rattle.circus_exchange.specs.Exchange.{start, IsSendable, awaits_return};
ghost use Rattle.circus_exchange.specs.Limits.{never_used};
ghost use Rattle.circus_pair.specs.TwoEnds.{move_end, act_of_datagram, act_of_delivery, arrived_by};

use crate::pair::Pair;
use crate::sent::Sent;
use crate::two_ends::TwoFault;
use circus_exchange::Arrived;
use circus_segment::read_segment;
use circus_value::{Message, NoMemory};
use std::alloc::Global;
use std::marker::Model;

/// A pair, and the datagrams that it has sent. Clauses see both.
#[derive(Drop)]
pub struct Side {
    pair: Pair,
    /// The number of the next call.
    next: u32,
    sent: Sent,
}

impl Model for Side {
    ghost use Rattle.std.specs.Prelude.{◌≡◌, false, ℕ, List, ◌++◌, refl};
    ghost use Rattle.std.specs.Coded.{code_by, coded×, coded_list, coded_ℕ};
    ghost use Rattle.circus_exchange.specs.declared.exchange.Exchange.{Exchange};
    ghost use Rattle.circus_exchange.specs.contracts.exchange.Exchange as model;
    ghost use Rattle.circus_pair.specs.TwoEnds.{End};

    ghost Value = { End };

    ghost coded = { code_by (Exchange × List (List ℕ)) (coded× model.the_row.coded (coded_list (coded_list coded_ℕ))) (λ e. (e.exchange, e.sent)) (λ p. record { exchange = p.0; sent = p.1 }) (λ _. refl) };

    ghost view = { λ a. record { exchange = a.pair; sent = a.sent.shared.items ++ a.sent.fresh } };

    ghost invariant = { λ a. (a.next ≡ a.pair.next) × (a.pair.stopped ≡ false) };
}

impl Side {
    /// An end before any call. It takes no memory.
    pub fn new(alloc: Global, format: u8) -> Side
        requires { (format ≡ 1) ⊎ (format ≡ 2) }
        ensures exchange { result.exchange ≡ start 0 format }
        ensures sent { result.sent ≡ [] }
    {
        Side {
            pair: Pair::new(alloc, format),
            next: 0,
            sent: Sent::new(alloc),
        }
    }

    /// Hands a call over. After a fault nothing has changed.
    pub fn call(&mut self, message: Message) -> Result<(), TwoFault>
        requires { IsSendable self.old.exchange.format message }
        ensures state { OnOk result (self.new ≡ move_end self.old (Some (Call message))) }
        ensures err { OnErr result (self.new ≡ self.old) }
        ensures spent { self.old.exchange.next ≡ never_used → result ≡ Err Spent }
        ensures spent_only { result ≡ Err Spent → self.old.exchange.next ≡ never_used }
        ensures such { result ≡ Err NoSuch → ⊥ }
    {
        if self.next == u32::MAX {
            return Err(TwoFault::Spent);
        }
        if self.sent.share().is_err() {
            return Err(TwoFault::NoMemory);
        }
        match self.pair.send_call(message) {
            Ok((_, datagrams)) => {
                self.sent.fresh = datagrams;
                self.next += 1;
                Ok(())
            }
            Err(_) => Err(TwoFault::NoMemory),
        }
    }

    /// Hands the return to a call over. `NoSuch` where the call has not arrived whole or had a return. After a
    /// fault nothing has changed.
    pub fn give_back(&mut self, call: u32, message: Message) -> Result<(), TwoFault>
        requires { IsSendable self.old.exchange.format message }
        ensures state { OnOk result (self.new ≡ move_end self.old (Some (Return call message))) }
        ensures err { OnErr result (self.new ≡ self.old) }
        ensures such { awaits_return self.old.exchange call ≡ false → result ≡ Err NoSuch }
        ensures such_only { result ≡ Err NoSuch → awaits_return self.old.exchange call ≡ false }
        ensures spent { result ≡ Err Spent → ⊥ }
    {
        if !self.pair.awaits_return(call) {
            return Err(TwoFault::NoSuch);
        }
        if self.sent.share().is_err() {
            return Err(TwoFault::NoMemory);
        }
        match self.pair.send_return(call, message) {
            Ok(datagrams) => {
                self.sent.fresh = datagrams;
                Ok(())
            }
            Err(_) => Err(TwoFault::NoMemory),
        }
    }

    /// Whether a datagram of this number was sent.
    pub fn has_sent(&self, number: usize) -> bool
        ensures { result ≡ nat_lt number (length self.now.sent) }
    {
        self.sent.has(number)
    }

    /// Takes the datagram of this number that another end has sent, or does nothing where there is none. After
    /// `NoMemory` nothing has changed.
    pub fn take(&mut self, other: &mut Side, number: usize) -> Result<Arrived, NoMemory>
        ensures state { OnOk result
            (self.new ≡ move_end self.old (act_of_delivery (slice_get other.old.sent number))) }
        ensures arrived { IfOk result (λ arrived.
            arrived ≡ arrived_by self.old.exchange
            (act_of_delivery (slice_get other.old.sent number))) }
        ensures err { OnErr result (self.new ≡ self.old) }
        ensures other { other.new ≡ other.old }
    {
        other.sent.share()?;
        match other.sent.shared.get(number) {
            Some(datagram) => self.take_datagram(datagram.as_slice()),
            None => Ok(Arrived::Nothing),
        }
    }

    fn take_datagram(&mut self, datagram: &[u8]) -> Result<Arrived, NoMemory>
        ensures state { OnOk result
            (self.new ≡ move_end self.old (act_of_datagram (reading datagram.now))) }
        ensures arrived { IfOk result (λ arrived.
            arrived ≡ arrived_by self.old.exchange (act_of_datagram (reading datagram.now))) }
        ensures err { OnErr result (self.new ≡ self.old) }
    {
        self.sent.share()?;
        match read_segment(datagram) {
            Ok(segment) => {
                let taken = self.pair.take(&segment)?;
                self.sent.fresh = taken.datagrams;
                Ok(taken.arrived)
            }
            Err(_) => Ok(Arrived::Nothing),
        }
    }

    /// Lets a tick come. After `NoMemory` nothing has changed.
    pub fn tick(&mut self) -> Result<(), NoMemory>
        ensures state { OnOk result (self.new ≡ move_end self.old (Some Tick)) }
        ensures err { OnErr result (self.new ≡ self.old) }
    {
        self.sent.share()?;
        self.sent.fresh = self.pair.tick()?.datagrams;
        Ok(())
    }
}
