// Two ends of a pair that are put together, and what happens at them.
ghost use Rattle.std.specs.Prelude.{◌≡◌, ◌⊎◌, ℕ, true, false, length, slice_get, nat_lt, ◌++◌, IfOk, OnOk, OnErr, Err};
ghost use Rattle.circus_pair.specs.declared.two_ends.TwoFault.TheVariants.{NoSuch, Spent};
ghost use Rattle.circus_pair.specs.TwoEnds.{History, begun, then_came, both_after, acts_of, IsLawfulHistory, Agree, arrived_at, acting_end, arrivals_of, move_end, act_of_delivery, arrived_by, step_both, arrives, CanBeSent, names_none, has_no_number};

use crate::side::Side;
use circus_exchange::Arrived;
use circus_value::{Message, NoMemory};
use std::alloc::Global;
use std::marker::Model;
use thiserror::Error;

/// What happens at one of two ends. The truth value names the end that acts, or to which is delivered: node 0 where
/// it is false, node 1 where it is true.
#[derive(Drop)]
pub enum Act {
    /// A call is handed over.
    Call(bool, Message),
    /// The return to the call of this number is handed over.
    Return(bool, u32, Message),
    /// The datagram of this number comes, among those that the other end has sent, counted from 0.
    Deliver(bool, u32),
    /// A tick comes.
    Tick(bool),
}

/// Why an act does not happen.
#[derive(Debug, Drop, Error)]
pub enum TwoFault {
    /// No call of that number waits for its return, or no datagram of that number was sent.
    #[error("no such call or datagram")]
    NoSuch,
    /// The next number is 4,294,967,295, which is never used.
    #[error("no number is left")]
    Spent,
    /// Memory ran out.
    #[error("out of memory")]
    NoMemory,
}

/// Two ends of one format that are put together, node 0 and node 1, and the datagrams that each has sent. The
/// caller says which of them come, in which order and how often (docs/PROTOCOL.md, "Paired messages").
///
/// Clauses see both ends; `specs/TwoEnds.antt` says what each act does to them, what arrives by it, and for which
/// lists of acts two ends stand.
#[derive(Drop)]
pub struct TwoEnds {
    low: Side,
    high: Side,
}

impl Model for TwoEnds {
    ghost use Rattle.std.specs.Prelude.{refl};
    ghost use Rattle.std.specs.Coded.{code_by, coded×};
    ghost use Rattle.circus_pair.specs.TwoEnds.{End, Both};
    ghost use Rattle.circus_pair.specs.contracts.side.Side as model;

    ghost Value = { Both };

    ghost coded = { code_by (End × End) (coded× model.the_row.coded model.the_row.coded) (λ both. (both.low, both.high)) (λ p. record { low = p.0; high = p.1 }) (λ _. refl) };

    ghost view = { λ a. record { low = a.low; high = a.high } };
}

impl TwoEnds {
    /// Two ends before any act, in segment format 1 or 2. They take no memory.
    pub fn new(alloc: Global, format: u8) -> TwoEnds
        requires { (format ≡ 1) ⊎ (format ≡ 2) }
        ensures { result ≡ both_after format begun }
    {
        TwoEnds {
            low: Side::new(alloc, format),
            high: Side::new(alloc, format),
        }
    }

    /// Lets an act happen, and answers the message that it completes, if it does.
    ///
    /// `NoSuch` where a return names a call that has not arrived whole at that end or had a return, or a delivery
    /// a number that is not below those of the datagrams that the other end has sent. `Spent` where the number of
    /// a call would be 4,294,967,295. After a fault nothing has changed.
    pub fn step(&mut self, act: Act) -> Result<Arrived, TwoFault>
        requires { CanBeSent self.old act }
        ensures arrived { IfOk result (λ arrived. arrived ≡ arrives self.old act) }
        ensures state { OnOk result (self.new ≡ step_both self.old act) }
        ensures err { OnErr result (self.new ≡ self.old) }
        ensures such { names_none self.old act ≡ true → result ≡ Err NoSuch }
        ensures such_only { result ≡ Err NoSuch → names_none self.old act ≡ true }
        ensures spent { has_no_number self.old act ≡ true → result ≡ Err Spent }
        ensures spent_only { result ≡ Err Spent → has_no_number self.old act ≡ true }

        // Where these ends stand for a list of acts, they stand for it with this act, which might come.
        ensures stands { (format : ℕ) (history : History) → self.old ≡ both_after format history
            → OnOk result (self.new ≡ both_after format (then_came history act)) }
        ensures lawful { (format : ℕ) (history : History) → (format ≡ 1) ⊎ (format ≡ 2)
            → IsLawfulHistory format history → self.old ≡ both_after format history
            → OnOk result (IsLawfulHistory format (then_came history act)) }
        // Then each message has arrived at most once, and as it was sent, and counts as acknowledged whole only where
        // it has arrived.
        ensures agree { (format : ℕ) (history : History) → (format ≡ 1) ⊎ (format ≡ 2)
            → IsLawfulHistory format history → self.old ≡ both_after format history
            → OnOk result (Agree format (acts_of false format (then_came history act))
            (acts_of true format (then_came history act))) }
        ensures low_format { self.new.low.exchange.format ≡ self.old.low.exchange.format }
        ensures high_format { self.new.high.exchange.format ≡ self.old.high.exchange.format }
        ensures heard { (format : ℕ) (history : History) → self.old ≡ both_after format history
            → IfOk result (λ arrived.
            arrived_at (acting_end act) format (then_came history act)
            ≡ arrived_at (acting_end act) format history ++ arrivals_of arrived) }
    {
        self.happen(act)
    }

    fn happen(&mut self, act: Act) -> Result<Arrived, TwoFault>
        requires { CanBeSent self.old act }
        ensures arrived { IfOk result (λ arrived. arrived ≡ arrives self.old act) }
        ensures state { OnOk result (self.new ≡ step_both self.old act) }
        ensures err { OnErr result (self.new ≡ self.old) }
        ensures such { names_none self.old act ≡ true → result ≡ Err NoSuch }
        ensures such_only { result ≡ Err NoSuch → names_none self.old act ≡ true }
        ensures spent { has_no_number self.old act ≡ true → result ≡ Err Spent }
        ensures spent_only { result ≡ Err Spent → has_no_number self.old act ≡ true }
    {
        match act {
            Act::Call(end, message) => match self.call(end, message) {
                Ok(()) => Ok(Arrived::Nothing),
                Err(fault) => Err(fault),
            },
            Act::Return(end, call, message) => match self.give_back(end, call, message) {
                Ok(()) => Ok(Arrived::Nothing),
                Err(fault) => Err(fault),
            },
            Act::Deliver(end, number) => self.deliver(end, number),
            Act::Tick(end) => match self.tick(end) {
                Ok(()) => Ok(Arrived::Nothing),
                Err(_) => Err(TwoFault::NoMemory),
            },
        }
    }

    #[tactic(auto, unfolding(crate::specs::TwoEnds::step_both))]
    fn call(&mut self, end: bool, message: Message) -> Result<(), TwoFault>
        requires { CanBeSent self.old (Act.Call end message) }
        ensures state { OnOk result (self.new ≡ step_both self.old (Act.Call end message)) }
        ensures err { OnErr result (self.new ≡ self.old) }
        ensures such { result ≡ Err NoSuch → ⊥ }
        ensures spent { has_no_number self.old (Act.Call end message) ≡ true → result ≡ Err Spent }
        ensures spent_only { result ≡ Err Spent
            → has_no_number self.old (Act.Call end message) ≡ true }
    {
        if end {
            self.high.call(message)
        } else {
            self.low.call(message)
        }
    }

    #[tactic(auto, unfolding(crate::specs::TwoEnds::step_both))]
    fn give_back(&mut self, end: bool, call: u32, message: Message) -> Result<(), TwoFault>
        requires { CanBeSent self.old (Act.Return end call message) }
        ensures state { OnOk result (self.new ≡ step_both self.old (Act.Return end call message)) }
        ensures err { OnErr result (self.new ≡ self.old) }
        ensures such { names_none self.old (Act.Return end call message) ≡ true
            → result ≡ Err NoSuch }
        ensures such_only { result ≡ Err NoSuch
            → names_none self.old (Act.Return end call message) ≡ true }
        ensures spent { result ≡ Err Spent → ⊥ }
    {
        if end {
            self.high.give_back(call, message)
        } else {
            self.low.give_back(call, message)
        }
    }

    #[tactic(auto, unfolding(crate::specs::TwoEnds::step_both))]
    fn deliver(&mut self, end: bool, number: u32) -> Result<Arrived, TwoFault>
        ensures arrived { IfOk result (λ arrived.
            arrived ≡ arrives self.old (Act.Deliver end number)) }
        ensures state { OnOk result (self.new ≡ step_both self.old (Act.Deliver end number)) }
        ensures err { OnErr result (self.new ≡ self.old) }
        ensures such { names_none self.old (Act.Deliver end number) ≡ true → result ≡ Err NoSuch }
        ensures such_only { result ≡ Err NoSuch
            → names_none self.old (Act.Deliver end number) ≡ true }
        ensures spent { result ≡ Err Spent → ⊥ }
    {
        let number = number as usize;
        if end {
            deliver_from(&mut self.low, &mut self.high, number)
        } else {
            deliver_from(&mut self.high, &mut self.low, number)
        }
    }

    #[tactic(auto, unfolding(crate::specs::TwoEnds::step_both))]
    fn tick(&mut self, end: bool) -> Result<(), NoMemory>
        ensures state { OnOk result (self.new ≡ step_both self.old (Act.Tick end)) }
        ensures err { OnErr result (self.new ≡ self.old) }
    {
        if end {
            self.high.tick()
        } else {
            self.low.tick()
        }
    }
}

// Delivers the datagram of a number, among those that one end has sent, to the other one.
fn deliver_from(from: &mut Side, to: &mut Side, number: usize) -> Result<Arrived, TwoFault>
    ensures arrived { IfOk result (λ arrived.
        arrived ≡ arrived_by to.old.exchange (act_of_delivery (slice_get from.old.sent number))) }
    ensures state { OnOk result
        (to.new ≡ move_end to.old (act_of_delivery (slice_get from.old.sent number))) }
    ensures from { from.new ≡ from.old }
    ensures err { OnErr result (to.new ≡ to.old) }
    ensures such { nat_lt number (length from.old.sent) ≡ false → result ≡ Err NoSuch }
    ensures such_only { result ≡ Err NoSuch → nat_lt number (length from.old.sent) ≡ false }
    ensures spent { result ≡ Err Spent → ⊥ }
{
    if !from.has_sent(number) {
        return Err(TwoFault::NoSuch);
    }
    match to.take(from, number) {
        Ok(arrived) => Ok(arrived),
        Err(_) => Err(TwoFault::NoMemory),
    }
}
