// One end of an exchange of calls and returns with another node.
ghost use Rattle.std.specs.Prelude.{◌≡◌, ◌≢◌, ◌+◌, ◌≤◌, ◌<◌, ◌++◌, length, not, true, false, if◌then◌else◌, IfOk, OnOk, OnErr};
ghost use Rattle.std.specs.FinMap as map;
ghost use Rattle.circus_segment.specs.Segment.{IsSegment, part_size, most_segments, is_acknowledgement};
ghost use Rattle.circus_exchange.specs.Limits.{window, never_used};
ghost use Rattle.circus_segment.specs.Seen.Pieces.{piece};
ghost use Rattle.circus_exchange.specs.declared.taken.Arrived.TheVariants.{Nothing};

use crate::inbox::Inbox;
use crate::outbox::Outbox;
use crate::taken::{Arrived, Taken, Ticked};
use circus_segment::{CALL, Cut, Datagrams, LONGEST, RETURN, Segment, segment_count};
use circus_value::{Message, NoMemory};
use std::alloc::Global;

/// Calls that are sent and not acknowledged whole at most.
pub const WINDOW: u32 = 64;

/// Ticks after which a silent node is suspected.
pub const PATIENCE: u8 = 8;

/// The number that no call has.
pub const NEVER_USED: u32 = 4_294_967_295;

/// What one end knows of its calls and returns with another node.
pub struct Exchange {
    pub format: u8,
    /// The number of the next call.
    pub next: u32,
    /// Calls below it are sent, the others wait.
    pub sent: u32,
    /// How many calls are sent and not acknowledged whole.
    pub in_flight: u32,
    pub calls: Outbox,
    pub returns: Outbox,
    pub arriving_calls: Inbox,
    pub arriving_returns: Inbox,
    /// Ticks since a segment of the other end was taken, while a call had no return.
    pub ticks: u8,
    /// Whether the other end is down.
    pub stopped: bool,
}

// Written out, so that dropping one is one step of a proof (docs/PROOFS.md, "Cost").
impl Drop for Exchange {
    fn drop(self) {
        let Exchange {
            format: _,
            next: _,
            sent: _,
            in_flight: _,
            calls: _,
            returns: _,
            arriving_calls: _,
            arriving_returns: _,
            ticks: _,
            stopped: _,
        } = self;
    }
}

impl Exchange {
    ghost use Rattle.circus_exchange.specs.Exchange.{start, send_call, datagrams_of_call, send_return, datagrams_of_return, awaits_return, was_sent, takes, lets_go, let_go, datagrams_let_go, in_flight_after, call_reached, return_reached, total_of, end_call, return_added, after_taken, after, datagrams_of_taken, datagrams_after, arrived_of_taken, arrived_after, count_tick, is_suspect, datagrams_of_tick, stop_exchange, sends_at_once};

    /// An end without calls and returns, whose first call gets this number. It grows with this allocator, and sends in this
    /// format, which is 1 or 2.
    pub fn new(alloc: Global, number: u32, format: u8) -> Self
        ensures { result ≡ start number format }
    {
        Exchange {
            format,
            next: number,
            sent: number,
            in_flight: 0,
            calls: Outbox::new(alloc, number),
            returns: Outbox::new(alloc, 0),
            arriving_calls: Inbox::new(alloc, 0),
            arriving_returns: Inbox::new(alloc, number),
            ticks: 0,
            stopped: false,
        }
    }

    #[tactic(auto, unfolding(crate::specs::Exchange::sends_at_once))]
    fn sends_at_once(&self) -> bool
        ensures value { result ≡ sends_at_once self.now }
        ensures room { result ≡ true
            → (self.now.in_flight < window) × (self.now.sent ≡ self.now.next) }
    {
        self.in_flight < WINDOW && self.sent == self.next
    }

    #[tactic(auto, unfolding(crate::specs::Exchange::datagrams_of_call))]
    fn datagrams_of_call(&self, alloc: Global, message: &[u8]) -> Result<Datagrams, NoMemory>
        requires { length message.now ≤ LONGEST }
        ensures { IfOk result (λ datagrams. datagrams ≡ datagrams_of_call self.now message.now) }
    {
        let mut datagrams = Datagrams::new(alloc);
        if self.sends_at_once() {
            let cut = Cut {
                format: self.format,
                kind: CALL,
                call: self.next,
                total: segment_count(message),
                message,
            };
            cut.send_whole(alloc, &mut datagrams)?;
        }
        Ok(datagrams)
    }

    /// Hands a call over. After `NoMemory` nothing has changed.
    #[tactic(auto, unfolding(crate::specs::Exchange::send_call))]
    pub fn send_call(&mut self, alloc: Global, message: Message) -> Result<Datagrams, NoMemory>
        requires long { length message ≤ LONGEST }
        requires number { self.old.next < never_used }
        requires fresh { map.get self.old.calls.progress self.old.next ≡ None }
        ensures datagrams { IfOk result (λ datagrams.
            datagrams ≡ datagrams_of_call self.old message) }
        ensures state { OnOk result (self.new ≡ send_call self.old message) }
        ensures err { OnErr result (self.new ≡ self.old) }
    {
        let datagrams = self.datagrams_of_call(alloc, message.as_slice())?;
        let at_once = self.sends_at_once();
        let idle = self.calls.is_empty();
        let total = segment_count(message.as_slice());
        self.calls.hand(self.next, total, message)?;
        self.count_call(at_once, idle);
        Ok(datagrams)
    }

    // Notes that a call was handed over, which is sent at once or not, where no other call waited or one did.
    fn count_call(&mut self, at_once: bool, idle: bool)
        requires number { self.old.next < never_used }
        requires at_once { at_once ≡ true
            → (self.old.in_flight < window) × (self.old.sent ≡ self.old.next) }
        ensures { self.new
            ≡ record self.old {
              next = self.old.next + 1;
              sent = if at_once then self.old.sent + 1
                  else self.old.sent;
              in_flight = if at_once then self.old.in_flight + 1
                  else self.old.in_flight;
              ticks = if idle then 0 else self.old.ticks;
            } }
    {
        if at_once {
            self.sent += 1;
            self.in_flight += 1;
        }
        if idle {
            self.ticks = 0;
        }
        self.next += 1;
    }

    /// Hands a return over. After `NoMemory` nothing has changed.
    #[tactic(auto, unfolding(crate::specs::Exchange::send_return, crate::specs::Exchange::datagrams_of_return))]
    pub fn send_return(
        &mut self,
        alloc: Global,
        call: u32,
        message: Message,
    ) -> Result<Datagrams, NoMemory>
        requires long { length message ≤ LONGEST }
        requires fresh { map.get self.old.returns.progress call ≡ None }
        ensures datagrams { IfOk result (λ datagrams.
            datagrams ≡ datagrams_of_return self.old call message) }
        ensures state { OnOk result (self.new ≡ send_return self.old call message) }
        ensures err { OnErr result (self.new ≡ self.old) }
    {
        let mut datagrams = Datagrams::new(alloc);
        let total = segment_count(message.as_slice());
        let cut = Cut {
            format: self.format,
            kind: RETURN,
            call,
            total,
            message: message.as_slice(),
        };
        cut.send_whole(alloc, &mut datagrams)?;
        self.returns.hand(call, total, message)?;
        Ok(datagrams)
    }

    #[tactic(auto, unfolding(crate::specs::Exchange::was_sent))]
    fn was_sent(&self, call: u32) -> bool
        ensures { result ≡ was_sent self.now call }
    {
        call < self.sent && self.calls.progress_of(call).is_some()
    }

    /// Whether a segment is taken, and not dropped.
    #[tactic(auto, unfolding(crate::specs::Exchange::takes))]
    pub fn takes(&self, segment: &Segment<'_>) -> bool
        ensures { result ≡ takes self.now (piece segment.now) }
    {
        if segment.format != self.format {
            return false;
        }
        match (segment.is_acknowledgement(), segment.kind == CALL) {
            (true, true) => self.was_sent(segment.call) && self.calls.agrees(segment),
            (true, false) => self.returns.agrees(segment),
            (false, true) => self.arriving_calls.fits(segment),
            (false, false) => self.was_sent(segment.call) && self.arriving_returns.fits(segment),
        }
    }

    #[tactic(auto, unfolding(crate::specs::Exchange::lets_go))]
    fn lets_go(&self, in_flight: u32) -> bool
        ensures { result ≡ lets_go self.now in_flight }
    {
        !self.stopped && in_flight < WINDOW && self.sent < self.next
    }

    // Counts the first call that waits as sent, if it may go.
    #[tactic(auto, unfolding(crate::specs::Exchange::let_go, crate::specs::Exchange::lets_go))]
    fn let_go(&mut self)
        ensures { self.new ≡ let_go self.old }
    {
        if self.lets_go(self.in_flight) {
            self.sent += 1;
            self.in_flight += 1;
        }
    }

    // Adds the datagrams of the first call that waits, if it may go.
    #[tactic(auto, unfolding(crate::specs::Exchange::datagrams_let_go))]
    fn send_let_go(
        &self,
        alloc: Global,
        in_flight: u32,
        datagrams: &mut Datagrams,
    ) -> Result<(), NoMemory>
        ensures { OnOk result
            (datagrams.new ≡ datagrams.old ++ datagrams_let_go self.now in_flight) }
    {
        if !self.lets_go(in_flight) {
            return Ok(());
        }
        match self.calls.message_under_way(self.format, CALL, self.sent) {
            Some(cut) => cut.send_whole(alloc, datagrams),
            None => Ok(()),
        }
    }

    #[tactic(auto, unfolding(crate::specs::Exchange::in_flight_after))]
    fn in_flight_after(&self, call: u32, count: u16) -> u32
        ensures { result ≡ in_flight_after self.now call count }
    {
        if self.calls.becomes_whole(call, count) {
            self.in_flight.saturating_sub(1)
        } else {
            self.in_flight
        }
    }

    // Notes that the segments of a call up to a count are acknowledged.
    #[tactic(auto, unfolding(crate::specs::Exchange::call_reached))]
    fn reach_call(&mut self, alloc: Global, call: u32, count: u16)
        ensures { self.new ≡ call_reached self.old call count }
    {
        let whole = self.calls.becomes_whole(call, count);
        self.in_flight = self.in_flight_after(call, count);
        self.calls.reach(call, count);
        if whole {
            self.calls.drop_bytes(alloc, call);
        }
    }

    // Notes that the segments of a return up to a count are acknowledged.
    #[tactic(auto, unfolding(crate::specs::Exchange::return_reached))]
    fn reach_return(&mut self, call: u32, count: u16)
        ensures { self.new ≡ return_reached self.old call count }
    {
        let whole = self.returns.becomes_whole(call, count);
        self.returns.reach(call, count);
        if whole {
            self.returns.forget(call);
        }
    }

    // Forgets a call whose return is complete.
    #[tactic(auto, unfolding(crate::specs::Exchange::end_call))]
    fn end_call(&mut self, call: u32, complete: bool)
        ensures { self.new ≡ end_call self.old call complete }
    {
        if complete {
            self.calls.forget(call);
        }
    }

    #[tactic(auto, unfolding(crate::specs::Exchange::total_of))]
    fn total_of(&self, call: u32) -> u16
        ensures { result ≡ total_of self.now call }
    {
        match self.calls.progress_of(call) {
            Some(progress) => progress.total,
            None => 0,
        }
    }

    /// Takes a segment. After `NoMemory` nothing has changed.
    pub fn take(&mut self, alloc: Global, segment: &Segment<'_>) -> Result<Taken, NoMemory>
        requires { IsSegment (piece segment.now) }
        ensures datagrams { IfOk result (λ t.
            t.datagrams ≡ datagrams_after self.old (piece segment.now)) }
        ensures arrived { IfOk result (λ t.
            t.arrived ≡ arrived_after self.old (piece segment.now)) }
        ensures dropped { IfOk result (λ t. t.dropped ≡ not (takes self.old (piece segment.now))) }
        ensures state { OnOk result (self.new ≡ after self.old (piece segment.now)) }
        ensures err { OnErr result (self.new ≡ self.old) }
    {
        if !self.takes(segment) {
            return Ok(Taken {
                datagrams: Datagrams::new(alloc),
                arrived: Arrived::Nothing,
                dropped: true,
            });
        }
        let (datagrams, arrived) = self.take_fitting(alloc, segment)?;
        Ok(Taken {
            datagrams,
            arrived,
            dropped: false,
        })
    }

    // Takes a segment that is not dropped.
    fn take_fitting(
        &mut self,
        alloc: Global,
        segment: &Segment<'_>,
    ) -> Result<(Datagrams, Arrived), NoMemory>
        requires { IsSegment (piece segment.now) }
        ensures datagrams { IfOk result (λ t.
            t.0 ≡ datagrams_of_taken self.old (piece segment.now)) }
        ensures arrived { IfOk result (λ t.
            t.1 ≡ (if is_acknowledgement (piece segment.now) then Nothing
            else arrived_of_taken self.old (piece segment.now))) }
        ensures state { OnOk result (self.new ≡ after_taken self.old (piece segment.now)) }
        ensures err { OnErr result (self.new ≡ self.old) }
    {
        if segment.is_acknowledgement() {
            let datagrams = if segment.kind == CALL {
                self.take_call_acknowledged(alloc, segment)?
            } else {
                self.take_return_acknowledged(alloc, segment)
            };
            return Ok((datagrams, Arrived::Nothing));
        }
        if segment.kind == CALL {
            self.take_call(alloc, segment)
        } else {
            self.take_return(alloc, segment)
        }
    }

    #[tactic(auto, unfolding(crate::specs::Exchange::after_taken, crate::specs::Exchange::datagrams_of_taken))]
    fn take_call_acknowledged(
        &mut self,
        alloc: Global,
        segment: &Segment<'_>,
    ) -> Result<Datagrams, NoMemory>
        requires acknowledgement { is_acknowledgement (piece segment.now) ≡ true }
        requires call { segment.now.kind ≡ 0 }
        ensures datagrams { IfOk result (λ datagrams.
            datagrams ≡ datagrams_of_taken self.old (piece segment.now)) }
        ensures state { OnOk result (self.new ≡ after_taken self.old (piece segment.now)) }
        ensures err { OnErr result (self.new ≡ self.old) }
    {
        let mut datagrams = Datagrams::new(alloc);
        let in_flight = self.in_flight_after(segment.call, segment.number);
        self.send_let_go(alloc, in_flight, &mut datagrams)?;
        self.reach_call(alloc, segment.call, segment.number);
        self.let_go();
        self.ticks = 0;
        Ok(datagrams)
    }

    #[tactic(auto, unfolding(crate::specs::Exchange::after_taken, crate::specs::Exchange::datagrams_of_taken))]
    fn take_return_acknowledged(&mut self, alloc: Global, segment: &Segment<'_>) -> Datagrams
        requires acknowledgement { is_acknowledgement (piece segment.now) ≡ true }
        requires return_kind { segment.now.kind ≢ 0 }
        ensures datagrams { result ≡ datagrams_of_taken self.old (piece segment.now) }
        ensures state { self.new ≡ after_taken self.old (piece segment.now) }
    {
        self.reach_return(segment.call, segment.number);
        self.ticks = 0;
        Datagrams::new(alloc)
    }

    #[tactic(auto, unfolding(crate::specs::Exchange::after_taken, crate::specs::Exchange::datagrams_of_taken, crate::specs::Exchange::arrived_of_taken))]
    fn take_call(
        &mut self,
        alloc: Global,
        segment: &Segment<'_>,
    ) -> Result<(Datagrams, Arrived), NoMemory>
        requires data_segment { is_acknowledgement (piece segment.now) ≡ false }
        requires call { segment.now.kind ≡ 0 }
        requires within { segment.now.number ≤ segment.now.total }
        requires total { segment.now.total ≤ most_segments 2 }
        requires short { length segment.now.part.now ≤ part_size }
        ensures datagrams { IfOk result (λ t.
            t.0 ≡ datagrams_of_taken self.old (piece segment.now)) }
        ensures arrived { IfOk result (λ t. t.1 ≡ arrived_of_taken self.old (piece segment.now)) }
        ensures state { OnOk result (self.new ≡ after_taken self.old (piece segment.now)) }
        ensures err { OnErr result (self.new ≡ self.old) }
    {
        let advance = self.arriving_calls.advance(segment);
        let datagrams = advance.acknowledgement(alloc, self.stopped, segment)?;
        let arrived = match self
            .arriving_calls
            .message_completed(alloc, segment, advance)?
        {
            Some(message) => Arrived::ArrivedCall(segment.call, message),
            None => Arrived::Nothing,
        };
        self.arriving_calls.add(alloc, segment, advance)?;
        self.ticks = 0;
        Ok((datagrams, arrived))
    }

    #[tactic(auto, unfolding(crate::specs::Exchange::after_taken, crate::specs::Exchange::return_added, crate::specs::Exchange::datagrams_of_taken, crate::specs::Exchange::arrived_of_taken))]
    fn take_return(
        &mut self,
        alloc: Global,
        segment: &Segment<'_>,
    ) -> Result<(Datagrams, Arrived), NoMemory>
        requires data_segment { is_acknowledgement (piece segment.now) ≡ false }
        requires return_kind { segment.now.kind ≢ 0 }
        requires within { segment.now.number ≤ segment.now.total }
        requires total { segment.now.total ≤ most_segments 2 }
        requires short { length segment.now.part.now ≤ part_size }
        ensures datagrams { IfOk result (λ t.
            t.0 ≡ datagrams_of_taken self.old (piece segment.now)) }
        ensures arrived { IfOk result (λ t. t.1 ≡ arrived_of_taken self.old (piece segment.now)) }
        ensures state { OnOk result (self.new ≡ after_taken self.old (piece segment.now)) }
        ensures err { OnErr result (self.new ≡ self.old) }
    {
        let total = self.total_of(segment.call);
        let advance = self.arriving_returns.advance(segment);
        let mut datagrams = advance.acknowledgement(alloc, self.stopped, segment)?;
        let in_flight = self.in_flight_after(segment.call, total);
        self.send_let_go(alloc, in_flight, &mut datagrams)?;
        let arrived = match self
            .arriving_returns
            .message_completed(alloc, segment, advance)?
        {
            Some(message) => Arrived::ArrivedReturn(segment.call, message),
            None => Arrived::Nothing,
        };
        self.arriving_returns.add(alloc, segment, advance)?;
        self.reach_call(alloc, segment.call, total);
        self.end_call(segment.call, advance.completes(segment));
        self.let_go();
        self.ticks = 0;
        Ok((datagrams, arrived))
    }

    /// Whether a call has arrived whole and no return to it was handed over.
    #[tactic(auto, unfolding(crate::specs::Exchange::awaits_return))]
    pub fn awaits_return(&self, call: u32) -> bool
        ensures { result ≡ awaits_return self.now call }
    {
        match self.arriving_calls.progress_of(call) {
            Some(progress) => {
                progress.count == progress.total && self.returns.progress_of(call).is_none()
            }
            None => false,
        }
    }

    /// What a tick does. After `NoMemory` nothing has changed.
    #[tactic(auto, unfolding(crate::specs::Exchange::count_tick, crate::specs::Exchange::is_suspect, crate::specs::Exchange::datagrams_of_tick))]
    pub fn tick(&mut self, alloc: Global) -> Result<Ticked, NoMemory>
        ensures datagrams { IfOk result (λ t. t.datagrams ≡ datagrams_of_tick self.old) }
        ensures suspect { IfOk result (λ t. t.suspect ≡ is_suspect self.old) }
        ensures state { OnOk result (self.new ≡ count_tick self.old) }
        ensures err { OnErr result (self.new ≡ self.old) }
    {
        let mut datagrams = Datagrams::new(alloc);
        self.calls.remind(
            alloc,
            self.format,
            CALL,
            u64::from(self.sent),
            &mut datagrams,
        )?;
        self.returns
            .remind(alloc, self.format, RETURN, 1 << 32, &mut datagrams)?;
        let suspect = self.count_tick();
        Ok(Ticked { datagrams, suspect })
    }

    // Counts a tick, and says whether it is the one at which the other end is suspected.
    #[tactic(auto, unfolding(crate::specs::Exchange::count_tick, crate::specs::Exchange::is_suspect))]
    fn count_tick(&mut self) -> bool
        ensures suspect { result ≡ is_suspect self.old }
        ensures state { self.new ≡ count_tick self.old }
    {
        if self.calls.is_empty() || self.ticks >= PATIENCE {
            return false;
        }
        self.ticks += 1;
        self.ticks == PATIENCE
    }

    /// The other end is down.
    pub fn stop(&mut self)
        ensures { self.new ≡ stop_exchange self.old }
    {
        self.stopped = true;
    }
}
