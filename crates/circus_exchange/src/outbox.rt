// Messages of one kind that are handed over and sent.
ghost use Rattle.std.specs.Prelude.{◌≡◌, ◌≤◌, ◌<◌, ◌++◌, option_map, ◌==◌, IfOk, OnOk, OnErr};
ghost use Rattle.std.specs.FinMap as map;
ghost use Rattle.circus_segment.specs.Seen.Pieces.{piece};

use crate::by_call::ByCall;
use crate::progress::Progress;
use crate::series::Series;
use circus_segment::{CALL, Cut, Datagrams, PLEASE_ACKNOWLEDGE, Segment};
use circus_value::{Message, NoMemory};
use std::alloc::Global;
use std::marker::Model;

/// What was handed over under the numbers of calls. The bytes of a message are kept while they may be sent
/// again, and of a call an empty message until its return has come.
#[derive(Drop)]
pub struct Outbox {
    progress: Series<Progress>,
    messages: ByCall<Message>,
}

impl Model for Outbox {
    ghost use Rattle.std.specs.Prelude.{ℕ, List, refl};
    ghost use Rattle.std.specs.Ordering.{nat_cmp};
    ghost use Rattle.std.specs.FinMap as map;
    ghost use Rattle.std.specs.Coded.{coded_ℕ, coded_list, coded×, code_by};
    ghost use Rattle.circus_exchange.specs.declared.progress.Progress.{Progress};
    ghost use Rattle.circus_exchange.specs.contracts.progress.Progress as progress_model;
    ghost use Rattle.circus_exchange.specs.Outbox.{HandedOver};
    ghost use Rattle.circus_exchange.specs.Seen.Known.{AreKnown};

    ghost Value = { HandedOver };

    ghost coded = { code_by (map.FinMap nat_cmp Progress × map.FinMap nat_cmp (List ℕ)) (coded× (map.code coded_ℕ progress_model.the_row.coded) (map.code coded_ℕ (coded_list coded_ℕ))) (λ a. (a.progress, a.messages)) (λ p. record { progress = p.0; messages = p.1 }) (λ _. refl) };

    ghost view = { λ a. record { progress = a.progress; messages = a.messages } };

    ghost invariant = { λ a. AreKnown a.progress a.messages };
}

impl Outbox {
    ghost use Rattle.circus_segment.specs.Seen.Outgoing.{outgoing_of};
    ghost use Rattle.circus_exchange.specs.Outbox.{agrees, outgoing_at, hand_over, acknowledge_up_to, becomes_whole, drop_bytes, forget_message, reminder_of, reminders};

    /// No messages; that of this number is expected first.
    pub fn new(alloc: Global, first: u32) -> Self
        ensures progress { result.progress ≡ map.empty }
        ensures messages { result.messages ≡ map.empty }
    {
        Outbox {
            progress: Series::new(alloc, first),
            messages: ByCall::new(alloc),
        }
    }

    /// How far the message of a call is acknowledged.
    pub fn progress_of(&self, call: u32) -> Option<Progress>
        ensures { result ≡ map.get self.now.progress call }
    {
        self.progress.get(call).copied()
    }

    /// Whether no message may have to be sent again, and no call waits for its return.
    pub fn is_empty(&self) -> bool
        ensures { result ≡ (map.len self.now.messages == 0) }
    {
        self.messages.is_empty()
    }

    /// Whether a segment speaks of a message that was handed over, and has its total.
    #[tactic(auto, unfolding(crate::specs::Outbox::agrees))]
    pub fn agrees(&self, segment: &Segment<'_>) -> bool
        ensures { result ≡ agrees self.now (piece segment.now) }
    {
        match self.progress_of(segment.call) {
            Some(progress) => progress.total == segment.total,
            None => false,
        }
    }

    /// The message of a call on its way.
    #[tactic(auto, unfolding(crate::specs::Outbox::outgoing_at))]
    pub fn message_under_way(&self, format: u8, kind: u8, call: u32) -> Option<Cut<'_>>
        ensures { option_map outgoing_of result ≡ outgoing_at self.now format kind call }
    {
        match (self.progress_of(call), self.messages.get(call)) {
            (Some(progress), Some(message)) => Some(Cut {
                format,
                kind,
                call,
                total: progress.total,
                message: message.as_slice(),
            }),
            _ => None,
        }
    }

    /// Takes a message. After `NoMemory` nothing has changed.
    pub fn hand(&mut self, call: u32, total: u16, message: Message) -> Result<(), NoMemory>
        requires { map.get self.old.progress call ≡ None }
        ensures ok { OnOk result (self.new ≡ hand_over self.old call total message) }
        ensures err { OnErr result (self.new ≡ self.old) }
    {
        self.messages.insert(call, message)?;
        let noted = self.progress.insert(call, Progress { total, count: 0 });
        if noted.is_err() {
            self.messages.remove(call);
        }
        noted
    }

    /// Whether the acknowledgement of segments up to a count makes a message acknowledged whole.
    #[tactic(auto, unfolding(crate::specs::Outbox::becomes_whole))]
    pub fn becomes_whole(&self, call: u32, count: u16) -> bool
        ensures { result ≡ becomes_whole self.now call count }
    {
        match self.progress_of(call) {
            Some(progress) => progress.count < count && progress.total == count,
            None => false,
        }
    }

    /// Notes that the segments up to a count are acknowledged.
    #[tactic(auto, unfolding(crate::specs::Outbox::acknowledge_up_to))]
    pub fn reach(&mut self, call: u32, count: u16)
        ensures { self.new ≡ acknowledge_up_to self.old call count }
    {
        if let Some(progress) = self.progress_of(call) {
            if progress.count < count {
                let total = progress.total;
                self.progress.set(call, Progress { total, count });
            }
        }
    }

    /// Gives up the bytes of a message.
    #[tactic(auto, unfolding(crate::specs::Outbox::drop_bytes))]
    pub fn drop_bytes(&mut self, alloc: Global, call: u32)
        ensures { self.new ≡ drop_bytes self.old call }
    {
        if self.messages.get(call).is_some() {
            self.messages.set(call, Message::new(alloc));
        }
    }

    /// Gives up a message.
    #[tactic(auto, unfolding(crate::specs::Outbox::forget_message))]
    pub fn forget(&mut self, call: u32)
        ensures { self.new ≡ forget_message self.old call }
    {
        self.messages.remove(call);
    }

    // Adds what a tick sends for one message.
    fn remind_of(
        &self,
        alloc: Global,
        cut: &Cut<'_>,
        datagrams: &mut Datagrams,
    ) -> Result<(), NoMemory>
        ensures { OnOk result
            (datagrams.new ≡ datagrams.old
            ++ reminder_of cut.now.format cut.now.kind cut.now.call cut.now.message.now
            (map.get self.now.progress cut.now.call)) }
    {
        let Some(progress) = self.progress_of(cut.call) else {
            return Ok(());
        };
        if progress.count < progress.total {
            let cut = Cut {
                total: progress.total,
                ..*cut
            };
            datagrams.push(cut.datagram(alloc, PLEASE_ACKNOWLEDGE, progress.next())?)?;
        } else if cut.kind == CALL {
            let probe = Segment {
                format: cut.format,
                kind: cut.kind,
                control: PLEASE_ACKNOWLEDGE,
                total: progress.total,
                number: 0,
                call: cut.call,
                part: &[],
            };
            datagrams.push(probe.spell(alloc)?)?;
        }
        Ok(())
    }

    /// Adds what a tick sends for the messages of calls below a limit, by number. It reads no message past the
    /// first of a call that is not below it.
    pub fn remind(
        &self,
        alloc: Global,
        format: u8,
        kind: u8,
        limit: u64,
        datagrams: &mut Datagrams,
    ) -> Result<(), NoMemory>
        ensures { OnOk result
            (datagrams.new ≡ datagrams.old ++ reminders self.now format kind limit) }
    {
        for (number, message) in self.messages.iter() {
            if u64::from(*number) >= limit {
                return Ok(());
            }
            let cut = Cut {
                format,
                kind,
                call: *number,
                total: 0,
                message: message.as_slice(),
            };
            self.remind_of(alloc, &cut, datagrams)?;
        }
        Ok(())
    }
}
