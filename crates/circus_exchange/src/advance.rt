// How far a segment brings its message.
ghost use Rattle.std.specs.Prelude.{◌≡◌, ◌&&◌, ◌==◌, IfOk};
ghost use Rattle.circus_segment.specs.Seen.Pieces.{piece};
ghost use Rattle.circus_exchange.specs.Inbox.{acknowledgement_for};

use circus_segment::{ACKNOWLEDGEMENT, Datagrams, PLEASE_ACKNOWLEDGE, Segment};
use circus_value::NoMemory;
use std::alloc::Global;

/// How far a segment brings its message.
#[derive(Clone, Copy, Debug)]
pub struct Advance {
    /// Whether it has data that was not there yet.
    pub is_new: bool,
    /// How many segments are there with it, from the first on without a gap.
    pub count: u16,
}

impl Advance {
    /// Whether the segment is the last that its message lacked.
    pub fn completes(self, segment: &Segment<'_>) -> bool
        ensures { result ≡ (self.is_new && (self.count == segment.now.total)) }
    {
        self.is_new && self.count == segment.total
    }

    /// The acknowledgement that the segment gets, if it gets one and the other end is not down.
    #[tactic(auto, unfolding(crate::specs::Inbox::acknowledgement_for))]
    pub fn acknowledgement(
        self,
        alloc: Global,
        stopped: bool,
        segment: &Segment<'_>,
    ) -> Result<Datagrams, NoMemory>
        ensures { IfOk result (λ datagrams.
            datagrams ≡ acknowledgement_for stopped (piece segment.now)
            (self.is_new && (self.count == segment.now.total)) self.count) }
    {
        let mut datagrams = Datagrams::new(alloc);
        let is_owed = segment.control == PLEASE_ACKNOWLEDGE
            || self.completes(segment)
            || self.count < segment.number;
        if !stopped && is_owed {
            let answer = Segment {
                control: ACKNOWLEDGEMENT,
                number: self.count,
                part: &[],
                ..*segment
            };
            datagrams.push(answer.spell(alloc)?)?;
        }
        Ok(datagrams)
    }
}
