// Messages cut into segments.
ghost use Rattle.std.specs.Prelude.{◌≡◌, ◌≤◌, ◌++◌, [], ◌∷◌, length, IfOk, OnOk};
ghost use Rattle.circus_segment.specs.Segment.{spelling};
ghost use Rattle.circus_segment.specs.Cut.{segment_count, part_at, segment_of, first_datagrams, whole};

use crate::segment::{DATA, MOST_SEGMENTS, PART, Segment};
use circus_value::{ListOf, Message, NoMemory};
use std::alloc::Global;

/// Datagrams in the order of sending.
pub type Datagrams = ListOf<Message>;

/// Bytes of a message at most, in format 2.
pub const LONGEST: usize = PART * MOST_SEGMENTS as usize;

/// A message on its way.
#[derive(Clone, Copy, Debug)]
pub struct Cut<'a> {
    pub format: u8,
    pub kind: u8,
    pub call: u32,
    /// How many segments the message has.
    pub total: u16,
    pub message: &'a [u8],
}

/// How many segments a message has.
pub fn segment_count(message: &[u8]) -> u16
    requires { length message.now ≤ LONGEST }
    ensures { result ≡ segment_count message.now }
{
    message.len().div_ceil(PART) as u16
}

// The data of a segment by its number, which counts from 1.
#[tactic(auto, unfolding(crate::specs::Cut::part_at))]
fn part_at(message: &[u8], number: u16) -> &[u8]
    ensures { result.now ≡ part_at message.now number }
{
    let start = message
        .len()
        .min(PART * usize::from(number.saturating_sub(1)));
    let end = message.len().min(start + PART);
    &message[start..end]
}

impl Cut<'_> {
    ghost use Rattle.circus_segment.specs.Seen.Outgoing.{outgoing_of};

    /// The datagram of one segment.
    pub fn datagram(&self, alloc: Global, control: u8, number: u16) -> Result<Message, NoMemory>
        ensures { IfOk result (λ bytes.
            bytes ≡ spelling (segment_of (outgoing_of self.now) control number)) }
    {
        let segment = Segment {
            format: self.format,
            kind: self.kind,
            control,
            total: self.total,
            number,
            call: self.call,
            part: part_at(self.message, number),
        };
        segment.spell(alloc)
    }

    /// Adds the datagrams of all segments, in order.
    pub fn send_whole(&self, alloc: Global, datagrams: &mut Datagrams) -> Result<(), NoMemory>
        ensures { OnOk result (datagrams.new ≡ datagrams.old ++ whole (outgoing_of self.now)) }
    {
        for before in 0..self.total {
            datagrams.push(self.datagram(alloc, DATA, before + 1)?)?;
        }
        Ok(())
    }
}
