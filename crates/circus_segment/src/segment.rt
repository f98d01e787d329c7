// Segments: what a datagram says of a message, and its bytes.
ghost use Rattle.std.specs.Prelude.{◌≡◌, ◌≤◌, ◌++◌, IfOk, OnOk, MatchResult, length, true, false};
ghost use Rattle.circus_segment.specs.Segment.{Piece, is_second, header_refusal, field_refusal, fields_of, spelling, IsSegment, reading};
ghost use Rattle.circus_segment.specs.Seen.Pieces.{piece, Reads};

use crate::SegmentFault;
use circus_value::{Message, NoMemory};
use std::alloc::Global;

/// The kind of a call message, and of what speaks of one.
pub const CALL: u8 = 0;

/// The kind of a return message, and of what speaks of one.
pub const RETURN: u8 = 1;

/// The control of a segment with data that asks for nothing.
pub const DATA: u8 = 0;

/// The control of an acknowledgement.
pub const ACKNOWLEDGEMENT: u8 = 1;

/// The control of a segment, or a probe, that asks for an acknowledgement.
pub const PLEASE_ACKNOWLEDGE: u8 = 2;

/// Bytes of data in a segment that is not the last of its message.
pub const PART: usize = 1024;

/// Segments of a message at most, in format 2.
pub const MOST_SEGMENTS: u16 = 1025;

// Bytes of a header in format 1, and in format 2.
const FIRST_HEADER: usize = 8;

const SECOND_HEADER: usize = 10;

/// What a datagram says (docs/FORMATS.md, "Segments").
#[derive(Clone, Copy, Debug)]
pub struct Segment<'a> {
    /// The format of its bytes, 1 or 2.
    pub format: u8,
    /// `CALL` or `RETURN`.
    pub kind: u8,
    /// `DATA`, `ACKNOWLEDGEMENT` or `PLEASE_ACKNOWLEDGE`.
    pub control: u8,
    /// The segments of the message, 1 to 1,025.
    pub total: u16,
    /// Which segment it is, from 1. Of an acknowledgement, how many arrived from the first on. Of a probe 0.
    pub number: u16,
    /// The number of the call.
    pub call: u32,
    /// Its bytes of the message.
    pub part: &'a [u8],
}

/// Reads a datagram, or answers the first reason why it is no segment (docs/FORMATS.md, "Segments").
pub fn read_segment(bytes: &[u8]) -> Result<Segment<'_>, SegmentFault>
    // What is read is a segment, and the bytes are its bytes.
    ensures read { IfOk result (λ s. IsSegment (piece s) × (bytes.now ≡ spelling (piece s))) }
    // The bytes of a segment are read as that segment.
    ensures only { (p : Piece) → IsSegment p → bytes.now ≡ spelling p → reading bytes.now ≡ Ok p }
    // Which answer it is.
    ensures exact { Reads result (reading bytes.now) }
{
    let segment = fields(bytes)?;
    match segment.refusal() {
        Some(fault) => Err(fault),
        None => Ok(segment),
    }
}

// What stands in the fields, where the header is whole, its first two bytes have a meaning and the rest is
// not too long.
#[tactic(auto, unfolding(crate::specs::Segment::header_refusal))]
fn fields(bytes: &[u8]) -> Result<Segment<'_>, SegmentFault>
    ensures { MatchResult result (λ s.
        (header_refusal bytes.now ≡ None) × (piece s ≡ fields_of bytes.now)) (λ fault.
        header_refusal bytes.now ≡ Some fault) }
{
    let second = is_second(bytes);
    let header = if second { SECOND_HEADER } else { FIRST_HEADER };
    if bytes.len() < header {
        return Err(SegmentFault::Short);
    }
    if bytes.len() > header + PART {
        return Err(SegmentFault::TooLong);
    }
    if bytes[0] > 3 || bytes[1] > 2 {
        return Err(SegmentFault::BadKind);
    }
    Ok(if second {
        second_fields(bytes)
    } else {
        first_fields(bytes)
    })
}

// Whether byte 0 is a kind of format 2.
fn is_second(bytes: &[u8]) -> bool
    ensures { result ≡ is_second bytes.now }
{
    !bytes.is_empty() && (bytes[0] == 2 || bytes[0] == 3)
}

#[tactic(auto, unfolding(crate::specs::Segment::fields_of))]
fn first_fields(bytes: &[u8]) -> Segment<'_>
    requires long { 8 ≤ length bytes.now }
    requires first { is_second bytes.now ≡ false }
    ensures { piece result ≡ fields_of bytes.now }
{
    Segment {
        format: 1,
        kind: bytes[0],
        control: bytes[1],
        total: u16::from(bytes[2]),
        number: u16::from(bytes[3]),
        call: u32::from_be_bytes([bytes[4], bytes[5], bytes[6], bytes[7]]),
        part: &bytes[8..],
    }
}

#[tactic(auto, unfolding(crate::specs::Segment::fields_of))]
fn second_fields(bytes: &[u8]) -> Segment<'_>
    requires long { 10 ≤ length bytes.now }
    requires second { is_second bytes.now ≡ true }
    ensures { piece result ≡ fields_of bytes.now }
{
    Segment {
        format: 2,
        kind: bytes[0] - 2,
        control: bytes[1],
        total: u16::from_be_bytes([bytes[2], bytes[3]]),
        number: u16::from_be_bytes([bytes[4], bytes[5]]),
        call: u32::from_be_bytes([bytes[6], bytes[7], bytes[8], bytes[9]]),
        part: &bytes[10..],
    }
}

impl Segment<'_> {
    ghost use Rattle.circus_segment.specs.Segment.{header, is_acknowledgement, is_probe, has_data};

    /// Says how far a message has arrived, and has no data.
    pub fn is_acknowledgement(&self) -> bool
        ensures { result ≡ is_acknowledgement (piece self.now) }
    {
        self.control == ACKNOWLEDGEMENT
    }

    /// Asks how far a call has arrived, and has no data.
    pub fn is_probe(&self) -> bool
        ensures { result ≡ is_probe (piece self.now) }
    {
        self.kind == CALL && self.control == PLEASE_ACKNOWLEDGE && self.number == 0
    }

    /// Has bytes of a message.
    pub fn has_data(&self) -> bool
        ensures { result ≡ has_data (piece self.now) }
    {
        !(self.is_acknowledgement() || self.is_probe())
    }

    // Why the fields are those of no segment.
    fn refusal(&self) -> Option<SegmentFault>
        ensures { result ≡ field_refusal (piece self.now) }
    {
        let data = self.has_data();
        if self.total == 0
            || self.total > MOST_SEGMENTS
            || self.number > self.total
            || (self.number == 0 && data)
        {
            return Some(SegmentFault::BadNumber);
        }
        let len = self.part.len();
        let bad_part = if data {
            len == 0 || (self.number < self.total && len != PART)
        } else {
            len > 0
        };
        if bad_part {
            Some(SegmentFault::BadPart)
        } else {
            None
        }
    }

    /// The bytes of the segment (docs/FORMATS.md, "Segments"), or `NoMemory`.
    #[tactic(auto, unfolding(crate::specs::Segment::spelling))]
    pub fn spell(&self, alloc: Global) -> Result<Message, NoMemory>
        ensures { IfOk result (λ bytes. bytes ≡ spelling (piece self.now)) }
    {
        let mut bytes = Vec::with_capacity(alloc, self.part.len().saturating_add(SECOND_HEADER))?;
        self.add_header(&mut bytes)?;
        bytes.extend_from_slice(self.part)?;
        Ok(Message::of(bytes))
    }

    #[tactic(auto, unfolding(crate::specs::Segment::header))]
    fn add_header(&self, bytes: &mut Vec<u8>) -> Result<(), NoMemory>
        ensures { OnOk result (bytes.new.items ≡ bytes.old.items ++ header (piece self.now)) }
    {
        let [t, total] = self.total.to_be_bytes();
        let [n, number] = self.number.to_be_bytes();
        let [a, b, c, d] = self.call.to_be_bytes();
        if self.format == 1 {
            return bytes.extend_from_slice(&[self.kind, self.control, total, number, a, b, c, d]);
        }
        let kind = if self.kind == CALL { 2 } else { 3 };
        bytes.extend_from_slice(&[kind, self.control, t, total, n, number, a, b, c, d])
    }
}
