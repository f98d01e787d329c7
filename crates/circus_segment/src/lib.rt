//! Segments: what a datagram says of a message, its bytes, and how a message is cut into segments.
//!
//! `segment` reads and writes the bytes of a segment, `fault` says why a datagram is none, and `cut` has the segments of a
//! message. `laws` says that what is written is read again.
#![tactic(auto)]

mod cut;
mod fault;
mod laws;
mod segment;

pub use cut::{Cut, Datagrams, LONGEST, segment_count};
pub use fault::SegmentFault;
pub use laws::spelled_is_read;
pub use segment::{
    ACKNOWLEDGEMENT, CALL, DATA, PART, PLEASE_ACKNOWLEDGE, RETURN, Segment, read_segment,
};
