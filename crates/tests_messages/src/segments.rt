// Bytes that are no segment.
use circus_segment::{SegmentFault, read_segment};
use circus_value::{Message, NoMemory};
use std::alloc::Global;

// The first bytes, behind which are zeros, how many there are in all, and the fault. Of several the first one is told.
const ROWS: [(&[u8], usize, Option<SegmentFault>); 12] = [
    (&[0], 7, Some(SegmentFault::Short)),
    (&[4, 3], 7, Some(SegmentFault::Short)),
    (
        &[2, 0, 1, 1, 0, 0, 0, 0, 0xaa],
        9,
        Some(SegmentFault::Short),
    ),
    (&[0, 0, 1, 1], 1032, None),
    (&[0, 0, 1, 1], 1033, Some(SegmentFault::TooLong)),
    (&[2, 0, 0, 1, 0, 1], 1034, None),
    (&[2, 0, 0, 1, 0, 1], 1035, Some(SegmentFault::TooLong)),
    (&[4, 3], 1033, Some(SegmentFault::TooLong)),
    (
        &[4, 0, 1, 1, 0, 0, 0, 0, 0xaa],
        9,
        Some(SegmentFault::BadKind),
    ),
    (
        &[0, 0, 0, 1, 0, 0, 0, 0, 0xaa],
        9,
        Some(SegmentFault::BadNumber),
    ),
    (&[0, 2, 0, 1], 8, Some(SegmentFault::BadNumber)),
    (
        &[0, 0, 2, 1, 0, 0, 0, 0, 0xaa],
        9,
        Some(SegmentFault::BadPart),
    ),
];

// The fault of so many bytes, of which these are the first.
fn fault_of(alloc: Global, first: &[u8], length: usize) -> Result<Option<SegmentFault>, NoMemory> {
    let mut bytes = Message::new(alloc);
    bytes.append(first)?;
    for _ in first.len()..length {
        bytes.push(0)?;
    }
    Ok(read_segment(bytes.as_slice()).err())
}

#[test]
fn what_is_no_segment_is_refused(rt: HostRuntime) -> Result<(), NoMemory> {
    for (number, (first, length, fault)) in ROWS.iter().enumerate() {
        assert!(rt;
            fault_of(rt.alloc(), first, *length)? == *fault,
            "row {number}"
        );
    }
    Ok(())
}
