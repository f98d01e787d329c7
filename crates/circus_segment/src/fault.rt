// Why a datagram is no segment.
use thiserror::Error;

/// What is wrong with the bytes of a datagram: the first of these that applies (docs/FORMATS.md, "Segments").
#[derive(Clone, Copy, Debug, PartialEq, Eq, Error)]
pub enum SegmentFault {
    /// The header is not whole.
    #[error("the header is not whole")]
    Short,
    /// More bytes than a header and 1,024.
    #[error("more bytes than a header and 1,024")]
    TooLong,
    /// Byte 0 or byte 1 has no meaning.
    #[error("no such kind or control")]
    BadKind,
    /// Total and number are those of no segment.
    #[error("no such total or number")]
    BadNumber,
    /// The data does not fit the number.
    #[error("the data does not fit the number")]
    BadPart,
}
