// The limits of types (docs/LANGUAGE.md, "Interfaces"); the most levels of a type are those of circus_syntax.

/// The greatest number of one word: of labels, and of lengths and bounds.
pub const GREATEST_WORD: u64 = 65_535;

/// How many parts types have together at most.
pub const MOST_PARTS: u32 = 16_384;

/// How many bytes a zero value has at most.
pub const MOST_ZERO_BYTES: u32 = 65_536;
