// The limits of interfaces (docs/LANGUAGE.md, "Interfaces"); those of types are circus_type's.

/// The greatest number that an error may have.
pub const GREATEST_ERROR: u64 = 59_999;

/// The greatest number that a program may have.
pub const GREATEST_PROGRAM: u64 = 4_294_967_295;
