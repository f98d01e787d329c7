// Marshalling operations.
ghost use Rattle.std.specs.Prelude.{◌≡◌};

use circus_value::{Duplicate, NoMemory, Numbers};

/// One step of packing or unpacking a value. Where a step has a part of its own, the part's operations
/// stand behind it, and `end` is the place behind them.
#[derive(Debug, Drop)]
pub enum Operation {
    Boolean,
    Cardinal,
    LongCardinal,
    Integer,
    LongInteger,
    Text,
    /// A number that is one of these.
    Enumeration(Numbers),
    /// `len` times the part.
    Array { len: u16, end: usize },
    /// At most `bound` times the part, with their count before them.
    Sequence { bound: u16, end: usize },
    /// So many values as there are fields, one behind another.
    Record { fields: usize, end: usize },
    /// One of so many arms, with its number before it.
    Choice { arms: usize, end: usize },
    /// The part that a choice has under a number.
    Arm { number: u16, end: usize },
}

impl Operation {
    ghost use Rattle.circus_stub.specs.Flat.{part_end};

    /// The place behind the operation's part, where it has one.
    pub fn end(&self) -> Option<usize>
        ensures { result ≡ part_end self.now }
    {
        match self {
            Operation::Array { end, .. } | Operation::Sequence { end, .. } => Some(*end),
            Operation::Record { end, .. } | Operation::Choice { end, .. } => Some(*end),
            Operation::Arm { end, .. } => Some(*end),
            Operation::Boolean | Operation::Cardinal | Operation::LongCardinal => None,
            Operation::Integer | Operation::LongInteger | Operation::Text => None,
            Operation::Enumeration(_) => None,
        }
    }
}

impl Duplicate for Operation {
    fn copy(&self) -> Result<Self, NoMemory> {
        Ok(match self {
            Operation::Boolean => Operation::Boolean,
            Operation::Cardinal => Operation::Cardinal,
            Operation::LongCardinal => Operation::LongCardinal,
            Operation::Integer => Operation::Integer,
            Operation::LongInteger => Operation::LongInteger,
            Operation::Text => Operation::Text,
            Operation::Enumeration(numbers) => Operation::Enumeration(numbers.copy()?),
            Operation::Array { len, end } => Operation::Array {
                len: *len,
                end: *end,
            },
            Operation::Sequence { bound, end } => Operation::Sequence {
                bound: *bound,
                end: *end,
            },
            Operation::Record { fields, end } => Operation::Record {
                fields: *fields,
                end: *end,
            },
            Operation::Choice { arms, end } => Operation::Choice {
                arms: *arms,
                end: *end,
            },
            Operation::Arm { number, end } => Operation::Arm {
                number: *number,
                end: *end,
            },
        })
    }
}
