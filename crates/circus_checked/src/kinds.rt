// The small choices that checked trees hold.

/// A kind of numbers that a variable may have.
#[derive(Clone, Copy, Debug, PartialEq, Eq)]
pub enum NumberKind {
    Cardinal,
    LongCardinal,
    Integer,
    LongInteger,
}

/// How two numbers are compared.
#[derive(Clone, Copy, Debug, PartialEq, Eq)]
pub enum Order {
    Less,
    AtMost,
    Greater,
    AtLeast,
}

/// What is calculated of two numbers.
#[derive(Clone, Copy, Debug, PartialEq, Eq)]
pub enum Calculation {
    Plus,
    Minus,
    Times,
    Div,
    Mod,
}

/// What is made of items.
#[derive(Clone, Copy, Debug, PartialEq, Eq)]
pub enum Form {
    Array,
    Sequence,
    Record,
}
