// What statements begin with.

/// What a statement begins with.
#[derive(Clone, Copy, Debug, PartialEq, Eq)]
pub enum StatementStart {
    /// A place, or what begins no statement.
    Assign,
    If,
    While,
    Append,
    Call,
    Return,
    Raise,
}
