// Where and why reading stops.

/// What stopped a reader.
#[derive(Clone, Copy, Debug, PartialEq, Eq)]
pub enum StopCause {
    /// A token with which nothing goes on, or the end of the text.
    Unexpected,
    /// A token that opens a level too many.
    TooDeep,
}

/// Where reading stopped, and why (docs/LANGUAGE.md, "Interfaces").
#[derive(Clone, Copy, Debug, PartialEq, Eq)]
pub struct Stop {
    /// The place of the first token that wasn't read, or the length of the text at its end.
    pub place: u32,
    pub cause: StopCause,
    /// The place of the outermost type in which reading stopped.
    pub within: Option<u32>,
    /// The place of the opening bracket of the list of arguments or results in which reading stopped.
    pub list: Option<u32>,
}
