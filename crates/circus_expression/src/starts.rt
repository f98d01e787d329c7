// What primaries begin with.

/// What a primary begins with.
#[derive(Clone, Copy, Debug, PartialEq, Eq)]
pub enum PrimaryStart {
    Number,
    Text,
    True,
    False,
    Parenthesis,
    Length,
    /// A name, or what is none.
    Name,
}
