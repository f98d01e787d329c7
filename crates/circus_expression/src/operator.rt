// The operators of expressions.

/// What joins two expressions to one (docs/LANGUAGE.md, "Expressions").
#[derive(Clone, Copy, Debug, PartialEq, Eq)]
pub enum Operator {
    Or,
    And,
    Equal,
    Unequal,
    Less,
    AtMost,
    Greater,
    AtLeast,
    Plus,
    Minus,
    Join,
    Times,
    Div,
    Mod,
}

/// A production whose operands stand in a row, with operators of one kind between them
/// (docs/LANGUAGE.md, "Expressions").
#[derive(Clone, Copy, Debug, PartialEq, Eq)]
pub enum Chain {
    /// Conjuncts with OR between them.
    Expression,
    /// With AND between them.
    Conjunct,
    /// Terms with `+`, `-` or `&` between them.
    Sum,
    /// Factors with `*`, DIV or MOD between them.
    Term,
}
