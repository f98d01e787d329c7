//! What a program means once its names are found: the bodies of its procedures as trees without names and places, in
//! which each variable, field, arm, label, procedure and error is a number, and each number that is stored as one of the
//! kinds of numbers is converted to it.
//!
//! `kinds` has the small choices that trees hold, `expression` expressions and places, and `statement` statements.
#![tactic(auto)]

mod expression;
mod kinds;
mod statement;

pub use expression::{
    CheckedExpression, CheckedExpressions, CheckedOperand, CheckedPlace, CheckedSuffix,
    CheckedSuffixes,
};
pub use kinds::{Calculation, Form, NumberKind, Order};
pub use statement::{
    CheckedCall, CheckedHandler, CheckedHandlers, CheckedPlaces, CheckedStatement,
    CheckedStatements,
};
