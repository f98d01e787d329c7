//! Expressions and places of modules once their names are found: what they give, their faults, and the trees without
//! names that they mean.
//!
//! `scope` says what names mean where an expression stands, `sort` what an expression gives, `same` which shapes are
//! the same, and `named` finds parts of shapes by their names. `cause` has the causes of faults and `findings` what is
//! found so far; `wants` and `parts` have the faults of sorts and of names, and `slots` what is wanted of items.
//! `expression` resolves expressions and places, and `laws` says what holds of all of them.
#![tactic(auto)]

mod cause;
mod expression;
mod findings;
mod laws;
mod named;
mod parts;
mod same;
mod scope;
mod slots;
mod sort;
mod wants;

pub use cause::CheckCause;
pub use expression::{Resolved, ResolvedPlace, resolve, resolve_each, resolve_place};
pub use findings::Findings;
pub use laws::{faultless_is_well_formed, same_is_equal};
pub use named::field_count;
pub use scope::{ModuleScope, Scope, Standing, Types, Variable};
pub use slots::Slots;
pub use sort::{Sort, kind_of};
