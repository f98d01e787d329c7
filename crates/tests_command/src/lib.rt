//! Tests of what the command can't show: calls that fail in its midst, over a sink, a shelf and a link in memory; a module that is
//! no text; how much a node drops of what comes to it; and calls of the library that no form makes.
//!
//! `fails` performs the command over a sink, a shelf and a link of which calls fail, and `slow` over a sink that takes one byte of
//! each piece. `either` has modules of two kinds as one kind, and `tally` a world in which a tally stands for a text. `hostile` has
//! bytes that no node of a program sends, `outside` the sink, the shelf and the link by themselves, and `calls` what nothing else calls.
#![tactic(auto)]

#[cfg(test)]
mod calls;
mod either;
#[cfg(test)]
mod fails;
#[cfg(test)]
mod hostile;
#[cfg(test)]
mod outside;
#[cfg(test)]
mod slow;
#[cfg(test)]
mod sums;
#[cfg(test)]
mod tally;

pub use either::Either;
