//! Tests of how records of nodes are read: which texts are records, and the first bad line of others.
//!
//! `texts` has the program and the records, and `lines` tries them with lines that are changed.
#![tactic(auto)]

#[cfg(test)]
mod lines;
#[cfg(test)]
mod texts;
