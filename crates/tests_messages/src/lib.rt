//! Tests of bytes and messages, by the library's calls that no form of the command reaches: external data and stubs, read,
//! refused and written; shown texts; segments that are none; the last number of a call, and two ends that are put together;
//! and what collators answer.
#![tactic(auto)]

#[cfg(test)]
mod collators;
#[cfg(test)]
mod external;
#[cfg(test)]
mod pairs;
#[cfg(test)]
mod segments;
#[cfg(test)]
mod shown;
#[cfg(test)]
mod stubs;
