//! How fast the layers are, by the words behind the program's name:
//!
//! - `pairs CALLS`: how many acts a second two pairs perform that make so many calls to each other;
//! - `bodies TURNS ITEMS`: how long a body takes that counts so far, and one that adds so many items to a sequence;
//! - `nodes CALLS`: how many events a second the nodes of a program handle in which a counter is called so often.
//!
//! Under other words nothing is printed. `net` has the nodes and what is on its way.
#![tactic(auto)]

mod bodies;
mod net;
mod nodes;
mod pairs;

use anyhow::Error;
use std::env;

fn main(rt: HostRuntime) -> Result<(), Error> {
    let mut words = env::args(&rt)?;
    let Some(form) = words.nth(1) else {
        return Ok(());
    };
    let first = words.next().and_then(|word| word.parse::<u32>().ok());
    let second = words.next().and_then(|word| word.parse::<u32>().ok());
    perform(&rt, form.as_str(), first, second)
}

fn perform(
    rt: &HostRuntime,
    form: &str,
    first: Option<u32>,
    second: Option<u32>,
) -> Result<(), Error> {
    match (form, first) {
        ("pairs", Some(calls)) => pairs::run(rt, u64::from(calls))?,
        ("bodies", turns) => bodies::run(rt, turns, second)?,
        ("nodes", Some(calls)) => nodes::run(rt, u64::from(calls))?,
        _ => (),
    }
    Ok(())
}
