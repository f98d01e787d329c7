// How many events a second nodes handle while a module calls a counter: a datagram that comes, with all that the node does
// then, is an event, and so is a tick. At first each node is up. Then the counter has a second member, which has crashed and
// is declared nowhere: what is sent to it is lost, and ticks come now and then. Each tenth is a line, and so is the whole.
//
// One execution asks at most 65,535 times, so the module that calls is itself called by a root, as often as it has to be.
use crate::net::Net;
use anyhow::Error;
use std::alloc::Global;
use std::time::Instant;

// How often one execution calls the counter.
const CALLS_OF_A_RUN: u64 = 50_000;

// A call is four events: it comes, its acknowledgement and its return come, and the acknowledgement of that comes.
const EVENTS_OF_A_CALL: u64 = 4;

// The counter's second member, where there is one.
const SECOND: u16 = 2;

const MODULES: &str = "CIRCUS 1;
Count: PROGRAM 1 VERSION 1 =
BEGIN
  Add: PROCEDURE [n: CARDINAL] RETURNS [sum: LONG CARDINAL] = 1;
END.
Much: PROGRAM 2 VERSION 1 =
BEGIN
  Call: PROCEDURE [times: LONG CARDINAL] = 1;
END.
MODULE Counter IMPLEMENTS Count;
BEGIN
  VAR total: LONG CARDINAL;
  PROCEDURE Add BEGIN
    total := total + n;
    RETURN [total];
  END;
END.
MODULE Caller IMPLEMENTS Much IMPORTS Counter;
BEGIN
  VAR got: LONG CARDINAL;
  PROCEDURE Call VAR i: LONG CARDINAL; BEGIN
    WHILE i < times DO
      CALL Counter.Add [1] INTO [got];
      i := i + 1;
    END;
    RETURN [];
  END;
END.
ROOT Main IMPORTS Caller;
BEGIN
  MAIN VAR i: LONG CARDINAL; BEGIN
    WHILE i < ";

const ALL_UP: &str = "RINGMASTER ring PORT 9000;
TROUPE Counter CALLS FIRST REPLIES FIRST MEMBERS s1 PORT 9001;
TROUPE Caller CALLS FIRST REPLIES FIRST MEMBERS a1 PORT 9003;
TROUPE Main CALLS FIRST REPLIES FIRST MEMBERS m1 PORT 9004;
";

const TWO_COUNTERS: &str = "RINGMASTER ring PORT 9000;
TROUPE Counter CALLS FIRST REPLIES FIRST MEMBERS s1 PORT 9001, s2 PORT 9002;
TROUPE Caller CALLS FIRST REPLIES FIRST MEMBERS a1 PORT 9003;
TROUPE Main CALLS FIRST REPLIES FIRST MEMBERS m1 PORT 9004;
";

/// Lets the counter be called so often, twice.
pub fn run(rt: &HostRuntime, calls: u64) -> Result<(), Error> {
    println!(rt; "each node is up")?;
    measure(rt, calls, ALL_UP, None)?;
    println!(rt; "one node has crashed")?;
    measure(rt, calls, TWO_COUNTERS, Some(SECOND))
}

// The text of a program in which the counter is called so often.
fn program(alloc: Global, calls: u64, troupes: &str) -> Result<String, Error> {
    let runs = calls.div_ceil(CALLS_OF_A_RUN).max(1);
    let times = calls / runs;
    let text = format!(in alloc;
        "{MODULES}{runs} DO CALL Caller.Call [{times}]; i := i + 1; END;\n    RETURN [];\n  END;\nEND.\n{troupes}"
    )?;
    Ok(text)
}

// Lets the nodes go on until nothing is left.
fn measure(rt: &HostRuntime, calls: u64, troupes: &str, crashed: Option<u16>) -> Result<(), Error> {
    let text = program(rt.alloc(), calls, troupes)?;
    let mut net = Net::boot(rt.alloc(), text.as_str(), crashed)?;
    let start = Instant::now(rt)?;
    for _ in 0..10 {
        let tenth = calls.saturating_mul(EVENTS_OF_A_CALL) / 10;
        go_on(rt, &mut net, tenth)?;
    }
    // What is left of the last calls.
    net.go_on(u64::MAX)?;
    report(rt, net.events(), start.elapsed(rt)?.as_micros())
}

// Lets so many datagrams come, and says how long that took.
fn go_on(rt: &HostRuntime, net: &mut Net, datagrams: u64) -> Result<(), Error> {
    let before = net.events();
    let start = Instant::now(rt)?;
    net.go_on(datagrams)?;
    let micros = start.elapsed(rt)?.as_micros();
    report(rt, net.events().saturating_sub(before), micros)
}

fn report(rt: &HostRuntime, events: u64, micros: u128) -> Result<(), Error> {
    let a_second = u128::from(events) * 1_000_000 / micros.max(1);
    println!(rt; "{events} events, {a_second} a second")?;
    Ok(())
}
