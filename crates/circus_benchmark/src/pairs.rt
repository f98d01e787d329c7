// How many acts a second two pairs perform that call each other: calls of one segment, each acknowledged and returned at
// once. Each tenth of the calls is a line.
ghost use Rattle.std.specs.Prelude.{◌≡◌, ◌<◌, length, IfOk};
ghost use Rattle.circus_benchmark.specs.Up.{IsUp};

use circus_pair::{Datagrams, Pair, PairFault, read_segment};
use circus_value::{Message, NoMemory};
use std::alloc::Global;
use std::io;
use std::time::Instant;

// A call is six acts: it is handed over, comes and is acknowledged, is returned, and its return comes and is
// acknowledged.
const ACTS: u64 = 6;

/// Makes so many calls.
pub fn run(rt: &HostRuntime, calls: u64) -> io::Result<()> {
    let mut client = Pair::new(rt.alloc(), 1);
    let mut server = Pair::new(rt.alloc(), 1);
    measure(rt, calls, &mut client, &mut server)
}

// Makes calls in ten parts, each of which is timed.
fn measure(rt: &HostRuntime, calls: u64, client: &mut Pair, server: &mut Pair) -> io::Result<()>
    requires client { IsUp client.old }
    requires server { IsUp server.old }
{
    for tenth in 0..10_u64 {
        let micros = time_calls(rt, calls / 10, client, server)?;
        report(rt, tenth, calls / 10, micros)?;
    }
    Ok(())
}

// How long some calls take, in microseconds.
fn time_calls(
    rt: &HostRuntime,
    calls: u64,
    client: &mut Pair,
    server: &mut Pair,
) -> io::Result<u128>
    requires client { IsUp client.old }
    requires server { IsUp server.old }
    ensures client { IsUp client.new }
    ensures server { IsUp server.new }
{
    let start = Instant::now(rt)?;
    if let Err(fault) = perform(rt.alloc(), client, server, calls) {
        println!(rt; "{fault}")?;
    }
    Ok(start.elapsed(rt)?.as_micros())
}

fn report(rt: &HostRuntime, tenth: u64, calls: u64, micros: u128) -> io::Result<()>
    requires { tenth < 10 }
{
    let acts = u128::from(calls) * u128::from(ACTS) * 1_000_000 / micros.max(1);
    println!(rt;
        "tenth {}: {} calls, {} acts a second",
        tenth + 1,
        calls,
        acts
    )
}

// Makes calls, one after another.
fn perform(alloc: Global, client: &mut Pair, server: &mut Pair, calls: u64) -> Result<(), PairFault>
    requires client { IsUp client.old }
    requires server { IsUp server.old }
    ensures client { IsUp client.new }
    ensures server { IsUp server.new }
{
    for _ in 0..calls {
        call(alloc, client, server)?;
    }
    Ok(())
}

// One call and its return.
fn call(alloc: Global, client: &mut Pair, server: &mut Pair) -> Result<(), PairFault>
    requires client { IsUp client.old }
    requires server { IsUp server.old }
    ensures client { IsUp client.new }
    ensures server { IsUp server.new }
{
    let (number, sent) = client.send_call(message(alloc).map_err(no_memory)?)?;
    deliver(&sent, server, client).map_err(no_memory)?;
    if server.awaits_return(number) {
        let message = message(alloc).map_err(no_memory)?;
        let sent = server.send_return(number, message).map_err(no_memory)?;
        deliver(&sent, client, server).map_err(no_memory)?;
    }
    Ok(())
}

fn no_memory(_: NoMemory) -> PairFault {
    PairFault::NoMemory
}

// A message of one byte.
fn message(alloc: Global) -> Result<Message, NoMemory>
    ensures { IfOk result (λ message. length message ≡ 1) }
{
    let mut message = Message::new(alloc);
    message.push(7)?;
    Ok(message)
}

// Delivers the one datagram of a message to one end, and what that answers to the other.
fn deliver(datagrams: &Datagrams, to: &mut Pair, from: &mut Pair) -> Result<(), NoMemory>
    requires to { IsUp to.old }
    requires from { IsUp from.old }
    ensures to { IsUp to.new }
    ensures from { IsUp from.new }
{
    if let Some(answers) = arrive(datagrams, to)? {
        arrive(&answers, from)?;
    }
    Ok(())
}

// Delivers the first of some datagrams, and answers what is sent then.
fn arrive(datagrams: &Datagrams, at: &mut Pair) -> Result<Option<Datagrams>, NoMemory>
    requires { IsUp at.old }
    ensures { IsUp at.new }
{
    let Some(datagram) = datagrams.get(0) else {
        return Ok(None);
    };
    match read_segment(datagram.as_slice()) {
        Ok(segment) => Ok(Some(at.take(&segment)?.datagrams)),
        Err(_) => Ok(None),
    }
}
