// The last number of a call; and two ends: a return to no call, and a call that comes twice.
ghost use Rattle.std.specs.Prelude.{◌≡◌, length, IfOk};

use circus_pair::{Act, Arrived, Datagrams, Pair, PairFault, TwoEnds, TwoFault};
use circus_value::{Message, NoMemory};
use std::alloc::Global;

// A message of one byte.
fn message(alloc: Global) -> Result<Message, NoMemory>
    ensures { IfOk result (λ message. length message ≡ 1) }
{
    let mut message = Message::new(alloc);
    message.push(7)?;
    Ok(message)
}

// The number and the first datagram of a call.
fn number_of(sent: &Result<(u32, Datagrams), PairFault>) -> Option<(u32, &Message)> {
    match sent {
        Ok((number, datagrams)) => Some((*number, datagrams.get(0)?)),
        Err(_) => None,
    }
}

#[test]
fn the_last_number_is_used_once(rt: HostRuntime) -> Result<(), NoMemory> {
    let mut pair = Pair::starting_at(rt.alloc(), 4_294_967_294, 1);
    let sent = pair.send_call(message(rt.alloc())?);
    match number_of(&sent) {
        Some((4_294_967_294, datagram)) => {
            assert!(rt; datagram.as_slice() == [0, 0, 1, 1, 0xff, 0xff, 0xff, 0xfe, 7].as_slice());
        }
        _ => assert!(rt; false),
    }
    let spent = pair.send_call(message(rt.alloc())?);
    assert!(rt; matches!(&spent, Err(PairFault::Spent)));
    Ok(())
}

fn two_ends(alloc: Global) -> TwoEnds
    ensures low { result.low.exchange.format ≡ 1 }
    ensures high { result.high.exchange.format ≡ 1 }
{
    TwoEnds::new(alloc, 1)
}

// Node 0 hands over the return to call 3. Whether there is no such call.
fn has_no_call(ends: &mut TwoEnds, alloc: Global) -> Result<bool, NoMemory>
    requires { ends.old.low.exchange.format ≡ 1 }
    ensures { ends.new.high.exchange.format ≡ ends.old.high.exchange.format }
{
    let step = ends.step(Act::Return(false, 3, message(alloc)?));
    Ok(matches!(&step, Err(TwoFault::NoSuch)))
}

// Node 1 hands over a call. Whether that went well.
fn calls(ends: &mut TwoEnds, alloc: Global) -> Result<bool, NoMemory>
    requires { ends.old.high.exchange.format ≡ 1 }
{
    let step = ends.step(Act::Call(true, message(alloc)?));
    Ok(matches!(&step, Ok(Arrived::Nothing)))
}

// The first datagram of node 1 comes to node 0. Whether the call arrives, or nothing does.
fn delivers(ends: &mut TwoEnds) -> (bool, bool) {
    let step = ends.step(Act::Deliver(false, 0));
    match &step {
        Ok(Arrived::ArrivedCall(0, message)) => (message.byte(0) == Some(7), false),
        Ok(Arrived::Nothing) => (false, true),
        _ => (false, false),
    }
}

#[test]
fn a_call_is_delivered_once(rt: HostRuntime) -> Result<(), NoMemory> {
    let mut ends = two_ends(rt.alloc());
    assert!(rt; has_no_call(&mut ends, rt.alloc())?);
    assert!(rt; calls(&mut ends, rt.alloc())?);
    assert!(rt; delivers(&mut ends) == (true, false));
    assert!(rt; delivers(&mut ends) == (false, true));
    Ok(())
}
