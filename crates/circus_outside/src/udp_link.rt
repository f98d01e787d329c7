// A link of real datagrams.
ghost use Rattle.std.specs.Prelude.{◌≡◌, ◌≤◌, None, length, IfOk, IfSome};
ghost use Rattle.circus_outside.specs.Link.{IsCut, LinkCounts};

use crate::link::LONGEST_DATAGRAM;
use crate::{Link, LinkFault, TakenFrom};
use circus_value::Octets;
use std::alloc::Global;
use std::io::{self, ErrorKind};
use std::marker::Model;
use std::net::{Ipv4Addr, Net, UdpSocket};
use std::time::{Clock, Duration, Instant};

// How long a take waits at most, in milliseconds.
const WAIT: u64 = 250;

/// Datagrams of UDP between ports of this machine, 127.0.0.1. A take answers `Nothing` once a quarter of a second has passed
/// since a take last did so, or since the port was bound, and a datagram that comes before: so time passes also where
/// datagrams come all the time. That nobody listens at a port fails neither a give nor a later take; where no port is bound
/// both fail. It tells nothing. Clauses see it as its count of faults.
pub struct UdpLink<R: Net + Clock> {
    alloc: Global,
    runtime: R,
    port: Option<Port>,
    faults: u64,
}

// Written out, so that dropping one is one step of a proof (docs/PROOFS.md, "Cost").
impl<R: Net + Clock + Drop> Drop for UdpLink<R> {
    fn drop(self) {
        let UdpLink {
            alloc: _,
            runtime: _,
            port: _,
            faults: _,
        } = self;
    }
}

impl<R: Net + Clock> Model for UdpLink<R> {
    ghost use Rattle.std.specs.Prelude.{ℕ};

    ghost Value = { ℕ };

    ghost view = { λ link. link.faults };
}

impl<R: Net + Clock> UdpLink<R> {
    /// A link over the network and the clock of a runtime, at no port. It takes no memory.
    pub fn new(alloc: Global, runtime: R) -> Self
        ensures { result ≡ 0 }
    {
        UdpLink {
            alloc,
            runtime,
            port: None,
            faults: 0,
        }
    }

    // What a call answered, which is counted where it failed.
    fn count_failure<A: Drop>(&mut self, answer: Result<A, LinkFault>) -> Result<A, LinkFault>
        ensures same { result ≡ answer }
        ensures counts { LinkCounts result self.old self.new }
        ensures never_falls { self.old ≤ self.new }
    {
        if let Err(LinkFault::Failed) = &answer {
            self.faults = self.faults.saturating_add(1);
        }
        answer
    }
}

impl<R: Net + Clock> Link for UdpLink<R> {
    ghost bound = { λ _. None };

    ghost taken = { λ _. None };

    ghost given = { λ _. None };

    ghost faults = { λ link. link };

    fn bind(&mut self, port: u16) -> Result<(), LinkFault> {
        match Port::open(&self.runtime, port) {
            Ok(port) => {
                self.port = Some(port);
                Ok(())
            }
            Err(error) => self.count_failure(Err(fault_of(&error))),
        }
    }

    fn take(&mut self) -> Result<TakenFrom, LinkFault> {
        let answer = match &mut self.port {
            Some(port) => port.take(self.alloc, &self.runtime),
            None => Err(LinkFault::Failed),
        };
        self.count_failure(answer)
    }

    fn give(&mut self, port: u16, bytes: &[u8]) -> Result<(), LinkFault> {
        let answer = match &self.port {
            Some(own) => own.give(port, bytes),
            None => Err(LinkFault::Failed),
        };
        self.count_failure(answer)
    }

    fn faults(&self) -> u64 {
        self.faults
    }
}

// A port that is bound.
#[derive(Drop)]
struct Port {
    socket: UdpSocket,
    // When a take last answered that nothing came, or the port was bound.
    since: Instant,
}

impl Port {
    fn open<R: Net + Clock>(runtime: &R, number: u16) -> io::Result<Self> {
        Ok(Port {
            socket: UdpSocket::bind(runtime, (Ipv4Addr::LOCALHOST, number))?,
            since: Instant::now(runtime)?,
        })
    }

    // The next datagram, or nothing where none comes in time.
    fn take<C: Clock>(&mut self, alloc: Global, clock: &C) -> Result<TakenFrom, LinkFault>
        ensures { IfOk result IsCut }
    {
        let mut buffer = [0; LONGEST_DATAGRAM];
        for _ in 0..u64::MAX {
            match self.receive(clock, &mut buffer) {
                Ok(Some((count, port))) => {
                    let mut bytes = Octets::new(alloc);
                    bytes.append(&buffer[..count])?;
                    return Ok(TakenFrom::From(port, bytes));
                }
                Ok(None) => return Ok(TakenFrom::Nothing),
                Err(error) if passes(&error) => {}
                Err(error) => return Err(fault_of(&error)),
            }
        }
        Err(LinkFault::Failed)
    }

    // How many bytes of the next datagram were received, and from which port; `None` where none comes in time.
    fn receive<C: Clock>(
        &mut self,
        clock: &C,
        buffer: &mut [u8],
    ) -> io::Result<Option<(usize, u16)>>
        ensures { IfOk result (λ received.
            IfSome received (λ datagram. datagram.0 ≤ length buffer.new)) }
    {
        let now = Instant::now(clock)?;
        let left = Duration::from_millis(WAIT).saturating_sub(now.duration_since(self.since));
        if left.is_zero() {
            self.since = now;
            return Ok(None);
        }
        self.socket.set_read_timeout(Some(left))?;
        match self.socket.recv_from(buffer) {
            Ok((count, from)) => Ok(Some((count, from.port()))),
            Err(error) if gave_up(&error) => {
                self.since = Instant::now(clock)?;
                Ok(None)
            }
            Err(error) => Err(error),
        }
    }

    fn give(&self, port: u16, bytes: &[u8]) -> Result<(), LinkFault> {
        for _ in 0..u64::MAX {
            match self.socket.send_to(bytes, (Ipv4Addr::LOCALHOST, port)) {
                Ok(_) => return Ok(()),
                Err(error) if passes(&error) => {}
                Err(error) => return Err(fault_of(&error)),
            }
        }
        Err(LinkFault::Failed)
    }
}

// Whether a read has waited long enough.
fn gave_up(error: &io::Error) -> bool {
    matches!(error.kind(), ErrorKind::WouldBlock | ErrorKind::TimedOut)
}

// Whether a call is tried again: it was interrupted, or reports that nobody listened where an earlier datagram went.
fn passes(error: &io::Error) -> bool {
    matches!(
        error.kind(),
        ErrorKind::Interrupted | ErrorKind::ConnectionRefused
    )
}

fn fault_of(error: &io::Error) -> LinkFault {
    match error.kind() {
        ErrorKind::OutOfMemory => LinkFault::NoMemory,
        _ => LinkFault::Failed,
    }
}
