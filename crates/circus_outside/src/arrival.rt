// The datagrams of a link in memory.
ghost use Rattle.std.specs.Prelude.{◌≡◌, take, drop, IfOk};
ghost use Rattle.circus_outside.specs.Limits.{longest_datagram};
ghost use Rattle.circus_outside.specs.Link.{IsCut, taken_of};
ghost use Rattle.circus_outside.specs.MemLink.{TakesFirst, answer_to};

use crate::TakenFrom;
use crate::link::LONGEST_DATAGRAM;
use circus_value::{Duplicate, ListOf, Message, NoMemory};
use std::alloc::Global;

/// A datagram, with the port that it comes from or goes to.
#[derive(Debug, Drop)]
pub struct Arrival {
    pub port: u16,
    pub bytes: Message,
}

/// Datagrams in order.
pub type Arrivals = ListOf<Arrival>;

impl Duplicate for Arrival {
    fn copy(&self) -> Result<Self, NoMemory> {
        let bytes = self.bytes.copy()?;
        Ok(Arrival {
            port: self.port,
            bytes,
        })
    }
}

/// The place of the arrivals that a take looked at, or that it failed.
#[derive(Drop)]
pub enum Look {
    At(usize),
    Missed,
}

// A datagram as a take answers it.
#[tactic(auto, using(std::proofs::lemmas::List::take_min))]
fn cut(alloc: Global, arrival: &Arrival) -> Result<TakenFrom, NoMemory>
    ensures first { IfOk result (λ answer.
        answer ≡ TakenFrom.From arrival.now.port (take longest_datagram arrival.now.bytes)) }
    ensures cut { IfOk result IsCut }
{
    let whole = arrival.bytes.as_slice();
    let mut bytes = Message::new(alloc);
    bytes.append(&whole[..LONGEST_DATAGRAM.min(whole.len())])?;
    Ok(TakenFrom::From(arrival.port, bytes))
}

/// What a take that looks at this place answers, and the place that the next one looks at.
pub fn arrival_at(
    alloc: Global,
    arrivals: &Arrivals,
    place: usize,
) -> Result<(TakenFrom, usize), NoMemory>
    ensures first { IfOk result (λ found.
        TakesFirst (drop place arrivals.now) found.0 (drop found.1 arrivals.now)) }
    ensures answer { IfOk result (λ found.
        taken_of found.0 ≡ answer_to (Look.At place) arrivals.now) }
    ensures cut { IfOk result (λ found. IsCut found.0) }
{
    if place < arrivals.len() {
        let answer = cut(alloc, &arrivals.as_slice()[place])?;
        Ok((answer, place + 1))
    } else {
        Ok((TakenFrom::Nothing, place))
    }
}
