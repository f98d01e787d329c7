// A sink that takes one byte of each piece, and may fail at the end.
ghost use Rattle.std.specs.Prelude.{None};

use crate::fails::{DELIVER_ALL, ONE_CALL, REPORT, idle_link, shelf, strings};
use circus_outside::{Sink, SinkFault};
use circus_program::circus;
use circus_value::{NoMemory, Octets};
use std::alloc::Global;
use std::test::Fail;

#[derive(Drop)]
struct Slow {
    taken: Octets,
    fails: bool,
    finished: u64,
    faults: u64,
}

impl Sink for Slow {
    ghost written = { λ _. None };

    ghost gathered = { λ _. None };

    ghost faults = { λ sink. sink.faults };

    fn put(&mut self, bytes: &[u8]) -> Result<usize, SinkFault> {
        if bytes.is_empty() {
            return Ok(0);
        }
        self.taken.append(&bytes[..1])?;
        Ok(1)
    }

    fn finish(&mut self) -> Result<(), SinkFault> {
        self.finished = self.finished.saturating_add(1);
        if self.fails {
            self.faults = self.faults.saturating_add(1);
            return Err(SinkFault::Failed);
        }
        Ok(())
    }

    fn faults(&self) -> u64 {
        self.faults
    }
}

// Replays one call over such a sink, and answers the status.
fn replay(alloc: Global, sink: &mut Slow) -> Result<u8, NoMemory> {
    let words = strings(alloc, &["replay", "p", "s"])?;
    let mut shelf = shelf(alloc, (ONE_CALL, DELIVER_ALL), None)?;
    let mut link = idle_link(alloc, None)?;
    Ok(circus(alloc, words.as_slice(), &mut shelf, sink, &mut link))
}

#[test]
fn a_sink_takes_one_byte_at_a_time(rt: HostRuntime) -> Result<(), Fail> {
    for (fails, status) in [(false, 0), (true, 5)] {
        let mut sink = Slow {
            taken: Octets::new(rt.alloc()),
            fails,
            finished: 0,
            faults: 0,
        };
        assert_eq!(rt; replay(rt.alloc(), &mut sink)?, status);
        assert_eq!(rt; sink.taken.as_slice(), REPORT.as_bytes());
        assert_eq!(rt; sink.finished, 1);
    }
    Ok(())
}
