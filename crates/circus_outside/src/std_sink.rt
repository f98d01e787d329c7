// A sink that writes to the standard output.
ghost use Rattle.std.specs.Prelude.{◌≡◌, ◌≤◌, [], None, Some};
ghost use Rattle.circus_outside.specs.Sink.{SinkCounts};
ghost use Rattle.circus_outside.specs.StdSink.{StandardOutput};

use crate::{Sink, SinkFault, write_piece};
use std::alloc::Global;
use std::io::{self, Write};
use std::marker::Model;

// How many bytes are gathered before they are written.
const MOST_GATHERED: usize = 65_536;

/// The standard output. Pieces are gathered to 65,536 bytes, and what is gathered is written when there is no room for the
/// next piece, and in `finish`. It tells what it has gathered, and nothing of what was written.
#[derive(Drop)]
pub struct StdSink<R: Print> {
    output: R,
    gathered: Vec<u8>,
    faults: u64,
}

impl<R: Print> Model for StdSink<R> {
    ghost use Rattle.circus_outside.specs.StdSink.{StandardOutput};

    ghost Value = { StandardOutput };

    ghost view = { λ sink. record { gathered = sink.gathered.items; faults = sink.faults } };
}

impl<R: Print> StdSink<R> {
    /// A sink over the standard output of a runtime. It takes no memory.
    pub fn new(alloc: Global, output: R) -> Self
        ensures { result ≡ record { gathered = []; faults = 0 } }
    {
        StdSink {
            output,
            gathered: Vec::new(alloc),
            faults: 0,
        }
    }

    // Writes what is gathered. Where that fails, it is gone.
    fn give(&mut self) -> Result<(), SinkFault>
        ensures given_on { self.new.gathered ≡ [] }
        ensures counts { SinkCounts result self.old.faults self.new.faults }
        ensures never_falls { self.old.faults ≤ self.new.faults }
    {
        let mut writer = io::writer(&self.output);
        let answer = writer
            .write_all(self.gathered.as_slice())
            .map_err(|_| SinkFault::Failed);
        self.gathered.clear();
        self.count_failure(answer)
    }

    // What a write answered, which is counted where it failed.
    fn count_failure<A: Drop>(&mut self, answer: Result<A, SinkFault>) -> Result<A, SinkFault>
        ensures same { result ≡ answer }
        ensures gathered { self.new.gathered ≡ self.old.gathered }
        ensures counts { SinkCounts result self.old.faults self.new.faults }
        ensures never_falls { self.old.faults ≤ self.new.faults }
    {
        if let Err(SinkFault::Failed) = &answer {
            self.faults = self.faults.saturating_add(1);
        }
        answer
    }
}

impl<R: Print> Sink for StdSink<R> {
    ghost written = { λ _. None };

    ghost gathered = { λ sink. Some sink.gathered };

    ghost faults = { λ sink. sink.faults };

    fn put(&mut self, bytes: &[u8]) -> Result<usize, SinkFault> {
        if bytes.len() > MOST_GATHERED.saturating_sub(self.gathered.len()) {
            self.give()?;
        }
        if bytes.len() > MOST_GATHERED {
            let answer = write_piece(&mut io::writer(&self.output), bytes);
            return self.count_failure(answer);
        }
        self.gathered.extend_from_slice(bytes)?;
        Ok(bytes.len())
    }

    fn finish(&mut self) -> Result<(), SinkFault> {
        self.give()
    }

    fn faults(&self) -> u64 {
        self.faults
    }
}
