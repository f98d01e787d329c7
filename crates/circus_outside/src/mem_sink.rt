// A sink in memory, some of whose calls fail.
ghost use Rattle.std.specs.Prelude.{◌≡◌, ◌<◌, ◌≤◌, ◌++◌, [], Option, Some, Ok, List, ℕ, length, take, IfOk, OnOk, OnErr, IsErrOf};
ghost use Rattle.circus_outside.specs.Faults.{one_more};
ghost use Rattle.circus_outside.specs.Sink.{SinkCounts, HasGivenOn};
ghost use Rattle.circus_outside.specs.Told.{told_more};
ghost use Rattle.circus_outside.specs.MemSink.{PutFails};

use crate::calls::Calls;
use crate::{Failing, Sink, SinkFault};
use circus_value::Octets;
use std::alloc::Global;
use std::marker::Model;

/// A sink in memory, which takes each piece whole. Its puts of pieces that aren't empty are numbered
/// from 0, those that find no memory aside, and each whose number is listed fails.
#[derive(Drop)]
pub struct MemSink {
    written: Octets,
    calls: Calls,
}

impl Model for MemSink {
    ghost use Rattle.circus_outside.specs.MemSink.{SinkInMemory};

    ghost Value = { SinkInMemory };

    ghost view = { λ sink. record {
      written = sink.written;
      failing = sink.calls.failing;
      number = sink.calls.number;
      faults = sink.calls.faults;
    } };
}

impl MemSink {
    /// An empty sink, of whose puts the listed ones fail. It takes no memory.
    pub fn new(alloc: Global, failing: Failing) -> Self
        ensures { result ≡ record { written = []; failing = failing; number = 0; faults = 0 } }
    {
        MemSink {
            written: Octets::new(alloc),
            calls: Calls::new(failing),
        }
    }

    /// The bytes written so far.
    pub fn written(&self) -> &Octets
        ensures { result.now ≡ self.now.written }
    {
        &self.written
    }
}

impl Sink for MemSink {
    ghost written = { λ sink. Some sink.written };

    ghost gathered = { λ _. Some [] };

    ghost faults = { λ sink. sink.faults };

    fn put(&mut self, bytes: &[u8]) -> Result<usize, SinkFault>
        ensures part { IfOk result (λ n. n ≤ length bytes.now) }
        ensures progress { IfOk result (λ n. 0 < length bytes.now → 0 < n) }
        ensures empty { length bytes.now ≡ 0 → result ≡ Ok 0 }
        ensures written { IfOk result (λ n.
            Some self.new.written ≡ told_more (Some self.old.written) (take n bytes.now)) }
        ensures refused { OnErr result (Some self.new.written ≡ Some self.old.written) }
        ensures counts { SinkCounts result self.old.faults self.new.faults }
        ensures never_falls { self.old.faults ≤ self.new.faults }

        // It takes a piece whole, and fails exactly where it has to.
        ensures whole { IfOk result (λ n. n ≡ length bytes.now) }
        ensures fails { IsErrOf result SinkFault.Failed → PutFails self.old bytes.now }
        ensures answers { OnOk result (PutFails self.old bytes.now → ⊥) }

        // What it leaves.
        ensures unchanged { length bytes.now ≡ 0 → self.new ≡ self.old }
        ensures ok { OnOk result (0 < length bytes.now → self.new ≡ record self.old {
          written = self.old.written ++ bytes.now;
          number = one_more self.old.number;
        }) }
        ensures failed { IsErrOf result SinkFault.Failed → self.new ≡ record self.old {
          number = one_more self.old.number;
          faults = one_more self.old.faults;
        } }
        ensures no_memory { IsErrOf result SinkFault.NoMemory → self.new ≡ self.old }
    {
        if bytes.is_empty() {
            return Ok(0);
        }
        if self.calls.is_failing() {
            self.calls.note_failure();
            return Err(SinkFault::Failed);
        }
        self.written.append(bytes)?;
        self.calls.note_answer();
        Ok(bytes.len())
    }

    /// It has nothing to give on, and never fails.
    fn finish(&mut self) -> Result<(), SinkFault>
        ensures written { Some self.new.written ≡ Some self.old.written }
        ensures given_on { OnOk result (HasGivenOn (Some [])) }
        ensures counts { SinkCounts result self.old.faults self.new.faults }
        ensures never_falls { self.old.faults ≤ self.new.faults }
        ensures sure { result ≡ Ok tt }
        ensures unchanged { self.new ≡ self.old }
    {
        Ok(())
    }

    fn faults(&self) -> u64 {
        self.calls.faults
    }
}
