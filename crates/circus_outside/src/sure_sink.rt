// A sink in memory that never fails.
ghost use Rattle.std.specs.Prelude.{◌≡◌, ◌<◌, ◌≤◌, ◌++◌, [], Option, Some, Ok, List, ℕ, length, take, IfOk, OnOk, OnErr, IsOkUnless};
ghost use Rattle.circus_outside.specs.Sink.{SinkCounts, HasGivenOn};
ghost use Rattle.circus_outside.specs.Told.{told_more};

use crate::{Sink, SinkFault};
use circus_value::Octets;
use std::alloc::Global;
use std::marker::Model;

/// A sink in memory that takes each piece whole and never fails. Clauses see it as the bytes written.
#[derive(Drop)]
pub struct SureSink {
    written: Octets,
}

impl Model for SureSink {
    ghost Value = { List ℕ };

    ghost view = { λ sink. sink.written };
}

impl SureSink {
    /// An empty sink. It takes no memory.
    pub fn new(alloc: Global) -> Self
        ensures { result ≡ [] }
    {
        SureSink {
            written: Octets::new(alloc),
        }
    }

    /// The bytes written so far.
    pub fn written(&self) -> &Octets
        ensures { result.now ≡ self.now }
    {
        &self.written
    }
}

impl Sink for SureSink {
    ghost written = { λ sink. Some sink };

    ghost gathered = { λ _. Some [] };

    ghost faults = { λ _. 0 };

    fn put(&mut self, bytes: &[u8]) -> Result<usize, SinkFault>
        ensures part { IfOk result (λ n. n ≤ length bytes.now) }
        ensures progress { IfOk result (λ n. 0 < length bytes.now → 0 < n) }
        ensures empty { length bytes.now ≡ 0 → result ≡ Ok 0 }
        ensures written { IfOk result (λ n.
            Some self.new ≡ told_more (Some self.old) (take n bytes.now)) }
        ensures refused { OnErr result (Some self.new ≡ Some self.old) }
        ensures counts { SinkCounts result 0 0 }
        ensures never_falls { 0 ≤ 0 }

        // It takes a piece whole, and only memory can be wanting.
        ensures whole { IfOk result (λ n. n ≡ length bytes.now) }
        ensures sure { IsOkUnless result SinkFault.NoMemory }
        ensures ok { OnOk result (self.new ≡ self.old ++ bytes.now) }
        ensures err { OnErr result (self.new ≡ self.old) }
    {
        if bytes.is_empty() {
            return Ok(0);
        }
        self.written.append(bytes)?;
        Ok(bytes.len())
    }

    /// It has nothing to give on.
    fn finish(&mut self) -> Result<(), SinkFault>
        ensures written { Some self.new ≡ Some self.old }
        ensures given_on { OnOk result (HasGivenOn (Some [])) }
        ensures counts { SinkCounts result 0 0 }
        ensures never_falls { 0 ≤ 0 }
        ensures sure { result ≡ Ok tt }
        ensures unchanged { self.new ≡ self.old }
    {
        Ok(())
    }

    fn faults(&self) -> u64 {
        0
    }
}
