// Parts of messages that have not arrived whole.
ghost use Rattle.std.specs.Prelude.{◌≡◌, ◌≤◌, length, IfOk, OnOk, OnErr, option_copied};
ghost use Rattle.std.specs.FinMap as map;
ghost use Rattle.circus_segment.specs.Segment.{part_size};
ghost use Rattle.circus_exchange.specs.Inbox.{with_part};

use crate::series::Series;
use bytes::Bytes;
use circus_value::NoMemory;
use std::alloc::Global;
use std::collections::BTreeMap;
use std::marker::Model;

/// The data of one segment: at most 1,024 bytes. Clauses see the bytes.
#[derive(Drop)]
pub struct Part {
    bytes: Bytes,
}

impl Model for Part {
    ghost use Rattle.std.specs.Prelude.{ℕ, ◌≤◌, List, length};
    ghost use Rattle.std.specs.Coded.{coded_ℕ, coded_list};
    ghost use Rattle.circus_segment.specs.Segment.{part_size};

    ghost Value = { List ℕ };

    ghost coded = { coded_list coded_ℕ };

    ghost view = { λ a. a.bytes };

    ghost invariant = { λ a. length a.bytes ≤ part_size };
}

impl Part {
    /// These bytes, as a part.
    pub fn of(bytes: Bytes) -> Part
        requires { length bytes ≤ part_size }
        ensures { result ≡ bytes }
    {
        Part { bytes }
    }

    /// The bytes, shared once more.
    pub fn share(&self) -> Result<Bytes, NoMemory>
        ensures value { IfOk result (λ bytes. bytes ≡ self.now) }
        ensures short { IfOk result (λ bytes. length bytes ≤ part_size) }
    {
        self.bytes.clone()
    }
}

/// The parts of messages by the numbers of their calls, and of their segments. Clauses see the finite maps.
#[derive(Drop)]
pub struct Held {
    messages: BTreeMap<u32, Series<Part>>,
}

impl Model for Held {
    ghost use Rattle.std.specs.Prelude.{ℕ, List};
    ghost use Rattle.std.specs.Ordering.{nat_cmp};
    ghost use Rattle.std.specs.FinMap as map;
    ghost use Rattle.std.specs.Coded.{coded_ℕ, coded_list};

    ghost Value = { map.FinMap nat_cmp (map.FinMap nat_cmp (List ℕ)) };

    ghost coded = { map.code coded_ℕ (map.code coded_ℕ (coded_list coded_ℕ)) };

    ghost view = { λ a. map.from_entries a.messages.entries };
}

impl Held {
    /// No parts. It takes no memory.
    pub fn new(alloc: Global) -> Self
        ensures { result ≡ map.empty }
    {
        Held {
            messages: BTreeMap::new(alloc),
        }
    }

    /// The parts of a message.
    pub fn of(&self, call: u32) -> Option<&Series<Part>>
        ensures { option_copied result ≡ map.get self.now call }
    {
        self.messages.get(&call)
    }

    /// Adds a part of a message. After `NoMemory` nothing has changed.
    pub fn add(&mut self, alloc: Global, call: u32, number: u16, part: Part) -> Result<(), NoMemory>
        ensures ok { OnOk result (self.new ≡ with_part self.old call number part) }
        ensures err { OnErr result (self.new ≡ self.old) }
    {
        match self.messages.get_mut(&call) {
            Some(parts) => parts.insert(u32::from(number), part),
            None => self.begin(alloc, call, number, part),
        }
    }

    // Adds the first part of a message.
    fn begin(&mut self, alloc: Global, call: u32, number: u16, part: Part) -> Result<(), NoMemory>
        requires { map.get self.old call ≡ None }
        ensures ok { OnOk result (self.new ≡ with_part self.old call number part) }
        ensures err { OnErr result (self.new ≡ self.old) }
    {
        let mut parts = Series::new(alloc, 1);
        parts.insert(u32::from(number), part)?;
        match self.messages.insert(call, parts) {
            Ok(_) => Ok(()),
            Err(_) => Err(NoMemory {}),
        }
    }

    /// Gives up the parts of a message, if there are any.
    pub fn forget(&mut self, call: u32)
        ensures { self.new ≡ map.remove self.old call }
    {
        let _ = self.messages.remove(&call);
    }
}
