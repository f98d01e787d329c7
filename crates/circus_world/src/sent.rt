// What was sent.
ghost use Rattle.std.specs.Prelude.{◌≡◌, Some, ◌<◌, ◌≤◌, [], ◌∷◌, ◌++◌, length, slice_get, option_map, OnOk, OnErr, IsTrue, ◌↔◌};
ghost use Rattle.circus_world.specs.Seen.Entries.{sent_as, sent_at, start_at};

use circus_value::NoMemory;
use std::alloc::Global;
use std::marker::Model;

/// A datagram, with the step in which it was sent and its two nodes.
#[derive(Clone, Copy)]
pub struct Sent<'a> {
    pub step: u64,
    pub from: u16,
    pub to: u16,
    pub bytes: &'a [u8],
}

// A datagram among others, whose bytes begin where those of the one before it end.
#[derive(Clone, Copy, Drop)]
struct Entry {
    step: u64,
    from: u16,
    to: u16,
    /// Where its bytes end among those of all.
    end: usize,
}

/// Datagrams in the order of sending. The place of a datagram is its number. Their bytes stand behind one another in one
/// buffer.
#[derive(Drop)]
pub struct SentList {
    entries: Vec<Entry>,
    bytes: Vec<u8>,
}

impl Model for SentList {
    ghost use Rattle.std.specs.Prelude.{List, length};
    ghost use Rattle.circus_world.specs.Sent.{Sent};
    ghost use Rattle.circus_world.specs.Seen.Entries.{sent_from, Follow};

    ghost Value = { List Sent };

    ghost view = { λ a. sent_from a.bytes.items 0 a.entries.items };

    ghost invariant = { λ a. Follow 0 a.entries.items (length a.bytes.items) };
}

impl SentList {
    /// No datagrams. It takes no memory, and grows with this allocator.
    pub fn new(alloc: Global) -> Self
        ensures { result ≡ [] }
    {
        SentList {
            entries: Vec::new(alloc),
            bytes: Vec::new(alloc),
        }
    }

    /// How many there are.
    pub fn len(&self) -> usize
        ensures { result ≡ length self.now }
    {
        self.entries.len()
    }

    /// Whether there are none.
    pub fn is_empty(&self) -> bool
        ensures { IsTrue result ↔ (self.now ≡ []) }
    {
        self.entries.is_empty()
    }

    /// The datagram of a number. `None` exactly where no datagram has it. It takes no memory.
    pub fn get(&self, number: usize) -> Option<Sent<'_>>
        ensures { option_map sent_as result ≡ slice_get self.now number }
    {
        if number < self.len() {
            Some(self.at(number))
        } else {
            None
        }
    }

    /// The datagram of a number that one has. It takes no memory.
    pub fn at(&self, number: usize) -> Sent<'_>
        requires { number < length self.now }
        ensures { slice_get self.now number ≡ Some (sent_as result) }
    {
        let start = start_of(&self.entries, number);
        sent_of(&self.bytes, start, &self.entries[number])
    }

    /// Adds a datagram at the end, whose bytes are copied. After `NoMemory` the list is unchanged.
    pub fn push(&mut self, step: u64, from: u16, to: u16, bytes: &[u8]) -> Result<(), NoMemory>
        ensures ok { OnOk result (self.new ≡ self.old
            ++ record { step = step; from = from; to = to; bytes = bytes.now } ∷ []) }
        ensures err { OnErr result (self.new ≡ self.old) }
    {
        self.entries.reserve(1)?;
        self.bytes.extend_from_slice(bytes)?;
        let end = self.bytes.len();
        self.entries.push_reserved(Entry {
            step,
            from,
            to,
            end,
        });
        Ok(())
    }
}

// Where the bytes of an entry begin.
fn start_of(entries: &[Entry], number: usize) -> usize
    requires { number < length entries.now }
    ensures { result ≡ start_at 0 entries.now number }
{
    if number == 0 {
        0
    } else {
        entries[number - 1].end
    }
}

// The datagram of an entry, whose bytes begin at a place.
fn sent_of<'a>(bytes: &'a [u8], start: usize, entry: &Entry) -> Sent<'a>
    requires from { start ≤ entry.now.end }
    requires upto { entry.now.end ≤ length bytes.now }
    ensures { sent_as result ≡ sent_at bytes.now start entry.now }
{
    Sent {
        step: entry.step,
        from: entry.from,
        to: entry.to,
        bytes: &bytes[start..entry.end],
    }
}
