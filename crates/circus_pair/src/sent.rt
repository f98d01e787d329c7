// The datagrams that an end has sent.
ghost use Rattle.std.specs.Prelude.{◌≡◌, [], ◌++◌, length, nat_lt, IfOk, OnOk};

use bytes::Bytes;
use circus_segment::Datagrams;
use circus_value::NoMemory;
use std::alloc::Global;

/// Datagrams in the order of sending. Each is kept once; those of the last act are brought into the form that
/// receivers share at the next one.
#[derive(Drop)]
pub struct Sent {
    pub shared: Vec<Bytes>,
    /// Behind the shared ones.
    pub fresh: Datagrams,
}

impl Sent {
    /// Nothing was sent. It takes no memory.
    pub fn new(alloc: Global) -> Self
        ensures shared { result.shared.items ≡ [] }
        ensures fresh { result.fresh ≡ [] }
    {
        Sent {
            shared: Vec::new(alloc),
            fresh: Datagrams::new(alloc),
        }
    }

    /// Whether a number, counted from 0, is that of a datagram.
    pub fn has(&self, number: usize) -> bool
        ensures { result ≡ nat_lt number (length (self.now.shared.items ++ self.now.fresh)) }
    {
        number < self.shared.len() || number - self.shared.len() < self.fresh.len()
    }

    /// Brings all datagrams into the shared form. After `NoMemory` they are still the same.
    pub fn share(&mut self) -> Result<(), NoMemory>
        ensures same { self.new.shared.items ++ self.new.fresh
            ≡ self.old.shared.items ++ self.old.fresh }
        ensures ok { OnOk result (self.new.fresh ≡ []) }
    {
        let alloc = *self.shared.allocator();
        let mut shared = shared_form(alloc, &self.fresh)?;
        self.shared.append(&mut shared)?;
        self.fresh = Datagrams::new(alloc);
        Ok(())
    }
}

fn shared_form(alloc: Global, datagrams: &Datagrams) -> Result<Vec<Bytes>, NoMemory>
    ensures { IfOk result (λ shared. shared.items ≡ datagrams.now) }
{
    let mut shared = Vec::with_capacity(alloc, datagrams.len())?;
    for datagram in datagrams.as_slice() {
        shared.push(Bytes::copy_from_slice(alloc, datagram.as_slice())?)?;
    }
    Ok(shared)
}
