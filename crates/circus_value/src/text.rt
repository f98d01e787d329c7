// The bytes of a text.
ghost use Rattle.std.specs.Prelude.{◌≡◌, [], length, IfOk, IsOk, IsTrue, ◌↔◌};

use crate::{Duplicate, NoMemory, Octets};
use std::alloc::Global;
use std::marker::Model;
use std::rc::Rc;

/// The bytes of a text, which don't change. Copies share them. Clauses see the plain list.
#[derive(Debug)]
pub struct Text {
    /// `None` where there are none.
    bytes: Option<Rc<Octets>>,
}

// Written out, so that dropping one is one step of a proof (docs/PROOFS.md, "Cost").
impl Drop for Text {
    fn drop(self) {
        let Text { bytes: _ } = self;
    }
}

impl Model for Text {
    ghost use Rattle.std.specs.Prelude.{ℕ, List};
    ghost use Rattle.circus_value.specs.Seen.SharedBytes.{bytes_in};

    ghost Value = { List ℕ };

    ghost view = { λ a. bytes_in a.bytes };
}

impl Text {
    /// No bytes. It takes no memory.
    pub fn new() -> Self
        ensures { result ≡ [] }
    {
        Text { bytes: None }
    }

    /// These bytes, which are not copied, or `NoMemory`. Where there are none it takes no memory.
    pub fn of(alloc: Global, bytes: Octets) -> Result<Self, NoMemory>
        ensures value { IfOk result (λ text. text ≡ bytes) }
        ensures none { bytes ≡ [] → IsOk result }
    {
        if bytes.is_empty() {
            return Ok(Text::new());
        }
        Ok(Text {
            bytes: Some(Rc::new(alloc, bytes)?),
        })
    }

    /// How many there are.
    pub fn len(&self) -> usize
        ensures { result ≡ length self.now }
    {
        self.as_slice().len()
    }

    /// Whether there are none.
    pub fn is_empty(&self) -> bool
        ensures { IsTrue result ↔ (self.now ≡ []) }
    {
        self.as_slice().is_empty()
    }

    /// All of them, in order.
    pub fn as_slice(&self) -> &[u8]
        ensures { result.now ≡ self.now }
    {
        match &self.bytes {
            Some(bytes) => bytes.as_slice(),
            None => &[],
        }
    }
}

/// The bytes are shared.
impl Duplicate for Text {
    fn copy(&self) -> Result<Self, NoMemory> {
        Ok(Text {
            bytes: self.bytes.clone()?,
        })
    }
}
