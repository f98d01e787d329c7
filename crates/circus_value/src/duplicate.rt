// Copies of plain data, which take memory and are equal to what they were made of.
ghost use Rattle.std.specs.Prelude.{◌≡◌, IfOk};

use crate::NoMemory;
use bytes::Bytes;

/// Plain data that can be copied where memory is found.
pub trait Duplicate: Sized + Drop {
    /// A value equal to this one, or `NoMemory`.
    fn copy(&self) -> Result<Self, NoMemory>
        ensures { IfOk result (λ copy. copy ≡ self.now) };
}

impl Duplicate for bool {
    fn copy(&self) -> Result<Self, NoMemory> {
        Ok(*self)
    }
}

impl Duplicate for u8 {
    fn copy(&self) -> Result<Self, NoMemory> {
        Ok(*self)
    }
}

impl Duplicate for u16 {
    fn copy(&self) -> Result<Self, NoMemory> {
        Ok(*self)
    }
}

impl Duplicate for u32 {
    fn copy(&self) -> Result<Self, NoMemory> {
        Ok(*self)
    }
}

impl Duplicate for u64 {
    fn copy(&self) -> Result<Self, NoMemory> {
        Ok(*self)
    }
}

impl<T: Duplicate> Duplicate for Option<T> {
    fn copy(&self) -> Result<Self, NoMemory> {
        match self {
            None => Ok(None),
            Some(item) => Ok(Some(item.copy()?)),
        }
    }
}

/// The bytes are shared.
impl Duplicate for Bytes {
    fn copy(&self) -> Result<Self, NoMemory> {
        self.clone()
    }
}
