// A shelf in memory that never fails.
ghost use Rattle.std.specs.Prelude.{◌≡◌, ◌≤◌, ◌++◌, [], ◌∷◌, Option, Some, List, ℕ, length, IfOk, OnOk, OnErr, IsOkUnless};
ghost use Rattle.circus_outside.specs.Limits.{longest_contents};
ghost use Rattle.circus_outside.specs.Shelf.{ShelfCounts, names_after};
ghost use Rattle.circus_outside.specs.SureShelf.{AllAnswerable, sure_contents, sure_of};

use crate::file::first_of;
use crate::{FileNames, Files, Shelf, ShelfFault};
use circus_value::{Duplicate, Message, NoMemory, Octets};
use std::alloc::Global;
use std::marker::Model;

/// A shelf in memory that never fails. A name that it wasn't given has empty contents.
#[derive(Drop)]
pub struct SureShelf {
    alloc: Global,
    files: Files,
    fetched: FileNames,
}

impl Model for SureShelf {
    ghost use Rattle.circus_outside.specs.SureShelf.{SureFiles, AllAnswerable};

    ghost Value = { SureFiles };

    ghost view = { λ shelf. record { files = shelf.files; fetched = shelf.fetched } };

    ghost invariant = { λ shelf. AllAnswerable shelf.files };
}

impl SureShelf {
    /// A shelf of these files, each of at most 16,777,216 bytes. It takes no memory.
    pub fn new(alloc: Global, files: Files) -> Self
        requires { AllAnswerable files }
        ensures { result ≡ record { files = files; fetched = [] } }
    {
        SureShelf {
            alloc,
            files,
            fetched: FileNames::new(alloc),
        }
    }

    /// The names asked for so far, in order.
    pub fn fetched(&self) -> &FileNames
        ensures { result.now ≡ self.now.fetched }
    {
        &self.fetched
    }

    // The contents that a fetch of this name answers.
    fn answer(&self, name: &str) -> Result<Message, NoMemory>
        ensures told { IfOk result (λ bytes. bytes ≡ sure_contents self.now.files name.now) }
        ensures size { IfOk result (λ bytes. length bytes ≤ longest_contents) }
    {
        match first_of(&self.files, name) {
            Some(contents) => contents.copy(),
            None => Ok(Message::new(self.alloc)),
        }
    }
}

impl Shelf for SureShelf {
    ghost contents = { λ shelf. Some (sure_of shelf.files) };

    ghost fetched = { λ shelf. Some shelf.fetched };

    ghost faults = { λ _. 0 };

    fn fetch(&mut self, name: &str) -> Result<Message, ShelfFault>
        ensures told { IfOk result (λ bytes. sure_of self.old.files name.now ≡ Some bytes) }
        ensures size { IfOk result (λ bytes. length bytes ≤ longest_contents) }
        ensures contents { Some (sure_of self.new.files) ≡ Some (sure_of self.old.files) }
        ensures fetched { Some self.new.fetched
            ≡ names_after result (Some self.old.fetched) name.now }
        ensures counts { ShelfCounts result 0 0 }
        ensures never_falls { 0 ≤ 0 }

        // Only memory can be wanting.
        ensures sure { IsOkUnless result ShelfFault.NoMemory }
        ensures ok { OnOk result
            (self.new ≡ record self.old { fetched = self.old.fetched ++ name.now ∷ [] }) }
        ensures err { OnErr result (self.new ≡ self.old) }
    {
        let mut asked = Octets::new(self.alloc);
        asked.append(name.as_bytes())?;
        let contents = self.answer(name)?;
        self.fetched.push(asked)?;
        Ok(contents)
    }

    fn faults(&self) -> u64 {
        0
    }
}
