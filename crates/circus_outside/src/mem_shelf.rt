// A shelf in memory, some of whose calls fail.
ghost use Rattle.std.specs.Prelude.{◌≡◌, ◌≤◌, ◌++◌, [], ◌∷◌, Option, Some, List, ℕ, length, IfOk, IfSome, IfNone, OnOk, OnSome, IsErrOf};
ghost use Rattle.circus_outside.specs.Faults.{one_more};
ghost use Rattle.circus_outside.specs.Limits.{longest_contents};
ghost use Rattle.circus_outside.specs.Shelf.{ShelfCounts, names_after};
ghost use Rattle.circus_outside.specs.MemShelf.{contents_in, FetchFails};

use crate::calls::Calls;
use crate::file::first_of;
use crate::{Failing, FileNames, Files, LONGEST_CONTENTS, Shelf, ShelfFault};
use circus_value::{Duplicate, Message, NoMemory, Octets};
use std::alloc::Global;
use std::marker::Model;

/// A shelf in memory. Its fetches are numbered from 0, those that find no memory aside, and each
/// whose number is listed fails.
pub struct MemShelf {
    alloc: Global,
    files: Files,
    calls: Calls,
    fetched: FileNames,
}

// Written out, so that dropping one is one step of a proof (docs/PROOFS.md, "Cost").
impl Drop for MemShelf {
    fn drop(self) {
        let MemShelf {
            alloc: _,
            files: _,
            calls: _,
            fetched: _,
        } = self;
    }
}

impl Model for MemShelf {
    ghost use Rattle.circus_outside.specs.MemShelf.{ShelfInMemory};

    ghost Value = { ShelfInMemory };

    ghost view = { λ shelf. record {
      files = shelf.files;
      failing = shelf.calls.failing;
      number = shelf.calls.number;
      fetched = shelf.fetched;
      faults = shelf.calls.faults;
    } };
}

impl MemShelf {
    /// A shelf of these files, of whose fetches the listed ones fail. It takes no memory.
    pub fn new(alloc: Global, files: Files, failing: Failing) -> Self
        ensures { result
            ≡ record { files = files; failing = failing; number = 0; fetched = []; faults = 0 } }
    {
        MemShelf {
            alloc,
            files,
            calls: Calls::new(failing),
            fetched: FileNames::new(alloc),
        }
    }

    /// The names asked for so far, in order.
    pub fn fetched(&self) -> &FileNames
        ensures { result.now ≡ self.now.fetched }
    {
        &self.fetched
    }

    // The contents that the next fetch of this name answers, or `None` where it is to fail.
    fn answer(&self, name: &str) -> Result<Option<Message>, NoMemory>
        ensures told { IfOk result (λ answer.
            IfSome answer (λ bytes. contents_in self.now.files name.now ≡ Some bytes)) }
        ensures size { IfOk result (λ answer.
            IfSome answer (λ bytes. length bytes ≤ longest_contents)) }
        ensures fails { IfOk result (λ answer. IfNone answer (FetchFails self.now name.now)) }
        ensures answers { IfOk result (λ answer. OnSome answer (FetchFails self.now name.now → ⊥)) }
    {
        if self.calls.is_failing() {
            return Ok(None);
        }
        match first_of(&self.files, name) {
            Some(contents) if contents.len() <= LONGEST_CONTENTS => Ok(Some(contents.copy()?)),
            _ => Ok(None),
        }
    }
}

impl Shelf for MemShelf {
    ghost contents = { λ shelf. Some (contents_in shelf.files) };

    ghost fetched = { λ shelf. Some shelf.fetched };

    ghost faults = { λ shelf. shelf.faults };

    fn fetch(&mut self, name: &str) -> Result<Message, ShelfFault>
        ensures told { IfOk result (λ bytes. contents_in self.old.files name.now ≡ Some bytes) }
        ensures size { IfOk result (λ bytes. length bytes ≤ longest_contents) }
        ensures contents { Some (contents_in self.new.files) ≡ Some (contents_in self.old.files) }
        ensures fetched { Some self.new.fetched
            ≡ names_after result (Some self.old.fetched) name.now }
        ensures counts { ShelfCounts result self.old.faults self.new.faults }
        ensures never_falls { self.old.faults ≤ self.new.faults }

        // It fails exactly where it has to.
        ensures fails { IsErrOf result ShelfFault.Failed → FetchFails self.old name.now }
        ensures answers { OnOk result (FetchFails self.old name.now → ⊥) }

        // What it leaves.
        ensures ok { OnOk result (self.new ≡ record self.old {
          number = one_more self.old.number;
          fetched = self.old.fetched ++ name.now ∷ [];
        }) }
        ensures failed { IsErrOf result ShelfFault.Failed → self.new ≡ record self.old {
          number = one_more self.old.number;
          fetched = self.old.fetched ++ name.now ∷ [];
          faults = one_more self.old.faults;
        } }
        ensures no_memory { IsErrOf result ShelfFault.NoMemory → self.new ≡ self.old }
    {
        let mut asked = Octets::new(self.alloc);
        asked.append(name.as_bytes())?;
        let answer = self.answer(name)?;
        self.fetched.push(asked)?;
        match answer {
            Some(contents) => {
                self.calls.note_answer();
                Ok(contents)
            }
            None => {
                self.calls.note_failure();
                Err(ShelfFault::Failed)
            }
        }
    }

    fn faults(&self) -> u64 {
        self.calls.faults
    }
}
