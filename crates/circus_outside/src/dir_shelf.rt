// A shelf of real files.
ghost use Rattle.std.specs.Prelude.{◌≡◌, ◌≤◌, None, length, IfOk};
ghost use Rattle.circus_outside.specs.Limits.{longest_contents};

use crate::{Shelf, ShelfFault, read_contents};
use circus_value::Message;
use std::alloc::Global;
use std::fs;
use std::marker::Model;
use std::rt::Files;

/// The files of the folder that the program runs in. It tells no contents. Clauses see it as its count
/// of faults.
#[derive(Drop)]
pub struct DirShelf<R: Files> {
    alloc: Global,
    files: R,
    faults: u64,
}

impl<R: Files> Model for DirShelf<R> {
    ghost use Rattle.std.specs.Prelude.{ℕ};

    ghost Value = { ℕ };

    ghost view = { λ shelf. shelf.faults };
}

impl<R: Files> DirShelf<R> {
    /// A shelf over the files of a runtime. It takes no memory.
    pub fn new(alloc: Global, files: R) -> Self
        ensures { result ≡ 0 }
    {
        DirShelf {
            alloc,
            files,
            faults: 0,
        }
    }
}

impl<R: Files> Shelf for DirShelf<R> {
    ghost contents = { λ _. None };

    ghost fetched = { λ _. None };

    ghost faults = { λ shelf. shelf };

    fn fetch(&mut self, name: &str) -> Result<Message, ShelfFault> {
        match read_file(self.alloc, &self.files, name) {
            Err(ShelfFault::Failed) => {
                self.faults = self.faults.saturating_add(1);
                Err(ShelfFault::Failed)
            }
            answer => answer,
        }
    }

    fn faults(&self) -> u64 {
        self.faults
    }
}

// The contents of a file.
fn read_file<R: Files>(alloc: Global, files: &R, name: &str) -> Result<Message, ShelfFault>
    ensures { IfOk result (λ bytes. length bytes ≤ longest_contents) }
{
    match fs::open(files, name) {
        Ok(file) => read_contents(alloc, file),
        Err(_) => Err(ShelfFault::Failed),
    }
}
