// The files that a shelf in memory is made of.
ghost use Rattle.std.specs.Prelude.{◌≡◌, option_copied};
ghost use Rattle.circus_outside.specs.MemShelf.{contents_in};

use circus_value::{Duplicate, ListOf, Message, NoMemory, Octets};

/// A file of a shelf in memory.
#[derive(Debug, Drop)]
pub struct File {
    /// The name that it is fetched by, as the bytes of a text.
    pub name: Octets,
    pub contents: Message,
}

/// Files in order; of two of one name the first counts.
pub type Files = ListOf<File>;

/// Names that a shelf was asked for, in order.
pub type FileNames = ListOf<Octets>;

impl Duplicate for File {
    fn copy(&self) -> Result<Self, NoMemory> {
        let name = self.name.copy()?;
        let contents = self.contents.copy()?;
        Ok(File { name, contents })
    }
}

/// The contents of the first file of this name.
pub fn first_of<'a>(files: &'a Files, name: &str) -> Option<&'a Message>
    ensures { option_copied result ≡ contents_in files.now name.now }
{
    files
        .as_slice()
        .iter()
        .find(|file| file.name.as_slice() == name.as_bytes())
        .map(|file| &file.contents)
}
