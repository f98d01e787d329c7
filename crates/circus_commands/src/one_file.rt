// The commands of one file.
ghost use Rattle.std.specs.Prelude.{IfOk};
ghost use Rattle.circus_commands.specs.OneFile.{IsEndOf};
ghost use Rattle.circus_commands.specs.Seen.Upshot.{end_of_upshot, CanBeWritten};

use crate::Upshot;
use crate::placed::end_of_placing;
use crate::stubs::stubs;
use crate::unreplicated::end_of_unreplicated;
use circus_value::NoMemory;
use std::alloc::Global;

/// A command that reads one file and nothing else (docs/GUIDE.md).
#[derive(Clone, Copy, Debug, PartialEq, Eq)]
pub enum OneFile {
    /// The stubs of a program's interfaces.
    Stubs,
    /// The history of a program when nothing is replicated.
    Run,
    /// The best choice of a placing.
    Place,
}

/// What comes of the bytes of the command's file: a status of `Done`, `BadProgram`, `BadPlacing` or `NoPlacement`, and what
/// is written. `NoMemory` is the one fault.
pub fn end_of(alloc: Global, command: OneFile, bytes: &[u8]) -> Result<Upshot, NoMemory>
    ensures ending { IfOk result (λ upshot. IsEndOf command bytes.now (end_of_upshot upshot)) }
    ensures ready { IfOk result CanBeWritten }
{
    match command {
        OneFile::Stubs => Ok(Upshot::Text(stubs(alloc, bytes)?)),
        OneFile::Run => end_of_unreplicated(alloc, bytes),
        OneFile::Place => Ok(Upshot::Text(end_of_placing(alloc, bytes)?)),
    }
}
