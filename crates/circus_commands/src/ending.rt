// An end of a command.
ghost use Rattle.std.specs.Prelude.{◌≡◌, IfOk, string_bytes};
ghost use Rattle.circus_commands.specs.Seen.Ending.{ending_of};

use crate::Status;
use circus_value::{ListOf, NoMemory, Octets};
use std::alloc::Global;

/// What a command ends with: its status, and all that it writes.
#[derive(Debug, Drop)]
pub struct Ending {
    pub status: Status,
    pub text: Octets,
}

impl Ending {
    /// The end with this text, which is not copied. It takes no memory.
    pub fn of(status: Status, text: String) -> Self
        ensures text { ending_of result ≡ record { status = status; text = string_bytes text } }
        ensures status { result.status ≡ status }
    {
        Ending {
            status,
            text: ListOf::of(text.into_bytes()),
        }
    }

    /// The end whose text is this line.
    pub fn of_line(alloc: Global, status: Status, line: &str) -> Result<Self, NoMemory>
        ensures text { IfOk result (λ ending.
            ending_of ending ≡ record { status = status; text = line.now }) }
        ensures status { IfOk result (λ ending. ending.status ≡ status) }
    {
        Ok(Ending::of(status, String::from_str(alloc, line)?))
    }
}
