// A state as a message.
ghost use Rattle.std.specs.Prelude.{◌≡◌, ◌++◌, true, IfOk};
ghost use Rattle.circus_value.specs.Fits.{all_fit};
ghost use Rattle.circus_header.specs.Field.{bytes_of};
ghost use Rattle.circus_header.specs.ReturnFields.{return_fields};
ghost use Rattle.circus_header.specs.declared.answer.ReturnHeader.TheVariants as header;
ghost use Rattle.circus_external.specs.Spelling.{spelling_of_all};
ghost use Rattle.circus_transfer.specs.Snapshot.{snapshot_bytes};

use circus_external::write_all;
use circus_header::{ReturnHeader, write_return};
use circus_value::{ListOf, Message, NoMemory, Shapes, State};
use std::alloc::Global;

/// The return message that hands over a state that fits the shapes, and how many calls led to it
/// (docs/FORMATS.md, "Snapshots"). `NoMemory` is the one fault.
pub fn snapshot(
    alloc: Global,
    state: &State,
    shapes: &Shapes,
    count: u32,
) -> Result<Message, NoMemory>
    requires { all_fit shapes.now state.now ≡ true }
    ensures bytes { IfOk result (λ message. message ≡ snapshot_bytes count state.now) }
    ensures header { IfOk result (λ message.
        message ≡ bytes_of (return_fields (header.Snapshot count)) ++ spelling_of_all state.now) }
{
    let mut message = ListOf::new(alloc);
    write_return(alloc, &ReturnHeader::Snapshot(count), &mut message)?;
    write_all(alloc, state, &mut message)?;
    Ok(message)
}
