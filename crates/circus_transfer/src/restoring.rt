// The state that a message hands over.
ghost use Rattle.std.specs.Prelude.{◌≡◌, true};
ghost use Rattle.circus_external.specs.Reading.{fields_reading};
ghost use Rattle.circus_external.specs.Refusal.{are_proper};
ghost use Rattle.circus_transfer.specs.Snapshot.{fields_of, snapshot_fields};
ghost use Rattle.circus_transfer.specs.Restoring.{IsRestored};
ghost use Rattle.circus_transfer.specs.Seen.Restored.{Restores};

use crate::{TransferFault, read_values};
use circus_external::{read_long, read_word};
use circus_value::{Shapes, State};
use std::alloc::Global;

// The first word of a snapshot.
const SNAPSHOT: u16 = 3;

/// The state that a snapshot hands over, and how many calls led to it (docs/FORMATS.md, "Snapshots").
///
/// The message is read from left to right, and the first fault decides: `Short` names the number or the string's
/// bytes that are not whole, `BadField` place 0 where the first word is another one, `NotAValue` and `BadPad` what
/// no value of the shapes goes on with, and `Excess` the first byte behind the state.
pub fn restore(alloc: Global, bytes: &[u8], shapes: &Shapes) -> Result<(State, u32), TransferFault>
    // A state that is restored is one that the bytes spell, and a fault is the first one.
    ensures restored { are_proper (fields_of shapes.now) ≡ true
        → IsRestored shapes.now bytes.now result }

    // Which answer it is.
    ensures exact { Restores bytes.now result
        (fields_reading (snapshot_fields shapes.now) 0 bytes.now) }
{
    let (number, at) = read_word(&bytes, 0)?;
    if number != SNAPSHOT {
        return Err(TransferFault::BadField(0));
    }
    let (count, at) = read_long(&bytes, at)?;
    let (state, end) = read_values(alloc, &bytes, at, shapes)?;
    if end < bytes.len() {
        return Err(TransferFault::Excess(end as u64));
    }
    Ok((state, count))
}
