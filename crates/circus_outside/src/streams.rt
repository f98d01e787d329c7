// Contents that a reader gives, and pieces that a writer takes.
ghost use Rattle.std.specs.Prelude.{◌≡◌, ◌<◌, ◌≤◌, Ok, length, take, IfOk, IfSome, OnErr};
ghost use Rattle.std.specs.Io.KnownBytes.{Appends, Keeps};
ghost use Rattle.circus_outside.specs.Limits.{longest_contents};

use crate::{ShelfFault, SinkFault};
use circus_value::Message;
use std::alloc::Global;
use std::io::{self, ErrorKind, Read, Write};

/// The longest contents that a shelf answers, in bytes.
pub const LONGEST_CONTENTS: usize = 16_777_216;

/// All bytes that a reader has left, at most 16,777,216. `Failed` where it has more or a read fails, and
/// `NoMemory` where there is none for them.
pub fn read_contents<R: Read + Drop>(alloc: Global, reader: R) -> Result<Message, ShelfFault>
    ensures whole { IfOk result (λ bytes. IfSome (R.remaining reader) (λ left. bytes ≡ left)) }
    ensures size { IfOk result (λ bytes. length bytes ≤ longest_contents) }
{
    let mut bytes = Vec::new(alloc);
    let one_more = LONGEST_CONTENTS as u64 + 1;
    match reader.take(one_more).read_to_end(&mut bytes) {
        Ok(_) if bytes.len() <= LONGEST_CONTENTS => Ok(Message::of(bytes)),
        Ok(_) => Err(ShelfFault::Failed),
        Err(error) => Err(fault_of(&error)),
    }
}

fn fault_of(error: &io::Error) -> ShelfFault {
    match error.kind() {
        ErrorKind::OutOfMemory => ShelfFault::NoMemory,
        _ => ShelfFault::Failed,
    }
}

/// Gives a writer a piece, of which it takes bytes from the front, and answers how many: at least 1 of a
/// piece that isn't empty. `Failed` where it takes none.
pub fn write_piece<W: Write>(writer: &mut W, piece: &[u8]) -> Result<usize, SinkFault>
    ensures part { IfOk result (λ n. n ≤ length piece.now) }
    ensures progress { IfOk result (λ n. 0 < length piece.now → 0 < n) }
    ensures empty { length piece.now ≡ 0 → result ≡ Ok 0 }
    ensures taken { IfOk result (λ n.
        Appends (W.contents writer.old) (W.contents writer.new) (take n piece.now)) }
    ensures refused { OnErr result (Keeps (W.contents writer.old) (W.contents writer.new)) }
{
    if piece.is_empty() {
        return Ok(0);
    }
    match writer.write(piece) {
        Ok(count) if count > 0 => Ok(count),
        _ => Err(SinkFault::Failed),
    }
}
