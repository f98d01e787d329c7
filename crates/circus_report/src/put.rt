// What is written.
ghost use Rattle.std.specs.Prelude.{◌≡◌, ◌<◌, ◌≤◌, length, OnOk, OnErr, IsErrOf};
ghost use Rattle.circus_outside.specs.Faults.{Rose};
ghost use Rattle.circus_report.specs.Writing.{Writes, WritesPart};

use circus_outside::{Sink, SinkFault};
use memchr::memchr;

/// Why not all was written.
#[derive(Clone, Copy, Debug)]
pub enum PutFault {
    Sink,
    Memory,
}

/// Offers a line to the sink, and its rest again until all is taken.
#[inline(always)]
pub fn put_line<K: Sink>(sink: &mut K, line: &[u8]) -> Result<(), PutFault>
    ensures written { OnOk result (Writes (K.written sink.old) (K.written sink.new) line.now) }
    ensures part { OnErr result (WritesPart (K.written sink.old) (K.written sink.new) line.now) }
    ensures rose { IsErrOf result PutFault.Sink → Rose (K.faults sink.old) (K.faults sink.new) }
    ensures count { OnOk result (K.faults sink.new ≡ K.faults sink.old) }
{
    let mut at = 0;
    while at < line.len() {
        match sink.put(&line[at..]) {
            Ok(count) => at += count,
            Err(SinkFault::NoMemory) => return Err(PutFault::Memory),
            Err(SinkFault::Failed) => return Err(PutFault::Sink),
        }
    }
    Ok(())
}

/// Writes a text line by line.
pub fn put_lines<K: Sink>(sink: &mut K, text: &[u8]) -> Result<(), PutFault>
    ensures written { OnOk result (Writes (K.written sink.old) (K.written sink.new) text.now) }
    ensures part { OnErr result (WritesPart (K.written sink.old) (K.written sink.new) text.now) }
    ensures rose { IsErrOf result PutFault.Sink → Rose (K.faults sink.old) (K.faults sink.new) }
    ensures count { OnOk result (K.faults sink.new ≡ K.faults sink.old) }
{
    let mut at = 0;
    while at < text.len() {
        let end = line_end(text, at);
        match put_line(sink, &text[at..end]) {
            Ok(()) => at = end,
            Err(stop) => return Err(stop),
        }
    }
    Ok(())
}

// Where the line that begins at a place ends, behind its newline.
fn line_end(text: &[u8], at: usize) -> usize
    requires { at < length text.now }
    ensures further { at < result }
    ensures within { result ≤ length text.now }
{
    match memchr(b'\n', &text[at..]) {
        Some(length) => at + length + 1,
        None => text.len(),
    }
}
