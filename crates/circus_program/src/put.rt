// What is written at the end.
ghost use Rattle.circus_program.specs.Seen.Put.{IsPut, IsPutIfEnd};

use circus_commands::{Ending, Status};
use circus_outside::Sink;
use circus_report::{PutFault, put_lines};
use circus_value::NoMemory;

/// Puts the text of an end, if memory sufficed for it, and answers its status where all of it was taken.
pub fn put_end<K: Sink>(ending: Result<Ending, NoMemory>, sink: &mut K) -> Status
    ensures { IsPutIfEnd ending (K.written sink.old) (K.written sink.new) (K.faults sink.old)
        (K.faults sink.new) result }
{
    match ending {
        Ok(ending) => put(sink, ending.status, ending.text.as_slice()),
        Err(_) => Status::NoMemory,
    }
}

// Puts a text, and answers this status where all of it was taken.
fn put<K: Sink>(sink: &mut K, status: Status, text: &[u8]) -> Status
    ensures { IsPut status text.now (K.written sink.old) (K.written sink.new) (K.faults sink.old)
        (K.faults sink.new) result }
{
    match put_lines(sink, text) {
        Ok(()) => status,
        Err(PutFault::Sink) => Status::SinkFault,
        Err(PutFault::Memory) => Status::NoMemory,
    }
}
