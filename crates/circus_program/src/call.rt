// The top call.
ghost use Rattle.std.specs.Prelude.{◌≡◌, ◌⊎◌, map, string_bytes, IfOk, IsTrue};
ghost use Rattle.circus_outside.specs.Faults.{Rose};
ghost use Rattle.circus_outside.specs.Sink.{HasGivenOn};
ghost use Rattle.circus_commands.specs.Status.{is_end};
ghost use Rattle.circus_commands.specs.Seen.Ending.{ending_of};
ghost use Rattle.circus_serve.specs.Outside.{tells_of};
ghost use Rattle.circus_program.specs.Answer.{AsksForNode, AsksOnly, shelf_fault};
ghost use Rattle.circus_program.specs.Answered.{IsAnswered, IsBrokenOff};
ghost use Rattle.circus_program.specs.Seen.Known.{ShortLinesOf};
ghost use Rattle.circus_program.specs.Seen.Put.{IsAnswer, IsFinished};
ghost use Rattle.circus_program.specs.Seen.Step.{IsPutStep, IsServing, Stands};

use crate::answer::{Step, follow};
use crate::history::put_history;
use crate::put::put_end;
use crate::replay::replay;
use circus_commands::{Ending, Status};
use circus_node_command::serve_node;
use circus_outside::{Link, Shelf, Sink, SinkFault};
use circus_value::NoMemory;
use std::alloc::Global;

/// Does what the words ask for: fetches files from the shelf, writes to the sink line by line, and answers the status
/// (docs/GUIDE.md, "Statuses"). The link is used by `node` alone. The report of a replay is written as its lines are
/// stepped, its picture once all are, and the history of a program ask by ask once it is performed.
///
/// - 0: the stubs or the history of a program, the report of a replay or its picture, the record of a node, the summary of a
///   sample, its lines, what a program has settled to, the best choice of a placing, or that a record is a true one is written.
/// - 1: exactly where the words are of no form.
/// - 2: exactly where the file of another form than `place` is no program, whose line and cause are written, or `node` names
///   no node of it.
/// - 3: exactly where a line of the schedule is refused, which the last line written names; in `replay` behind the lines of
///   what was sent before, where it may not be stepped.
/// - 4: only where the shelf's count of faults rose; the name fetched last is written.
/// - 5: only where the sink's count of faults rose; what was written is a part of the text.
/// - 6: only where the link's count of faults rose, in `node`.
/// - 7: where there is no memory; what was written is a part of the text.
/// - 8: exactly where a node has no number left for a call to another one; the two are written, in a replay behind the lines
///   of what was sent before.
/// - 10: exactly where `settle` made all deliveries and datagrams are left; how many deliveries, and how many datagrams were
///   sent, are written.
/// - 11: exactly where the text of a placing is refused, whose line and cause are written.
/// - 12: exactly where no choice of machines satisfies a placing.
/// - 13: exactly where a record has a line with which no record of the program goes on, is no run of its node, or doesn't stand;
///   the number of the line, the name of the node, or the number of the run is written.
///
/// At each status but 5 and 7 the sink has given on all that it took.
///
/// The copies of a simulated program agree: what is written of records with status 0 is told of such in which each active member
/// performed exactly the next runs of its module in the history that `run` writes. With status 3 or 8 at a line it is the
/// datagrams in such a report, that of the lines before, and one line more. A replay under what `lines` writes is accepted, and
/// reports the members that `sample` counts for the same words.
pub fn circus<S: Shelf, K: Sink, L: Link>(
    alloc: Global,
    words: &[String],
    shelf: &mut S,
    sink: &mut K,
    link: &mut L,
) -> u8
    ensures answered { IsAnswered (record {
      words = map string_bytes words.now;
      contents = S.contents shelf.old;
      fetched = record { before = S.fetched shelf.old; after = S.fetched shelf.new };
      written = record { before = K.written sink.old; after = K.written sink.new };
      gathered = K.gathered sink.new;
      carried = record {
        before = tells_of (L.bound link.old) (L.taken link.old) (L.given link.old);
        after = tells_of (L.bound link.new) (L.taken link.new) (L.given link.new);
      };
      shelf_faults = record { before = S.faults shelf.old; after = S.faults shelf.new };
      sink_faults = record { before = K.faults sink.old; after = K.faults sink.new };
      link_faults = record { before = L.faults link.old; after = L.faults link.new };
    }) result }
    ensures link { (AsksForNode (map string_bytes words.now) → ⊥) → link.new ≡ link.old }
{
    let status = answer(alloc, words, shelf, sink, link);
    status.code()
}

// Does what the words ask for.
fn answer<S: Shelf, K: Sink, L: Link>(
    alloc: Global,
    words: &[String],
    shelf: &mut S,
    sink: &mut K,
    link: &mut L,
) -> Status
    ensures asked { AsksOnly (S.fetched shelf.old) (S.fetched shelf.new)
        (map string_bytes words.now) }
    ensures link { (AsksForNode (map string_bytes words.now) → ⊥) → link.new ≡ link.old }
    ensures answer { IsAnswer (S.contents shelf.old) (map string_bytes words.now)
        (S.fetched shelf.new) (Rose (S.faults shelf.old) (S.faults shelf.new))
        (tells_of (L.bound link.old) (L.taken link.old) (L.given link.old))
        (tells_of (L.bound link.new) (L.taken link.new) (L.given link.new))
        (Rose (L.faults link.old) (L.faults link.new))
        (K.written sink.old) (K.written sink.new)
        (Rose (K.faults sink.old) (K.faults sink.new)) result }
    ensures known { IsTrue (is_end result)
        → ShortLinesOf (S.contents shelf.old) (map string_bytes words.now) }
    ensures given_on { (IsBrokenOff result → ⊥) → HasGivenOn (K.gathered sink.new) }
{
    let step = match follow(alloc, words, shelf) {
        Ok(step) => step,
        Err(_) => return Status::NoMemory,
    };
    let status = write(alloc, step, sink, link);
    finish(sink, status)
}

// Writes what a step comes to, and answers its status where all of it was taken.
fn write<K: Sink, L: Link>(alloc: Global, step: Step<'_>, sink: &mut K, link: &mut L) -> Status
    requires { Stands step }
    ensures put { IsPutStep
        (tells_of (L.bound link.old) (L.taken link.old) (L.given link.old))
        (tells_of (L.bound link.new) (L.taken link.new) (L.given link.new))
        step.entry (K.written sink.old) (K.written sink.new)
        (K.faults sink.old) (K.faults sink.new) result }
    ensures rose { result ≡ Status.LinkFault → IsServing step.entry
        → Rose (L.faults link.old) (L.faults link.new) }
    ensures link { (IsServing step.entry → ⊥) → link.new ≡ link.old }
{
    match step {
        Step::Finish(ending) => put_end(Ok(ending), sink),
        Step::History(performance) => put_history(alloc, performance, sink),
        Step::Replay(ready) => replay(alloc, ready, sink),
        Step::Lack(name) => put_end(lack(alloc, name), sink),
        Step::Serve(plan, node, turns) => {
            put_end(serve_node(alloc, plan, node, turns, link), sink)
        }
    }
}

// The status of a call whose last line is put, once the sink has given on what it gathered.
fn finish<K: Sink>(sink: &mut K, status: Status) -> Status
    ensures written { K.written sink.new ≡ K.written sink.old }
    ensures stopped { (status ≡ Status.SinkFault) ⊎ (status ≡ Status.NoMemory)
        → (result ≡ status) × (K.faults sink.new ≡ K.faults sink.old) }
    ensures status { IsFinished status (Rose (K.faults sink.old) (K.faults sink.new)) result }
    ensures given_on { (IsBrokenOff result → ⊥) → HasGivenOn (K.gathered sink.new) }
{
    if matches!(status, Status::SinkFault | Status::NoMemory) {
        return status;
    }
    match sink.finish() {
        Ok(()) => status,
        Err(SinkFault::Failed) => Status::SinkFault,
        Err(SinkFault::NoMemory) => Status::NoMemory,
    }
}

// The line of a file that the shelf doesn't give.
fn lack(alloc: Global, name: &str) -> Result<Ending, NoMemory>
    ensures { IfOk result (λ ending. ending_of ending
        ≡ record { status = Status.ShelfFault; text = shelf_fault name.now }) }
{
    let text = format!(in alloc; "shelf fault: {name}\n")?;
    Ok(Ending::of(Status::ShelfFault, text))
}
