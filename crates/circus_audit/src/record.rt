// Records, read line by line.
ghost use Rattle.std.specs.Prelude.{◌≡◌, ◌<◌, ◌≤◌, ◌^◌, length, map, position, ◌==◌, IfOk};
ghost use Rattle.std.specs.List.{AllByRecursion};
ghost use Rattle.circus_text.specs.Form.{IsWord};
ghost use Rattle.circus_check.specs.Meaning.{ModuleMeant};
ghost use Rattle.circus_check.specs.Resolved.{module_as};
ghost use Rattle.circus_config.specs.Program.{IsPlan};
ghost use Rattle.circus_audit.specs.BadLine.{IsBadIn};
ghost use Rattle.circus_audit.specs.RecordText.{IsRecordText};
ghost use Rattle.circus_audit.specs.Seen.Reading as reading;
ghost use Rattle.circus_audit.specs.Seen.Outlook as looking;
ghost use Rattle.circus_audit.specs.Seen.Read.{IsRead, IsLine};
ghost use Rattle.circus_audit.specs.Answer.{record_answer, IsAnswer};

use crate::differences::ReplyReader;
use crate::noted::{Happened, Kind, Notes};
use crate::outlook::Outlook;
use crate::signature::hosted_by;
use crate::stage::Stage;
use crate::staging::{Reader, read_own};
use crate::words::rest_at;
use crate::{Given, RecordFault};
use circus_config::Plan;
use circus_value_text::Unread;
use std::alloc::Global;

const NEWLINE: u8 = b'\n';

// Where the first line of a text ends.
fn line_end(text: &[u8]) -> Option<usize>
    ensures { result ≡ position (λ b. b == 10) text.now }
{
    text.iter().position(|byte| *byte == NEWLINE)
}

// Why the line of a number isn't read.
fn fault_at(line: u32, unread: Unread) -> RecordFault
    ensures { result ≡ reading.fault_at line unread }
{
    match unread {
        Unread::Unlike => RecordFault::BadLine(line),
        Unread::NoMemory => RecordFault::NoMemory,
    }
}

// What the lines behind the first one say.
#[tactic(auto, using(crate::proofs::Staged::rest_bad, crate::proofs::Staged::rest_over, crate::proofs::Staged::rest_end))]
fn read_rest(reader: Reader<'_>, text: &[u8]) -> Result<Given, RecordFault>
    requires short { length text.now < 4294967294 }
    requires nodes { length reader.plan.now.deployment.nodes ≤ 2 ^ 16 }
    requires modules { length reader.plan.now.names ≤ 2 ^ 16 }
    ensures read { IsRead result
        (reading.rest_read reader.entry.plan.now reader.entry.own reader.entry.hosted.now
        reading.beginning text.now) }
    ensures bad { IsLine result
        (looking.bad_behind reader.entry.plan.now reader.entry.own reader.entry.hosted.now text.now
        2 looking.nothing_expected reading.beginning) }
{
    let replies = ReplyReader {
        alloc: reader.alloc,
        nodes: reader.plan.deployment.nodes.as_slice(),
        modules: reader.plan.names.len(),
        own: reader.own,
    };
    let mut outlook = Outlook::new(reader.alloc);
    let mut stage = Stage::Events(Happened {
        earlier: Notes::new(reader.alloc),
        last: None,
        kind: Kind::Foreign,
    });
    let mut line: u32 = 2;
    let mut rest = text;
    while let Some(end) = line_end(rest) {
        stage = match reader.read_line(stage, &rest[..end]) {
            Ok(next) => next,
            Err(unread) => return Err(fault_at(outlook.bad_line(line), unread)),
        };
        outlook = outlook.follow(replies, reader.hosted, &stage, line)?;
        line += 1;
        rest = rest_at(rest, end + 1);
    }
    if !rest.is_empty() {
        return Err(RecordFault::BadLine(outlook.bad_line(line)));
    }
    match reader.finish(stage) {
        Ok(given) => Ok(given),
        Err(unread) => Err(fault_at(outlook.bad_line(line), unread)),
    }
}

// What a text says as the record of a node of a program, by its lines.
#[tactic(auto, using(crate::proofs::Staged::record_bad))]
fn read_lines(alloc: Global, bytes: &[u8], plan: &Plan) -> Result<Given, RecordFault>
    requires short { length bytes.now < 4294967295 }
    requires nodes { length plan.now.deployment.nodes ≤ 2 ^ 16 }
    requires modules { length plan.now.names ≤ 2 ^ 16 }
    ensures read { IsRead result (reading.record_read plan.now bytes.now) }
    ensures bad { IsLine result (looking.bad_line plan.now bytes.now) }
{
    let Some(end) = line_end(bytes) else {
        return Err(RecordFault::BadLine(1));
    };
    let own = match read_own(plan, &bytes[..end]) {
        Ok(own) => own,
        Err(unread) => return Err(fault_at(1, unread)),
    };
    let hosted = hosted_by(alloc, plan, own)?;
    let reader = Reader {
        alloc,
        plan,
        own,
        hosted: &hosted,
    };
    read_rest(reader, rest_at(bytes, end + 1))
}

/// What a text says as the record of a node of a program (docs/FORMATS.md, "Node record").
///
/// Else `BadLine` with the first line that no record of a node of the program goes on with, counted from 1. The end of a
/// text counts as a line, and so do the bytes behind the last newline, with which no record goes on. `NoMemory` can come
/// at any line. It takes time in proportion to the bytes, and to the lines times those of replies that differ.
pub fn read_record(alloc: Global, bytes: &[u8], plan: &Plan) -> Result<Given, RecordFault>
    requires short { length bytes.now < 4294967295 }
    requires plan { IsPlan plan.now }
    requires names { plan.now.names
        ≡ map (λ (m : ModuleMeant). m.name) (map module_as plan.now.checked.modules) }
    requires words { AllByRecursion IsWord plan.now.names }
    ensures given { IfOk result (λ given. IsRecordText plan.now given bytes.now) }
    ensures bad { IsBadIn plan.now bytes.now result }
    ensures answer { IsAnswer result (record_answer plan.now bytes.now) }
{
    read_lines(alloc, bytes, plan)
}
