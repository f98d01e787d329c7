// Whether a record can go on behind its lines, which tells the first line behind which none can.
ghost use Rattle.std.specs.Prelude.{◌≡◌, ◌≤◌, ◌^◌, length, map, option_copied, IfOk};
ghost use Rattle.circus_record.specs.Naming.{host_name};
ghost use Rattle.circus_audit.specs.Seen.Outlook as outlook;

use crate::differences::{ReplyReader, ask_named};
use crate::noted::{Differing, Happened, Kind};
use crate::performed::{Current, Performed};
use crate::performing::place_behind;
use crate::setting::Hosted;
use crate::stage::Stage;
use crate::values::imported_procedure;
use circus_model::{Import, Imports, Signature};
use circus_record::{AskRecord, MemberRecord, RunRecord};
use circus_value::{Duplicate, ListOf, NoMemory};
use circus_value_text::Unread;
use std::alloc::{AllocError, Global};

/// Which ask of which run.
#[derive(Clone, Copy)]
struct AskPlace {
    run: u32,
    ask: usize,
}

/// A procedure of an imported module.
#[derive(Clone, Copy)]
struct Callee {
    module: u16,
    procedure: u16,
}

/// The lines of replies so far, which name asks, and the first line behind which no record goes on.
#[derive(Drop)]
pub(crate) struct Outlook {
    expected: ListOf<Differing>,
    lost: Option<u32>,
}

// A copy of what a line of replies says.
fn copy_of(differing: &Differing) -> Result<Differing, NoMemory>
    ensures { IfOk result (λ copy. copy ≡ differing.now) }
{
    Ok(Differing {
        run: differing.run,
        ask: differing.ask,
        replies: differing.replies.copy()?,
    })
}

fn can_run(signature: &Signature) -> bool
    ensures { result ≡ outlook.can_run signature.now }
{
    1 <= signature.procedures.len()
}

fn has_procedures(import: &Import) -> bool
    ensures { result ≡ outlook.has_procedures import.now }
{
    1 <= import.procedures.len()
}

fn can_ask(imports: &[Import]) -> bool
    ensures { result ≡ outlook.any_asks imports.now }
{
    for import in imports {
        if has_procedures(import) {
            return true;
        }
    }
    false
}

// The run at a place can end, by the count.
fn may_end(performed: &Performed, place: u32) -> bool
    ensures { result ≡ outlook.may_end performed.now place }
{
    place < performed.count || performed.count == u32::MAX
}

// A run at a place can stand there: it ends, or it waits.
fn may_run(performed: &Performed, place: u32, signature: &Signature) -> bool
    ensures { result ≡ outlook.may_run performed.now place signature.now }
{
    let waits = place == performed.count && can_ask(signature.imports.as_slice());
    can_run(signature) && (may_end(performed, place) || waits)
}

// A line of replies names this ask.
fn names(each: &Differing, place: AskPlace) -> bool
    ensures { result ≡ outlook.names place.run place.ask each.now }
{
    each.run == place.run && each.ask as usize == place.ask
}

// All name a run from this one on, up to that.
fn all_within(expected: &[Differing], from: u32, last: u32) -> bool
    ensures { result ≡ outlook.all_within from last expected.now }
{
    for each in expected {
        if each.run < from || last < each.run {
            return false;
        }
    }
    true
}

// Those that name a run name one of its first asks, so many.
fn all_asked(expected: &[Differing], run: u32, asks: usize) -> bool
    ensures { result ≡ outlook.all_asked run asks expected.now }
{
    for each in expected {
        if each.run == run && asks <= each.ask as usize {
            return false;
        }
    }
    true
}

// All name an ask of a member.
fn all_named(expected: &[Differing], kept: &MemberRecord) -> bool
    ensures { result ≡ outlook.all_named kept.now expected.now }
{
    for each in expected {
        if ask_named(kept, each.run, each.ask).is_none() {
            return false;
        }
    }
    true
}

// A member with these counts may have the runs that are expected.
fn suits(signature: &Signature, expected: &[Differing], performed: &Performed) -> bool
    ensures { result ≡ outlook.suits signature.now expected.now performed.now }
{
    performed.from <= performed.count
        && (performed.from == performed.count || can_run(signature))
        && all_within(expected, performed.from, performed.count)
}

// The last run has ended, and its asks are read.
fn has_ended_well(expected: &[Differing], performed: &Performed, run: &RunRecord) -> bool
    ensures { result ≡ outlook.ended_well expected.now performed.now run.now }
{
    match place_behind(performed.from, performed.runs.len().saturating_sub(1)) {
        Some(place) => { may_end(performed, place) && all_asked(expected, place, run.asks.len()) }
        None => true,
    }
}

// A member that performs no run may rest so.
fn rests_well(signature: &Signature, expected: &[Differing], performed: &Performed) -> bool
    ensures { result ≡ outlook.rests_well signature.now expected.now performed.now }
{
    match performed.runs.get(performed.runs.len().saturating_sub(1)) {
        Some(run) => has_ended_well(expected, performed, run),
        None => suits(signature, expected, performed),
    }
}

// Runs can be entered, or none has to be.
fn may_enter(hosted: &Hosted, performed: &Performed) -> bool
    ensures { result ≡ outlook.may_enter hosted.now performed.now }
{
    hosted.rooted || performed.from == performed.count
}

// The line of replies that was read last.
fn newest(happened: &Happened) -> Option<&Differing>
    ensures { option_copied result ≡ outlook.newest_by happened.now.kind happened.now.last }
{
    let (Kind::Differences, Some(noted)) = (happened.kind, &happened.last) else {
        return None;
    };
    noted.differing.get(noted.differing.len().saturating_sub(1))
}

impl ReplyReader<'_> {
    // A procedure of an import may answer as a line says.
    fn may_answer(
        &self,
        imports: &Imports,
        callee: Callee,
        each: &Differing,
    ) -> Result<bool, NoMemory>
        requires { length self.now.nodes.now ≤ 2 ^ 16 }
        ensures { IfOk result (λ so. so
            ≡ outlook.may_answer (map host_name self.now.nodes.now) self.now.modules self.now.own
            imports.now callee.module callee.procedure each.now) }
    {
        let Some(procedure) = imported_procedure(imports, callee.module, callee.procedure) else {
            return Ok(false);
        };
        match self.read_replies(each, procedure) {
            Ok(_) => Ok(true),
            Err(Unread::Unlike) => Ok(false),
            Err(Unread::NoMemory) => Err(AllocError),
        }
    }

    // Where a line names an ask.
    fn answers_if(
        &self,
        imports: &Imports,
        place: AskPlace,
        callee: Callee,
        each: &Differing,
    ) -> Result<bool, NoMemory>
        requires { length self.now.nodes.now ≤ 2 ^ 16 }
        ensures { IfOk result (λ so. so
            ≡ outlook.answers_if (map host_name self.now.nodes.now) self.now.modules self.now.own
            imports.now place.run place.ask callee.module callee.procedure each.now) }
    {
        if names(each, place) {
            self.may_answer(imports, callee, each)
        } else {
            Ok(true)
        }
    }

    // All lines that name it.
    fn all_answer(
        &self,
        imports: &Imports,
        expected: &[Differing],
        place: AskPlace,
        callee: Callee,
    ) -> Result<bool, NoMemory>
        requires { length self.now.nodes.now ≤ 2 ^ 16 }
        ensures { IfOk result (λ so. so
            ≡ outlook.all_answer (map host_name self.now.nodes.now) self.now.modules self.now.own
            imports.now expected.now place.run place.ask callee.module callee.procedure) }
    {
        for each in expected {
            let so = self.answers_if(imports, place, callee, each)?;
            if !so {
                return Ok(false);
            }
        }
        Ok(true)
    }

    // By some procedure of an import.
    fn some_procedure(
        &self,
        imports: &Imports,
        expected: &[Differing],
        place: AskPlace,
        import: &Import,
    ) -> Result<bool, NoMemory>
        requires { length self.now.nodes.now ≤ 2 ^ 16 }
        ensures { IfOk result (λ so. so
            ≡ outlook.some_procedure (map host_name self.now.nodes.now) self.now.modules
            self.now.own imports.now expected.now place.run place.ask import.now) }
    {
        for procedure in import.procedures.as_slice() {
            let callee = Callee {
                module: import.module,
                procedure: procedure.number,
            };
            let so = self.all_answer(imports, expected, place, callee)?;
            if so {
                return Ok(true);
            }
        }
        Ok(false)
    }

    // By some procedure of some import.
    fn some_import(
        &self,
        imports: &Imports,
        expected: &[Differing],
        place: AskPlace,
    ) -> Result<bool, NoMemory>
        requires { length self.now.nodes.now ≤ 2 ^ 16 }
        ensures { IfOk result (λ so. so
            ≡ outlook.some_import (map host_name self.now.nodes.now) self.now.modules
            self.now.own imports.now expected.now place.run place.ask) }
    {
        for import in imports.as_slice() {
            let so = self.some_procedure(imports, expected, place, import)?;
            if so {
                return Ok(true);
            }
        }
        Ok(false)
    }

    // An ask that a line names can come, and be answered as the lines say.
    fn can_come(
        &self,
        signature: &Signature,
        expected: &[Differing],
        each: &Differing,
    ) -> Result<bool, NoMemory>
        requires { length self.now.nodes.now ≤ 2 ^ 16 }
        ensures { IfOk result (λ so. so
            ≡ outlook.can_come (map host_name self.now.nodes.now) self.now.modules self.now.own
            signature.now expected.now each.now) }
    {
        if !can_run(signature) {
            return Ok(false);
        }
        let place = AskPlace {
            run: each.run,
            ask: each.ask as usize,
        };
        self.some_import(&signature.imports, expected, place)
    }

    // A member may perform so.
    fn performs(
        &self,
        signature: &Signature,
        expected: &[Differing],
        performed: &Performed,
    ) -> Result<bool, NoMemory>
        requires { length self.now.nodes.now ≤ 2 ^ 16 }
        ensures { IfOk result (λ so. so
            ≡ outlook.performs (map host_name self.now.nodes.now) self.now.modules self.now.own
            signature.now expected.now performed.now) }
    {
        let Some(run) = place_behind(performed.from, performed.runs.len()) else {
            return Ok(rests_well(signature, expected, performed));
        };
        match &performed.current {
            Current::Nothing => Ok(rests_well(signature, expected, performed)),
            Current::Run(_) => Ok(may_run(performed, run, signature)),
            Current::Ask(begun, ask) => {
                let place = AskPlace {
                    run,
                    ask: begun.asks.len(),
                };
                self.all_answer(&signature.imports, expected, place, callee_of(ask))
            }
        }
    }

    // A record goes on from a stage.
    fn goes_on(
        &self,
        hosted: &Option<Hosted>,
        expected: &[Differing],
        stage: &Stage,
    ) -> Result<bool, NoMemory>
        requires { length self.now.nodes.now ≤ 2 ^ 16 }
        ensures { IfOk result (λ so. so
            ≡ outlook.goes_on (map host_name self.now.nodes.now) self.now.modules self.now.own
            hosted.now expected.now stage.now) }
    {
        match stage {
            Stage::Events(happened) => match (newest(happened), hosted) {
                (None, _) => Ok(true),
                (Some(each), Some(hosted)) if hosted.rooted => {
                    self.can_come(&hosted.signature, expected, each)
                }
                (Some(_), _) => Ok(false),
            },
            Stage::Runs(_, performed) => match hosted {
                Some(hosted) if may_enter(hosted, performed) => {
                    self.performs(&hosted.signature, expected, performed)
                }
                Some(_) => Ok(false),
                None => Ok(true),
            },
            Stage::Watching(_, _) => Ok(true),
            Stage::Done(_, Some(kept), _) => Ok(all_named(expected, kept)),
            Stage::Done(_, None, _) => Ok(true),
        }
    }
}

// The procedure that an ask goes to.
fn callee_of(ask: &AskRecord) -> Callee
    ensures { (result.module ≡ ask.now.callee) × (result.procedure ≡ ask.now.procedure) }
{
    Callee {
        module: ask.callee,
        procedure: ask.procedure,
    }
}

impl Outlook {
    /// That of a record of which the first line is read.
    pub fn new(alloc: Global) -> Self
        ensures { result ≡ outlook.nothing_expected }
    {
        Outlook {
            expected: ListOf::new(alloc),
            lost: None,
        }
    }

    /// The first bad line of a record in which the line of a number isn't read.
    pub fn bad_line(&self, line: u32) -> u32
        ensures { result ≡ outlook.line_lost line self.now.lost }
    {
        match self.lost {
            Some(lost) => lost,
            None => line,
        }
    }

    /// Follows a record, which has come to a stage by the line of a number.
    pub fn follow(
        self,
        reader: ReplyReader<'_>,
        hosted: &Option<Hosted>,
        stage: &Stage,
        line: u32,
    ) -> Result<Self, NoMemory>
        requires { length reader.nodes.now ≤ 2 ^ 16 }
        ensures { IfOk result (λ on. on
            ≡ outlook.follow_line (map host_name reader.entry.nodes.now)
            reader.entry.modules reader.entry.own hosted.now stage.now line self) }
    {
        if self.lost.is_some() {
            return Ok(self);
        }
        let Outlook {
            mut expected,
            lost: _,
        } = self;
        if let Stage::Events(happened) = stage {
            if let Some(each) = newest(happened) {
                expected.push(copy_of(each)?)?;
            }
        }
        let on = reader.goes_on(hosted, expected.as_slice(), stage)?;
        let lost = if on { None } else { Some(line) };
        Ok(Outlook { expected, lost })
    }
}
