// The lines of a member (docs/FORMATS.md, "Report").
ghost use Rattle.std.specs.Prelude.{◌≡◌, ◌++◌, ℕ, Some, All, IsAscii, IfOk, OnOk, codes, slice_get, string_bytes};
ghost use Rattle.std.specs.Fmt.{decimal};
ghost use Rattle.circus_collate.specs.declared.deployment.Host.{Host};
ghost use Rattle.circus_record.specs.Line.{line};
ghost use Rattle.circus_record.specs.Naming.{host_name, names_of};
ghost use Rattle.circus_record.specs.MemberText.{IsHosted, status_text, answered_line, ask_lines, asks_lines, ended_line, run_lines, runs_lines, waiting_text, now_text, now_line, phase_lines, member_lines};

use crate::append::{append_number, append_values};
use crate::line::{AskLine, EndLine, ReplyLine, RunLine};
use crate::naming::{Naming, ProgramNames};
use crate::record::{AskRecord, MemberRecord, RunRecord};
use circus_collate::Deployment;
use circus_transfer::Joiner;
use circus_value::{ListOf, Name, NoMemory, Octets};
use std::alloc::Global;

/// A member, as lines: what it is, its runs with their asks, and what it does now.
#[derive(Drop)]
pub struct MemberText<'a, N> {
    pub names: &'a N,
    pub node: u16,
    pub troupe: u16,
    /// The step in which its node crashed.
    pub crashed: Option<u64>,
    pub kept: &'a MemberRecord,
}

impl<N: Naming> MemberText<'_, N> {
    /// Adds the lines to a text. `NoMemory` is the one fault.
    pub fn append_to(&self, text: &mut String) -> Result<(), NoMemory>
        ensures { OnOk result (string_bytes text.new ≡ string_bytes text.old
            ++ member_lines (N.names self.now.names.now) self.now.node self.now.troupe
            self.now.crashed self.now.kept.now) }
    {
        text.push_str("member ")?;
        text.push_str(self.names.node(usize::from(self.node)))?;
        text.push_str(" ")?;
        text.push_str(self.names.troupe(usize::from(self.troupe)))?;
        append_status(text, self.crashed)?;
        append_phase(text, self.names, self.kept)
    }
}

/// The lines of the member that a node hosts, by the names of the modules in module order and the step in which the
/// node crashed (docs/FORMATS.md, "Report"). `NoMemory` is the one fault.
pub fn show_member(
    alloc: Global,
    deployment: &Deployment,
    names: &ListOf<Name>,
    node: u16,
    crashed: Option<u64>,
    kept: &MemberRecord,
) -> Result<Octets, NoMemory>
    requires nodes { All (λ h. IsAscii (host_name h)) deployment.now.nodes }
    requires modules { All IsAscii names.now }
    requires hosted { IsHosted deployment.now node }
    ensures { (host : Host) (troupe : ℕ) → slice_get deployment.now.nodes node ≡ Some host
        → host.module ≡ Some troupe
        → IfOk result (λ text.
        text ≡ member_lines
        (names_of deployment.now.nodes names.now) node troupe crashed kept.now) }
{
    let nodes = deployment.nodes.as_slice();
    let Some(troupe) = nodes[usize::from(node)].module else {
        unreachable!()
    };
    let member = MemberText {
        names: &ProgramNames::new(nodes, names.as_slice()),
        node,
        troupe,
        crashed,
        kept,
    };
    let mut text = String::new(alloc);
    member.append_to(&mut text)?;
    Ok(ListOf::of(text.into_bytes()))
}

// Adds whether the node is live, or the step of its crash.
fn append_status(text: &mut String, crashed: Option<u64>) -> Result<(), NoMemory>
    ensures { OnOk result (string_bytes text.new
        ≡ string_bytes text.old ++ (codes " " ++ status_text crashed)) }
{
    match crashed {
        Some(step) => append_number(text, " crashed ", step),
        None => text.push_str(" live"),
    }
}

// Adds what stands behind a member's name and status, by its phase.
fn append_phase<N: Naming>(
    text: &mut String,
    names: &N,
    kept: &MemberRecord,
) -> Result<(), NoMemory>
    ensures { OnOk result (string_bytes text.new
        ≡ string_bytes text.old ++ phase_lines (N.names names.now) kept.now.phase kept.now) }
{
    match kept.phase {
        Joiner::Outside => text.push_str(" outside\n"),
        Joiner::Asking => text.push_str(" asking\n"),
        Joiner::Fetching(_) => text.push_str(" fetching\n"),
        Joiner::Active(_) => {
            append_counts(text, kept)?;
            append_runs(text, names, kept.from, kept.runs.as_slice())?;
            append_now(text, kept)
        }
    }
}

// Adds the first index that a member performs, the step in which it became active, and the index that it performs next.
fn append_counts(text: &mut String, kept: &MemberRecord) -> Result<(), NoMemory>
    ensures { OnOk result (string_bytes text.new ≡ string_bytes text.old
        ++ line (codes " from " ++ decimal kept.now.from ++ codes " at "
        ++ decimal kept.now.active_at ++ codes " count " ++ decimal kept.now.count)) }
{
    append_number(text, " from ", kept.from)?;
    append_number(text, " at ", kept.active_at)?;
    append_number(text, " count ", kept.count)?;
    text.push_str("\n")
}

// Adds what a member does now.
fn append_now(text: &mut String, kept: &MemberRecord) -> Result<(), NoMemory>
    ensures { OnOk result
        (string_bytes text.new ≡ string_bytes text.old ++ now_line kept.now) }
{
    text.push_str("now ")?;
    append_last(text, kept.runs.as_slice())?;
    append_values(text, " state ", &kept.state)?;
    text.push_str("\n")
}

// Adds what the last of these runs waits for.
fn append_last(text: &mut String, runs: &[RunRecord]) -> Result<(), NoMemory>
    ensures { OnOk result
        (string_bytes text.new ≡ string_bytes text.old ++ now_text runs.now) }
{
    match runs.last() {
        Some(run) => append_waiting(text, run),
        None => text.push_str("idle"),
    }
}

// Adds what a run waits for, if it hasn't ended.
fn append_waiting(text: &mut String, run: &RunRecord) -> Result<(), NoMemory>
    ensures { OnOk result (string_bytes text.new
        ≡ string_bytes text.old ++ waiting_text run.now.outcome run.now.asks) }
{
    match run.outcome {
        Some(_) => text.push_str("idle"),
        None => append_number(text, "waiting ask ", run.asks.len().saturating_sub(1)),
    }
}

// Adds runs with their asks, the first of which has this place.
fn append_runs<N: Naming>(
    text: &mut String,
    names: &N,
    first: u32,
    runs: &[RunRecord],
) -> Result<(), NoMemory>
    ensures { OnOk result (string_bytes text.new
        ≡ string_bytes text.old ++ runs_lines (N.names names.now) first runs.now) }
{
    for (later, run) in runs.iter().enumerate() {
        let place = u128::from(first) + later as u128;
        append_run(text, names, place, run)?;
    }
    Ok(())
}

// Adds a run with its asks.
fn append_run<N: Naming>(
    text: &mut String,
    names: &N,
    place: u128,
    run: &RunRecord,
) -> Result<(), NoMemory>
    ensures { OnOk result (string_bytes text.new
        ≡ string_bytes text.old ++ run_lines (N.names names.now) place run.now) }
{
    let line = RunLine {
        place,
        step: Some(run.started),
        root: names.troupe(usize::from(run.root)),
        path: &run.path,
        procedure: run.procedure,
        entry: &run.entry,
        arguments: &run.arguments,
    };
    line.append_to(text)?;
    append_asks(text, names, run.asks.as_slice())?;
    append_ended(text, place, run)
}

// Adds the asks of a run with their replies.
fn append_asks<N: Naming>(text: &mut String, names: &N, asks: &[AskRecord]) -> Result<(), NoMemory>
    ensures { OnOk result (string_bytes text.new
        ≡ string_bytes text.old ++ asks_lines (N.names names.now) 0 asks.now) }
{
    for (number, ask) in asks.iter().enumerate() {
        append_ask(text, names, number, ask)?;
    }
    Ok(())
}

// Adds an ask with its reply.
fn append_ask<N: Naming>(
    text: &mut String,
    names: &N,
    number: usize,
    ask: &AskRecord,
) -> Result<(), NoMemory>
    ensures { OnOk result (string_bytes text.new
        ≡ string_bytes text.old ++ ask_lines (N.names names.now) number ask.now) }
{
    let line = AskLine {
        number,
        step: Some(ask.asked),
        callee: names.troupe(usize::from(ask.callee)),
        index: ask.index,
        procedure: ask.procedure,
        arguments: &ask.arguments,
        state: &ask.state,
    };
    line.append_to(text)?;
    append_answered(text, number, ask)
}

// Adds the reply to an ask that was answered.
fn append_answered(text: &mut String, number: usize, ask: &AskRecord) -> Result<(), NoMemory>
    ensures { OnOk result (string_bytes text.new ≡ string_bytes text.old
        ++ answered_line number ask.now.reply ask.now.after ask.now.answered) }
{
    let (Some(reply), Some(after)) = (&ask.reply, &ask.after) else {
        return Ok(());
    };
    let line = ReplyLine {
        number,
        step: ask.answered,
        after,
        reply,
    };
    line.append_to(text)
}

// Adds the end of a run that has ended.
fn append_ended(text: &mut String, place: u128, run: &RunRecord) -> Result<(), NoMemory>
    ensures { OnOk result (string_bytes text.new ≡ string_bytes text.old
        ++ ended_line place run.now.outcome run.now.state run.now.end run.now.ended) }
{
    let (Some(outcome), Some(state), Some(end)) = (&run.outcome, &run.state, &run.end) else {
        return Ok(());
    };
    let line = EndLine {
        place,
        step: run.ended,
        end,
        outcome,
        state,
    };
    line.append_to(text)
}
