// What the audit of a node's record comes to.
ghost use Rattle.std.specs.Prelude.{◌≡◌, ◌≤◌, ℕ, List, [], All, IsAscii, IsTrue, IfOk, length};
ghost use Rattle.circus_record.specs.Naming.{host_name, names_of};
ghost use Rattle.circus_outside.specs.Limits.{longest_contents};
ghost use Rattle.circus_config.specs.Program.{IsPlan};
ghost use Rattle.circus_commands.specs.Status.{is_end};
ghost use Rattle.circus_commands.specs.Seen.Ending.{ending_of};
ghost use Rattle.circus_program.specs.Audit.{verdict_end, bad_line_end, IsEndOfAudit};
ghost use Rattle.circus_program.specs.Accepted.{HasModuleNames};

use circus_audit::{RecordFault, read_record};
use circus_collate::Hosts;
use circus_commands::{Ending, Status};
use circus_config::Plan;
use circus_record::{Naming, ProgramNames};
use circus_value::NoMemory;
use circus_verdict::{Verdict, audit};
use std::alloc::{AllocError, Global};

/// The end of the audit of a text as the record of a node of a program.
pub fn audit_record(alloc: Global, plan: Plan, text: &[u8]) -> Result<Ending, NoMemory>
    requires plan { IsPlan plan }
    requires named { HasModuleNames plan }
    requires short { length text.now ≤ longest_contents }
    ensures ending { IfOk result (λ ending. IsEndOfAudit plan text.now (ending_of ending)) }
    ensures status { IfOk result (λ ending. IsTrue (is_end ending.status)) }
{
    match read_record(alloc, text, &plan) {
        Ok(given) => {
            let no_run = no_run(alloc, &plan.deployment.nodes, given.node)?;
            let verdict = audit(alloc, &given, plan)?;
            end_of_verdict(alloc, verdict, no_run)
        }
        Err(RecordFault::BadLine(number)) => bad_line(alloc, number),
        Err(RecordFault::NoMemory) => Err(AllocError),
    }
}

// The end of a record of which this is said, which ends so where it is no run of its node.
fn end_of_verdict(alloc: Global, verdict: Verdict, no_run: Ending) -> Result<Ending, NoMemory>
    requires { no_run.status ≡ Status.BadRecord }
    ensures ending { (name : List ℕ) → ending_of no_run ≡ verdict_end name Verdict.NotARun
        → IfOk result (λ ending. ending_of ending ≡ verdict_end name verdict) }
    ensures status { IfOk result (λ ending. IsTrue (is_end ending.status)) }
{
    match verdict {
        Verdict::Yes => Ending::of_line(alloc, Status::Done, "circus audit 1\nyes\n"),
        Verdict::NotARun => Ok(no_run),
        Verdict::Run(wrong) => wrong_run(alloc, wrong),
    }
}

// The end of a record that is no run of its node.
fn no_run(alloc: Global, hosts: &Hosts, node: u16) -> Result<Ending, NoMemory>
    requires { All (λ h. IsAscii (host_name h)) hosts.now }
    ensures ending { IfOk result (λ ending.
        ending_of ending ≡ verdict_end ((names_of hosts.now []).node node) Verdict.NotARun) }
    ensures status { IfOk result (λ ending. ending.status ≡ Status.BadRecord) }
{
    let names = ProgramNames::new(hosts.as_slice(), &[]);
    let node = names.node(usize::from(node));
    let text = format!(in alloc; "not a run of {node}\n")?;
    Ok(Ending::of(Status::BadRecord, text))
}

// The end of a record whose run in this place is none of the program.
fn wrong_run(alloc: Global, wrong: u32) -> Result<Ending, NoMemory>
    ensures ending { IfOk result (λ ending. ending_of ending ≡ verdict_end [] (Verdict.Run wrong)) }
    ensures status { IfOk result (λ ending. ending.status ≡ Status.BadRecord) }
{
    let text = format!(in alloc; "run {wrong} does not stand\n")?;
    Ok(Ending::of(Status::BadRecord, text))
}

// The end of a text that is no record from the line of this number on.
fn bad_line(alloc: Global, number: u32) -> Result<Ending, NoMemory>
    ensures ending { IfOk result (λ ending. ending_of ending ≡ bad_line_end number) }
    ensures status { IfOk result (λ ending. ending.status ≡ Status.BadRecord) }
{
    let text = format!(in alloc; "record line {number}: bad line\n")?;
    Ok(Ending::of(Status::BadRecord, text))
}
