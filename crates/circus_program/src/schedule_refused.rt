// Why a line of a schedule is refused, as it is written.
ghost use Rattle.std.specs.Prelude.{◌≡◌, ◌++◌, [], Err, All, IsAscii, IfOk, Some, codes};
ghost use Rattle.std.specs.Fmt.{decimal};
ghost use Rattle.circus_record.specs.Line.{line};
ghost use Rattle.circus_record.specs.Naming.{host_name, names_of};
ghost use Rattle.circus_commands.specs.Seen.Ending.{ending_of};
ghost use Rattle.circus_program.specs.Replay.{cause_text, refuse_line as refused_end, IsReplayOf};
ghost use Rattle.circus_config.specs.declared.plan.Plan.{Plan};
ghost use Rattle.circus_program.specs.declared.shown.Shown.{Shown};

use circus_collate::Hosts;
use circus_commands::{Ending, Status};
use circus_record::{Naming, ProgramNames};
use circus_schedule::ScheduleFault;
use circus_value::{ListOf, Name, NoMemory, Octets};
use circus_world::LineCause;
use std::alloc::{AllocError, Global};
use std::fmt;

/// The end of a schedule that is read as none.
pub fn end_of_schedule(alloc: Global, fault: &ScheduleFault) -> Result<Ending, NoMemory>
    ensures ending { (shown : Shown) (plan : Plan)
        → IfOk result (λ ending. IsReplayOf shown plan (Err fault.now) (ending_of ending)) }
    ensures status { IfOk result (λ ending. ending.status ≡ Status.BadSchedule) }
{
    Ok(Ending {
        status: Status::BadSchedule,
        text: fault_text(alloc, fault)?,
    })
}

// What is written of a schedule that is read as none.
fn fault_text(alloc: Global, fault: &ScheduleFault) -> Result<Octets, NoMemory>
    ensures { (shown : Shown) (plan : Plan)
        → IfOk result (λ text.
        IsReplayOf shown plan (Err fault.now)
        (record { status = Status.BadSchedule; text = text })) }
{
    match fault {
        ScheduleFault::BadLine(number) => line_text(alloc, *number, "bad line"),
        ScheduleFault::UnknownNode(number, name) => unknown_text(alloc, *number, name),
        ScheduleFault::TooManyLines(number) => line_text(alloc, *number, "too many lines"),
        ScheduleFault::NoMemory => Err(AllocError),
    }
}

// The line of this number, with what is said of it.
fn line_text(alloc: Global, number: u32, said: &str) -> Result<Octets, NoMemory>
    ensures { IfOk result (λ text.
        text ≡ line (codes "schedule line " ++ decimal number ++ codes ": " ++ said.now)) }
{
    let text = format!(in alloc; "schedule line {number}: {said}\n")?;
    Ok(ListOf::of(text.into_bytes()))
}

// The line of this number, which names a node that there is none of.
fn unknown_text(alloc: Global, number: u32, name: &Name) -> Result<Octets, NoMemory>
    ensures { IfOk result (λ text.
        text ≡ line (codes "schedule line " ++ decimal number ++ codes ": "
        ++ (codes "unknown node " ++ name.now))) }
{
    let text = format!(in alloc; "schedule line {number}: unknown node ")?;
    let mut text = ListOf::of(text.into_bytes());
    text.append(name.as_slice())?;
    text.append(b"\n")?;
    Ok(text)
}

// Why a line may not be stepped.
#[derive(Drop)]
struct CauseText<'a, N> {
    names: &'a N,
    cause: LineCause,
}

impl<N: Naming> fmt::Display for CauseText<'_, N> {
    ghost output = { λ t. Some (cause_text (N.names t.names.now) t.cause) };

    fn fmt<W: fmt::Write>(&self, f: &mut fmt::Formatter<W>) -> fmt::Result {
        match self.cause {
            LineCause::NoDatagram(number, sent) => write!(f, "no datagram {number}, {sent} sent"),
            LineCause::NotLive(node) => {
                let node = self.names.node(usize::from(node));
                write!(f, "{node} is not live")
            }
            LineCause::NotCrashed(node) => {
                let node = self.names.node(usize::from(node));
                write!(f, "{node} has not crashed")
            }
            LineCause::NotSpare(node) => {
                let node = self.names.node(usize::from(node));
                write!(f, "{node} is not a spare")
            }
            LineCause::AlreadyJoined(node) => {
                let node = self.names.node(usize::from(node));
                write!(f, "{node} has joined")
            }
        }
    }
}

/// The end at a line of this number that may not be stepped.
pub fn end_of_illegal(
    alloc: Global,
    hosts: &Hosts,
    number: u64,
    cause: LineCause,
) -> Result<Ending, NoMemory>
    requires { All (λ h. IsAscii (host_name h)) hosts.now }
    ensures ending { IfOk result (λ ending.
        ending_of ending ≡ refused_end number (cause_text (names_of hosts.now []) cause)) }
    ensures status { IfOk result (λ ending. ending.status ≡ Status.BadSchedule) }
{
    let names = ProgramNames::new(hosts.as_slice(), &[]);
    let cause = CauseText {
        names: &names,
        cause,
    };
    let text = format!(in alloc; "schedule line {number}: {cause}\n")?;
    Ok(Ending::of(Status::BadSchedule, text))
}
