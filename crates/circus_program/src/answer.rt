// What the words ask for, and what comes of it.
ghost use Rattle.std.specs.Prelude.{◌≡◌, ◌≤◌, ◌∷◌, [], length, map, string_bytes, IfOk};
ghost use Rattle.circus_outside.specs.Limits.{longest_contents};
ghost use Rattle.circus_program.specs.Seen.Words.{form_of};
ghost use Rattle.circus_program.specs.Answer.{finish, IsDue, IsDueOfSecond, AsksOnly, AsksFirstOf};
ghost use Rattle.circus_config.specs.Program.{IsPlan};
ghost use Rattle.circus_commands.specs.Seen.Upshot.{end_of_upshot, CanBeWritten};

use crate::audited::audit_record;
use crate::ready::{Ready, prepare};
use crate::second::Second;
use crate::shown::Shown;
use crate::words::{CommandForm, read_words};
use circus_commands::{Ending, OneFile, Performance, Status, Upshot, end_of, plan_of};
use circus_config::Plan;
use circus_node_command::{no_node, node_named};
use circus_outside::{Shelf, ShelfFault};
use circus_simulation::{draw_plan, sample_plan, settle_plan};
use circus_value::NoMemory;
use std::alloc::{AllocError, Global};

/// What a command comes to: its end, a file that the shelf doesn't give, the history of a program, a replay that may begin, or
/// a node of a plan that is to be served for so many takes.
#[derive(Drop)]
pub enum Step<'a> {
    Finish(Ending),
    Lack(&'a str),
    History(Performance),
    Replay(Ready),
    Serve(Plan, u16, u32),
}

// What is done with a plan: a sample of so many lines is drawn from a seed, its lines are written, so many datagrams at most are
// delivered, or a node is served for so many takes.
#[derive(Clone, Copy)]
enum Task<'a> {
    Sample(u64, u32),
    Lines(u64, u32),
    Settle(u32),
    Node(&'a str, u32),
}

// A command that reads one file: it comes to an end, or to a plan with which something is done.
#[derive(Clone, Copy)]
enum Command<'a> {
    End(OneFile),
    OfPlan(Task<'a>),
}

// What a form asks for, with its files.
enum Asked<'a> {
    OneFile(Command<'a>, &'a str),
    TwoFiles(Second, &'a str, &'a str),
}

ghost use Rattle.circus_program.specs.Seen.Step.{due_of, Stands, LacksNone, IsLackNoted, IsStepBehind, IsStepOfProgram, IsStepOfTwo, IsStepOfFile};
ghost use Rattle.circus_program.specs.Seen.Asked.{IsDueOfTask, IsDueOfCommand, asked_form};
ghost use Rattle.circus_program.specs.Accepted.{HasModuleNames};
ghost use Rattle.circus_program.specs.Seen.Known.{IsKnownOf, AreKnownBy, OfContents, ShortLinesOf};

// What comes of a plan and the bytes of a second file.
fn of_second<'a>(
    alloc: Global,
    second: Second,
    plan: Plan,
    bytes: &[u8],
) -> Result<Step<'a>, NoMemory>
    requires plan { IsPlan plan }
    requires named { HasModuleNames plan }
    requires short { length bytes.now ≤ longest_contents }
    ensures due { IfOk result (λ step. IsDueOfSecond second plan bytes.now (due_of step)) }
    ensures stands { IfOk result Stands }
    ensures whole { IfOk result LacksNone }
{
    match second {
        Second::Schedule(shown) => match prepare(alloc, plan, bytes, shown)? {
            Ok(ready) => Ok(Step::Replay(ready)),
            Err(ending) => Ok(Step::Finish(ending)),
        },
        Second::NodeRecord => Ok(Step::Finish(audit_record(alloc, plan, bytes)?)),
    }
}

// What comes of a program that is fetched and read, and of a second file.
fn second_file<'a, S: Shelf>(
    alloc: Global,
    second: Second,
    plan: Plan,
    file: &'a str,
    shelf: &mut S,
) -> Result<Step<'a>, NoMemory>
    requires plan { IsPlan plan }
    requires named { HasModuleNames plan }
    ensures due { IfOk result (λ step.
        IsStepBehind (S.contents shelf.old) second plan file.now (due_of step)) }
    ensures stands { IfOk result Stands }
    ensures lack { IfOk result
        (IsLackNoted (S.fetched shelf.new) (S.faults shelf.old) (S.faults shelf.new)) }
    ensures asked { AsksFirstOf (S.fetched shelf.old) (S.fetched shelf.new) (file.now ∷ []) }
{
    let bytes = match shelf.fetch(file) {
        Ok(bytes) => bytes,
        Err(ShelfFault::NoMemory) => return Err(AllocError),
        Err(ShelfFault::Failed) => return Ok(Step::Lack(file)),
    };
    let step = of_second(alloc, second, plan, bytes.as_slice())?;
    Ok(step)
}

// What comes of two files, of which the first is fetched.
fn behind_first<'a, S: Shelf>(
    alloc: Global,
    second: Second,
    program: &[u8],
    file: &'a str,
    shelf: &mut S,
) -> Result<Step<'a>, NoMemory>
    ensures due { IfOk result (λ step.
        IsStepOfProgram (S.contents shelf.old) second program.now file.now (due_of step)) }
    ensures stands { IfOk result Stands }
    ensures lack { IfOk result
        (IsLackNoted (S.fetched shelf.new) (S.faults shelf.old) (S.faults shelf.new)) }
    ensures asked { AsksFirstOf (S.fetched shelf.old) (S.fetched shelf.new) (file.now ∷ []) }
{
    match plan_of(alloc, program)? {
        Ok(plan) => second_file(alloc, second, plan, file, shelf),
        Err(refused) => Ok(Step::Finish(refused)),
    }
}

// What comes of a program and a second file.
fn two_files<'a, S: Shelf>(
    alloc: Global,
    second: Second,
    program: &'a str,
    file: &'a str,
    shelf: &mut S,
) -> Result<Step<'a>, NoMemory>
    ensures due { IfOk result (λ step.
        IsStepOfTwo (S.contents shelf.old) second program.now file.now (due_of step)) }
    ensures stands { IfOk result Stands }
    ensures lack { IfOk result
        (IsLackNoted (S.fetched shelf.new) (S.faults shelf.old) (S.faults shelf.new)) }
    ensures asked { AsksFirstOf (S.fetched shelf.old) (S.fetched shelf.new)
        (program.now ∷ file.now ∷ []) }
{
    let bytes = match shelf.fetch(program) {
        Ok(bytes) => bytes,
        Err(ShelfFault::NoMemory) => return Err(AllocError),
        Err(ShelfFault::Failed) => return Ok(Step::Lack(program)),
    };
    let step = behind_first(alloc, second, bytes.as_slice(), file, shelf)?;
    Ok(step)
}

// What comes of a plan.
fn of_plan<'a>(alloc: Global, plan: Plan, task: Task<'_>) -> Result<Step<'a>, NoMemory>
    requires { IsPlan plan }
    ensures due { IfOk result (λ step. IsDueOfTask task.entry plan (due_of step)) }
    ensures stands { IfOk result Stands }
    ensures whole { IfOk result LacksNone }
    ensures known { IfOk result (λ _. IsKnownOf task.entry plan) }
{
    match task {
        Task::Sample(seed, steps) => Ok(Step::Finish(sample_plan(alloc, plan, seed, steps)?)),
        Task::Lines(seed, steps) => Ok(Step::Finish(draw_plan(alloc, plan, seed, steps)?)),
        Task::Settle(deliveries) => Ok(Step::Finish(settle_plan(alloc, plan, deliveries)?)),
        Task::Node(name, turns) => match node_named(&plan.deployment, name) {
            Some(node) => Ok(Step::Serve(plan, node, turns)),
            None => Ok(Step::Finish(no_node(alloc, name)?)),
        },
    }
}

// What a command of one file comes to.
fn step_of<'a>(upshot: Upshot) -> Step<'a>
    requires { CanBeWritten upshot }
    ensures due { due_of result ≡ finish (end_of_upshot upshot) }
    ensures stands { Stands result }
    ensures whole { LacksNone result }
{
    match upshot {
        Upshot::Text(ending) => Step::Finish(ending),
        Upshot::History(performance) => Step::History(performance),
    }
}

// What comes of the bytes of a file.
fn of_bytes<'a>(alloc: Global, command: Command<'_>, bytes: &[u8]) -> Result<Step<'a>, NoMemory>
    ensures due { IfOk result (λ step. IsDueOfCommand command.entry bytes.now (due_of step)) }
    ensures stands { IfOk result Stands }
    ensures whole { IfOk result LacksNone }
    ensures known { IfOk result (λ _. AreKnownBy command.entry bytes.now) }
{
    match command {
        Command::End(command) => Ok(step_of(end_of(alloc, command, bytes)?)),
        Command::OfPlan(task) => match plan_of(alloc, bytes)? {
            Ok(plan) => of_plan(alloc, plan, task),
            Err(refused) => Ok(Step::Finish(refused)),
        },
    }
}

// What comes of a command of one file.
fn one_file<'a, S: Shelf>(
    alloc: Global,
    command: Command<'_>,
    name: &'a str,
    shelf: &mut S,
) -> Result<Step<'a>, NoMemory>
    ensures due { IfOk result (λ step.
        IsStepOfFile (S.contents shelf.old) name.now (IsDueOfCommand command.entry) (due_of step)) }
    ensures stands { IfOk result Stands }
    ensures lack { IfOk result
        (IsLackNoted (S.fetched shelf.new) (S.faults shelf.old) (S.faults shelf.new)) }
    ensures asked { AsksFirstOf (S.fetched shelf.old) (S.fetched shelf.new) (name.now ∷ []) }
    ensures known { IfOk result (λ step. LacksNone step
        → OfContents (S.contents shelf.old) (AreKnownBy command.entry) name.now) }
{
    let bytes = match shelf.fetch(name) {
        Ok(bytes) => bytes,
        Err(ShelfFault::NoMemory) => return Err(AllocError),
        Err(ShelfFault::Failed) => return Ok(Step::Lack(name)),
    };
    let step = of_bytes(alloc, command, bytes.as_slice())?;
    Ok(step)
}

// What a form asks for.
fn asked_by(form: CommandForm<'_>) -> Asked<'_>
    ensures { form_of form.entry ≡ asked_form result }
{
    let (command, file) = match form {
        CommandForm::Stubs { program } => (Command::End(OneFile::Stubs), program),
        CommandForm::Run { program } => (Command::End(OneFile::Run), program),
        CommandForm::Place { placing } => (Command::End(OneFile::Place), placing),
        CommandForm::Sample {
            program,
            seed,
            steps,
        } => (Command::OfPlan(Task::Sample(seed, steps)), program),
        CommandForm::Lines {
            program,
            seed,
            steps,
        } => (Command::OfPlan(Task::Lines(seed, steps)), program),
        CommandForm::Settle {
            program,
            deliveries,
        } => (Command::OfPlan(Task::Settle(deliveries)), program),
        CommandForm::Node {
            program,
            name,
            turns,
        } => (Command::OfPlan(Task::Node(name, turns)), program),
        CommandForm::Replay { program, schedule } => {
            return Asked::TwoFiles(Second::Schedule(Shown::Report), program, schedule);
        }
        CommandForm::Picture { program, schedule } => {
            return Asked::TwoFiles(Second::Schedule(Shown::Picture), program, schedule);
        }
        CommandForm::Audit { program, record } => {
            return Asked::TwoFiles(Second::NodeRecord, program, record);
        }
    };
    Asked::OneFile(command, file)
}

/// What comes of the words of a command line.
pub fn follow<'a, S: Shelf>(
    alloc: Global,
    words: &'a [String],
    shelf: &mut S,
) -> Result<Step<'a>, NoMemory>
    ensures due { IfOk result (λ step.
        IsDue (S.contents shelf.old) (map string_bytes words.now) (due_of step)) }
    ensures stands { IfOk result Stands }
    ensures lack { IfOk result
        (IsLackNoted (S.fetched shelf.new) (S.faults shelf.old) (S.faults shelf.new)) }
    ensures asked { AsksOnly (S.fetched shelf.old) (S.fetched shelf.new)
        (map string_bytes words.now) }
    ensures known { IfOk result (λ step. LacksNone step
        → ShortLinesOf (S.contents shelf.old) (map string_bytes words.now)) }
{
    let Some(form) = read_words(words) else {
        let refused = Ending::of_line(alloc, Status::BadCommandLine, "circus: bad command line\n")?;
        return Ok(Step::Finish(refused));
    };
    match asked_by(form) {
        Asked::OneFile(command, file) => one_file(alloc, command, file, shelf),
        Asked::TwoFiles(second, program, file) => two_files(alloc, second, program, file, shelf),
    }
}
