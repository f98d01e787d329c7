// A program that runs alone: one member of each module, on no network.
ghost use Rattle.std.specs.Prelude.{◌≡◌, ℕ, ◌<◌, ◌≤◌, [], ◌∷◌, ◌++◌, length, map, None, Some, unwrap_or, slice_index_or, slice_set, vec_len, IfOk, OnOk};
ghost use Rattle.circus_model.specs.Behaviour.{behaviours};
ghost use Rattle.circus_model.specs.Agree.{Agree, IsRoot};
ghost use Rattle.circus_limits.specs.Limits.{most_modules};
ghost use Rattle.circus_model.specs.Execution.{new_thread, thread_of, join_runs, history_of};
ghost use Rattle.circus_model.specs.Seen.Ready.{IsThread, IsOrder};
ghost use Rattle.circus_model.specs.Seen.Threads.{thread_seen, order_given, HasPerformed, HasAnswered};

use crate::{Ask, History, LanguageError, Module, Run, Runs, Turn, is_spent};
use circus_value::{Clock, Duplicate, ListOf, NoMemory, Outcome, Path, State, Values};
use std::alloc::Global;

// Who calls what.
#[derive(Drop)]
struct Order {
    root: u16,
    path: Path,
    callee: u16,
    procedure: u16,
    arguments: Values,
}

// A root's thread as it goes on.
#[derive(Drop)]
struct Thread {
    // A module without one is in its first state.
    states: Vec<Option<State>>,
    clock: Clock,
    runs: Vec<Vec<Run>>,
}

// Performs a call to its end.
#[cycle(execution)]
fn perform<M: Module>(
    alloc: Global,
    modules: &[M],
    thread: &mut Thread,
    order: Order,
) -> Result<Outcome, NoMemory>
    requires agree { Agree (behaviours M.declared M.turn M.first modules.now) }
    requires few { length modules.now ≤ most_modules }
    requires thread { IsThread (behaviours M.declared M.turn M.first modules.now)
        (thread_seen (behaviours M.declared M.turn M.first modules.now) thread.old) }
    requires order { IsOrder (behaviours M.declared M.turn M.first modules.now)
        (order_given order) }
    ensures { IfOk result
        (HasPerformed (behaviours M.declared M.turn M.first modules.now) thread.old order
        thread.new) }
{
    let module = &modules[usize::from(order.callee)];
    let entry = thread.clock.copy()?;
    let mut asks = ListOf::new(alloc);
    let state = thread.take_state(module, order.callee)?;
    let mut turn = module.start(state, order.procedure, &order.arguments)?;
    loop {
        match turn {
            Turn::Ends { outcome, state } => {
                let reply = outcome.copy()?;
                let run = Run {
                    path: order.path,
                    root: order.root,
                    procedure: order.procedure,
                    arguments: order.arguments,
                    entry,
                    asks,
                    outcome,
                    state,
                    end: thread.clock.copy()?,
                };
                thread.note(order.callee, run)?;
                return Ok(reply);
            }
            Turn::Asks {
                callee,
                procedure,
                arguments,
                state,
                paused,
            } => {
                thread.keep(order.callee, &state)?;
                let asked = order.next(asks.len() as u16, callee, procedure, arguments)?;
                let ask = answer(alloc, modules, thread, asked, state)?;
                turn = module.resume(paused, &ask.reply)?;
                asks.push(ask)?;
            }
        }
    }
}

// Answers an ask that a module makes in this state.
#[cycle(execution)]
fn answer<M: Module>(
    alloc: Global,
    modules: &[M],
    thread: &mut Thread,
    order: Order,
    state: State,
) -> Result<Ask, NoMemory>
    requires agree { Agree (behaviours M.declared M.turn M.first modules.now) }
    requires few { length modules.now ≤ most_modules }
    requires thread { IsThread (behaviours M.declared M.turn M.first modules.now)
        (thread_seen (behaviours M.declared M.turn M.first modules.now) thread.old) }
    requires order { IsOrder (behaviours M.declared M.turn M.first modules.now)
        (order_given order) }
    ensures { IfOk result
        (HasAnswered (behaviours M.declared M.turn M.first modules.now) thread.old order state
        thread.new) }
{
    let callee = order.callee;
    let procedure = order.procedure;
    let arguments = order.arguments.copy()?;
    let index = thread.clock.as_slice()[usize::from(callee)];
    let reply = if is_spent(&thread.clock) {
        LanguageError::ThreadSpent.raised_outcome(alloc)
    } else {
        thread.clock.set(usize::from(callee), index + 1);
        perform(alloc, modules, thread, order)?
    };
    Ok(Ask {
        callee,
        index,
        procedure,
        arguments,
        state,
        reply,
        after: thread.clock.copy()?,
    })
}

impl Order {
    // The order that this one's run gives with its next ask.
    fn next(
        &self,
        number: u16,
        callee: u16,
        procedure: u16,
        arguments: Values,
    ) -> Result<Order, NoMemory>
        ensures { IfOk result (λ next.
            next ≡ record {
              root = self.now.root;
              path = self.now.path ++ number
                  ∷ [];
              callee = callee;
              procedure = procedure;
              arguments = arguments;
            }) }
    {
        let mut path = self.path.copy()?;
        path.push(number)?;
        Ok(Order {
            root: self.root,
            path,
            callee,
            procedure,
            arguments,
        })
    }
}

impl Thread {
    // The state of a module, which its run will give back.
    fn take_state<M: Module>(&mut self, module: &M, place: u16) -> Result<State, NoMemory>
        requires { place < vec_len self.old.states }
        ensures state { IfOk result (λ state.
            state ≡ unwrap_or (slice_index_or self.old.states.items place None)
            (M.first «module».now)) }
        ensures states { OnOk result
            (self.new.states.items ≡ slice_set self.old.states.items place None) }
        ensures clock { self.new.clock ≡ self.old.clock }
        ensures runs { self.new.runs ≡ self.old.runs }
    {
        match self.states[usize::from(place)].take() {
            Some(state) => Ok(state),
            None => module.first_state(),
        }
    }

    // Keeps a copy of a module's state.
    fn keep(&mut self, place: u16, state: &State) -> Result<(), NoMemory>
        requires { place < vec_len self.old.states }
        ensures states { OnOk result
            (self.new.states.items ≡ slice_set self.old.states.items place (Some state.now)) }
        ensures clock { self.new.clock ≡ self.old.clock }
        ensures runs { self.new.runs ≡ self.old.runs }
    {
        self.states[usize::from(place)] = Some(state.copy()?);
        Ok(())
    }

    // Keeps a run of a module that has ended, and the state after it.
    fn note(&mut self, place: u16, run: Run) -> Result<(), NoMemory>
        requires state { place < vec_len self.old.states }
        requires runs { place < vec_len self.old.runs }
        ensures states { OnOk result
            (self.new.states.items ≡ slice_set self.old.states.items place (Some run.state)) }
        ensures clock { self.new.clock ≡ self.old.clock }
        ensures runs { OnOk result
            (map (λ runs. runs.items) self.new.runs.items
            ≡ slice_set (map (λ runs. runs.items) self.old.runs.items) place
            (slice_index_or (map (λ runs. runs.items) self.old.runs.items) place [] ++ run ∷ [])) }
    {
        self.keep(place, &run.state)?;
        self.runs[usize::from(place)].push(run)?;
        Ok(())
    }
}

// A thread that has done nothing.
fn new_thread<M: Module>(alloc: Global, modules: &[M]) -> Result<Thread, NoMemory>
    ensures { IfOk result (λ thread.
        thread_seen (behaviours M.declared M.turn M.first modules.now) thread
        ≡ new_thread (behaviours M.declared M.turn M.first modules.now)) }
{
    let mut states = Vec::new(alloc);
    let mut clock = ListOf::new(alloc);
    let mut runs = Vec::new(alloc);
    for _each in modules {
        states.push(None)?;
        clock.push(0)?;
        runs.push(Vec::new(alloc))?;
    }
    Ok(Thread {
        states,
        clock,
        runs,
    })
}

// The runs of each module in a root's thread.
fn runs_of_root<M: Module>(
    alloc: Global,
    modules: &[M],
    root: u16,
) -> Result<Vec<Vec<Run>>, NoMemory>
    requires agree { Agree (behaviours M.declared M.turn M.first modules.now) }
    requires few { length modules.now ≤ most_modules }
    requires root { IsRoot (behaviours M.declared M.turn M.first modules.now) root }
    ensures { IfOk result (λ all.
        map (λ runs. runs.items) all.items
        ≡ (thread_of (behaviours M.declared M.turn M.first modules.now) root).runs) }
{
    let mut thread = new_thread(alloc, modules)?;
    let main = Order {
        root,
        path: Path::new(alloc),
        callee: root,
        procedure: 0,
        arguments: Values::new(alloc),
    };
    perform(alloc, modules, &mut thread, main)?;
    Ok(thread.runs)
}

// Puts runs behind others. Where there are no others they are not copied.
fn append(into: &mut Vec<Run>, more: Vec<Run>) -> Result<(), NoMemory>
    ensures { OnOk result (into.new.items ≡ into.old.items ++ more.items) }
{
    if into.is_empty() {
        *into = more;
        return Ok(());
    }
    for run in more {
        into.push(run)?;
    }
    Ok(())
}

// Puts the runs of each module behind those that are there.
fn join(history: &mut [Vec<Run>], mut all: Vec<Vec<Run>>) -> Result<(), NoMemory>
    requires { vec_len all ≡ length history.old }
    ensures { OnOk result
        (map (λ runs. runs.items) history.new
        ≡ join_runs (map (λ runs. runs.items) history.old) (map (λ runs. runs.items) all.items)) }
{
    while let Some(more) = all.pop() {
        append(&mut history[all.len()], more)?;
    }
    Ok(())
}

// The runs as a history, which are not copied.
fn history_of(alloc: Global, all: Vec<Vec<Run>>) -> Result<History, NoMemory>
    ensures { IfOk result (λ history. history ≡ map (λ runs. runs.items) all.items) }
{
    let lists: Vec<Runs> = all.into_iter().map(|runs| ListOf::of(runs)).collect(alloc)?;
    Ok(ListOf::of(lists))
}

/// For each module the runs that it performs when nothing is replicated, in order, those of one root's thread before
/// those of the next (docs/PROOFS.md, "Forms"). It takes time in proportion to the turns and to the values of the history.
/// `NoMemory` where memory runs out.
pub fn run_alone<M: Module>(alloc: Global, modules: &[M]) -> Result<History, NoMemory>
    requires agree { Agree (behaviours M.declared M.turn M.first modules.now) }
    requires few { length modules.now ≤ most_modules }
    ensures { IfOk result (λ history.
        history ≡ history_of (behaviours M.declared M.turn M.first modules.now)) }
{
    let mut history = new_thread(alloc, modules)?.runs;
    for (place, module) in modules.iter().enumerate() {
        if module.signature().root {
            join(&mut history, runs_of_root(alloc, modules, place as u16)?)?;
        }
    }
    history_of(alloc, history)
}
