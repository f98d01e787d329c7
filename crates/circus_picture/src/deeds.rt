// What members did, by the steps in which they did it.
ghost use Rattle.std.specs.Prelude.{◌≡◌, ◌+◌, ◌<◌, ℕ, List, [], ◌∷◌, ◌++◌, length, map, slice_get, Some, IfOk, OnOk};
ghost use Rattle.circus_world.specs.WorldState.{Standing};
ghost use Rattle.circus_picture.specs.Deeds as spec;
ghost use Rattle.circus_picture.specs.Deeds.{Deed as Done};
ghost use Rattle.circus_picture.specs.Seen.Kept.{deed_at, AreKept};

use circus_model::Module;
use circus_record::{MemberRecord, RunRecord};
use circus_transfer::Joiner;
use circus_value::{NoMemory, Outcome};
use circus_world::World;
use std::alloc::Global;

/// What a member did.
#[derive(Clone, Copy)]
pub(crate) enum Did<'a> {
    /// It became active, and performs the calls from this one on.
    BecameActive(u32),
    /// It began a run of this place.
    Began(u128, &'a RunRecord),
    /// It ended the run of this place.
    Ended(u128, &'a Outcome),
}

/// What the member of a node did.
#[derive(Clone, Copy)]
pub(crate) struct Deed<'a> {
    pub node: u16,
    pub did: Did<'a>,
}

/// For each step what members did in it, in order.
pub(crate) type Steps<'a> = Vec<Vec<Deed<'a>>>;

/// What the members of a world did from boot on, in so many steps.
pub(crate) fn deeds_of<M: Module>(
    alloc: Global,
    world: &World<M>,
    count: usize,
) -> Result<Steps<'_>, NoMemory>
    ensures { IfOk result (λ steps.
        AreKept count (spec.deeds_of 0 world.now.nodes) (map (λ own. own.items) steps.items)) }
{
    let mut steps = no_deeds(alloc, count)?;
    for node in 0..world.deployment().nodes.len() as u16 {
        note_node(world, node, &mut steps)?;
    }
    Ok(steps)
}

// Steps in which nothing was done.
fn no_deeds<'a>(alloc: Global, count: usize) -> Result<Steps<'a>, NoMemory>
    ensures { IfOk result (λ steps. AreKept count [] (map (λ own. own.items) steps.items)) }
{
    let mut steps = Vec::with_capacity(alloc, count)?;
    for _each in 0..count {
        steps.push(Vec::new(alloc))?;
    }
    Ok(steps)
}

// Adds what the member of a node did, if it hosts one.
fn note_node<'a, M: Module>(
    world: &'a World<M>,
    node: u16,
    steps: &mut Steps<'a>,
) -> Result<(), NoMemory>
    requires { node < length world.now.nodes }
    ensures { (count : ℕ) (before : List Done) (s : Standing M)
        → slice_get world.now.nodes node ≡ Some s
        → AreKept count before (map (λ own. own.items) steps.old.items)
        → OnOk result (AreKept count (before ++ spec.deeds_of_node node s)
        (map (λ own. own.items) steps.new.items)) }
{
    match world.kept(node) {
        Some(kept) => note_member(node, kept, steps),
        None => Ok(()),
    }
}

// Adds what a member did.
fn note_member<'a>(node: u16, kept: &'a MemberRecord, steps: &mut Steps<'a>) -> Result<(), NoMemory>
    ensures { (count : ℕ) (before : List Done)
        → AreKept count before (map (λ own. own.items) steps.old.items)
        → OnOk result (AreKept count (before ++ spec.deeds_of_member node kept.now)
        (map (λ own. own.items) steps.new.items)) }
{
    note_activation(node, kept, steps)?;
    note_runs(node, kept.from, kept.runs.as_slice(), steps)
}

// Adds that a member became active, if it did so behind boot.
fn note_activation<'a>(
    node: u16,
    kept: &MemberRecord,
    steps: &mut Steps<'a>,
) -> Result<(), NoMemory>
    ensures { (count : ℕ) (before : List Done)
        → AreKept count before (map (λ own. own.items) steps.old.items)
        → OnOk result (AreKept count (before ++ spec.activation node kept.now)
        (map (λ own. own.items) steps.new.items)) }
{
    if !matches!(kept.phase, Joiner::Active(_)) || kept.active_at == 0 {
        return Ok(());
    }
    let deed = Deed {
        node,
        did: Did::BecameActive(kept.from),
    };
    note(kept.active_at, deed, steps)
}

// Adds that runs began and ended, the first of which has this place.
fn note_runs<'a>(
    node: u16,
    first: u32,
    runs: &'a [RunRecord],
    steps: &mut Steps<'a>,
) -> Result<(), NoMemory>
    ensures { (count : ℕ) (before : List Done)
        → AreKept count before (map (λ own. own.items) steps.old.items)
        → OnOk result (AreKept count (before ++ spec.deeds_of_runs node first runs.now)
        (map (λ own. own.items) steps.new.items)) }
{
    for (later, run) in runs.iter().enumerate() {
        note_run(node, u128::from(first) + later as u128, run, steps)?;
    }
    Ok(())
}

// Adds that a run began, and that it ended.
fn note_run<'a>(
    node: u16,
    place: u128,
    run: &'a RunRecord,
    steps: &mut Steps<'a>,
) -> Result<(), NoMemory>
    ensures { (count : ℕ) (before : List Done)
        → AreKept count before (map (λ own. own.items) steps.old.items)
        → OnOk result (AreKept count (before ++ spec.deeds_of_run node place run.now)
        (map (λ own. own.items) steps.new.items)) }
{
    let began = Deed {
        node,
        did: Did::Began(place, run),
    };
    note(run.started, began, steps)?;
    note_end(node, place, run, steps)
}

// Adds that a run ended, if it did.
fn note_end<'a>(
    node: u16,
    place: u128,
    run: &'a RunRecord,
    steps: &mut Steps<'a>,
) -> Result<(), NoMemory>
    ensures { (count : ℕ) (before : List Done)
        → AreKept count before (map (λ own. own.items) steps.old.items)
        → OnOk result (AreKept count
        (before ++ spec.end_of_run node place run.now.ended run.now.outcome)
        (map (λ own. own.items) steps.new.items)) }
{
    let (Some(step), Some(outcome)) = (run.ended, &run.outcome) else {
        return Ok(());
    };
    let ended = Deed {
        node,
        did: Did::Ended(place, outcome),
    };
    note(step, ended, steps)
}

// Adds what was done in a step, unless that is behind the last one.
fn note<'a>(step: u64, deed: Deed<'a>, steps: &mut Steps<'a>) -> Result<(), NoMemory>
    ensures { (count : ℕ) (before : List Done)
        → AreKept count before (map (λ own. own.items) steps.old.items)
        → OnOk result (AreKept count (before ++ deed_at step deed.entry ∷ [])
        (map (λ own. own.items) steps.new.items)) }
{
    let step = step as usize;
    if step < steps.len() {
        steps[step].push(deed)?;
    }
    Ok(())
}
