// A simulation whose lines are drawn.
ghost use Rattle.std.specs.Prelude.{◌≡◌, ◌+◌, ◌<◌, ◌≤◌, [], length, IfOk};
ghost use Rattle.circus_schedule.specs.Meaning.{NamesBelow};
ghost use Rattle.circus_world.specs.Legal.{refusal};
ghost use Rattle.circus_world.specs.Course.{step_line};
ghost use Rattle.circus_simulation.specs.Sampled as sampling;
ghost use Rattle.circus_simulation.specs.Sampled.{IsUntouched, lines_drawn, spares_from};
ghost use Rattle.circus_simulation.specs.Answers.{AreSampled, IsSampled};
ghost use Rattle.circus_simulation.specs.Seen.Stepping as seen;
ghost use Rattle.circus_simulation.specs.Seen.Stepping.{NoneCrashed, ComesTo};

use crate::noting::{Nothing, Noting};
use circus_model::Module;
use circus_schedule::{Facts, Line, Lines, next_word, sample_line};
use circus_value::{NoMemory, Nodes};
use circus_world::{World, WorldFault, is_spare};
use std::alloc::Global;
use thiserror::Error;

/// Why a sample is not drawn to its end.
#[derive(Clone, Copy, Debug, PartialEq, Eq, Drop, Error)]
pub enum SampleFault {
    /// Memory ran out.
    #[error("out of memory")]
    NoMemory,

    /// The first node has no number left for a call to the second.
    #[error("node {0} has no number left for node {1}")]
    Spent(u16, u16),
}

impl From<NoMemory> for SampleFault {
    ghost use Rattle.std.specs.Prelude.{◌≡◌};
    ghost use Rattle.circus_simulation.specs.declared.sampling.SampleFault.TheVariants.{NoMemory};

    ghost from_gives = { λ _ fault. fault ≡ NoMemory };

    fn from(_refused: NoMemory) -> Self {
        SampleFault::NoMemory
    }
}

/// Steps so many lines, each drawn by the next word behind the seed and by what the world is then (docs/FORMATS.md,
/// "Samples"). In an untouched world each of them may be stepped.
///
/// `Spent` exactly where the step of a node is refused so; `NoMemory` where memory runs out. After these two the world is
/// gone.
pub fn sample<M: Module>(
    alloc: Global,
    world: World<M>,
    seed: u64,
    steps: u32,
) -> Result<World<M>, SampleFault>
    requires untouched { IsUntouched world }
    requires few { world.steps + steps ≤ 18446744073709551615 }
    ensures { IsSampled M.declared M.turn steps seed world result }
{
    let spares = spares_of(alloc, &world)?;
    draw(world, spares.as_slice(), seed, steps, &mut Nothing)
}

/// The lines that `sample` steps for the same words, in order. The faults are those of `sample`, and the world is gone in any
/// case.
pub fn sample_lines<M: Module>(
    alloc: Global,
    world: World<M>,
    seed: u64,
    steps: u32,
) -> Result<Lines, SampleFault>
    requires untouched { IsUntouched world }
    requires few { world.steps + steps ≤ 18446744073709551615 }
    ensures { AreSampled M.declared M.turn steps seed world result }
{
    let spares = spares_of(alloc, &world)?;
    let mut lines = Lines::new(alloc);
    let _last = draw(world, spares.as_slice(), seed, steps, &mut lines)?;
    Ok(lines)
}

// Draws lines, notes and steps them, where these spares are left to join.
fn draw<M: Module, N: Noting>(
    mut world: World<M>,
    mut spares: &[u16],
    seed: u64,
    steps: u32,
    notes: &mut N,
) -> Result<World<M>, SampleFault>
    requires live { NoneCrashed world }
    requires spares { spares.now ≡ spares_from world.deployment 0 world.nodes }
    requires few { world.steps + steps ≤ 18446744073709551615 }
    requires begun { N.noted notes.old [] notes.old }
    ensures sampled { IsSampled M.declared M.turn steps seed world result }
    ensures noted { IfOk result (λ _. N.noted notes.old
        (lines_drawn M.declared M.turn steps seed world) notes.new) }
{
    let mut word = seed;
    for _ in 0..steps {
        word = next_word(word);
        let line = sample_line(word, &facts_of(&world, spares));
        notes.note(&line)?;
        spares = left_by(&line, spares);
        world = step(world, &line)?;
    }
    Ok(world)
}

// What the next line is drawn by.
fn facts_of<M: Module>(world: &World<M>, spares: &[u16]) -> Facts
    requires { spares.now ≡ spares_from world.now.deployment 0 world.now.nodes }
    ensures facts { result ≡ sampling.facts_of world.now }
    ensures nodes { 1 ≤ result.nodes }
{
    Facts {
        sent: world.sent().len() as u64,
        nodes: world.deployment().nodes.len() as u16,
        spare: spares.first().copied(),
    }
}

// The spares that are left to join behind a line.
fn left_by<'a>(line: &Line, spares: &'a [u16]) -> &'a [u16]
    ensures { result.now ≡ seen.left_by line.now spares.now }
{
    match (line, spares) {
        (Line::Join(_), [_, others @ ..]) => others,
        _ => spares,
    }
}

// Steps a line that may be stepped.
fn step<M: Module>(world: World<M>, line: &Line) -> Result<World<M>, SampleFault>
    requires named { NamesBelow (length world.nodes) line.now }
    requires few { world.steps < 18446744073709551615 }
    requires legal { refusal world line.now ≡ None }
    ensures { ComesTo result (step_line M.declared M.turn line.now world) }
{
    match world.step(line) {
        Ok(world) => Ok(world),
        Err(WorldFault::Illegal(..)) => unreachable!(),
        Err(WorldFault::NoMemory) => Err(SampleFault::NoMemory),
        Err(WorldFault::Spent(node, peer)) => Err(SampleFault::Spent(node, peer)),
    }
}

// All spares, in node order, where none has joined.
fn spares_of<M: Module>(alloc: Global, world: &World<M>) -> Result<Nodes, NoMemory>
    requires { IsUntouched world.now }
    ensures { IfOk result (λ spares. spares ≡ spares_from world.now.deployment 0 world.now.nodes) }
{
    let deployment = world.deployment();
    let mut spares = Nodes::new(alloc);
    for node in 0..deployment.nodes.len() as u16 {
        if is_spare(deployment, node) {
            spares.push(node)?;
        }
    }
    Ok(spares)
}
