// A simulation whose datagrams are delivered in the order of sending.
ghost use Rattle.std.specs.Prelude.{◌≡◌, ◌+◌, ◌<◌, ◌≤◌, length, IfOk};
ghost use Rattle.circus_world.specs.Legal.{refusal};
ghost use Rattle.circus_world.specs.Course.{step_line};
ghost use Rattle.circus_world.specs.Lines.{Lead};
ghost use Rattle.circus_world_theory.specs.Done.{EndsEveryRoot};
ghost use Rattle.circus_settle.specs.Settled.{first_deliveries};
ghost use Rattle.circus_settle.specs.Answers.{IsSettled};
ghost use Rattle.circus_settle.specs.Seen.Stepping.{ComesTo};

use circus_model::Module;
use circus_schedule::Line;
use circus_value::NoMemory;
use circus_world::{World, WorldFault};
use thiserror::Error;

/// A world in which so many datagrams were delivered, the first ones that were sent, and how many
/// are left.
#[derive(Drop)]
pub struct Settled<M: Module> {
    pub world: World<M>,
    pub given: u64,
    pub left: u64,
}

/// Why not all deliveries are made.
#[derive(Clone, Copy, Debug, PartialEq, Eq, Drop, Error)]
pub enum SettleFault {
    /// Memory ran out.
    #[error("out of memory")]
    NoMemory,

    /// The first node has no number left for a call to the second.
    #[error("node {0} has no number left for node {1}")]
    Spent(u16, u16),
}

/// Delivers each datagram once, in the order of sending, those too that are sent meanwhile, until
/// none is left or so many were delivered (docs/FORMATS.md, "Settling"). Each line that is stepped
/// may be stepped, and a datagram is found by its number. Where none is left, every root has ended,
/// in a program whose collators ask for no more than there are founders.
///
/// `Spent` exactly where the step of a node is refused so; `NoMemory` where memory runs out. After
/// these two the world is gone.
pub fn settle<M: Module>(world: World<M>, deliveries: u64) -> Result<Settled<M>, SettleFault>
    requires { world.steps + deliveries ≤ 18446744073709551615 }
    ensures settled { IsSettled M.declared M.turn deliveries world result }
    ensures lines { IfOk result (λ done. Lead M.declared M.turn
        (first_deliveries done.given) world done.world) }
    ensures left { IfOk result (λ done. done.given + done.left ≡ length done.world.sent) }
    ensures most { IfOk result (λ done. done.given ≤ deliveries) }
    ensures all { IfOk result (λ done. 0 < done.left → done.given ≡ deliveries) }
    ensures ends { IfOk result (λ done. done.left ≡ 0
        → EndsEveryRoot M.declared M.turn M.first (first_deliveries done.given) done.world) }
{
    deliver(world, deliveries)
}

// Delivers so many datagrams at most.
fn deliver<M: Module>(mut world: World<M>, deliveries: u64) -> Result<Settled<M>, SettleFault>
    requires { world.steps + deliveries ≤ 18446744073709551615 }
    ensures { IsSettled M.declared M.turn deliveries world result }
{
    for number in 0..deliveries {
        if number >= world.sent().len() as u64 {
            return Ok(Settled {
                world,
                given: number,
                left: 0,
            });
        }
        world = step(world, number)?;
    }
    let left = world.sent().len() as u64 - deliveries;
    Ok(Settled {
        world,
        given: deliveries,
        left,
    })
}

// Delivers a datagram that was sent.
fn step<M: Module>(world: World<M>, number: u64) -> Result<World<M>, SettleFault>
    requires few { world.steps < 18446744073709551615 }
    requires legal { refusal world (Line.Deliver number) ≡ None }
    ensures { ComesTo result (step_line M.declared M.turn (Line.Deliver number) world) }
{
    match world.step(&Line::Deliver(number)) {
        Ok(world) => Ok(world),
        Err(WorldFault::Illegal(..)) => unreachable!(),
        Err(WorldFault::NoMemory) => Err(SettleFault::NoMemory),
        Err(WorldFault::Spent(node, peer)) => Err(SettleFault::Spent(node, peer)),
    }
}
