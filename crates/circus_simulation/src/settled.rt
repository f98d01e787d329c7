// A program whose datagrams are delivered in the order of sending.
ghost use Rattle.std.specs.Prelude.{◌≡◌, ◌-◌, All, IsAscii, IsTrue, IfOk, length};
ghost use Rattle.circus_config.specs.Program.{IsPlan};
ghost use Rattle.circus_commands.specs.Status.{is_end};
ghost use Rattle.circus_commands.specs.Seen.Ending.{ending_of};
ghost use Rattle.circus_record.specs.Naming.{host_name, names_of};
ghost use Rattle.circus_simulation.specs.Settle as settle_specs;
ghost use Rattle.circus_simulation.specs.Settle.{settle_in, settle_of, settled_end};
ghost use Rattle.circus_simulation.specs.Seen.Simulated.{world_of, IsFresh};

use crate::{Simulated, boot_plan};
use circus_commands::{Ending, Status, end_of_spent};
use circus_config::{ModuleNames, Plan};
use circus_machine::TextModule;
use circus_settle::{SettleFault, Settled, settle, show_settled};
use circus_value::NoMemory;
use std::alloc::{AllocError, Global};

/// What comes of a program whose datagrams are delivered in the order of sending, so many at most (docs/FORMATS.md,
/// "Settling"): how many were delivered, with the report of the world behind its datagrams; that some are left; or that a
/// node has no number left for another one. `NoMemory` is the one fault.
pub fn settle_plan(alloc: Global, plan: Plan, deliveries: u32) -> Result<Ending, NoMemory>
    requires { IsPlan plan }
    ensures ending { IfOk result (λ ending. ending_of ending ≡ settle_of plan deliveries) }
    ensures status { IfOk result (λ ending. IsTrue (is_end ending.status)) }
{
    match boot_plan(alloc, plan)? {
        Ok(simulated) => settle_world(alloc, simulated, deliveries),
        Err(ending) => Ok(ending),
    }
}

// What comes of a world that has just booted.
fn settle_world(alloc: Global, simulated: Simulated, deliveries: u32) -> Result<Ending, NoMemory>
    requires { IsFresh simulated }
    ensures ending { IfOk result (λ ending. ending_of ending
        ≡ settle_in (names_of simulated.hosts simulated.names) deliveries
        (world_of simulated.world)) }
    ensures status { IfOk result (λ ending. IsTrue (is_end ending.status)) }
{
    let Simulated {
        world,
        hosts,
        names,
    } = simulated;
    match settle(world, u64::from(deliveries)) {
        Ok(settled) => end_of_settling(alloc, settled, deliveries, &names),
        Err(SettleFault::NoMemory) => Err(AllocError),
        Err(SettleFault::Spent(node, peer)) => end_of_spent(alloc, &hosts, node, peer),
    }
}

// What is written of a world in which so many datagrams were to be delivered.
fn end_of_settling(
    alloc: Global,
    settled: Settled<TextModule>,
    deliveries: u32,
    names: &ModuleNames,
) -> Result<Ending, NoMemory>
    requires nodes { All (λ h. IsAscii (host_name h)) settled.world.deployment.nodes }
    requires modules { All IsAscii names.now }
    requires left { settled.left ≡ length settled.world.sent - settled.given }
    ensures ending { IfOk result (λ ending. ending_of ending
        ≡ settled_end (names_of settled.world.deployment.nodes names.now) deliveries
        (record { world = settled.world; given = settled.given })) }
    ensures status { IfOk result (λ ending. IsTrue (is_end ending.status)) }
{
    let Settled { world, given, left } = settled;
    if left > 0 {
        return budget(alloc, deliveries, world.sent().len());
    }
    Ok(Ending {
        status: Status::Done,
        text: show_settled(alloc, &world, given, names)?,
    })
}

// The end where datagrams are left, so many of which were sent.
fn budget(alloc: Global, deliveries: u32, sent: usize) -> Result<Ending, NoMemory>
    ensures ending { IfOk result (λ ending. ending_of ending
        ≡ settle_specs.budget deliveries sent) }
    ensures status { IfOk result (λ ending. ending.status ≡ Status.Unsettled) }
{
    let text = format!(in alloc; "budget {deliveries}, {sent} sent\n")?;
    Ok(Ending::of(Status::Unsettled, text))
}
