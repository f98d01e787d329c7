// The world of a plan at boot.
ghost use Rattle.std.specs.Prelude.{◌≡◌, ℕ, Ok, Err, IfOk, IfErr};
ghost use Rattle.circus_config.specs.Program.{IsPlan};
ghost use Rattle.circus_commands.specs.Spent.{end_of_spent as spent_end};
ghost use Rattle.circus_commands.specs.Seen.Ending.{ending_of};
ghost use Rattle.circus_simulation.specs.Booted.{boot_world, names_in};
ghost use Rattle.circus_simulation.specs.Seen.Simulated.{world_of, IsOfPlan};

use circus_collate::Hosts;
use circus_commands::{Ending, Status, end_of_spent};
use circus_config::{ModuleNames, Plan};
use circus_machine::TextModule;
use circus_plan_modules::{Loaded, load};
use circus_value::{Duplicate, NoMemory};
use circus_world::{BootFault, World};
use std::alloc::{AllocError, Global};

/// A world at boot, and the names of its nodes by their hosts and of its modules.
#[derive(Drop)]
pub struct Simulated {
    pub world: World<TextModule>,
    pub hosts: Hosts,
    pub names: ModuleNames,
}

/// The world of a plan that was read of a file, at boot, or the end where a node has no number left then. `NoMemory` is the
/// one fault.
pub fn boot_plan(alloc: Global, plan: Plan) -> Result<Result<Simulated, Ending>, NoMemory>
    requires { IsPlan plan }
    ensures world { IfOk result (λ boot. IfOk boot (λ simulated.
        boot_world plan ≡ Ok (world_of simulated.world))) }
    ensures plan { IfOk result (λ boot. IfOk boot (IsOfPlan plan)) }
    ensures ended { IfOk result (λ boot. IfErr boot (λ ending.
        (nodes : ℕ × ℕ) × (boot_world plan ≡ Err nodes)
        × (ending_of ending ≡ spent_end (names_in plan) nodes))) }
    ensures status { IfOk result (λ boot. IfErr boot (λ ending. ending.status ≡ Status.Spent)) }
{
    let Loaded {
        deployment,
        names,
        interfaces: _,
        modules,
    } = load(alloc, plan)?;
    let hosts = deployment.nodes.copy()?;
    match World::boot(alloc, deployment, modules) {
        Ok(world) => Ok(Ok(Simulated {
            world,
            hosts,
            names,
        })),
        Err(BootFault::NoMemory) => Err(AllocError),
        Err(BootFault::Spent(node, peer)) => Ok(Err(end_of_spent(alloc, &hosts, node, peer)?)),
    }
}
