// A node of a plan is served.
ghost use Rattle.std.specs.Prelude.{◌≡◌, ◌<◌, All, IsAscii, IsTrue, length, IfOk, IsErrOf};
ghost use Rattle.circus_collate.specs.Deployment.{IsDeployment};
ghost use Rattle.circus_config.specs.Program.{IsPlan};
ghost use Rattle.circus_record.specs.Naming.{names_of};
ghost use Rattle.circus_node.specs.Node.{IsNodeOf};
ghost use Rattle.circus_outside.specs.Faults.{Rose};
ghost use Rattle.circus_commands.specs.Status.{is_end};
ghost use Rattle.circus_commands.specs.Seen.Ending.{ending_of};
ghost use Rattle.circus_node_command.specs.NodeEnds.{done_end, IsEndOfBooted, IsEndOfServing};
ghost use Rattle.circus_node_command.specs.Seen.Ended.{EndsSo};
ghost use Rattle.circus_serve.specs.Outside.{tells_of};

use circus_collate::Deployment;
use circus_commands::{Ending, Status, end_of_spent};
use circus_config::{ModuleNames, Plan};
use circus_model::Module;
use circus_node::{Gives, NodeCore, StepFault};
use circus_outside::Link;
use circus_plan_modules::{Loaded, load};
use circus_serve::{NodeRecord, ServeFault, serve, show_node};
use circus_value::NoMemory;
use std::alloc::{AllocError, Global};

/// Serves a node of a plan that was read of a file, for so many takes (docs/PROTOCOL.md, "A served node"): its record, that
/// the link failed, or that it has no number left for another node. `LinkFault` only where the link's count of faults rose;
/// `NoMemory` where memory runs out.
#[tactic(none)]
pub fn serve_node<L: Link>(
    alloc: Global,
    plan: Plan,
    node: u16,
    turns: u32,
    link: &mut L,
) -> Result<Ending, NoMemory>
    requires plan { IsPlan plan }
    requires within { node < length plan.deployment.nodes }
    ensures ending { IfOk result (λ ending. IsEndOfServing plan node turns
        (tells_of (L.bound link.old) (L.taken link.old) (L.given link.old))
        (tells_of (L.bound link.new) (L.taken link.new) (L.given link.new))
        (ending_of ending)) }
    ensures status { IfOk result (λ ending. IsTrue (is_end ending.status)) }
    ensures rose { IfOk result (λ ending.
        ending.status ≡ Status.LinkFault → Rose (L.faults link.old) (L.faults link.new)) }
{
    let Loaded {
        deployment,
        names,
        interfaces: _,
        modules,
    } = load(alloc, plan)?;
    match NodeCore::boot_of(alloc, &deployment, modules.as_slice(), node) {
        Ok((core, outputs)) => {
            let gives = outputs.gives;
            serve_booted(alloc, &deployment, &names, core, gives, node, link, turns)
        }
        Err(StepFault::NoMemory) => Err(AllocError),
        Err(StepFault::Spent(peer)) => end_of_spent(alloc, &deployment.nodes, node, peer),
    }
}

// Serves a node of a program that has booted and gives this.
#[tactic(none)]
fn serve_booted<M: Module, L: Link>(
    alloc: Global,
    deployment: &Deployment,
    names: &ModuleNames,
    core: NodeCore<M>,
    gives: Gives,
    node: u16,
    link: &mut L,
    turns: u32,
) -> Result<Ending, NoMemory>
    requires deployment { IsDeployment deployment.now }
    requires names { All IsAscii names.now }
    requires node { IsNodeOf deployment.now node core }
    ensures ending { IfOk result (λ ending. IsEndOfBooted M.declared M.turn
        (names_of deployment.now.nodes names.now) deployment.now node turns
        (tells_of (L.bound link.old) (L.taken link.old) (L.given link.old))
        (tells_of (L.bound link.new) (L.taken link.new) (L.given link.new))
        core gives (ending_of ending)) }
    ensures status { IfOk result (λ ending. IsTrue (is_end ending.status)) }
    ensures rose { IfOk result (λ ending.
        ending.status ≡ Status.LinkFault → Rose (L.faults link.old) (L.faults link.new)) }
{
    let served = serve(alloc, core, gives, deployment, node, link, turns);
    end_of_result(alloc, deployment, names, node, served)
}

// The end of a node that was served so.
fn end_of_result<M: Module>(
    alloc: Global,
    deployment: &Deployment,
    names: &ModuleNames,
    node: u16,
    served: Result<NodeRecord<M>, ServeFault>,
) -> Result<Ending, NoMemory>
    requires deployment { IsDeployment deployment.now }
    requires names { All IsAscii names.now }
    ensures ending { IfOk result (λ ending.
        EndsSo (names_of deployment.now.nodes names.now) deployment.now node served
        (ending_of ending)) }
    ensures status { IfOk result (λ ending. IsTrue (is_end ending.status)) }
    ensures failed { IfOk result (λ ending.
        ending.status ≡ Status.LinkFault → IsErrOf served ServeFault.LinkFailed) }
{
    match served {
        Ok(record) => end_of_record(alloc, deployment, names, node, &record),
        Err(ServeFault::NoMemory) => Err(AllocError),
        Err(ServeFault::LinkFailed) => Ending::of_line(alloc, Status::LinkFault, "link fault\n"),
        Err(ServeFault::Spent(peer)) => end_of_spent(alloc, &deployment.nodes, node, peer),
    }
}

// The end of a node that was served for all takes.
fn end_of_record<M: Module>(
    alloc: Global,
    deployment: &Deployment,
    names: &ModuleNames,
    node: u16,
    served: &NodeRecord<M>,
) -> Result<Ending, NoMemory>
    requires deployment { IsDeployment deployment.now }
    requires names { All IsAscii names.now }
    ensures ending { IfOk result (λ ending.
        ending_of ending
        ≡ done_end (names_of deployment.now.nodes names.now) deployment.now node served.now) }
    ensures status { IfOk result (λ ending. ending.status ≡ Status.Done) }
{
    Ok(Ending {
        status: Status::Done,
        text: show_node(alloc, deployment, names, node, served)?,
    })
}
