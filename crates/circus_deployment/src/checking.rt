// The deployment that a text means over the modules of its program, or the least of its faults.
ghost use Rattle.std.specs.Prelude.{◌≡◌, ◌⊎◌, ◌≤◌, [], map, length, option_map, option_copied, unwrap_or, None, Some, IfOk, IfErr};
ghost use Rattle.circus_fault.specs.declared.fault.Fault.{Fault};
ghost use Rattle.circus_fault.specs.Least.{least_from};
ghost use Rattle.circus_fault.specs.Seen.Tables.{known_of};
ghost use Rattle.circus_type.specs.Limits.{greatest_word};
ghost use Rattle.circus_type.specs.Distinct.{AreDistinct};
ghost use Rattle.circus_syntax.specs.declared.named.Named.{Named};
ghost use Rattle.circus_lang.specs.ModuleTree.{ModuleTree, module_of};
ghost use Rattle.circus_troupe.specs.DeploymentSpelling.{IsDeploymentText};
ghost use Rattle.circus_collate.specs.Deployment.{IsDeployment};
ghost use Rattle.circus_collate.specs.declared.deployment.Troupe.{Troupe};
ghost use Rattle.circus_deployment.specs.declared.cause.Cause.{Cause};
ghost use Rattle.circus_deployment.specs.declared.deployment_fault.DeploymentFault.{DeploymentFault};
ghost use Rattle.circus_deployment.specs.Rank.{rank_of};
ghost use Rattle.circus_limits.specs.Limits.{most_nodes};
ghost use Rattle.circus_deployment.specs.Nodes.{nodes_of, module_numbers, troupe_numbers};
ghost use Rattle.circus_deployment.specs.Faults.{first_without_troupe, deployment_faults};
ghost use Rattle.circus_deployment.specs.Meaning.{deployment_meant};
ghost use Rattle.circus_deployment.specs.InRange.{IsInRange};
ghost use Rattle.circus_deployment.specs.Seen.{deployment_made};
ghost use Rattle.circus_deployment.specs.Answer.{answer_of};

use crate::cause::Cause;
use crate::nodes::check_nodes;
use crate::troupes::{check_troupes, first_without_troupe, module_numbers};
use crate::{DeploymentFault, meaning};
use circus_collate::Deployment;
use circus_fault::{Best, Fault, Names};
use circus_lang::ModuleText;
use circus_syntax::Named;
use circus_troupe::DeploymentText;
use circus_value::{Duplicate, Name, NoMemory};
use std::alloc::Global;

fn answer(
    alloc: Global,
    lacks: Option<&Named>,
    fault: Fault<Cause>,
) -> Result<DeploymentFault, NoMemory>
    ensures { IfOk result (λ e.
        e ≡ answer_of (option_map (λ (n : Named). n.name) (option_copied lacks.entry)) fault) }
{
    let place = u64::from(fault.place);
    Ok(match fault.cause {
        Cause::Unknown => DeploymentFault::Unknown(place),
        Cause::Repeated => DeploymentFault::Repeated(place),
        Cause::OutOfRange => DeploymentFault::OutOfRange(place),
        Cause::Missing => DeploymentFault::Missing(place, name_of(alloc, lacks)?),
        Cause::TooMany => DeploymentFault::TooMany(place),
    })
}

fn name_of(alloc: Global, lacks: Option<&Named>) -> Result<Name, NoMemory>
    ensures { IfOk result (λ name.
        name ≡ unwrap_or (option_map (λ (n : Named). n.name) (option_copied lacks.entry)) []) }
{
    match lacks {
        Some(named) => named.name.copy(),
        None => Ok(Name::new(alloc)),
    }
}

// The deployment that a text without a fault means.
fn deployment_of(
    alloc: Global,
    modules: &[ModuleText],
    text: &DeploymentText,
    format: u8,
    numbers: &Names,
    troupes: &Names,
) -> Result<Deployment, NoMemory>
    requires few { length (nodes_of text.now) ≤ most_nodes }
    requires in_range { IsInRange text.now }
    requires modules { known_of numbers.now ≡ module_numbers (map module_of modules.now) }
    requires troupes { known_of troupes.now ≡ troupe_numbers text.now.troupes }
    ensures { IfOk result (λ d. d ≡ deployment_made (map module_of modules.now) format text.now) }
{
    let numbered = meaning::number_troupes(alloc, text.troupes.as_slice())?;
    Ok(Deployment {
        troupes: meaning::troupes(alloc, modules, troupes, numbered.as_slice())?,
        nodes: meaning::nodes(alloc, numbers, text)?,
        format,
    })
}

/// The deployment that a text means over the modules of its program and in its format, where the text ends at `end`
/// (docs/LANGUAGE.md, "Deployments"). It has the nodes in the order of the text, the Ringmaster's first, and the troupes in
/// the order of their modules.
///
/// `Unknown`, `Repeated`, `OutOfRange` and `TooMany` say which rule is broken, `Missing` that a module has no troupe. Of all
/// faults the one at the least place is given, at one place the first in the order of `DeploymentFault`. `NoMemory` can
/// come in any case.
pub fn check(
    alloc: Global,
    modules: &[ModuleText],
    text: &DeploymentText,
    format: u8,
    end: u32,
) -> Result<Deployment, DeploymentFault>
    ensures faultless { IfOk result (λ d.
        deployment_faults (map module_of modules.now) end text.now ≡ []) }

    // Each of fewer modules than 2^16 has a number of one word.
    ensures meant { length modules.now ≤ greatest_word → IfOk result (λ d.
        d ≡ deployment_meant (map module_of modules.now) format text.now) }

    // Over at most 32 modules of different names, a deployment as it is written obeys the rules of deployments.
    ensures deployment { (format ≡ 1) ⊎ (format ≡ 2) → length modules.now ≤ 32
        → AreDistinct (map (λ (m : ModuleTree). m.name.name) (map module_of modules.now))
        → IsDeploymentText text.now → IfOk result IsDeployment }

    // A troupe is a root exactly where its module is one.
    ensures roots { IfOk result (λ d.
        map (λ (t : Troupe). t.root) d.troupes
        ≡ map (λ (m : ModuleTree). m.root) (map module_of modules.now)) }
    ensures err { IfErr result (λ e.
        (e ≡ DeploymentFault.NoMemory)
        ⊎ ((f : Fault Cause)
        × (least_from rank_of None (deployment_faults (map module_of modules.now) end text.now)
        ≡ Some f)
        × (e ≡ answer_of
        (first_without_troupe (troupe_numbers text.now.troupes) (map module_of modules.now)) f))) }
{
    let mut best: Best<Cause> = Best { fault: None };
    let numbers = module_numbers(alloc, modules)?;
    check_nodes(alloc, &mut best, text)?;
    let troupes = check_troupes(alloc, &mut best, &numbers, text.troupes.as_slice())?;
    let lacks = first_without_troupe(modules, &troupes);
    best.note(lacks.is_some(), end, Cause::Missing);
    match best.fault {
        Some(fault) => Err(answer(alloc, lacks, fault)?),
        None => Ok(deployment_of(alloc, modules, text, format, &numbers, &troupes)?),
    }
}
