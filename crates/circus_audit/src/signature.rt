// What the module that a node hosts declares.
ghost use Rattle.std.specs.Prelude.{◌≡◌, IfOk};
ghost use Rattle.circus_audit.specs.Seen.Reading as reading;

use crate::setting::Hosted;
use circus_collate::Deployment;
use circus_config::Plan;
use circus_modules::{interface_numbers, signature_of};
use circus_node::troupe_at;
use circus_value::NoMemory;
use std::alloc::Global;

// Some module is a root.
fn has_root(deployment: &Deployment) -> bool
    ensures { result ≡ reading.has_root deployment.now.troupes }
{
    deployment
        .troupes
        .as_slice()
        .iter()
        .any(|troupe| troupe.root)
}

/// The module of the member that a node hosts, and what it declares. `None` where the node hosts none.
pub(crate) fn hosted_by(alloc: Global, plan: &Plan, own: u16) -> Result<Option<Hosted>, NoMemory>
    ensures { IfOk result (λ hosted. hosted ≡ reading.hosted_by plan.now own) }
{
    let Some(number) = troupe_at(&plan.deployment, own) else {
        return Ok(None);
    };
    let modules = &plan.checked.modules;
    let Some(module) = modules.get(usize::from(number)) else {
        return Ok(None);
    };
    let implemented = interface_numbers(alloc, modules.as_slice())?;
    let signature = signature_of(
        alloc,
        plan.limit(),
        plan.checked.interfaces.as_slice(),
        implemented.as_slice(),
        module,
    )?;
    Ok(Some(Hosted {
        module: number,
        signature,
        rooted: has_root(&plan.deployment),
    }))
}
