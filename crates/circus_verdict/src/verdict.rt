// What is said of a record.
ghost use Rattle.std.specs.Prelude.{IfOk};
ghost use Rattle.circus_config.specs.Program.{IsPlan};
ghost use Rattle.circus_plan_modules.specs.Loaded.{behaviours_in};
ghost use Rattle.circus_audit.specs.Possible.{IsPossible};
ghost use Rattle.circus_verdict.specs.Verdict.{IsVerdict};

use crate::node::audit_node;
use circus_audit::Given;
use circus_config::Plan;
use circus_plan_modules::{Loaded, load};
use circus_value::NoMemory;
use std::alloc::Global;

/// What is said of a record of a node.
#[derive(Clone, Copy, Debug, PartialEq, Eq, Drop)]
pub enum Verdict {
    /// It is a run of the node, and what its member performed are runs of the program when nothing is replicated.
    Yes,
    /// It is no run of the node.
    NotARun,
    /// It is a run of the node, but not all that its member performed is the program's. This is the number from which the member
    /// began, where the program has fewer runs or another state behind them, else that of its first wrong run.
    Run(u32),
}

/// Whether a record that may stand in a text of the program is a true one (docs/FORMATS.md, "Audits"). It takes time in
/// proportion to the record and to the history of the program. `NoMemory` is the one fault; the plan is gone then.
pub fn audit(alloc: Global, given: &Given, plan: Plan) -> Result<Verdict, NoMemory>
    requires plan { IsPlan plan }
    requires possible { IsPossible plan given.now }
    ensures { IfOk result (IsVerdict plan.deployment (behaviours_in plan) given.now) }
{
    let Loaded {
        deployment,
        names: _,
        interfaces: _,
        modules,
    } = load(alloc, plan)?;
    audit_node(alloc, given, &deployment, modules.as_slice())
}
