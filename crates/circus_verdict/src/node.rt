// A record of a node of modules that agree.
ghost use Rattle.std.specs.Prelude.{◌<◌, length, map, All, IfOk};
ghost use Rattle.circus_collate.specs.Deployment.{IsDeployment};
ghost use Rattle.circus_model.specs.Agree.{Agree};
ghost use Rattle.circus_model.specs.Behaviour.{behaviours};
ghost use Rattle.circus_node.specs.Booting.{AreOfTroupes};
ghost use Rattle.circus_verdict.specs.Verdict.{IsVerdict};
ghost use Rattle.circus_verdict.specs.Seen.Living.{MayCome};
ghost use Rattle.circus_verdict.specs.Seen.Judging.{FewRuns, MaySay};

use crate::Verdict;
use crate::member::audit_member;
use crate::ring::audit_ring;
use crate::shape::{is_begun, joins_so};
use circus_audit::Given;
use circus_collate::Deployment;
use circus_model::Module;
use circus_node::home_of;
use circus_value::NoMemory;
use circus_world::is_spare;
use std::alloc::Global;

/// What is said of a record of a node of a program with these modules.
pub(crate) fn audit_node<M: Module>(
    alloc: Global,
    given: &Given,
    deployment: &Deployment,
    modules: &[M],
) -> Result<Verdict, NoMemory>
    requires deployment { IsDeployment deployment.now }
    requires modules { AreOfTroupes deployment.now (map M.declared modules.now) }
    requires agree { Agree (behaviours M.declared M.turn M.first modules.now) }
    requires within { given.now.node < length deployment.now.nodes }
    requires come { All (MayCome deployment.now given.now.node) given.now.events }
    requires few { FewRuns given.now.member }
    requires says { MaySay deployment.now
        (behaviours M.declared M.turn M.first modules.now) given.now }
    ensures { IfOk result
        (IsVerdict deployment.now
        (behaviours M.declared M.turn M.first modules.now) given.now) }
{
    let Some((boot, later)) = given.events.as_slice().split_first() else {
        return Ok(Verdict::NotARun);
    };
    if !is_begun(boot, later) {
        return Ok(Verdict::NotARun);
    }
    if !joins_so(is_spare(deployment, given.node), later) {
        return Ok(Verdict::NotARun);
    }
    match home_of(alloc, deployment, given.node)? {
        Some(home) => audit_member(alloc, given, boot, later, deployment, modules, &home),
        None => audit_ring(alloc, given, boot, later, deployment),
    }
}
