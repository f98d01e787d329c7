// A record of the Ringmaster's node, which lives through its events as the definitions say of it.
ghost use Rattle.std.specs.Prelude.{◌≡◌, ◌<◌, [], ◌∷◌, ◌++◌, length, All, None, Some, List, IfOk, OnOk, IfSome};
ghost use Rattle.std.specs.Bool.{Decides};
ghost use Rattle.std.specs.List.{flat_map};
ghost use Rattle.circus_collate.specs.Deployment.{IsDeployment};
ghost use Rattle.circus_model.specs.Behaviour.{Behaviour};
ghost use Rattle.circus_wire.specs.declared.delivery.Heard.TheVariants.{Called};
ghost use Rattle.circus_node.specs.Accepting as accepting;
ghost use Rattle.circus_node.specs.Seen.Kept.{IsRingOf};
ghost use Rattle.circus_world.specs.Legal as legal;
ghost use Rattle.circus_headline_theory.specs.RingRun.{request_heard, answer_to};
ghost use Rattle.circus_audit.specs.declared.given.GivenEvent.{GivenEvent as Told};
ghost use Rattle.circus_verdict.specs.Audited.{JoinsSo};
ghost use Rattle.circus_verdict.specs.Verdict.{IsVerdict};
ghost use Rattle.circus_verdict.specs.Seen.Living.{HasCome};
ghost use Rattle.circus_verdict.specs.Seen.Ringing.{IsReady, LivesThrough, kept_then};

use crate::Verdict;
use crate::same::Same;
use crate::station::{Came, Pairs};
use crate::telling::{awaited_behind, is_told};
use circus_audit::{Given, GivenEvent};
use circus_collate::{Deployment, Views};
use circus_member_rules::{Effects, Purpose};
use circus_node::{Gives, accept_request, answer_request};
use circus_ring::Ring;
use circus_value::{Caller, ListOf, NoMemory, Nodes, Parts};
use circus_wire::Heard;
use std::alloc::Global;

/// The Ringmaster's node behind events of a record.
#[derive(Drop)]
pub(crate) struct Rung {
    pub pairs: Pairs,
    pub ring: Ring,
    /// The suspected nodes that are still to be declared.
    pub awaited: Nodes,
}

impl Rung {
    /// That of a node that has booted. `None` where the record doesn't say that.
    fn begin(
        alloc: Global,
        deployment: &Deployment,
        node: u16,
        boot: &GivenEvent,
    ) -> Result<Option<Self>, NoMemory>
        requires deployment { IsDeployment deployment.now }
        requires node { node < length deployment.now.nodes }
        requires boot { boot.now.event ≡ None }
        ensures ready { IfOk result (λ o. IfSome o (IsReady deployment.now node)) }
        ensures lived { IfOk result (LivesThrough deployment.now node (boot.now ∷ [])) }
    {
        let ring = Ring::new(alloc, deployment)?;
        let mut pairs = Pairs::new(alloc, deployment, node)?;
        let nothing = ListOf::new(alloc);
        let tells = is_told(boot, &mut pairs, nothing, Gives::new(alloc), &None)?;
        if !tells {
            return Ok(None);
        }
        Ok(Some(Rung {
            pairs,
            ring,
            awaited: ListOf::new(alloc),
        }))
    }

    /// Its next event. `None` where the record doesn't say what is owed for it.
    fn step(
        self,
        alloc: Global,
        deployment: &Deployment,
        node: u16,
        told: &GivenEvent,
    ) -> Result<Option<Self>, NoMemory>
        requires come { HasCome deployment.now node told.now }
        requires ready { IsReady deployment.now node self }
        ensures ready { IfOk result (λ o. IfSome o (IsReady deployment.now node)) }
        ensures lived { (events : List Told)
            → LivesThrough deployment.now node events (Some self)
            → IfOk result (LivesThrough deployment.now node (events ++ told.now ∷ [])) }
    {
        let Some(event) = &told.event else {
            unreachable!()
        };
        let Rung {
            mut pairs,
            mut ring,
            awaited,
        } = self;
        let Came {
            gives,
            suspects,
            heard,
        } = pairs.take(event)?;
        let made = answer(alloc, deployment, &mut ring, heard)?;
        let tells = is_told(told, &mut pairs, made, gives, &None)?;
        if !tells {
            return Ok(None);
        }
        let Some(awaited) = awaited_behind(alloc, awaited, event, suspects)? else {
            return Ok(None);
        };
        Ok(Some(Rung {
            pairs,
            ring,
            awaited,
        }))
    }
}

/// What is said of a record of the Ringmaster's node, of which the first event is boot.
pub(crate) fn audit_ring(
    alloc: Global,
    given: &Given,
    boot: &GivenEvent,
    later: &[GivenEvent],
    deployment: &Deployment,
) -> Result<Verdict, NoMemory>
    requires deployment { IsDeployment deployment.now }
    requires within { given.now.node < length deployment.now.nodes }
    requires none { accepting.troupe_at deployment.now given.now.node ≡ None }
    requires boot { boot.now.event ≡ None }
    requires come { All (HasCome deployment.now given.now.node) later.now }
    requires joins { JoinsSo (legal.is_spare deployment.now given.now.node) given.now.events }
    requires events { given.now.events ≡ boot.now ∷ later.now }
    ensures { (program : List Behaviour) → IfOk result
        (IsVerdict deployment.now program given.now) }
{
    let Some(begun) = Rung::begin(alloc, deployment, given.node, boot)? else {
        return Ok(Verdict::NotARun);
    };
    let Some(rung) = live(alloc, begun, later, deployment, given.node)? else {
        return Ok(Verdict::NotARun);
    };
    if !rung.awaited.is_empty() {
        return Ok(Verdict::NotARun);
    }
    if !says_views(&given.views, rung.ring.views()) {
        return Ok(Verdict::NotARun);
    }
    Ok(Verdict::Yes)
}

// One that has lived through its first event lives through the others.
fn live(
    alloc: Global,
    begun: Rung,
    later: &[GivenEvent],
    deployment: &Deployment,
    node: u16,
) -> Result<Option<Rung>, NoMemory>
    requires come { All (HasCome deployment.now node) later.now }
    requires ready { IsReady deployment.now node begun }
    ensures { (boot : Told)
        → LivesThrough deployment.now node (boot ∷ []) (Some begun)
        → IfOk result (LivesThrough deployment.now node (boot ∷ later.now)) }
{
    let mut rung = begun;
    for told in later {
        match rung.step(alloc, deployment, node, told)? {
            Some(on) => rung = on,
            None => return Ok(None),
        }
    }
    Ok(Some(rung))
}

// What the Ringmaster makes of what is heard: the answer to a request that it accepts.
fn answer(
    alloc: Global,
    deployment: &Deployment,
    ring: &mut Ring,
    heard: Heard<Purpose>,
) -> Result<Effects, NoMemory>
    requires { IsRingOf deployment.now ring.old }
    ensures kept { OnOk result (IsRingOf deployment.now ring.new) }
    ensures ring { OnOk result (ring.new ≡ kept_then ring.old (request_heard ring.old heard)) }
    ensures made { IfOk result (λ made.
        made ≡ flat_map (answer_to ring.old) (request_heard ring.old heard)) }
{
    match heard {
        Heard::Called(sender, message) => { answer_call(alloc, deployment, ring, sender, &message) }
        Heard::Dropped | Heard::Taken => Ok(ListOf::new(alloc)),
        Heard::Returned(_number, _purpose, _message) => Ok(ListOf::new(alloc)),
    }
}

// A call arrives.
fn answer_call(
    alloc: Global,
    deployment: &Deployment,
    ring: &mut Ring,
    sender: Caller,
    message: &Parts,
) -> Result<Effects, NoMemory>
    requires { IsRingOf deployment.now ring.old }
    ensures kept { OnOk result (IsRingOf deployment.now ring.new) }
    ensures ring { OnOk result
        (ring.new ≡ kept_then ring.old (request_heard ring.old (Called sender message.now))) }
    ensures made { IfOk result (λ made.
        made ≡ flat_map (answer_to ring.old) (request_heard ring.old (Called sender message.now))) }
{
    let Some(request) = accept_request(alloc, ring, message)? else {
        return Ok(ListOf::new(alloc));
    };
    answer_request(alloc, deployment, ring, sender, &request)
}

// The Ringmaster's views are told, and they are these.
fn says_views(said: &Option<Views>, views: &Views) -> bool
    ensures { Decides result (said.now ≡ Some views.now) }
{
    match said {
        Some(said) => said.is_same(views),
        None => false,
    }
}
