// What a node does: it hosts a member, or it is the Ringmaster's.
ghost use Rattle.std.specs.Prelude.{◌≡◌, ◌<◌, [], length, IfOk, OnOk, option_copied};
ghost use Rattle.circus_collate.specs.declared.deployment.Deployment.{Deployment as Deployed};
ghost use Rattle.circus_ring.specs.RingTable as ring_table;
ghost use Rattle.circus_ring.specs.TableFields.{IsTable};
ghost use Rattle.circus_member_rules.specs.Happening.{CanHappen};
ghost use Rattle.circus_node.specs.NodeState.{member as hosting, ringmaster};
ghost use Rattle.circus_node.specs.Making as making;
ghost use Rattle.circus_node.specs.Recorded.{IsRecorded};
ghost use Rattle.circus_node.specs.Booting as booting;
ghost use Rattle.circus_node.specs.Accepting.{IsMemberOf};
ghost use Rattle.circus_node.specs.Seen.Kept.{IsRingOf, IsActing, MayStand};
ghost use Rattle.circus_node.specs.NodeState.{member_record as record_of, ring_views as views_of, state_at_activation};

use crate::home::Home;
use crate::{Differences, accept, accept_request};
use circus_collate::{Deployment, Table, Views};
use circus_header::{Request, ReturnHeader, write_return};
use circus_member::Member;
use circus_member_rules::{Effect, Effects, Occurrence, Purpose};
use circus_model::Module;
use circus_record::MemberRecord;
use circus_ring::{Ring, write_table};
use circus_value::{Caller, Duplicate, ListOf, Message, NoMemory, Parts, State};
use circus_wire::Heard;
use std::alloc::Global;
use std::marker::Model;

/// What comes of what happens to a node.
#[derive(Drop)]
pub(crate) struct Consequences {
    /// Calls and returns, in the order in which they are made.
    pub effects: Effects,
    pub differences: Differences,
    /// Whether a datagram counted for nothing, or a message was not accepted.
    pub dropped: bool,
}

impl Consequences {
    fn nothing(alloc: Global) -> Self
        ensures { result ≡ making.nothing }
    {
        Consequences {
            effects: ListOf::new(alloc),
            differences: ListOf::new(alloc),
            dropped: false,
        }
    }

    fn a_drop(alloc: Global) -> Self
        ensures { result ≡ making.a_drop }
    {
        Consequences {
            effects: ListOf::new(alloc),
            differences: ListOf::new(alloc),
            dropped: true,
        }
    }

    // Calls and returns, and the replies that differ.
    fn of(effects: Effects, differences: Differences) -> Self
        ensures { result ≡ making.consequences effects differences }
    {
        Consequences {
            effects,
            differences,
            dropped: false,
        }
    }
}

// The ring stands in a box, so that what a node is moves as a few words (docs/PROOFS.md, "Speed").
#[derive(Drop)]
enum Role<M: Module> {
    Member(Member<M>),
    Ringmaster(Box<Ring>),
}

/// A member or the Ringmaster.
pub(crate) struct Acting<M: Module> {
    role: Role<M>,
}

// Written out, so that dropping one is one step of a proof (docs/PROOFS.md, "Cost").
impl<M: Module> Drop for Acting<M> {
    fn drop(self) {
        let Acting { role: _ } = self;
    }
}

impl<M: Module> Model for Acting<M> {
    ghost use Rattle.circus_node.specs.NodeState.{Acting};
    ghost use Rattle.circus_node.specs.Seen.NodeCode.{acting_code};
    ghost use Rattle.circus_node.specs.Seen.ActingOf.{acting_of};

    ghost Value = { Acting M };

    ghost coded = { acting_code M.code };

    ghost view = { λ a. acting_of a.role };
}

impl<M: Module> Acting<M> {
    /// A member with its module, where the node has one and the module is given; else the Ringmaster. And what comes of
    /// the boot.
    pub fn boot(
        alloc: Global,
        deployment: &Deployment,
        home: Option<Home>,
        hosted: Option<M>,
    ) -> Result<(Self, Consequences), NoMemory>
        requires { MayStand M.declared deployment.now home hosted }
        ensures acting { IfOk result (λ booted.
            booted.0 ≡ (booting.made_at_boot M.declared M.turn M.first deployment.now home
            hosted).acting) }
        ensures came { IfOk result (λ booted.
            booted.1 ≡ (booting.made_at_boot M.declared M.turn M.first deployment.now home
            hosted).came) }
        ensures kept { IfOk result (λ booted. IsActing deployment.now booted.0) }
    {
        let ring = Ring::new(alloc, deployment)?;
        match (home, hosted) {
            (Some(home), Some(hosted)) => {
                let views = ring.views().copy()?;
                let (member, effects) = Member::boot(
                    alloc,
                    home.place,
                    views,
                    home.beginning,
                    hosted,
                )?;
                let came = Consequences::of(effects, ListOf::new(alloc));
                Ok((Acting::member(member), came))
            }
            _ => {
                let ring = Box::new(alloc, ring)?;
                Ok((Acting::ringmaster(ring), Consequences::nothing(alloc)))
            }
        }
    }

    fn member(member: Member<M>) -> Self
        ensures { result ≡ hosting member }
    {
        Acting {
            role: Role::Member(member),
        }
    }

    fn ringmaster(ring: Box<Ring>) -> Self
        ensures { result ≡ ringmaster ring.value }
    {
        Acting {
            role: Role::Ringmaster(ring),
        }
    }

    /// A datagram of a node comes, of which this is heard.
    pub fn hear(
        self,
        alloc: Global,
        deployment: &Deployment,
        at: u64,
        from: u16,
        heard: Heard<Purpose>,
    ) -> Result<(Self, Consequences), NoMemory>
        requires { IsActing deployment.now self }
        ensures acting { IfOk result (λ made.
            made.0 ≡ (making.hears M.declared M.turn deployment.now at from heard self).acting) }
        ensures came { IfOk result (λ made.
            made.1 ≡ (making.hears M.declared M.turn deployment.now at from heard self).came) }
        ensures kept { IfOk result (λ made. IsActing deployment.now made.0) }
    {
        match heard {
            Heard::Taken => Ok((self, Consequences::nothing(alloc))),
            Heard::Dropped => Ok((self, Consequences::a_drop(alloc))),
            arriving => self.take(alloc, deployment, at, from, arriving),
        }
    }

    // A message of a node arrives.
    fn take(
        self,
        alloc: Global,
        deployment: &Deployment,
        at: u64,
        from: u16,
        heard: Heard<Purpose>,
    ) -> Result<(Self, Consequences), NoMemory>
        requires { IsActing deployment.now self }
        ensures acting { IfOk result (λ made.
            made.0 ≡ (making.arrives M.declared M.turn deployment.now at from heard self).acting) }
        ensures came { IfOk result (λ made.
            made.1 ≡ (making.arrives M.declared M.turn deployment.now at from heard self).came) }
        ensures kept { IfOk result (λ made. IsActing deployment.now made.0) }
    {
        let Acting { role } = self;
        match role {
            Role::Member(member) => {
                match accept(alloc, deployment, &member, from, heard)? {
                    Some(occurrence) => happen(member, at, occurrence),
                    None => Ok((Acting::member(member), Consequences::a_drop(alloc))),
                }
            }
            Role::Ringmaster(mut ring) => {
                let came = perform_heard(alloc, deployment, &mut *ring, heard)?;
                Ok((Acting::ringmaster(ring), came))
            }
        }
    }

    /// A node is declared to be down.
    pub fn learn_down(
        self,
        alloc: Global,
        at: u64,
        node: u16,
    ) -> Result<(Self, Consequences), NoMemory>
        ensures acting { IfOk result (λ made.
            made.0 ≡ (making.learns_down M.declared M.turn at node self).acting) }
        ensures came { IfOk result (λ made.
            made.1 ≡ (making.learns_down M.declared M.turn at node self).came) }
        ensures kept { (d : Deployed) → IsActing d self → IfOk result (λ made. IsActing d made.0) }
    {
        let Acting { role } = self;
        match role {
            Role::Member(member) => happen(member, at, Occurrence::Declared(node)),
            Role::Ringmaster(ring) => {
                Ok((Acting::ringmaster(ring), Consequences::nothing(alloc)))
            }
        }
    }

    /// The node is told to join its troupe.
    pub fn join(self, alloc: Global, at: u64) -> Result<(Self, Consequences), NoMemory>
        ensures acting { IfOk result (λ made.
            made.0 ≡ (making.is_told_to_join M.declared M.turn at self).acting) }
        ensures came { IfOk result (λ made.
            made.1 ≡ (making.is_told_to_join M.declared M.turn at self).came) }
        ensures kept { (d : Deployed) → IsActing d self → IfOk result (λ made. IsActing d made.0) }
    {
        let Acting { role } = self;
        match role {
            Role::Member(member) => happen(member, at, Occurrence::Joins),
            Role::Ringmaster(ring) => {
                Ok((Acting::ringmaster(ring), Consequences::nothing(alloc)))
            }
        }
    }

    /// What the member did. `None` exactly at the Ringmaster's node. It takes no memory.
    pub fn record(&self) -> Option<&MemberRecord>
        ensures value { option_copied result ≡ record_of self.now }
        ensures kept { IsRecorded M.declared M.turn M.first self.now }
    {
        match &self.role {
            Role::Member(member) => Some(member.record()),
            Role::Ringmaster(_) => None,
        }
    }

    /// The state with which the member became active. `None` exactly at the Ringmaster's node. It takes no memory.
    pub fn activation_state(&self) -> Option<&State>
        ensures { option_copied result ≡ state_at_activation self.now }
    {
        match &self.role {
            Role::Member(member) => Some(member.activation_state()),
            Role::Ringmaster(_) => None,
        }
    }

    /// The Ringmaster's views. `None` exactly at another node. It takes no memory.
    pub fn views(&self) -> Option<&Views>
        ensures { option_copied result ≡ views_of self.now }
    {
        match &self.role {
            Role::Member(_) => None,
            Role::Ringmaster(ring) => Some(ring.views()),
        }
    }
}

// Something happens to a member in a step.
fn happen<M: Module>(
    member: Member<M>,
    at: u64,
    occurrence: Occurrence,
) -> Result<(Acting<M>, Consequences), NoMemory>
    requires { CanHappen (M.declared member.performing.hosted) member occurrence }
    ensures acting { IfOk result (λ made.
        made.0 ≡ (making.happens M.declared M.turn at member occurrence).acting) }
    ensures came { IfOk result (λ made.
        made.1 ≡ (making.happens M.declared M.turn at member occurrence).came) }
    ensures kept { (d : Deployed) → IsMemberOf d member → IfOk result (λ made. IsActing d made.0) }
{
    let (member, effects, differences) = member.step(at, occurrence)?;
    let came = Consequences::of(effects, differences);
    Ok((Acting::member(member), came))
}

// The Ringmaster hears a message: a request is performed.
fn perform_heard(
    alloc: Global,
    deployment: &Deployment,
    ring: &mut Ring,
    heard: Heard<Purpose>,
) -> Result<Consequences, NoMemory>
    requires { IsRingOf deployment.now ring.old }
    ensures ring { OnOk result (ring.new ≡ (making.arrives_at_ring heard ring.old).0) }
    ensures came { IfOk result (λ came. came ≡ (making.arrives_at_ring heard ring.old).1) }
    ensures kept { OnOk result (IsRingOf deployment.now ring.new) }
{
    match heard {
        Heard::Called(sender, message) => {
            perform_called(alloc, deployment, ring, sender, &message)
        }
        Heard::Dropped => Ok(Consequences::a_drop(alloc)),
        Heard::Taken => Ok(Consequences::a_drop(alloc)),
        Heard::Returned(_number, _purpose, _message) => Ok(Consequences::a_drop(alloc)),
    }
}

// A call arrives.
fn perform_called(
    alloc: Global,
    deployment: &Deployment,
    ring: &mut Ring,
    sender: Caller,
    message: &Parts,
) -> Result<Consequences, NoMemory>
    requires { IsRingOf deployment.now ring.old }
    ensures ring { OnOk result (ring.new ≡ (making.called_at_ring sender message.now ring.old).0) }
    ensures came { IfOk result (λ came.
        came ≡ (making.called_at_ring sender message.now ring.old).1) }
    ensures kept { OnOk result (IsRingOf deployment.now ring.new) }
{
    let Some(request) = accept_request(alloc, ring, message)? else {
        return Ok(Consequences::a_drop(alloc));
    };
    perform(alloc, deployment, ring, sender, &request)
}

// A request is performed, and its call is answered.
fn perform(
    alloc: Global,
    deployment: &Deployment,
    ring: &mut Ring,
    sender: Caller,
    request: &Request,
) -> Result<Consequences, NoMemory>
    requires ring { IsRingOf deployment.now ring.old }
    requires about { ring_table.troupe_of request.now < length ring.old.troupes }
    ensures ring { OnOk result (ring.new ≡ ring_table.kept_by ring.old request.now) }
    ensures came { IfOk result (λ came.
        came ≡ making.consequences (making.table_answers ring.old sender request.now) []) }
    ensures kept { OnOk result (IsRingOf deployment.now ring.new) }
{
    let effects = answer_request(alloc, deployment, ring, sender, request)?;
    Ok(Consequences::of(effects, ListOf::new(alloc)))
}

/// What the Ringmaster of a program makes of a request that was accepted: the return to its call, which has the table
/// (docs/PROTOCOL.md, "The Ringmaster"). `NoMemory` where memory runs out.
pub fn answer_request(
    alloc: Global,
    deployment: &Deployment,
    ring: &mut Ring,
    sender: Caller,
    request: &Request,
) -> Result<Effects, NoMemory>
    requires ring { IsRingOf deployment.now ring.old }
    requires about { ring_table.troupe_of request.now < length ring.old.troupes }
    ensures ring { OnOk result (ring.new ≡ ring_table.kept_by ring.old request.now) }
    ensures made { IfOk result (λ made.
        made ≡ making.table_answers ring.old sender request.now) }
    ensures kept { OnOk result (IsRingOf deployment.now ring.new) }
{
    let table = ring.perform(request)?;
    let message = table_message(alloc, &table)?;
    let mut effects = ListOf::new(alloc);
    effects.push(Effect::Answer {
        caller: sender,
        message,
    })?;
    Ok(effects)
}

// A table as a return.
fn table_message(alloc: Global, table: &Table) -> Result<Message, NoMemory>
    requires { IsTable table.now }
    ensures { IfOk result (λ message. message ≡ making.table_message table.now) }
{
    let mut message = ListOf::new(alloc);
    write_return(alloc, &ReturnHeader::Table, &mut message)?;
    write_table(alloc, table, &mut message)?;
    Ok(message)
}
