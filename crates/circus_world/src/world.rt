// A program on simulated machines.
ghost use Rattle.std.specs.Prelude.{◌≡◌, ◌<◌, [], ◌∷◌, ◌++◌, length, map, vec_len, slice_get, option_copied, option_map, option_and_then, IfOk, OnOk};
ghost use Rattle.circus_collate.specs.Deployment.{IsDeployment};
ghost use Rattle.circus_schedule.specs.Meaning.{NamesBelow};
ghost use Rattle.circus_node.specs.NodeState.{member_record as record_of, ring_views as views_of};
ghost use Rattle.circus_node.specs.Booting.{AreOfTroupes};
ghost use Rattle.circus_node.specs.Recorded.{IsRecorded};
ghost use Rattle.circus_world.specs.Sent.{Sent as SentOf};
ghost use Rattle.circus_world.specs.WorldState.{Standing};
ghost use Rattle.circus_world.specs.Legal as legal;
ghost use Rattle.circus_world.specs.Legal.{refusal};
ghost use Rattle.circus_world.specs.Course as course;
ghost use Rattle.circus_world.specs.Answers.{IsStepped, IsBooted};
ghost use Rattle.circus_world.specs.Seen.Coming.{MayCome};
ghost use Rattle.circus_world.specs.Seen.Followed.{IsFollowed};
ghost use Rattle.circus_world.specs.Seen.Made.{CanMake};
ghost use Rattle.circus_world.specs.Seen.MadeAt.{loss_of, IsMadeAt, IsBootedAt, AreBooted};
ghost use Rattle.circus_world.specs.declared.slot.Slot.{Slot as SlotOf};

use crate::legal::is_spare;
use crate::slot::Slot;
use crate::{Line, LineCause, SentList};
use circus_collate::{Deployment, Views};
use circus_model::Module;
use circus_node::{Event, Gives, NodeCore, StepFault};
use circus_record::MemberRecord;
use circus_value::NoMemory;
use std::alloc::{AllocError, Global};
use std::marker::Model;
use thiserror::Error;

/// The nodes of a program after boot and some lines, and what they have sent (docs/PROTOCOL.md, "The world").
pub struct World<M: Module> {
    inside: Box<Inside<M>>,
}

// What it is, in a box, so that a step moves a word (docs/PROOFS.md, "Speed").
struct Inside<M: Module> {
    deployment: Deployment,
    modules: Vec<M>,
    slots: Vec<Slot<M>>,
    sent: SentList,
    steps: u64,
}

// Written out, so that dropping one is one step of a proof (docs/PROOFS.md, "Cost").
impl<M: Module> Drop for Inside<M> {
    fn drop(self) {
        let Inside {
            deployment: _,
            modules: _,
            slots: _,
            sent: _,
            steps: _,
        } = self;
    }
}

impl<M: Module> Drop for World<M> {
    fn drop(self) {
        let World { inside: _ } = self;
    }
}

impl<M: Module> Model for World<M> {
    ghost use Rattle.circus_world.specs.WorldState.{WorldState};
    ghost use Rattle.circus_world.specs.Seen.Inside.{inside_of, IsSoundInside};
    ghost use Rattle.circus_world.specs.Seen.WorldCode.{world_code};

    ghost Value = { WorldState M };

    ghost coded = { world_code M.code };

    ghost view = { λ a. inside_of a.inside.value };

    ghost invariant = { λ a. IsSoundInside a.inside.value };
}

/// Why no world boots.
#[derive(Clone, Copy, Debug, PartialEq, Eq, Drop, Error)]
pub enum BootFault {
    /// Memory ran out.
    #[error("out of memory")]
    NoMemory,

    /// The first node has no number left for a call to the second.
    #[error("node {0} has no number left for node {1}")]
    Spent(u16, u16),
}

impl From<NoMemory> for BootFault {
    ghost use Rattle.std.specs.Prelude.{◌≡◌};
    ghost use Rattle.circus_world.specs.declared.world.BootFault.TheVariants.{NoMemory};

    ghost from_gives = { λ _ fault. fault ≡ NoMemory };

    fn from(_refused: NoMemory) -> Self {
        BootFault::NoMemory
    }
}

/// Why a line was not stepped.
#[derive(Drop, Error)]
pub enum WorldFault<M: Module> {
    /// The line may not be stepped: the world as it was, and why.
    #[error("the line may not be stepped")]
    Illegal(World<M>, LineCause),

    /// Memory ran out, and the world is gone.
    #[error("out of memory")]
    NoMemory,

    /// The first node has no number left for a call to the second, and the world is gone.
    #[error("node {0} has no number left for node {1}")]
    Spent(u16, u16),
}

impl<M: Module> World<M> {
    /// The nodes of a program at boot, which is step 0, each with a copy of its troupe's module; what they send then is sent
    /// in the order of the nodes. There is one module for each troupe; its conditions are in `IsOfTroupe`.
    ///
    /// `Spent` exactly where a node's boot is refused so; `NoMemory` where memory runs out.
    pub fn boot(alloc: Global, deployment: Deployment, modules: Vec<M>) -> Result<Self, BootFault>
        requires deployment { IsDeployment deployment }
        requires modules { AreOfTroupes deployment (map M.declared modules.items) }
        ensures { IsBooted M.declared M.turn M.first deployment modules.items result }
    {
        let mut slots = Vec::new(alloc);
        let mut sent = SentList::new(alloc);
        boot_all(
            alloc,
            &deployment,
            modules.as_slice(),
            &mut slots,
            &mut sent,
        )?;
        let own = Inside {
            deployment,
            modules,
            slots,
            sent,
            steps: 0,
        };
        let inside = in_box(alloc, own)?;
        Ok(World { inside })
    }

    /// Steps a line: each is one step, the first of them step 1 (docs/FORMATS.md, "Schedules"). The line names nodes of the
    /// program.
    ///
    /// `Illegal` exactly where the line may not be stepped, with the world as it was and the first cause; `Spent` exactly
    /// where the step of a node is refused so; `NoMemory` where memory runs out. After these two the world is gone.
    pub fn step(self, line: &Line) -> Result<Self, WorldFault<M>>
        requires named { NamesBelow (length self.nodes) line.now }
        requires few { self.steps < 18446744073709551615 }
        ensures { IsStepped M.declared M.turn line.now self result }
    {
        if let Some(cause) = self.refusal(line) {
            return Err(WorldFault::Illegal(self, cause));
        }
        match self.follow(line) {
            Ok(world) => Ok(world),
            Err(Loss::NoMemory) => Err(WorldFault::NoMemory),
            Err(Loss::Spent(node, peer)) => Err(WorldFault::Spent(node, peer)),
        }
    }

    /// The program's troupes and nodes, each of which stands in the world. It takes no memory.
    pub fn deployment(&self) -> &Deployment
        ensures value { result.now ≡ self.now.deployment }
        ensures is { IsDeployment self.now.deployment }
        ensures all { length self.now.nodes ≡ length self.now.deployment.nodes }
    {
        &self.inside.deployment
    }

    /// All that was sent, in order: the place of a datagram is its number. It takes no memory.
    pub fn sent(&self) -> &SentList
        ensures { result.now ≡ self.now.sent }
    {
        &self.inside.sent
    }

    /// What the member at a node did, up to its crash where the node has crashed. `None` exactly where it hosts none. It
    /// takes no memory.
    pub fn kept(&self, node: u16) -> Option<&MemberRecord>
        requires { node < length self.now.nodes }
        ensures value { option_copied result
            ≡ option_and_then (λ s. record_of s.node.acting) (slice_get self.now.nodes node) }
        ensures kept { (s : Standing M) → slice_get self.now.nodes node ≡ Some s
            → IsRecorded M.declared M.turn M.first s.node.acting }
    {
        self.core(node).member_record()
    }

    /// The step in which a node crashed. `None` exactly where it is live. It takes no memory.
    pub fn crashed(&self, node: u16) -> Option<u64>
        requires { node < length self.now.nodes }
        ensures { result ≡ option_and_then (λ s. s.crashed) (slice_get self.now.nodes node) }
    {
        self.inside.slots[usize::from(node)].crashed
    }

    /// The views that the Ringmaster keeps, one a troupe, up to its crash where its node has crashed. It takes no memory.
    pub fn ring_views(&self) -> &Views
        ensures { option_and_then (λ s. views_of s.node.acting) (slice_get self.now.nodes 0)
            ≡ Some result.now }
    {
        let Some(core) = &self.inside.slots[0].core else {
            unreachable!();
        };
        match core.ring_views() {
            Some(views) => views,
            None => unreachable!(),
        }
    }

    /// A node's own core, which is that of the crash where the node has crashed. It takes no memory.
    pub fn core(&self, node: u16) -> &NodeCore<M>
        requires { node < length self.now.nodes }
        ensures { option_map (λ s. s.node) (slice_get self.now.nodes node) ≡ Some result.now }
    {
        match &self.inside.slots[usize::from(node)].core {
            Some(core) => core,
            None => unreachable!(),
        }
    }

    // Why a line may not be stepped.
    fn refusal(&self, line: &Line) -> Option<LineCause>
        requires { NamesBelow (length self.now.nodes) line.now }
        ensures { result ≡ refusal self.now line.now }
    {
        match *line {
            Line::Deliver(number) => self.unless_sent(number),
            Line::Tick(node) => self.unless_live(node),
            Line::Crash(node) => self.unless_live(node),
            Line::Down(node, told) => {
                if self.crashed(node).is_none() {
                    return Some(LineCause::NotCrashed(node));
                }
                self.unless_live(told)
            }
            Line::Join(node) => self.unless_may_join(node),
        }
    }

    fn unless_sent(&self, number: u64) -> Option<LineCause>
        ensures { result ≡ legal.unless_sent self.now number }
    {
        let sent = self.inside.sent.len() as u64;
        if number < sent {
            None
        } else {
            Some(LineCause::NoDatagram(number, sent))
        }
    }

    #[tactic(auto, using(crate::proofs::LegalLemmas::live, crate::proofs::LegalLemmas::down))]
    fn unless_live(&self, node: u16) -> Option<LineCause>
        requires { node < length self.now.nodes }
        ensures { result ≡ legal.unless_live self.now node }
    {
        match self.crashed(node) {
            None => None,
            Some(_) => Some(LineCause::NotLive(node)),
        }
    }

    fn unless_may_join(&self, node: u16) -> Option<LineCause>
        requires { node < length self.now.nodes }
        ensures { result ≡ refusal self.now (Line.Join node) }
    {
        if !is_spare(&self.inside.deployment, node) {
            return Some(LineCause::NotSpare(node));
        }
        if let Some(cause) = self.unless_live(node) {
            return Some(cause);
        }
        if self.inside.slots[usize::from(node)].joins {
            return Some(LineCause::AlreadyJoined(node));
        }
        None
    }

    // A line that may be stepped.
    fn follow(self, line: &Line) -> Result<Self, Loss>
        requires named { NamesBelow (length self.nodes) line.now }
        requires few { self.steps < 18446744073709551615 }
        requires legal { refusal self line.now ≡ None }
        ensures { IsFollowed result (course.step_line M.declared M.turn line.now self) }
    {
        match *line {
            Line::Deliver(number) => self.deliver(number),
            Line::Tick(node) => self.comes_to(node, Event::Tick),
            Line::Crash(node) => Ok(self.crash(node)),
            Line::Down(node, told) => self.comes_to(told, Event::Down(node)),
            Line::Join(node) => self.tell_to_join(node).comes_to(node, Event::Join),
        }
    }

    // A datagram is delivered; one for a crashed node is lost.
    fn deliver(self, number: u64) -> Result<Self, Loss>
        requires few { self.steps < 18446744073709551615 }
        ensures { IsFollowed result
            (course.step_line M.declared M.turn (Line.Deliver number) self) }
    {
        let Some(sent) = self.inside.sent.get(number as usize) else {
            return Ok(self);
        };
        if self.crashed(sent.to).is_some() {
            return Ok(self.pass());
        }
        self.hear(number)
    }

    // A datagram comes to its node, which makes a step: its bytes are read where they stand.
    fn hear(self, number: u64) -> Result<Self, Loss>
        requires there { number < length self.sent }
        requires few { self.steps < 18446744073709551615 }
        ensures { (sent : SentOf) → slice_get self.sent number ≡ Some sent
            → IsFollowed result (course.comes_to M.declared M.turn sent.to
            (Event.Datagram sent.from sent.bytes) self) }
    {
        let World { mut inside } = self;
        let own = &mut *inside;
        let step = own.steps + 1;
        let sent = own.sent.at(number as usize);
        let node = sent.to;
        let gives = hear_at(&mut own.slots, node, step, sent.from, sent.bytes)?;
        send(step, node, gives, &mut own.sent)?;
        own.steps = step;
        Ok(World { inside })
    }

    // Something comes to a node, which makes a step.
    fn comes_to(self, node: u16, event: Event) -> Result<Self, Loss>
        requires node { node < length self.nodes }
        requires few { self.steps < 18446744073709551615 }
        requires event { MayCome (length self.nodes) node event }
        ensures { IsFollowed result (course.comes_to M.declared M.turn node event self) }
    {
        let World { mut inside } = self;
        let own = &mut *inside;
        let at = own.steps + 1;
        let gives = make_at(&mut own.slots, node, at, event)?;
        send(at, node, gives, &mut own.sent)?;
        own.steps = at;
        Ok(World { inside })
    }

    // A step in which no node does anything.
    fn pass(self) -> Self
        requires { self.steps < 18446744073709551615 }
        ensures { result ≡ course.pass_step self }
    {
        let World { mut inside } = self;
        let own = &mut *inside;
        own.steps += 1;
        World { inside }
    }

    fn crash(self, node: u16) -> Self
        requires node { node < length self.nodes }
        requires few { self.steps < 18446744073709551615 }
        ensures { result ≡ course.crash_node node self }
    {
        let World { mut inside } = self;
        let own = &mut *inside;
        own.steps += 1;
        own.slots[usize::from(node)].crashed = Some(own.steps);
        World { inside }
    }

    fn tell_to_join(self, node: u16) -> Self
        requires { node < length self.nodes }
        ensures { result ≡ course.told_to_join node self }
    {
        let World { mut inside } = self;
        let own = &mut *inside;
        own.slots[usize::from(node)].joins = true;
        World { inside }
    }
}

// Why a world is gone.
#[derive(Clone, Copy, Debug, Drop)]
enum Loss {
    NoMemory,
    Spent(u16, u16),
}

impl Loss {
    // That of a node's step.
    fn of(node: u16, fault: StepFault) -> Self
        ensures { result ≡ loss_of node fault }
    {
        match fault {
            StepFault::NoMemory => Loss::NoMemory,
            StepFault::Spent(peer) => Loss::Spent(node, peer),
        }
    }
}

impl From<NoMemory> for Loss {
    ghost use Rattle.std.specs.Prelude.{◌≡◌};
    ghost use Rattle.circus_world.specs.declared.world.Loss.TheVariants.{NoMemory};

    ghost from_gives = { λ _ loss. loss ≡ NoMemory };

    fn from(_refused: NoMemory) -> Self {
        Loss::NoMemory
    }
}

fn in_box<M: Module>(alloc: Global, inside: Inside<M>) -> Result<Box<Inside<M>>, NoMemory>
    ensures { IfOk result (λ held. held.value ≡ inside) }
{
    Ok(Box::new(alloc, inside)?)
}

fn add<M: Module>(slots: &mut Vec<Slot<M>>, slot: Slot<M>) -> Result<(), NoMemory>
    ensures { OnOk result (slots.new.items ≡ slots.old.items ++ slot ∷ []) }
{
    match slots.push(slot) {
        Ok(()) => Ok(()),
        Err(refused) => Err(AllocError::from(refused)),
    }
}

// All nodes boot.
fn boot_all<M: Module>(
    alloc: Global,
    deployment: &Deployment,
    modules: &[M],
    slots: &mut Vec<Slot<M>>,
    sent: &mut SentList,
) -> Result<(), BootFault>
    requires deployment { IsDeployment deployment.now }
    requires modules { AreOfTroupes deployment.now (map M.declared modules.now) }
    requires slots { slots.old.items ≡ [] }
    requires sent { sent.old ≡ [] }
    ensures { AreBooted M.declared M.turn M.first deployment.now modules.now slots.new.items
        sent.new result }
{
    for node in 0..deployment.nodes.len() as u16 {
        boot_at(alloc, deployment, modules, node, slots, sent)?;
    }
    Ok(())
}

// A node boots behind those before it.
fn boot_at<M: Module>(
    alloc: Global,
    deployment: &Deployment,
    modules: &[M],
    node: u16,
    slots: &mut Vec<Slot<M>>,
    sent: &mut SentList,
) -> Result<(), BootFault>
    requires deployment { IsDeployment deployment.now }
    requires modules { AreOfTroupes deployment.now (map M.declared modules.now) }
    requires within { node < length deployment.now.nodes }
    ensures { IsBootedAt M.declared M.turn M.first deployment.now modules.now node slots.old.items
        sent.old slots.new.items sent.new result }
{
    let (core, outputs) = match NodeCore::boot_of(alloc, deployment, modules, node) {
        Ok(booted) => booted,
        Err(StepFault::NoMemory) => return Err(BootFault::NoMemory),
        Err(StepFault::Spent(peer)) => return Err(BootFault::Spent(node, peer)),
    };
    add(slots, Slot::of(core))?;
    send(0, node, outputs.gives, sent)?;
    Ok(())
}

// A node makes a step, and what it gives.
fn make_at<M: Module>(
    slots: &mut Vec<Slot<M>>,
    node: u16,
    at: u64,
    event: Event,
) -> Result<Gives, Loss>
    requires node { node < vec_len slots.old }
    requires can { (slot : SlotOf M M.Paused) → slice_get slots.old.items node ≡ Some slot
        → CanMake event slot }
    ensures { IsMadeAt M.declared M.turn at node event slots.old.items slots.new.items result }
{
    match slots[usize::from(node)].make_step(at, event) {
        Ok(gives) => Ok(gives),
        Err(fault) => Err(Loss::of(node, fault)),
    }
}

// As `make_at` with a datagram of another node.
fn hear_at<M: Module>(
    slots: &mut Vec<Slot<M>>,
    node: u16,
    at: u64,
    from: u16,
    datagram: &[u8],
) -> Result<Gives, Loss>
    requires node { node < vec_len slots.old }
    requires can { (slot : SlotOf M M.Paused) → slice_get slots.old.items node ≡ Some slot
        → CanMake (Event.Datagram from datagram.now) slot }
    ensures { IsMadeAt M.declared M.turn at node (Event.Datagram from datagram.now)
        slots.old.items slots.new.items result }
{
    match slots[usize::from(node)].hear(at, from, datagram) {
        Ok(gives) => Ok(gives),
        Err(fault) => Err(Loss::of(node, fault)),
    }
}

// What a node gives in a step is sent.
fn send(step: u64, node: u16, gives: Gives, sent: &mut SentList) -> Result<(), NoMemory>
    ensures { OnOk result (sent.new ≡ sent.old ++ map (course.sent_by step node) gives) }
{
    for give in gives.into_items() {
        sent.push(step, node, give.to, give.bytes.as_slice())?;
    }
    Ok(())
}
