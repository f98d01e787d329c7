// A member's node that lives through the events of a record as the definitions say of it.
ghost use Rattle.std.specs.Prelude.{◌≡◌, ℕ, ◌+◌, ◌<◌, ◌≤◌, true, false, [], ◌∷◌, ◌++◌, length, All, None, Some, List, IfOk, OnOk, IfSome};
ghost use Rattle.std.specs.Bool.{Decides};
ghost use Rattle.circus_value.specs.ValueTree.{ValueTree};
ghost use Rattle.circus_value.specs.Fits.{all_fit};
ghost use Rattle.circus_collate.specs.Deployment.{IsDeployment};
ghost use Rattle.circus_collate.specs.declared.deployment.Troupe.{Troupe};
ghost use Rattle.circus_collate.specs.declared.view.View.{View};
ghost use Rattle.circus_ring.specs.RingTable.{boot_views};
ghost use Rattle.circus_transfer.specs.declared.joiner.Joiner.{Joiner as Phase};
ghost use Rattle.circus_model.specs.Behaviour.{Behaviour};
ghost use Rattle.circus_performing.specs.Performing as performing;
ghost use Rattle.circus_performing.specs.Record.{behaviour};
ghost use Rattle.circus_member_rules.specs.Happening.{IsHome};
ghost use Rattle.circus_member_theory.specs.Living as beginnings;
ghost use Rattle.circus_member_theory.specs.Past.{Past, Rises, now};
ghost use Rattle.circus_dues.specs.Dues.{IsInTimeSoFar};
ghost use Rattle.circus_dues.specs.Seen.Owing.{CanCome};
ghost use Rattle.circus_dues.specs.Seen.Sound.{IsSayable, IsSoundOwing};
ghost use Rattle.circus_audit.specs.declared.given.GivenEvent.{GivenEvent as Told};
ghost use Rattle.circus_verdict.specs.Seen.Living as living;
ghost use Rattle.circus_verdict.specs.Seen.Living.{HasCome, IsOf, IsReady, Owes, LivesThrough, EndsSo, RunsThrough};

use crate::same::Same;
use crate::station::{Came, Pairs};
use crate::telling::{awaited_behind, is_told};
use circus_audit::GivenEvent;
use circus_collate::Deployment;
use circus_dues::{Dues, follows};
use circus_member_rules::{Beginning, Difference, Effects, Occurrence, Purpose};
use circus_model::{Module, Signature};
use circus_node::{Event, Gives, Home, accept_by_record};
use circus_record::MemberRecord;
use circus_ring::Ring;
use circus_transfer::Joiner;
use circus_value::{Duplicate, ListOf, NoMemory, Nodes, State};
use circus_wire::Heard;
use std::alloc::Global;

/// A member of a program, and its record in the end.
#[derive(Clone, Copy)]
pub(crate) struct Subject<'r> {
    pub alloc: Global,
    pub deployment: &'r Deployment,
    pub home: &'r Home,
    pub signature: &'r Signature,
    pub kept: &'r MemberRecord,
}

/// Its node behind events of a record.
#[derive(Drop)]
pub(crate) struct Lived<'r> {
    pub pairs: Pairs,
    pub dues: Dues<'r>,
    /// The suspected nodes that are still to be declared.
    pub awaited: Nodes,
}

impl<'r> Lived<'r> {
    /// Its node that has booted, with this first state. `None` where the record doesn't say that.
    pub fn begin(
        of: &Subject<'r>,
        first: State,
        boot: &GivenEvent,
    ) -> Result<Option<Self>, NoMemory>
        requires deployment { IsDeployment of.now.deployment.now }
        requires node { of.now.home.now.place.node < length of.now.deployment.now.nodes }
        requires home { IsHome of.now.signature.now of.now.home.now.place
            (boot_views of.now.deployment.now.troupes) }
        requires sayable { IsSayable of.now.signature.now
            (length of.now.deployment.now.troupes) of.now.kept.now }
        requires first { all_fit of.now.signature.now.variables first ≡ true }
        requires few { of.now.kept.now.from + length of.now.kept.now.runs ≤ 4294967296 }
        requires boot { boot.now.event ≡ None }
        ensures ready { IfOk result (λ o. IfSome o (IsReady of.now.deployment.now
            of.now.home.now of.now.signature.now of.now.kept.now)) }
        ensures lived { (b : Behaviour) (node number : ℕ) (troupe : Troupe)
            → IsOf of.now.deployment.now of.now.home.now of.now.signature.now b node number troupe
            → first ≡ b.first
            → IfOk result (LivesThrough of.now.deployment.now b node number troupe
            of.now.kept.now (boot.now ∷ [])) }
    {
        let ring = Ring::new(of.alloc, of.deployment)?;
        let views = ring.views().copy()?;
        let mut pairs = Pairs::new(of.alloc, of.deployment, of.home.place.node)?;
        let begins = phase_at_boot(of.home.beginning);
        let (dues, made) = Dues::begin(
            of.alloc,
            &of.home.place,
            of.signature,
            views,
            begins,
            first,
            of.kept,
        )?;
        if !dues.is_in_time() {
            return Ok(None);
        }
        let tells = is_told(boot, &mut pairs, made, Gives::new(of.alloc), &None)?;
        if !tells {
            return Ok(None);
        }
        Ok(Some(Lived {
            pairs,
            dues,
            awaited: ListOf::new(of.alloc),
        }))
    }

    /// Its next event, which has this step. `None` where the record doesn't say what is owed in it.
    pub fn step(
        self,
        of: &Subject<'r>,
        at: u64,
        told: &GivenEvent,
    ) -> Result<Option<Self>, NoMemory>
        requires come { HasCome of.now.deployment.now of.now.home.now.place.node told.now }
        requires ready { IsReady of.now.deployment.now of.now.home.now of.now.signature.now
            of.now.kept.now self }
        ensures ready { IfOk result (λ o. IfSome o (IsReady of.now.deployment.now
            of.now.home.now of.now.signature.now of.now.kept.now)) }
        ensures lived { (b : Behaviour) (node number : ℕ) (troupe : Troupe) (events : List Told)
            → IsOf of.now.deployment.now of.now.home.now of.now.signature.now b node number troupe
            → at ≡ length events
            → LivesThrough of.now.deployment.now b node number troupe of.now.kept.now events
            (Some self.entry)
            → IfOk result (LivesThrough of.now.deployment.now b node number troupe
            of.now.kept.now (events ++ told.now ∷ [])) }
    {
        let Some(event) = &told.event else {
            unreachable!()
        };
        let Lived {
            mut pairs,
            mut dues,
            awaited,
        } = self;
        let Came {
            gives,
            suspects,
            heard,
        } = pairs.take(event)?;
        let occurrence = happens(of, event, heard)?;
        let (made, differs) = owe(of.alloc, &mut dues, at, occurrence)?;
        if !dues.is_in_time() {
            return Ok(None);
        }
        let tells = is_told(told, &mut pairs, made, gives, &differs)?;
        if !tells {
            return Ok(None);
        }
        let Some(awaited) = awaited_behind(of.alloc, awaited, event, suspects)? else {
            return Ok(None);
        };
        Ok(Some(Lived {
            pairs,
            dues,
            awaited,
        }))
    }

    /// Whether the record ends here, as a run of the node.
    pub fn ends_so<M: Module>(&self, of: &Subject<'r>, module: &M) -> Result<bool, NoMemory>
        requires ready { IsReady of.now.deployment.now of.now.home.now of.now.signature.now
            of.now.kept.now self.now }
        requires apart { performing.is_active of.now.kept.now.phase ≡ false
            → (of.now.kept.now.from ≡ 0) × (of.now.kept.now.active_at ≡ 0) }
        ensures { (node number : ℕ) (troupe : Troupe) (events : List Told)
            → IsOf of.now.deployment.now of.now.home.now of.now.signature.now
            (behaviour M.declared M.turn M.first «module».now) node number troupe
            → LivesThrough of.now.deployment.now (behaviour M.declared M.turn M.first «module».now)
            node number troupe of.now.kept.now events (Some self.now)
            → IfOk result (EndsSo of.now.deployment.now
            (behaviour M.declared M.turn M.first «module».now) node number troupe of.now.kept.now
            events self.now.dues.owing.began) }
    {
        if !self.awaited.is_empty() {
            return Ok(false);
        }
        if !self.dues.is_timely() {
            return Ok(false);
        }
        if !tells_phase(of.kept.phase, self.dues.phase()) {
            return Ok(false);
        }
        follows(of.alloc, module, self.dues.began(), of.kept)
    }
}

/// A member's node lives through boot and later events of a record, each in the step of its number: it behind them, where
/// they are those of a run.
pub(crate) fn live_through<'r, M: Module>(
    of: &Subject<'r>,
    module: &M,
    boot: &GivenEvent,
    later: &[GivenEvent],
) -> Result<Option<Lived<'r>>, NoMemory>
    requires deployment { IsDeployment of.now.deployment.now }
    requires node { of.now.home.now.place.node < length of.now.deployment.now.nodes }
    requires home { IsHome of.now.signature.now of.now.home.now.place
        (boot_views of.now.deployment.now.troupes) }
    requires declared { of.now.signature.now ≡ M.declared «module».now }
    requires sayable { IsSayable of.now.signature.now
        (length of.now.deployment.now.troupes) of.now.kept.now }
    requires apart { performing.is_active of.now.kept.now.phase ≡ false
        → (of.now.kept.now.from ≡ 0) × (of.now.kept.now.active_at ≡ 0) }
    requires few { of.now.kept.now.from + length of.now.kept.now.runs ≤ 4294967296 }
    requires boot { boot.now.event ≡ None }
    requires come { All (HasCome of.now.deployment.now of.now.home.now.place.node) later.now }
    ensures { (node number : ℕ) (troupe : Troupe)
        → IsOf of.now.deployment.now of.now.home.now of.now.signature.now
        (behaviour M.declared M.turn M.first «module».now) node number troupe
        → IfOk result (RunsThrough of.now.deployment.now
        (behaviour M.declared M.turn M.first «module».now) node number troupe of.now.kept.now
        (boot.now ∷ later.now)) }
{
    let first = module.first_state()?;
    let Some(begun) = Lived::begin(of, first, boot)? else {
        return Ok(None);
    };
    let Some(lived) = live(of, begun, later)? else {
        return Ok(None);
    };
    let ends = lived.ends_so(of, module)?;
    if ends { Ok(Some(lived)) } else { Ok(None) }
}

// One that has lived through its first event lives through the others.
fn live<'r>(
    of: &Subject<'r>,
    begun: Lived<'r>,
    later: &[GivenEvent],
) -> Result<Option<Lived<'r>>, NoMemory>
    requires come { All (HasCome of.now.deployment.now of.now.home.now.place.node) later.now }
    requires ready { IsReady of.now.deployment.now of.now.home.now of.now.signature.now
        of.now.kept.now begun }
    ensures ready { IfOk result (λ o. IfSome o (IsReady of.now.deployment.now of.now.home.now
        of.now.signature.now of.now.kept.now)) }
    ensures lived { (b : Behaviour) (node number : ℕ) (troupe : Troupe) (boot : Told)
        → IsOf of.now.deployment.now of.now.home.now of.now.signature.now b node number troupe
        → LivesThrough of.now.deployment.now b node number troupe of.now.kept.now (boot ∷ [])
        (Some begun.entry)
        → IfOk result (LivesThrough of.now.deployment.now b node number troupe of.now.kept.now
        (boot ∷ later.now)) }
{
    let mut lived = begun;
    for (place, told) in later.iter().enumerate() {
        match lived.step(of, place as u64 + 1, told)? {
            Some(on) => lived = on,
            None => return Ok(None),
        }
    }
    Ok(Some(lived))
}

// The phase in which a member begins.
fn phase_at_boot(beginning: Beginning) -> Joiner
    ensures { result ≡ beginnings.phase_at_boot beginning }
{
    match beginning {
        Beginning::Founder => Joiner::Active(0),
        Beginning::Spare => Joiner::Outside,
    }
}

// What happens to the member by an event of which this is heard.
fn happens(
    of: &Subject<'_>,
    event: &Event,
    heard: Heard<Purpose>,
) -> Result<Option<Occurrence>, NoMemory>
    ensures happens { IfOk result (λ o. o ≡ living.happening of.now.deployment.now
        of.now.signature.now of.now.home.now.place.troupe of.now.kept.now event.now heard) }
    ensures can { IfOk result (λ o. IfSome o (CanCome of.now.signature.now
        of.now.home.now.place.troupe (length of.now.deployment.now.troupes))) }
{
    match event {
        Event::Datagram(from, _) => accept_by_record(
            of.alloc,
            of.deployment,
            of.signature,
            of.home.place.troupe,
            of.kept,
            *from,
            heard,
        ),
        Event::Tick => Ok(None),
        Event::Down(node) => Ok(Some(Occurrence::Declared(*node))),
        Event::Join => Ok(Some(Occurrence::Joins)),
    }
}

// What the member makes of what happens, and a reply that differs; of nothing it makes nothing.
fn owe(
    alloc: Global,
    dues: &mut Dues<'_>,
    at: u64,
    occurrence: Option<Occurrence>,
) -> Result<(Effects, Option<Difference>), NoMemory>
    requires sound { IsSoundOwing dues.old.signature dues.old.place dues.old.kept dues.old.owing }
    requires can { IfSome occurrence (CanCome dues.old.signature dues.old.place.troupe
        (length dues.old.owing.out.known.views)) }
    ensures sound { OnOk result
        (IsSoundOwing dues.new.signature dues.new.place dues.new.kept dues.new.owing) }
    ensures views { OnOk result
        (length dues.new.owing.out.known.views ≡ length dues.old.owing.out.known.views) }
    ensures stands { OnOk result ((dues.new.place ≡ dues.old.place)
        × (dues.new.signature ≡ dues.old.signature) × (dues.new.kept ≡ dues.old.kept)) }
    ensures owes { IfOk result (λ done.
        (boot : List View) (begins : Phase) (first : List ValueTree) (at_boot : ℕ) (p : Past)
        → Rises p → now p < at → IsInTimeSoFar boot begins first at_boot p dues.old
        → Owes boot begins first at_boot p at occurrence dues.old dues.new done.0 done.1) }
{
    match occurrence {
        Some(occurrence) => dues.step(at, occurrence),
        None => Ok((ListOf::new(alloc), None)),
    }
}

// A phase is told so.
fn tells_phase(told: Joiner, phase: Joiner) -> bool
    ensures { Decides result (told ≡ living.phase_told phase) }
{
    told.is_same(&without_incarnation(phase))
}

fn without_incarnation(phase: Joiner) -> Joiner
    ensures { result ≡ living.phase_told phase }
{
    match phase {
        Joiner::Outside => Joiner::Outside,
        Joiner::Asking => Joiner::Asking,
        Joiner::Fetching(_) => Joiner::Fetching(0),
        Joiner::Active(first) => Joiner::Active(first),
    }
}
