// What a member owes.
ghost use Rattle.std.specs.Prelude.{◌≡◌, ℕ, ◌<◌, ◌≤◌, List, length, ◌&&◌, true, false, IfOk, OnOk, if◌then◌else◌};
ghost use Rattle.std.specs.Bool.{Decides};
ghost use Rattle.circus_value.specs.Fits.{all_fit};
ghost use Rattle.circus_value.specs.ValueTree.{ValueTree};
ghost use Rattle.circus_collate.specs.declared.view.View.{View};
ghost use Rattle.circus_transfer.specs.declared.joiner.Joiner.{Joiner as Phase};
ghost use Rattle.circus_performing.specs.Performing as performing;
ghost use Rattle.circus_member_rules.specs.Happening.{IsHome};
ghost use Rattle.circus_member_theory.specs.Past.{Past, Rises, now};
ghost use Rattle.circus_member_theory.specs.Returns as returns;
ghost use Rattle.circus_dues.specs.Dues as spec;
ghost use Rattle.circus_dues.specs.Seen.Beginning as beginning;
ghost use Rattle.circus_dues.specs.Seen.Owing.{CanCome};
ghost use Rattle.circus_dues.specs.Seen.Sound.{IsSayable, IsSoundOwing};

use crate::calls::CallsIn;
use crate::calls_out::CallsOut;
use crate::owing::{Frame, Owing, is_active};
use crate::walk::{Walk, is_in_order};
use circus_collate::Views;
use circus_member_rules::{Difference, Effects, Occurrence, Place, main_start};
use circus_model::Signature;
use circus_record::MemberRecord;
use circus_transfer::Joiner;
use circus_value::{ListOf, NoMemory, State};
use std::alloc::Global;
use std::marker::Model;

/// What a member owes in each step by its record in the end, and whether that is in time (`specs/`).
#[derive(Drop)]
pub struct Dues<'r> {
    frame: Frame<'r>,
    owing: Owing,
}

impl<'r> Model for Dues<'r> {
    ghost use Rattle.circus_dues.specs.Dues.{DuesState};
    ghost use Rattle.circus_dues.specs.Seen.DuesCode.{dues_code};

    ghost Value = { DuesState };

    ghost coded = { dues_code };

    ghost view = { λ d. record { place = d.frame.place.now; signature = d.frame.signature.now; kept = d.frame.kept.now; owing = d.owing } };
}

impl<'r> Dues<'r> {
    /// At boot, which is step 0, and what is made then.
    pub fn begin(
        alloc: Global,
        place: &'r Place,
        signature: &'r Signature,
        views: Views,
        begins: Joiner,
        first: State,
        kept: &'r MemberRecord,
    ) -> Result<(Self, Effects), NoMemory>
        requires home { IsHome signature.now place.now views }
        requires says { IsSayable signature.now (length views) kept.now }
        requires fits { all_fit signature.now.variables first ≡ true }
        ensures sound { IfOk result (λ done.
            IsSoundOwing signature.now place.now kept.now done.0.owing) }
        ensures views { IfOk result (λ done.
            length done.0.owing.out.known.views ≡ length views) }
        ensures stands { IfOk result (λ done.
            (done.0.place ≡ place.now) × (done.0.signature ≡ signature.now)
            × (done.0.kept ≡ kept.now)) }
        ensures tells { IfOk result (λ done.
            spec.TellsAtBoot views begins first
            (if signature.now.root && performing.is_active begins then 1 else 0) done.0 done.1) }
    {
        let frame = Frame {
            alloc,
            place,
            signature,
            kept,
        };
        let (owing, effects) = begin_owing(&frame, views, begins, first)?;
        Ok((Dues { frame, owing }, effects))
    }

    /// A later step, in which this happens: what is made, and a reply that differs.
    pub fn step(
        &mut self,
        at: u64,
        occurrence: Occurrence,
    ) -> Result<(Effects, Option<Difference>), NoMemory>
        requires sound { IsSoundOwing self.old.signature self.old.place self.old.kept
            self.old.owing }
        requires comes { CanCome self.old.signature self.old.place.troupe
            (length self.old.owing.out.known.views) occurrence }
        ensures sound { OnOk result
            (IsSoundOwing self.new.signature self.new.place self.new.kept self.new.owing) }
        ensures views { OnOk result
            (length self.new.owing.out.known.views ≡ length self.old.owing.out.known.views) }
        ensures stands { OnOk result
            ((self.new.place ≡ self.old.place) × (self.new.signature ≡ self.old.signature)
            × (self.new.kept ≡ self.old.kept)) }
        ensures tells { IfOk result (λ done.
            (boot : List View) (begins : Phase) (first : List ValueTree) (at_boot : ℕ) (p : Past)
            → Rises p → now p < at → spec.IsInTimeSoFar boot begins first at_boot p self.old
            → spec.TellsStep boot begins first at_boot p at occurrence self.new done.0 done.1) }
        ensures never { OnOk result
            (self.old.owing.is_timely ≡ false → self.new.owing.is_timely ≡ false) }
    {
        self.owing.step(&self.frame, at, occurrence)
    }

    /// Whether what the record says came so far was in time.
    pub fn is_in_time(&self) -> bool
        ensures { result ≡ self.now.owing.is_timely }
    {
        self.owing.is_timely
    }

    /// Whether all that the record says came in the first step that allows it, and all has come.
    pub fn is_timely(&self) -> bool
        ensures all { (boot : List View) (begins : Phase) (first : List ValueTree) (at_boot : ℕ)
            (p : Past) → Rises p → spec.IsInTimeSoFar boot begins first at_boot p self.now
            → Decides result (spec.HasAllCome boot begins first at_boot p self.now) }
        ensures never { self.now.owing.is_timely ≡ false → result ≡ false }
    {
        self.owing.is_timely && self.owing.is_walked(self.frame.kept)
    }

    /// The phase behind what happened.
    pub fn phase(&self) -> Joiner
        ensures { result ≡ self.now.owing.phase }
    {
        self.owing.phase
    }

    /// The state with which the member became active, at first that at boot.
    pub fn began(&self) -> &State
        ensures { result.now ≡ self.now.owing.began }
    {
        &self.owing.began
    }
}

// What is owed at boot, and made: the MAIN of a root that is active is entered.
fn begin_owing(
    of: &Frame<'_>,
    views: Views,
    begins: Joiner,
    first: State,
) -> Result<(Owing, Effects), NoMemory>
    requires home { IsHome of.now.signature.now of.now.place.now views }
    requires says { IsSayable of.now.signature.now (length views) of.now.kept.now }
    requires fits { all_fit of.now.signature.now.variables first ≡ true }
    ensures kept { IfOk result (λ done.
        done.0 ≡ beginning.begun_at_boot of.now.place.now of.now.signature.now.root views
        begins first of.now.kept.now) }
    ensures made { IfOk result (λ done.
        done.1 ≡ beginning.made_at_boot of.now.place.now of.now.signature.now.root views
        begins first of.now.kept.now) }
{
    let main = main_start(of.alloc, of.place.troupe, views.as_slice())?;
    let mut owing = unbegun(of, views, begins, first)?;
    let mut effects = ListOf::new(of.alloc);
    if of.signature.root && is_active(begins) {
        owing.enter(of, 0, &main, &mut effects)?;
    }
    if owing.walk.asked.is_none() {
        owing.is_timely = owing.is_timely && !owing.starts_by(of.kept, 0);
    }
    Ok((owing, effects))
}

// What is kept before any run.
fn unbegun(of: &Frame<'_>, views: Views, begins: Joiner, first: State) -> Result<Owing, NoMemory>
    requires { length views ≤ 65536 }
    ensures { IfOk result (λ owing.
        owing ≡ beginning.unbegun of.now.place.now views begins first
        (beginning.may_begin begins of.now.kept.now)) }
{
    Ok(Owing {
        out: CallsOut::new(of.alloc, views)?,
        calls: CallsIn::new(of.alloc, of.place.troupe, first_of(begins)),
        phase: begins,
        began: first,
        walk: Walk {
            ended: 0,
            asked: None,
        },
        is_timely: is_in_order(of.kept.runs.as_slice()) && is_founded(begins, of.kept),
    })
}

// One that is active at boot performs from its first call on, since then.
fn is_founded(begins: Joiner, kept: &MemberRecord) -> bool
    ensures { result ≡ beginning.is_founded begins kept.now }
{
    !is_active(begins) || (kept.from == first_of(begins) && kept.active_at == 0)
}

// The call from which a member performs, where it is active.
fn first_of(phase: Joiner) -> u32
    ensures { result ≡ returns.first_of phase }
{
    match phase {
        Joiner::Active(first) => first,
        _ => 0,
    }
}
