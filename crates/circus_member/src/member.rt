// A member of a troupe.
ghost use Rattle.std.specs.Prelude.{◌≡◌, ◌≤◌, length, [], IfOk, option_copied, option_map};
ghost use Rattle.std.specs.Option.{option_to_list};
ghost use Rattle.circus_limits.specs.Limits.{most_modules};
ghost use Rattle.circus_fanout.specs.Asking.{Asking};
ghost use Rattle.circus_member_rules.specs.OpenAsks.{asking_of};
ghost use Rattle.circus_member_rules.specs.Step as step;
ghost use Rattle.circus_member_rules.specs.Happening.{IsHome, CanHappen};
ghost use Rattle.circus_member_rules.specs.GoneOn.{HasGoneOn};
ghost use Rattle.circus_member_rules.specs.Seen.Sound.{IsRested};
ghost use Rattle.circus_performing.specs.Record.{behaviour, IsRecord};

use crate::doing::Doing;
use crate::member_state::MemberState;
use circus_collate::Views;
use circus_fanout::Known;
use circus_gather::Gather;
use circus_header::CallHeader;
use circus_member_rules::{
    AskName, Beginning, Difference, Effects, Occurrence, OpenAsks, Place, concern_of, main_start,
};
use circus_model::{Module, Signature};
use circus_performing::Performer;
use circus_record::MemberRecord;
use circus_value::{Duplicate, ListOf, NoMemory, State};
use std::alloc::Global;
use std::marker::Model;

/// A member: what it knows, the calls to it, what it performs, and what it asks (docs/PROTOCOL.md, "Members").
pub struct Member<M: Module> {
    // A step that has made nothing yet, in a box, so that it moves as a word (docs/PROOFS.md, "Speed").
    doing: Box<Doing<M>>,
}

// Written out, so that dropping one is one step of a proof (docs/PROOFS.md, "Cost").
impl<M: Module> Drop for Member<M> {
    fn drop(self) {
        let Member { doing: _ } = self;
    }
}

impl<M: Module> Model for Member<M> {
    ghost use Rattle.circus_member_rules.specs.MemberState.{MemberState};
    ghost use Rattle.circus_member.specs.Seen.StateCode.{state_code};
    ghost use Rattle.circus_member.specs.Seen.Resting.{IsResting};
    ghost use Rattle.circus_performing.specs.Record.{behaviour};

    ghost Value = { MemberState M };

    ghost coded = { state_code M.code };

    ghost view = { λ a. a.doing.value.member };

    ghost invariant = { λ a. IsResting (behaviour M.declared M.turn M.first) a.doing.value };
}

impl<M: Module> Member<M> {
    /// A member at boot, where these views are known, and what it makes then: a founder of a root has entered its MAIN.
    pub fn boot(
        alloc: Global,
        place: Place,
        views: Views,
        beginning: Beginning,
        hosted: M,
    ) -> Result<(Self, Effects), NoMemory>
        requires { IsHome (M.declared hosted) place views }
        ensures member { IfOk result (λ booted.
            booted.0 ≡ (step.boot_member M.declared M.turn M.first place views beginning
            hosted).member) }
        ensures effects { IfOk result (λ booted.
            booted.1 ≡ (step.boot_member M.declared M.turn M.first place views beginning
            hosted).effects) }
        ensures rest { IfOk result (λ booted. HasGoneOn booted.0) }
    {
        let starts = starts_at_boot(beginning, &hosted);
        let start = main_start(alloc, place.troupe, views.as_slice())?;
        let doing = before_any(alloc, place, views, beginning, hosted)?;
        if starts {
            Ok(Member::of(doing.enter(start, 0)?.into_box()?))
        } else {
            Ok(Member::of(doing.into_box()?))
        }
    }

    /// What happens in a step, and what it makes: the member, the calls and returns in their order, and a reply that
    /// differs, where there is one. After `NoMemory` the member is gone.
    pub fn step(
        self,
        at: u64,
        occurrence: Occurrence,
    ) -> Result<(Self, Effects, ListOf<Difference>), NoMemory>
        requires { CanHappen (M.declared self.performing.hosted) self occurrence }
        ensures member { IfOk result (λ stepped.
            stepped.0 ≡ (step.step_member M.declared M.turn at occurrence self).member) }
        ensures effects { IfOk result (λ stepped.
            stepped.1 ≡ (step.step_member M.declared M.turn at occurrence self).effects) }
        ensures differences { IfOk result (λ stepped.
            stepped.2 ≡ option_to_list (step.difference occurrence self)) }
        ensures rest { IfOk result (λ stepped. HasGoneOn stepped.0) }
    {
        let Member { doing } = self;
        let waited = doing.waited();
        let concern = concern_of(&occurrence);
        let alloc = doing.member.alloc;
        let (doing, difference) = Doing::handle(doing, at, occurrence)?;
        let differences = list_of(alloc, difference)?;
        let mut doing = Doing::execute(doing, at)?;
        doing.close(concern, waited);
        doing.look_up()?;
        let (member, effects) = Member::of(doing);
        Ok((member, effects, differences))
    }

    /// Where it stands. It takes no memory.
    pub fn place(&self) -> &Place
        ensures { result.now ≡ self.now.place }
    {
        &self.doing.member.place
    }

    /// What its module declares. It takes no memory.
    pub fn signature(&self) -> &Signature
        ensures { result.now ≡ M.declared self.now.performing.hosted }
    {
        self.doing.member.performer.signature()
    }

    /// What the member did. It takes no memory.
    pub fn record(&self) -> &MemberRecord
        ensures value { result.now ≡ self.now.performing.kept }
        ensures kept { let p = self.now.performing in IsRecord
            (behaviour M.declared M.turn M.first p.hosted) p.began p.kept }
    {
        self.doing.member.performer.record()
    }

    /// The state with which the member became active; before that, the first one of its module. It takes no memory.
    pub fn activation_state(&self) -> &State
        ensures { result.now ≡ self.now.performing.began }
    {
        self.doing.member.performer.activation_state()
    }

    /// What an open ask asks. It takes no memory.
    pub fn header_of_ask(&self, name: AskName) -> Option<&CallHeader>
        ensures { option_copied result
            ≡ option_map (λ (a : Asking). a.header) (asking_of self.now.asks name) }
    {
        Some(self.doing.member.asks.get(name)?.header())
    }

    // The member behind a step, and what it has made.
    fn of(mut doing: Box<Doing<M>>) -> (Self, Effects)
        requires { let m = doing.value.member in
            IsRested (behaviour M.declared M.turn M.first m.performing.hosted) m }
        ensures member { result.0 ≡ doing.value.member }
        ensures effects { result.1 ≡ doing.value.effects }
    {
        let effects = doing.take_effects();
        (Member { doing }, effects)
    }
}

// A reply that differs, in a list, which moves as few words and takes memory only where there is one.
fn list_of(alloc: Global, difference: Option<Difference>) -> Result<ListOf<Difference>, NoMemory>
    ensures { IfOk result (λ differences. differences ≡ option_to_list difference) }
{
    let mut differences = ListOf::new(alloc);
    if let Some(difference) = difference {
        differences.push(difference)?;
    }
    Ok(differences)
}

// A founder of a root enters its MAIN.
fn starts_at_boot<M: Module>(beginning: Beginning, hosted: &M) -> bool
    ensures { result ≡ step.starts_at_boot M.declared M.turn beginning hosted.now }
{
    match beginning {
        Beginning::Founder => hosted.signature().root,
        Beginning::Spare => false,
    }
}

// A member to which nothing has happened.
fn before_any<M: Module>(
    alloc: Global,
    place: Place,
    views: Views,
    beginning: Beginning,
    hosted: M,
) -> Result<Doing<M>, NoMemory>
    requires { length views ≤ most_modules }
    ensures { IfOk result (λ d.
        d ≡ record {
          member = step.before_any M.declared M.turn place views
              (step.performer_at_boot M.first beginning hosted);
          effects = [];
        }) }
{
    let member = MemberState {
        alloc,
        known: Known::new(alloc, views)?,
        gather: Gather::new(alloc, place.troupe, 0),
        place,
        performer: performer_at_boot(alloc, beginning, hosted)?,
        asks: OpenAsks::new(alloc),
        requests: ListOf::new(alloc),
    };
    Ok(Doing {
        member,
        effects: ListOf::new(alloc),
    })
}

// A founder, or a spare.
fn performer_at_boot<M: Module>(
    alloc: Global,
    beginning: Beginning,
    hosted: M,
) -> Result<Performer<M>, NoMemory>
    ensures { IfOk result (λ p. p ≡ step.performer_at_boot M.first beginning hosted) }
{
    match beginning {
        Beginning::Founder => Performer::founder(alloc, hosted),
        Beginning::Spare => Performer::spare(alloc, hosted),
    }
}
