// The search for the best choice.
ghost use Rattle.std.specs.Prelude.{◌≡◌, ◌+◌, ◌-◌, ◌<◌, ◌≤◌, ◌∷◌, [], ◌++◌, min, length, vec_len, IfOk, OnOk, if◌then◌else◌};
ghost use Rattle.circus_place.specs.declared.choice.Placement.{Placement};
ghost use Rattle.circus_value.specs.Among.{is_among};
ghost use Rattle.circus_place.specs.Seen.Search.{flag_count, improves, AreApart, best_from, IsReady};

use crate::choice::Placement;
use crate::relation::flag_at;
use crate::test::Test;
use circus_value::{ListOf, NoMemory, Numbers};
use std::alloc::Global;

/// What is sought among the choices. They are gone through in the order of their lists.
#[derive(Drop)]
pub struct Search<'a> {
    pub alloc: Global,
    pub test: &'a Test,
    /// Whether a member is present, machine by machine.
    pub present: &'a ListOf<bool>,
    /// How many members are to be placed.
    pub size: usize,
    /// No choice keeps more members than this.
    pub most: usize,
}

impl Search<'_> {
    /// Goes through the choices that begin with these members, of whom so many are kept, after those of which
    /// the best is known.
    #[cycle(searching)]
    pub fn extend(
        &self,
        members: &mut Vec<u16>,
        kept: usize,
        best: &mut Option<Placement>,
    ) -> Result<(), NoMemory>
        requires ready { IsReady self.now }
        requires fits { vec_len members.old ≤ self.now.size }
        requires distinct { AreApart members.old.items }
        requires counted { kept ≡ flag_count self.now.present.now members.old.items }
        ensures best { OnOk result
            (best.new ≡ best_from self.now.test.now self.now.present.now
            (length self.now.present.now)
            (self.now.size - vec_len members.old) members.old.items best.old) }
        ensures members { OnOk result (members.new.items ≡ members.old.items) }
    {
        if !self.can_improve(members.len(), kept, best) || self.test.fails(members) {
            return Ok(());
        }
        if members.len() == self.size {
            *best = Some(self.placement_of(members, kept)?);
            return Ok(());
        }
        for machine in 0..self.present.len() {
            self.extend_by(machine as u16, members, kept, best)?;
        }
        Ok(())
    }

    // Goes through those that go on with this machine.
    #[cycle(searching)]
    fn extend_by(
        &self,
        machine: u16,
        members: &mut Vec<u16>,
        kept: usize,
        best: &mut Option<Placement>,
    ) -> Result<(), NoMemory>
        requires ready { IsReady self.now }
        requires fits { vec_len members.old < self.now.size }
        requires distinct { AreApart members.old.items }
        requires counted { kept ≡ flag_count self.now.present.now members.old.items }
        ensures best { OnOk result (best.new ≡ (if is_among members.old.items machine then best.old
            else best_from self.now.test.now self.now.present.now (length self.now.present.now)
            (self.now.size - vec_len members.old - 1)
            (members.old.items ++ machine ∷ []) best.old)) }
        ensures members { OnOk result (members.new.items ≡ members.old.items) }
    {
        if members.contains(&machine) {
            return Ok(());
        }
        members.push(machine)?;
        let kept = kept + usize::from(flag_at(self.present, machine));
        self.extend(members, kept, best)?;
        members.pop();
        Ok(())
    }

    // Whether a choice that begins with so many members, of whom so many are kept, can keep more than the best.
    fn can_improve(&self, members: usize, kept: usize, best: &Option<Placement>) -> bool
        requires ready { IsReady self.now }
        requires fits { members ≤ self.now.size }
        requires few { kept ≤ members }
        ensures { result
            ≡ improves (min self.now.most (kept + (self.now.size - members))) best.now }
    {
        match best {
            Some(best) => usize::from(best.kept) < self.most.min(kept + (self.size - members)),
            None => true,
        }
    }

    fn placement_of(&self, members: &[u16], kept: usize) -> Result<Placement, NoMemory>
        requires { kept ≤ 5 }
        ensures { IfOk result (λ chosen. chosen ≡ record { members = members.now; kept = kept }) }
    {
        let mut numbers = Numbers::new(self.alloc);
        numbers.append(members)?;
        Ok(Placement {
            members: numbers,
            kept: kept as u16,
        })
    }
}
