// The best choice.
ghost use Rattle.std.specs.Prelude.{◌≡◌, ℕ, ◌<◌, ◌≤◌, ◌==◌, List, length, IfOk, IfSome, IfNone};
ghost use Rattle.std.specs.List.{list_any};
ghost use Rattle.circus_place.specs.Obeys.{most_machines, Obeys};
ghost use Rattle.circus_place.specs.Choice.{IsChoice, Satisfies, kept_by, IsBest};
ghost use Rattle.circus_place.specs.Seen.Table.{flag_at};

use crate::Placing;
use crate::compile::Compiler;
use crate::search::Search;
use circus_value::{ListOf, NoMemory, Numbers};
use std::alloc::Global;

/// The machines of the members, in their order, and how many members stay where one is present. Machines
/// are numbered from 0.
#[derive(Debug, Drop)]
pub struct Placement {
    pub members: Numbers,
    pub kept: u16,
}

/// The best choice of machines: of those of which the condition holds one that keeps most, and of these the
/// first in the order of lists of numbers (docs/LANGUAGE.md, "Placing"). `None` where it holds of none.
pub fn place(alloc: Global, placing: &Placing) -> Result<Option<Placement>, NoMemory>
    requires { Obeys placing.now }
    ensures best { IfOk result (λ answer.
        IfSome answer (λ chosen. IsBest placing.now chosen.members)) }
    ensures kept { IfOk result (λ answer.
        IfSome answer (λ chosen. chosen.kept ≡ kept_by placing.now chosen.members)) }
    ensures none { IfOk result (λ answer.
        IfNone answer ((choice : List ℕ) → IsChoice placing.now choice
        → Satisfies placing.now choice → ⊥)) }
{
    let test = Compiler::new(alloc, placing)?.test(&placing.condition)?;
    let present = present_at(alloc, placing)?;
    let search = Search {
        alloc,
        test: &test,
        present: &present,
        size: usize::from(placing.members),
        most: placing.present.len(),
    };
    let mut best = None;
    search.extend(&mut Vec::new(alloc), 0, &mut best)?;
    Ok(best)
}

// Whether a member is present, machine by machine.
fn present_at(alloc: Global, placing: &Placing) -> Result<ListOf<bool>, NoMemory>
    requires { length placing.now.machines ≤ most_machines }
    ensures len { IfOk result (λ made. length made ≡ length placing.now.machines) }
    ensures flags { IfOk result (λ made.
        (m : ℕ) → m < length placing.now.machines
        → flag_at made m ≡ list_any (λ n. m == n) placing.now.present) }
{
    let mut present = ListOf::new(alloc);
    for machine in 0..placing.machines.len() {
        present.push(placing.present.as_slice().contains(&(machine as u16)))?;
    }
    Ok(present)
}
