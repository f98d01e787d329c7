// Calls in slots, some of which are empty.
ghost use Rattle.std.specs.Prelude.{◌≡◌, ◌⊎◌, [], IfOk, option_copied};
ghost use Rattle.circus_gather.specs.Seen.Slots as slots_seen;

use crate::HeldCall;
use crate::call_value::CallValue;
use crate::places::Places;
use circus_value::{ListOf, NoMemory};
use std::alloc::Global;

/// The call in a slot.
pub(crate) fn call_at(slots: &[Option<HeldCall>], place: usize) -> Option<&HeldCall>
    ensures { option_copied result ≡ slots_seen.item_at slots.now place }
{
    match slots.get(place) {
        Some(slot) => slot.as_ref(),
        None => None,
    }
}

/// All calls.
#[tactic(auto, using(crate::proofs::Standing::kept_more, crate::proofs::Standing::kept_none, crate::proofs::Standing::kept_all))]
pub(crate) fn all_calls(
    alloc: Global,
    slots: &[Option<HeldCall>],
) -> Result<ListOf<CallValue<'_>>, NoMemory>
    ensures { IfOk result (λ calls. calls ≡ slots_seen.items_in slots.now) }
{
    let mut calls = ListOf::new(alloc);
    for slot in slots {
        if let Some(call) = slot.as_ref() {
            calls.push(CallValue::of(call))?;
        }
    }
    Ok(calls)
}

// Empties the slots at places.
#[tactic(auto, using(circus_collate::proofs::Going::fold_more, circus_collate::proofs::Going::fold_all, std::proofs::lemmas::List::set_past))]
fn empty_at(slots: &mut [Option<HeldCall>], places: &[usize])
    ensures { slots.new ≡ slots_seen.empty_slots slots.old places.now }
{
    for place in places {
        empty_one(slots, *place);
    }
}

fn empty_one(slots: &mut [Option<HeldCall>], place: usize)
    ensures { slots.new ≡ slots_seen.emptied_one slots.old place }
{
    if place < slots.len() {
        slots[place] = None;
    }
}

/// Empties the slots at places.
pub(crate) fn empty_slots(slots: &mut Vec<Option<HeldCall>>, places: &[usize])
    ensures { slots.new.items ≡ slots_seen.empty_slots slots.old.items places.now }
{
    empty_at(slots.as_mut_slice(), places);
}

/// Gives up the slots where no call is left.
pub(crate) fn give_up(slots: &mut Vec<Option<HeldCall>>, places: &Places)
    ensures { ((places.now.entries ≡ []) × (slots.new.items ≡ []))
        ⊎ (slots.new.items ≡ slots.old.items) }
{
    if places.is_empty() {
        slots.clear();
    }
}
