// Where the calls of each index are.
ghost use Rattle.std.specs.Prelude.{◌≡◌, ℕ, ◌++◌, ◌∷◌, [], filter, nat_eq, if◌then◌else◌, OnOk, OnErr, IfOk, option_copied};
ghost use Rattle.circus_gather.specs.Gathering as gathering;
ghost use Rattle.circus_gather.specs.Seen.Groups.{stays};
ghost use Rattle.circus_gather.specs.Seen.Groups as groups;
ghost use Rattle.circus_gather.specs.Seen.Slots as slots_seen;

use crate::HeldCall;
use crate::group::Group;
use crate::held::index_of;
use circus_value::{ListOf, NoMemory};
use indexmap::IndexMap;
use std::alloc::Global;

/// By index, the slots of its calls, in order of arrival.
pub(crate) type Places = IndexMap<u32, ListOf<usize>>;

/// Notes the slot of one more call of an index. After `NoMemory` nothing has changed.
pub(crate) fn note(
    alloc: Global,
    places: &mut Places,
    index: u32,
    place: usize,
) -> Result<(), NoMemory>
    ensures ok { OnOk result
        ((q : ℕ) → slots_seen.slots_of_index places.new.entries q
        ≡ slots_seen.slots_of_index places.old.entries q
        ++ (if nat_eq index q then place ∷ [] else [])) }
    ensures err { OnErr result (places.new.entries ≡ places.old.entries) }
{
    match places.get_mut(&index) {
        Some(of_index) => of_index.push(place),
        None => begin(alloc, places, index, place),
    }
}

// Notes the slot of the first call of an index.
fn begin(alloc: Global, places: &mut Places, index: u32, place: usize) -> Result<(), NoMemory>
    requires { slots_seen.slots_of_index places.old.entries index ≡ [] }
    ensures ok { OnOk result
        ((q : ℕ) → slots_seen.slots_of_index places.new.entries q
        ≡ slots_seen.slots_of_index places.old.entries q
        ++ (if nat_eq index q then place ∷ [] else [])) }
    ensures err { OnErr result (places.new.entries ≡ places.old.entries) }
{
    let mut of_index = ListOf::new(alloc);
    of_index.push(place)?;
    places.insert(index, of_index)?;
    Ok(())
}

/// Takes out the slots of an index.
pub(crate) fn take(alloc: Global, places: &mut Places, index: u32) -> ListOf<usize>
    ensures taken { result ≡ slots_seen.slots_of_index places.old.entries index }
    ensures left { (q : ℕ)
        → slots_seen.slots_of_index places.new.entries q
        ≡ (if nat_eq index q then [] else slots_seen.slots_of_index places.old.entries q) }
{
    match places.swap_remove(&index) {
        Some(of_index) => of_index,
        None => ListOf::new(alloc),
    }
}

/// The slots of the calls to a module that are in no group, once the others are taken out.
pub(crate) fn places_without(
    alloc: Global,
    module: u16,
    slots: &[Option<HeldCall>],
    group: Group,
) -> Result<Places, NoMemory>
    ensures { IfOk result (λ places.
        (q : ℕ) → slots_seen.slots_of_index places.entries q
        ≡ slots_seen.places_from (gathering.is_of_index «module» q) 0
        (filter (stays «module» group) slots.now)) }
{
    let mut places = IndexMap::new(alloc);
    let mut place = 0;
    for slot in slots {
        if let Some(call) = call_outside(module, slot, group) {
            note(alloc, &mut places, index_of(module, &call.header), place)?;
            place += 1;
        }
    }
    Ok(places)
}

// The call of a slot, where it is in no group.
fn call_outside(module: u16, slot: &Option<HeldCall>, group: Group) -> Option<&HeldCall>
    ensures { option_copied result ≡ groups.spare_call «module» group slot.now }
{
    match slot.as_ref() {
        Some(call) if !group.has(module, call) => Some(call),
        _ => None,
    }
}
