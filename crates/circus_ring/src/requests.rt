// What a request comes to for one view.
ghost use Rattle.std.specs.Prelude.{◌≡◌, map, IfOk};
ghost use Rattle.std.specs.List.{list_any};
ghost use Rattle.circus_value.specs.Among.{is_among};
ghost use Rattle.circus_ring.specs.RingTable as ring_table;

use circus_collate::{Entries, Entry, RingResult, Since, Table, Troupe, View};
use circus_header::Request;
use circus_limits::MOST_MEMBERS;
use circus_value::{Duplicate, ListOf, NoMemory, is_among};
use std::alloc::Global;

// The incarnation after which none comes.
const LAST_INCARNATION: u32 = u32::MAX;

/// How a request about this troupe is taken, and the troupe's view afterwards.
pub fn answer_request(
    alloc: Global,
    troupe: &Troupe,
    view: &View,
    request: &Request,
) -> Result<Table, NoMemory>
    ensures { IfOk result (λ table.
        table ≡ ring_table.table_for troupe.now.root troupe.now.spares view.now request.now) }
{
    let result = result_of_request(troupe, view, request);
    let view = match result {
        RingResult::Done => view_after(alloc, view, request)?,
        _ => view.copy()?,
    };
    Ok(Table { result, view })
}

fn result_of_request(troupe: &Troupe, view: &View, request: &Request) -> RingResult
    ensures { result ≡ ring_table.result_of troupe.now.root troupe.now.spares view.now request.now }
{
    match request {
        Request::Join(_, node) => join_taken(troupe, view, *node),
        _ => RingResult::Done,
    }
}

fn join_taken(troupe: &Troupe, view: &View, node: u16) -> RingResult
    ensures { result ≡ ring_table.join_result troupe.now.root troupe.now.spares view.now node }
{
    if troupe.root {
        RingResult::RootTroupe
    } else if !is_among(troupe.spares.as_slice(), node) {
        RingResult::NotSpare
    } else if !view.has_node(node) && view.entries.len() >= MOST_MEMBERS {
        RingResult::Full
    } else {
        RingResult::Done
    }
}

// The view once a request is done.
fn view_after(alloc: Global, view: &View, request: &Request) -> Result<View, NoMemory>
    ensures { IfOk result (λ after. after ≡ ring_table.view_by view.now request.now) }
{
    match request {
        Request::Lookup(_) => view.copy(),
        Request::Join(_, node) => add_joiner(view, *node),
        Request::Active(_, node, count) => activate(alloc, view, *node, *count),
        Request::Gone(_, node) => remove_node(alloc, view, *node),
    }
}

fn add_joiner(view: &View, node: u16) -> Result<View, NoMemory>
    ensures { IfOk result (λ after. after ≡ ring_table.add_joiner view.now node) }
{
    if view.has_node(node) {
        return view.copy();
    }
    let mut entries = view.entries.copy()?;
    entries.push(Entry {
        node,
        since: Since::Joining,
    })?;
    Ok(change_entries(view, entries))
}

fn activate(alloc: Global, view: &View, node: u16, count: u32) -> Result<View, NoMemory>
    ensures { IfOk result (λ after. after ≡ ring_table.activate view.now node count) }
{
    if !has_waiting(view, node) {
        return view.copy();
    }
    Ok(change_entries(view, active_entries(alloc, view, node, count)?))
}

fn has_waiting(view: &View, node: u16) -> bool
    ensures { result ≡ list_any (ring_table.waits node) view.now.entries }
{
    view.entries
        .as_slice()
        .iter()
        .any(|entry| waits(entry, node))
}

#[tactic(auto, using(circus_collate::proofs::Going::map_more, circus_collate::proofs::Going::map_all))]
fn active_entries(alloc: Global, view: &View, node: u16, count: u32) -> Result<Entries, NoMemory>
    ensures { IfOk result (λ entries.
        entries ≡ map (ring_table.activate_entry node count) view.now.entries) }
{
    let mut entries = ListOf::new(alloc);
    for entry in view.entries.as_slice() {
        entries.push(activate_entry(entry, node, count))?;
    }
    Ok(entries)
}

fn waits(entry: &Entry, node: u16) -> bool
    ensures { result ≡ ring_table.waits node entry.now }
{
    entry.node == node && matches!(entry.since, Since::Joining)
}

// An entry once a node is active from a count on.
fn activate_entry(entry: &Entry, node: u16, count: u32) -> Entry
    ensures { result ≡ ring_table.activate_entry node count entry.now }
{
    if waits(entry, node) {
        Entry {
            node,
            since: Since::From(count),
        }
    } else {
        *entry
    }
}

fn remove_node(alloc: Global, view: &View, node: u16) -> Result<View, NoMemory>
    ensures { IfOk result (λ after. after ≡ ring_table.remove_node view.now node) }
{
    if !view.has_node(node) {
        return view.copy();
    }
    let entries = view
        .entries
        .as_slice()
        .iter()
        .copied()
        .filter(|entry| entry.node != node)
        .collect(alloc)?;
    Ok(change_entries(view, ListOf::of(entries)))
}

// The view with other entries.
fn change_entries(view: &View, entries: Entries) -> View
    ensures { result ≡ ring_table.change_entries view.now entries }
{
    let incarnation = view.incarnation;
    View {
        troupe: view.troupe,
        incarnation: if incarnation < LAST_INCARNATION {
            incarnation + 1
        } else {
            LAST_INCARNATION
        },
        entries,
    }
}
