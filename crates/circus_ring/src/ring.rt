// The views of all troupes.
ghost use Rattle.std.specs.Prelude.{◌≡◌, ℕ, ◌<◌, ◌≤◌, List, [], ◌∷◌, ◌++◌, length, map, Some, IfOk, OnOk, OnErr, IsTrue, ◌↔◌};
ghost use Rattle.circus_limits.specs.Limits.{most_modules};
ghost use Rattle.circus_header.specs.declared.call.Request.{Request as Asked};
ghost use Rattle.circus_collate.specs.declared.deployment.Troupe.{Troupe as Members};
ghost use Rattle.circus_ring.specs.RingTable.{kept_after, answer_after};
ghost use Rattle.circus_ring.specs.RingTable as ring_table;

use crate::requests::answer_request;
use circus_collate::{Deployment, Entries, Entry, Since, Table, Troupe, Troupes, View, Views};
use circus_header::Request;
use circus_value::{Duplicate, ListOf, NoMemory};
use std::alloc::Global;
use std::marker::Model;

/// The Ringmaster's views, and the troupes that they are of (docs/PROTOCOL.md, "The Ringmaster").
#[derive(Debug, Drop)]
pub struct Ring {
    alloc: Global,
    troupes: Troupes,
    views: Views,
}

impl Model for Ring {
    ghost use Rattle.std.specs.Prelude.{◌≡◌, length};
    ghost use Rattle.circus_ring.specs.RingTable.{Kept};

    ghost Value = { Kept };

    ghost view = { λ ring. record { troupes = ring.troupes; views = ring.views } };

    ghost invariant = { λ ring. length ring.views ≡ length ring.troupes };
}

impl Ring {
    /// The views that every node boots with, before any request. `NoMemory` is the one fault.
    pub fn new(alloc: Global, deployment: &Deployment) -> Result<Self, NoMemory>
        requires { length deployment.now.troupes ≤ most_modules }
        ensures { IfOk result (λ ring. ring ≡ kept_after deployment.now.troupes []) }
    {
        Ok(Ring {
            alloc,
            troupes: deployment.troupes.copy()?,
            views: boot_views(alloc, deployment.troupes.as_slice())?,
        })
    }

    /// The views, one a troupe. It takes no memory.
    pub fn views(&self) -> &Views
        ensures { result.now ≡ self.now.views }
    {
        &self.views
    }

    /// Whether a request is about one of the troupes, as `perform` wants. It takes no memory.
    pub fn is_about_one(&self, request: &Request) -> bool
        ensures { IsTrue result ↔ (ring_table.troupe_of request.now < length self.now.troupes) }
    {
        usize::from(troupe_of(request)) < self.troupes.len()
    }

    /// How a request behind others is taken, and the troupe's view afterwards. After `NoMemory` it counts as not
    /// made, and the views are unchanged.
    pub fn perform(&mut self, request: &Request) -> Result<Table, NoMemory>
        requires { ring_table.troupe_of request.now < length self.old.troupes }
        ensures answer { (troupes : List Members) (requests : List Asked)
            → self.old ≡ kept_after troupes requests
            → IfOk result (λ table. answer_after troupes requests request.now ≡ Some table) }
        ensures added { (troupes : List Members) (requests : List Asked)
            → self.old ≡ kept_after troupes requests
            → OnOk result (self.new ≡ kept_after troupes (requests ++ request.now ∷ [])) }
        ensures troupes { self.new.troupes ≡ self.old.troupes }
        ensures refused { OnErr result (self.new ≡ self.old) }
    {
        let place = usize::from(troupe_of(request));
        let troupe = &self.troupes.as_slice()[place];
        let view = &self.views.as_slice()[place];
        let table = answer_request(self.alloc, troupe, view, request)?;
        let after = table.view.copy()?;
        self.views.set(place, after);
        Ok(table)
    }
}

// The troupe whose view is asked for or changed.
fn troupe_of(request: &Request) -> u16
    ensures { result ≡ ring_table.troupe_of request.now }
{
    match request {
        Request::Lookup(troupe) => *troupe,
        Request::Join(troupe, _) => *troupe,
        Request::Active(troupe, _, _) => *troupe,
        Request::Gone(troupe, _) => *troupe,
    }
}

#[tactic(auto, using(crate::proofs::Booting::views_more, crate::proofs::Booting::views_all))]
fn boot_views(alloc: Global, troupes: &[Troupe]) -> Result<Views, NoMemory>
    requires { length troupes.now ≤ most_modules }
    ensures { IfOk result (λ views. views ≡ ring_table.boot_views troupes.now) }
{
    let mut views = ListOf::new(alloc);
    let mut number = 0;
    for troupe in troupes {
        views.push(boot_view(alloc, number, troupe)?)?;
        number += 1;
    }
    Ok(views)
}

fn boot_view(alloc: Global, number: u16, troupe: &Troupe) -> Result<View, NoMemory>
    ensures { IfOk result (λ view. view ≡ ring_table.boot_view number troupe.now) }
{
    Ok(View {
        troupe: number,
        incarnation: 1,
        entries: boot_entries(alloc, troupe)?,
    })
}

#[tactic(auto, using(circus_collate::proofs::Going::map_more, circus_collate::proofs::Going::map_all))]
fn boot_entries(alloc: Global, troupe: &Troupe) -> Result<Entries, NoMemory>
    ensures { IfOk result (λ entries. entries ≡ map ring_table.boot_entry troupe.now.founders) }
{
    let mut entries = ListOf::new(alloc);
    for founder in troupe.founders.as_slice() {
        entries.push(boot_entry(*founder))?;
    }
    Ok(entries)
}

fn boot_entry(node: u16) -> Entry
    ensures { result ≡ ring_table.boot_entry node }
{
    Entry {
        node,
        since: Since::From(0),
    }
}
