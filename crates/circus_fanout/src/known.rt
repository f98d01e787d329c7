// What a member knows of the troupes.
ghost use Rattle.std.specs.Prelude.{◌≡◌, ◌<◌, ◌≤◌, ◌++◌, length, map, IfOk, OnOk, OnErr, option_copied, slice_get};
ghost use Rattle.circus_value.specs.Among.{is_among};
ghost use Rattle.circus_fanout.specs.Knowing as knowing;

use circus_collate::{View, Views};
use circus_value::{ListOf, NoMemory, Nodes, Numbers, is_among};
use std::alloc::Global;
use std::marker::Model;

/// What is wanted of a troupe.
#[derive(Clone, Copy, Debug, PartialEq, Eq, Drop)]
pub struct Want {
    /// The greatest incarnation in which its view was wanted, or 0.
    pub incarnation: u32,
    /// Whether the Ringmaster was asked for the view and has not answered.
    pub asked: bool,
}

/// What is wanted of each troupe, in module order.
pub type Wants = ListOf<Want>;

/// The views that a member knows, the nodes that were declared down to it, and the views that it wants
/// (docs/PROTOCOL.md, "The Ringmaster").
#[derive(Debug)]
pub struct Known {
    alloc: Global,
    views: Views,
    down: Nodes,
    wants: Wants,
}

// Written out, so that dropping one is one step of a proof (docs/PROOFS.md, "Cost").
impl Drop for Known {
    fn drop(self) {
        let Known {
            alloc: _,
            views: _,
            down: _,
            wants: _,
        } = self;
    }
}

impl Model for Known {
    ghost use Rattle.std.specs.Prelude.{◌≡◌, ◌≤◌, length};
    ghost use Rattle.circus_fanout.specs.Knowing.{Knowing};

    ghost Value = { Knowing };

    ghost view = { λ a. record { views = a.views; down = a.down; wants = a.wants } };

    ghost invariant = { λ a. (length a.wants ≡ length a.views) × (length a.views ≤ 65536) };
}

impl Known {
    /// What is known at boot: a view of each troupe, in module order. `NoMemory` is the one fault.
    pub fn new(alloc: Global, views: Views) -> Result<Self, NoMemory>
        requires { length views ≤ 65536 }
        ensures { IfOk result (λ known. known ≡ knowing.at_boot views) }
    {
        let wants = nothing_wanted(alloc, views.as_slice())?;
        Ok(Known {
            alloc,
            views,
            down: ListOf::new(alloc),
            wants,
        })
    }

    /// The views, one a troupe. It takes no memory.
    pub fn views(&self) -> &Views
        ensures { result.now ≡ self.now.views }
    {
        &self.views
    }

    /// The nodes that are down. It takes no memory.
    pub fn down_nodes(&self) -> &Nodes
        ensures { result.now ≡ self.now.down }
    {
        &self.down
    }

    /// The view of a troupe. It takes no memory.
    pub fn view(&self, troupe: u16) -> Option<&View>
        ensures { option_copied result ≡ slice_get self.now.views troupe }
    {
        self.views.get(usize::from(troupe))
    }

    /// Whether a node was declared down. It takes no memory.
    pub fn is_down(&self, node: u16) -> bool
        ensures { result ≡ is_among self.now.down node }
    {
        is_among(self.down.as_slice(), node)
    }

    /// Takes the view of a table, and answers whether it is newer than the one that was known. It takes no memory.
    pub fn tell(&mut self, view: View) -> bool
        ensures newer { result ≡ knowing.is_newer self.old view }
        ensures known { self.new ≡ knowing.note_view self.old view }
    {
        let place = usize::from(view.troupe);
        let newer = match self.views.get(place) {
            Some(known) => known.incarnation < view.incarnation,
            None => false,
        };
        if newer {
            self.views.set(place, view);
        }
        newer
    }

    /// A node was declared down. After `NoMemory` nothing has changed.
    pub fn declare(&mut self, node: u16) -> Result<(), NoMemory>
        ensures known { OnOk result (self.new ≡ knowing.note_down self.old node) }
        ensures refused { OnErr result (self.new ≡ self.old) }
    {
        if self.is_down(node) {
            return Ok(());
        }
        self.down.push(node)
    }

    /// A view of a troupe is wanted in an incarnation. It takes no memory.
    pub fn want(&mut self, troupe: u16, incarnation: u32)
        ensures { self.new ≡ knowing.want_view self.old troupe incarnation }
    {
        let place = usize::from(troupe);
        if let Some(want) = self.wants.get(place).copied() {
            let incarnation = want.incarnation.max(incarnation);
            let asked = want.asked;
            self.wants.set(place, Want { incarnation, asked });
        }
    }

    /// The Ringmaster answered for a troupe. It takes no memory.
    pub fn answer(&mut self, troupe: u16)
        ensures { self.new ≡ knowing.note_answer self.old troupe }
    {
        ask(&mut self.wants, troupe, false);
    }

    /// The troupes whose views are to be looked up now, in module order, at the Ringmaster's node: none where that is
    /// down. Each of them is asked for from now on. After `NoMemory` nothing has changed.
    pub fn look_up(&mut self, ringmaster: u16) -> Result<Numbers, NoMemory>
        ensures due { IfOk result (λ troupes. troupes ≡ knowing.lookups self.old ringmaster) }
        ensures known { OnOk result (self.new ≡ knowing.note_lookup self.old ringmaster) }
        ensures refused { OnErr result (self.new ≡ self.old) }
    {
        if self.is_down(ringmaster) {
            return Ok(ListOf::new(self.alloc));
        }
        let troupes = troupes_due(self.alloc, self.views.as_slice(), self.wants.as_slice())?;
        ask_all(&mut self.wants, troupes.as_slice());
        Ok(troupes)
    }
}

#[tactic(auto, using(circus_collate::proofs::Going::map_more, circus_collate::proofs::Going::map_all))]
fn nothing_wanted(alloc: Global, views: &[View]) -> Result<Wants, NoMemory>
    ensures { IfOk result (λ wants. wants ≡ map knowing.no_want views.now) }
{
    let mut wants = ListOf::new(alloc);
    for view in views {
        wants.push(no_want(view))?;
    }
    Ok(wants)
}

fn no_want(_view: &View) -> Want
    ensures { result ≡ knowing.no_want _view.now }
{
    Want {
        incarnation: 0,
        asked: false,
    }
}

// Whether the Ringmaster is asked for a troupe's view.
fn ask(wants: &mut Wants, troupe: u16, asked: bool)
    ensures asked { wants.new ≡ knowing.asked_of asked wants.old troupe }
    ensures same { length wants.new ≡ length wants.old }
{
    let place = usize::from(troupe);
    if let Some(want) = wants.get(place).copied() {
        let incarnation = want.incarnation;
        wants.set(place, Want { incarnation, asked });
    }
}

// The Ringmaster is asked for the views of these troupes.
fn ask_all(wants: &mut Wants, troupes: &[u16])
    ensures asked { wants.new ≡ knowing.asked_all wants.old troupes.now }
    ensures same { length wants.new ≡ length wants.old }
{
    for troupe in troupes {
        ask(wants, *troupe, true);
    }
}

// The troupes whose views are to be looked up.
fn troupes_due(alloc: Global, views: &[View], wants: &[Want]) -> Result<Numbers, NoMemory>
    requires few { length views.now ≤ 65536 }
    requires both { length wants.now ≡ length views.now }
    ensures { IfOk result (λ troupes. troupes ≡ knowing.due_from 0 views.now wants.now) }
{
    let mut troupes = ListOf::new(alloc);
    for place in 0..views.len() {
        add_due(&mut troupes, place as u16, &views[place], wants[place])?;
    }
    Ok(troupes)
}

// Adds a troupe where its view is to be looked up.
fn add_due(troupes: &mut Numbers, troupe: u16, view: &View, want: Want) -> Result<(), NoMemory>
    ensures { OnOk result (troupes.new ≡ troupes.old ++ knowing.due_of troupe view.now want) }
{
    if view.incarnation < want.incarnation && !want.asked {
        troupes.push(troupe)?;
    }
    Ok(())
}
