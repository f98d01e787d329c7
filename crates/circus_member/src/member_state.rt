// What a member is, within a step too.
ghost use Rattle.std.specs.Prelude.{◌≡◌, IfOk};
ghost use Rattle.circus_model.specs.Lawful.{IsState};
ghost use Rattle.circus_performing.specs.Performing as performing;
ghost use Rattle.circus_performing.specs.Acts.{CanEnter, CanAnswer};

use circus_fanout::Known;
use circus_gather::Gather;
use circus_header::Reply;
use circus_member_rules::{OpenAsks, Place};
use circus_model::Module;
use circus_performing::{Performer, RunStart};
use circus_value::{Callers, NoMemory, State};
use std::alloc::Global;

/// What it knows, the calls to it, what it performs, what it asks, and who waits for its state.
#[derive(Drop)]
pub(crate) struct MemberState<M: Module> {
    pub alloc: Global,
    pub place: Place,
    pub known: Known,
    pub gather: Gather,
    pub performer: Performer<M>,
    pub asks: OpenAsks,
    pub requests: Callers,
}

impl<M: Module> MemberState<M> {
    /// It performs as one that is given a state.
    pub fn activate(mut self, state: State, count: u32, at: u64) -> Result<Self, NoMemory>
        requires { IsState (M.declared self.performer.hosted) state }
        ensures { IfOk result (λ m.
            m ≡ record self { performer = performing.activate at state count self.performer }) }
    {
        self.performer = self.performer.activate(state, count, at)?;
        Ok(self)
    }

    /// Its open ask is answered, and the run goes on.
    pub fn answer(mut self, reply: Reply, at: u64) -> Result<Self, NoMemory>
        requires { CanAnswer
            (M.declared self.performer.hosted) reply.outcome self.performer.kept }
        ensures { let p = self.performer in IfOk result (λ m.
            m ≡ record self {
              performer = record p {
                kept = performing.answer_open_ask
                    (M.turn p.hosted) p.began at reply.outcome reply.clock p.kept;
              };
            }) }
    {
        self.performer = self.performer.answer(reply.outcome, reply.clock, at)?;
        Ok(self)
    }

    /// A run is entered.
    pub fn enter(mut self, start: RunStart, at: u64) -> Result<Self, NoMemory>
        requires { CanEnter (M.declared self.performer.hosted) start self.performer.kept }
        ensures { let p = self.performer in IfOk result (λ m.
            m ≡ record self {
              performer = record p {
                kept = performing.enter_run (M.turn p.hosted) at start p.kept;
              };
            }) }
    {
        self.performer = self.performer.enter(start, at)?;
        Ok(self)
    }
}
