// A member of a troupe as it performs.
ghost use Rattle.std.specs.Prelude.{◌≡◌, true, IfOk, option_copied};
ghost use Rattle.circus_model.specs.Lawful.{IsState};
ghost use Rattle.circus_model.specs.Gives.{Gives};
ghost use Rattle.circus_performing.specs.Performing as performing;
ghost use Rattle.circus_performing.specs.Acts.{CanEnter, CanAnswer};
ghost use Rattle.circus_performing.specs.Record.{behaviour, IsRecord};
ghost use Rattle.circus_performing.specs.Seen.UnderWay.{IsMember, IsNext};

use crate::RunStart;
use crate::record::{add_run, is_fetching, make_active};
use crate::run::{
    Asked, begin_run, current_clock, ended_run, refusal, refused_run, replied_run, waiting_run,
};
use circus_collate::Table;
use circus_model::{Module, Signature, Turn, is_spent};
use circus_record::{AskRecord, MemberRecord, RunRecord};
use circus_transfer::Joiner;
use circus_value::{Clock, Duplicate, ListOf, NoMemory, Outcome, State, Values};
use std::alloc::Global;
use std::marker::Model;
use std::mem;

/// A member: its module, its record, and its run where that waits for a reply (docs/PROTOCOL.md, "Performing"). Clauses
/// see the module, the state with which the member became active, and the record.
pub struct Performer<M: Module> {
    alloc: Global,
    held: Box<Held<M>>,
}

// What it has, in a box, so that a step moves a word (docs/PROOFS.md, "Speed").
struct Held<M: Module> {
    hosted: M,
    began: State,
    kept: MemberRecord,
    paused: Option<M::Paused>,
}

impl<M: Module> Drop for Held<M> {
    fn drop(self) {
        let Held {
            hosted: _,
            began: _,
            kept: _,
            paused: _,
        } = self;
    }
}

// Written out, so that dropping one is one step of a proof (docs/PROOFS.md, "Cost").
impl<M: Module> Drop for Performer<M> {
    fn drop(self) {
        let Performer { alloc: _, held: _ } = self;
    }
}

impl<M: Module> Model for Performer<M> {
    ghost use Rattle.circus_performing.specs.Performing.{Performing};
    ghost use Rattle.circus_performing.specs.Seen.MemberCode.{member_code};
    ghost use Rattle.circus_performing.specs.Record.{behaviour};
    ghost use Rattle.circus_performing.specs.Seen.UnderWay.{IsMember};

    ghost Value = { Performing M };

    ghost coded = { member_code M.code };

    ghost view = { λ a. let h = a.held.value in record { hosted = h.hosted; began = h.began; kept = h.kept } };

    ghost invariant = { λ a. let h = a.held.value in IsMember (M.stands h.hosted) (behaviour M.declared M.turn M.first h.hosted) h.began h.kept h.paused };
}

// A member as one of its runs goes on. The record has the runs before it.
#[derive(Drop)]
struct Going<M: Module> {
    alloc: Global,
    held: Box<Held<M>>,
    run: RunRecord,
}

impl<M: Module> Performer<M> {
    /// A founder, which is active from the first call on. `NoMemory` is the one fault.
    pub fn founder(alloc: Global, hosted: M) -> Result<Self, NoMemory>
        ensures { IfOk result (λ p. p ≡ performing.founder hosted (M.first hosted)) }
    {
        Performer::before_any(alloc, hosted, Joiner::Active(0))
    }

    /// A spare, which isn't active. `NoMemory` is the one fault.
    pub fn spare(alloc: Global, hosted: M) -> Result<Self, NoMemory>
        ensures { IfOk result (λ p. p ≡ performing.spare hosted (M.first hosted)) }
    {
        Performer::before_any(alloc, hosted, Joiner::Outside)
    }

    fn before_any(alloc: Global, hosted: M, phase: Joiner) -> Result<Self, NoMemory>
        ensures { IfOk result (λ p.
            p ≡ record {
              hosted = hosted;
              began = M.first hosted;
              kept = performing.before_any phase
                  (M.first hosted);
            }) }
    {
        let state = hosted.first_state()?;
        let began = state.copy()?;
        let kept = MemberRecord {
            phase,
            from: 0,
            active_at: 0,
            count: 0,
            runs: ListOf::new(alloc),
            state,
        };
        let held = Held {
            hosted,
            began,
            kept,
            paused: None,
        };
        Ok(Performer {
            alloc,
            held: Box::new(alloc, held)?,
        })
    }

    /// What the module declares. It takes no memory.
    pub fn signature(&self) -> &Signature
        ensures { result.now ≡ M.declared self.now.hosted }
    {
        self.held.hosted.signature()
    }

    /// What the member did. It takes no memory.
    pub fn record(&self) -> &MemberRecord
        ensures value { result.now ≡ self.now.kept }
        ensures kept { IsRecord
            (behaviour M.declared M.turn M.first self.now.hosted) self.now.began self.now.kept }
    {
        &self.held.kept
    }

    /// The state with which the member became active; before that, the first one of its module. It takes no memory.
    pub fn activation_state(&self) -> &State
        ensures { result.now ≡ self.now.began }
    {
        &self.held.began
    }

    /// The ask for whose reply its run waits. `None` exactly where it performs no run. It takes no memory.
    pub fn open_ask(&self) -> Option<&AskRecord>
        ensures { option_copied result ≡ performing.open_ask self.now.kept }
    {
        let run = self.last_run()?;
        let ask = run.asks.as_slice().last()?;
        if ask.reply.is_none() { Some(ask) } else { None }
    }

    /// The run that was entered last. It takes no memory.
    pub fn last_run(&self) -> Option<&RunRecord>
        ensures { option_copied result ≡ performing.last_of self.now.kept.runs }
    {
        self.held.kept.runs.as_slice().last()
    }

    /// The member is told to join its troupe. It takes no memory.
    pub fn join(&mut self)
        ensures { self.new ≡ record self.old { kept = performing.told_to_join self.old.kept } }
    {
        let held = &mut *self.held;
        held.kept.phase = held.kept.phase.join();
    }

    /// The Ringmaster has answered its Join. It takes no memory.
    pub fn take_in(&mut self, table: &Table)
        ensures { self.new
            ≡ record self.old { kept = performing.taken_in table.now self.old.kept } }
    {
        let held = &mut *self.held;
        held.kept.phase = held.kept.phase.table(table);
    }

    /// Where the member fetches a state, it has this one, and is active from the count on; else nothing changes.
    /// After `NoMemory` the member is gone.
    pub fn activate(self, state: State, count: u32, step: u64) -> Result<Self, NoMemory>
        requires { IsState (M.declared self.hosted) state }
        ensures { IfOk result (λ p. p ≡ performing.activate step state count self) }
    {
        if !is_fetching(self.held.kept.phase) {
            return Ok(self);
        }
        self.made_active(state, count, step)
    }

    fn made_active(self, state: State, count: u32, step: u64) -> Result<Self, NoMemory>
        requires state { IsState (M.declared self.hosted) state }
        requires fetching { performing.is_fetching self.kept.phase ≡ true }
        ensures { IfOk result (λ p. p ≡ performing.made_active step state count self) }
    {
        let Performer { alloc, mut held } = self;
        let inside = &mut *held;
        make_active(&mut inside.kept, state.copy()?, count, step);
        inside.began = state;
        inside.paused = None;
        Ok(Performer { alloc, held })
    }

    /// Enters the next run in a step, and goes on until the module asks for a reply that isn't given at once, or the run
    /// ends. A thread that has made all its calls is given the error for that (docs/PROTOCOL.md, "Performing"). After
    /// `NoMemory` the member is gone.
    pub fn enter(self, start: RunStart, step: u64) -> Result<Self, NoMemory>
        requires { CanEnter (M.declared self.hosted) start self.kept }
        ensures { IfOk result (λ p.
            p ≡ record self {
              kept = performing.enter_run
                  (M.turn self.hosted) step start self.kept;
            }) }
    {
        let Performer { alloc, mut held } = self;
        let inside = &mut *held;
        inside.paused = None;
        let state = mem::replace(&mut inside.kept.state, Values::new(alloc));
        let turn = inside
            .hosted
            .start(state, start.procedure, &start.arguments)?;
        let going = Going {
            alloc,
            held,
            run: begin_run(alloc, start, step),
        };
        going.go_on(turn, step)
    }

    /// Answers the open ask in a step, with the clock after it, and goes on as `enter` does. After `NoMemory` the member
    /// is gone.
    pub fn answer(self, reply: Outcome, clock: Clock, step: u64) -> Result<Self, NoMemory>
        requires { CanAnswer (M.declared self.hosted) reply self.kept }
        ensures { IfOk result (λ p.
            p ≡ record self {
              kept = performing.answer_open_ask
                  (M.turn self.hosted) self.began step reply clock self.kept;
            }) }
    {
        let Performer { alloc, mut held } = self;
        let inside = &mut *held;
        let Some(paused) = inside.paused.take() else {
            unreachable!()
        };
        let Some(run) = inside.kept.runs.pop() else {
            unreachable!()
        };
        let turn = inside.hosted.resume(paused, &reply)?;
        let going = Going {
            alloc,
            held,
            run: replied_run(run, reply, clock, step)?,
        };
        going.go_on(turn, step)
    }
}

impl<M: Module> Going<M> {
    // Goes on in a step as far as the run can.
    fn go_on(self, turn: Turn<M::Paused>, step: u64) -> Result<Performer<M>, NoMemory>
        requires next { let h = self.held.value in IsNext
            (behaviour M.declared M.turn M.first h.hosted) h.began h.kept step self.run }
        requires gives { let h = self.held.value in let state = performing.state_after h.began
            h.kept.runs in let replies = performing.replies_of self.run.asks in Gives (λ paused.
            M.stands h.hosted paused state self.run.procedure self.run.arguments replies)
            (M.turn h.hosted state self.run.procedure self.run.arguments replies) turn }
        ensures { let h = self.held.value in IfOk result (λ p. p ≡ record {
          hosted = h.hosted;
          began = h.began;
          kept = performing.with_run h.kept
              (performing.gone_on step
              (M.turn h.hosted
              (performing.state_after h.began h.kept.runs) self.run.procedure self.run.arguments)
              performing.most_turns self.run);
        }) }
    {
        let Going {
            alloc,
            held,
            mut run,
        } = self;
        let mut turn = turn;
        loop {
            match turn {
                Turn::Ends { outcome, state } => {
                    let run = ended_run(run, outcome, state, step)?;
                    let going = Going { alloc, held, run };
                    return going.rest(None);
                }
                Turn::Asks {
                    callee,
                    procedure,
                    arguments,
                    state,
                    paused,
                } => {
                    let asked = Asked {
                        callee,
                        procedure,
                        arguments,
                        state,
                    };
                    if !is_spent(current_clock(&run)) {
                        let going = Going {
                            alloc,
                            held,
                            run: waiting_run(run, asked, step)?,
                        };
                        return going.rest(Some(paused));
                    }
                    turn = held.hosted.resume(paused, &refusal(alloc))?;
                    run = refused_run(alloc, run, asked, step)?;
                }
            }
        }
    }

    // The member once its run rests.
    fn rest(self, paused: Option<M::Paused>) -> Result<Performer<M>, NoMemory>
        requires { let h = self.held.value in IsMember (M.stands h.hosted)
            (behaviour M.declared M.turn M.first h.hosted) h.began
            (performing.with_run h.kept self.run) paused }
        ensures { let h = self.held.value in IfOk result (λ p.
            p ≡ record {
              hosted = h.hosted;
              began = h.began;
              kept = performing.with_run h.kept
                  self.run;
            }) }
    {
        let Going {
            alloc,
            mut held,
            run,
        } = self;
        let inside = &mut *held;
        inside.paused = paused;
        add_run(alloc, &mut inside.kept, run)?;
        Ok(Performer { alloc, held })
    }
}
