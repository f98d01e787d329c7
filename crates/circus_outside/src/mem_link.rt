// A link in memory, some of whose calls fail.
ghost use Rattle.std.specs.Prelude.{◌≡◌, ◌≤◌, ◌++◌, [], ◌∷◌, Option, Some, List, ℕ, length, map, IfOk, OnOk, IsErrOf};
ghost use Rattle.circus_outside.specs.Faults.{one_more};
ghost use Rattle.circus_outside.specs.Link.{LinkCounts, IsCut, ports_after, takes_after, given_after};
ghost use Rattle.circus_outside.specs.MemLink.{CallFails, TakesFirst, port_and_bytes};

use crate::arrival::{Look, arrival_at};
use crate::calls::Calls;
use crate::{Arrival, Arrivals, Failing, Link, LinkFault, TakenFrom};
use circus_value::{ListOf, Message, Numbers};
use std::alloc::Global;
use std::marker::Model;

/// A link in memory. Its calls are numbered from 0 over `bind`, `take` and `give` together, those that
/// find no memory aside, and each whose number is listed fails.
pub struct MemLink {
    alloc: Global,
    arrivals: Arrivals,
    next: usize,
    calls: Calls,
    bound: Numbers,
    looks: ListOf<Look>,
    given: Arrivals,
}

// Written out, so that dropping one is one step of a proof (docs/PROOFS.md, "Cost").
impl Drop for MemLink {
    fn drop(self) {
        let MemLink {
            alloc: _,
            arrivals: _,
            next: _,
            calls: _,
            bound: _,
            looks: _,
            given: _,
        } = self;
    }
}

impl Model for MemLink {
    ghost use Rattle.std.specs.Prelude.{drop, map};
    ghost use Rattle.circus_outside.specs.MemLink.{LinkInMemory, answer_to};

    ghost Value = { LinkInMemory };

    ghost view = { λ link. record {
      left = drop link.next link.arrivals;
      failing = link.calls.failing;
      number = link.calls.number;
      faults = link.calls.faults;
      bound = link.bound;
      taken = map (λ look. answer_to look link.arrivals) link.looks;
      given = link.given;
    } };
}

impl MemLink {
    /// A link at which these datagrams arrive, one a take, and of whose calls the listed ones fail. It
    /// takes no memory.
    pub fn new(alloc: Global, arrivals: Arrivals, failing: Failing) -> Self
        ensures { result
            ≡ record {
              left = arrivals;
              failing = failing;
              number = 0;
              faults = 0;
              bound = [];
              taken
                  = [];
              given = [];
            } }
    {
        MemLink {
            alloc,
            arrivals,
            next: 0,
            calls: Calls::new(failing),
            bound: Numbers::new(alloc),
            looks: ListOf::new(alloc),
            given: Arrivals::new(alloc),
        }
    }

    /// The ports that `bind` was asked for so far, in order.
    pub fn bound(&self) -> &Numbers
        ensures { result.now ≡ self.now.bound }
    {
        &self.bound
    }

    /// How many times `take` was asked so far.
    pub fn takes(&self) -> u64
        ensures { result ≡ length self.now.taken }
    {
        self.looks.len() as u64
    }

    /// The datagrams given so far, in order, each with the port that it went to.
    pub fn given(&self) -> &Arrivals
        ensures { result.now ≡ self.now.given }
    {
        &self.given
    }
}

impl Link for MemLink {
    ghost bound = { λ link. Some link.bound };

    ghost taken = { λ link. Some link.taken };

    ghost given = { λ link. Some (map port_and_bytes link.given) };

    ghost faults = { λ link. link.faults };

    fn bind(&mut self, port: u16) -> Result<(), LinkFault>
        ensures bound { Some self.new.bound ≡ ports_after result (Some self.old.bound) port }
        ensures taken { Some self.new.taken ≡ Some self.old.taken }
        ensures given { Some (map port_and_bytes self.new.given)
            ≡ Some (map port_and_bytes self.old.given) }
        ensures counts { LinkCounts result self.old.faults self.new.faults }
        ensures never_falls { self.old.faults ≤ self.new.faults }

        // It fails exactly where it has to.
        ensures fails { IsErrOf result LinkFault.Failed → CallFails self.old }
        ensures answers { OnOk result (CallFails self.old → ⊥) }

        // What it leaves.
        ensures ok { OnOk result (self.new ≡ record self.old {
          number = one_more self.old.number;
          bound = self.old.bound ++ port ∷ [];
        }) }
        ensures failed { IsErrOf result LinkFault.Failed → self.new ≡ record self.old {
          number = one_more self.old.number;
          bound = self.old.bound ++ port ∷ [];
          faults = one_more self.old.faults;
        } }
        ensures no_memory { IsErrOf result LinkFault.NoMemory → self.new ≡ self.old }
    {
        self.bound.push(port)?;
        if self.calls.is_failing() {
            self.calls.note_failure();
            return Err(LinkFault::Failed);
        }
        self.calls.note_answer();
        Ok(())
    }

    fn take(&mut self) -> Result<TakenFrom, LinkFault>
        ensures cut { IfOk result IsCut }
        ensures taken { Some self.new.taken ≡ takes_after result (Some self.old.taken) }
        ensures bound { Some self.new.bound ≡ Some self.old.bound }
        ensures given { Some (map port_and_bytes self.new.given)
            ≡ Some (map port_and_bytes self.old.given) }
        ensures counts { LinkCounts result self.old.faults self.new.faults }
        ensures never_falls { self.old.faults ≤ self.new.faults }

        // It fails exactly where it has to, and else answers the first arrival that is left.
        ensures fails { IsErrOf result LinkFault.Failed → CallFails self.old }
        ensures answers { OnOk result (CallFails self.old → ⊥) }
        ensures first { IfOk result (λ answer. TakesFirst self.old.left answer self.new.left) }

        // What it leaves, the answers aside.
        ensures ok { OnOk result (self.new ≡ record self.old {
          left = self.new.left;
          number = one_more self.old.number;
          taken = self.new.taken;
        }) }
        ensures failed { IsErrOf result LinkFault.Failed → self.new ≡ record self.old {
          number = one_more self.old.number;
          taken = self.new.taken;
          faults = one_more self.old.faults;
        } }
        ensures no_memory { IsErrOf result LinkFault.NoMemory → self.new ≡ self.old }
    {
        if self.calls.is_failing() {
            self.looks.push(Look::Missed)?;
            self.calls.note_failure();
            return Err(LinkFault::Failed);
        }
        let (answer, next) = arrival_at(self.alloc, &self.arrivals, self.next)?;
        self.looks.push(Look::At(self.next))?;
        self.next = next;
        self.calls.note_answer();
        Ok(answer)
    }

    fn give(&mut self, port: u16, bytes: &[u8]) -> Result<(), LinkFault>
        ensures given { Some (map port_and_bytes self.new.given)
            ≡ given_after result (Some (map port_and_bytes self.old.given)) port bytes.now }
        ensures bound { Some self.new.bound ≡ Some self.old.bound }
        ensures taken { Some self.new.taken ≡ Some self.old.taken }
        ensures counts { LinkCounts result self.old.faults self.new.faults }
        ensures never_falls { self.old.faults ≤ self.new.faults }

        // It fails exactly where it has to.
        ensures fails { IsErrOf result LinkFault.Failed → CallFails self.old }
        ensures answers { OnOk result (CallFails self.old → ⊥) }

        // What it leaves.
        ensures ok { OnOk result (self.new ≡ record self.old {
          number = one_more self.old.number;
          given = self.old.given ++ record { port = port; bytes = bytes.now } ∷ [];
        }) }
        ensures failed { IsErrOf result LinkFault.Failed → self.new ≡ record self.old {
          number = one_more self.old.number;
          faults = one_more self.old.faults;
        } }
        ensures no_memory { IsErrOf result LinkFault.NoMemory → self.new ≡ self.old }
    {
        if self.calls.is_failing() {
            self.calls.note_failure();
            return Err(LinkFault::Failed);
        }
        let mut kept = Message::new(self.alloc);
        kept.append(bytes)?;
        self.given.push(Arrival { port, bytes: kept })?;
        self.calls.note_answer();
        Ok(())
    }

    fn faults(&self) -> u64 {
        self.calls.faults
    }
}
