// What happened to a node that is served.
ghost use Rattle.std.specs.Prelude.{◌≡◌, ◌+◌, ◌≤◌, [], ◌∷◌, ◌++◌, length, IfOk, OnOk};
ghost use Rattle.circus_outside.specs.Link.{LinkCounts};
ghost use Rattle.circus_serve.specs.Outside.{tells_of};
ghost use Rattle.circus_serve.specs.Happened.{all_given};
ghost use Rattle.circus_serve.specs.Giving.{AreGiven};

use crate::giving::give_all;
use crate::{Happening, Happenings};
use circus_collate::Deployment;
use circus_node::{Differences, Event, Gives};
use circus_outside::{Link, LinkFault};
use circus_value::{Message, NoMemory};
use std::alloc::Global;

/// What happened so far, each thing once all that it gives was given, and the number of the next event.
#[derive(Drop)]
pub struct Log {
    pub next: u64,
    pub happened: Happenings,
    ghost numbered: { next ≤ length happened },
}

impl Log {
    /// A node has booted: gives this to the link, and then begins a log with it. `Failed` only where the link's count of
    /// faults rose, and then a part was given that lacks something. `NoMemory` where memory runs out, behind a part or all.
    pub fn begin<L: Link>(
        alloc: Global,
        gives: Gives,
        deployment: &Deployment,
        link: &mut L,
    ) -> Result<Self, LinkFault>
        ensures given { AreGiven
            (tells_of (L.bound link.old) (L.taken link.old) (L.given link.old))
            (tells_of (L.bound link.new) (L.taken link.new) (L.given link.new))
            (all_given deployment.now gives) result }
        ensures next { IfOk result (λ log. log.next ≡ 1) }
        ensures happened { IfOk result (λ log. log.happened ≡ Happening.Booted gives ∷ []) }
        ensures counts { LinkCounts result (L.faults link.old) (L.faults link.new) }
    {
        give_all(&gives, deployment, link)?;
        let mut happened = Happenings::new(alloc);
        happened.push(Happening::Booted(gives))?;
        Ok(Log { next: 1, happened })
    }

    /// An event came, in which the node gives this, and replies differ so: gives this to the link, and then notes the event.
    /// The faults are those of `begin`; nothing is said of the log behind one.
    pub fn add_event<L: Link>(
        &mut self,
        event: Event,
        gives: Gives,
        differences: Differences,
        deployment: &Deployment,
        link: &mut L,
    ) -> Result<(), LinkFault>
        ensures given { AreGiven
            (tells_of (L.bound link.old) (L.taken link.old) (L.given link.old))
            (tells_of (L.bound link.new) (L.taken link.new) (L.given link.new))
            (all_given deployment.now gives) result }
        ensures next { OnOk result (self.new.next ≡ self.old.next + 1) }
        ensures happened { OnOk result
            (self.new.happened
            ≡ self.old.happened ++ Happening.Stepped event gives differences ∷ []) }
        ensures counts { LinkCounts result (L.faults link.old) (L.faults link.new) }
    {
        give_all(&gives, deployment, link)?;
        let happening = Happening::Stepped(event, gives, differences);
        self.happened.push(happening)?;
        prove!(self.next < self.happened.len() as u64);
        self.next += 1;
        Ok(())
    }

    /// Notes that a datagram came from a port that is no other node's, which is no event. `NoMemory` where memory runs out.
    pub fn add_foreign(&mut self, port: u16, bytes: Message) -> Result<(), NoMemory>
        ensures next { self.new.next ≡ self.old.next }
        ensures happened { OnOk result
            (self.new.happened ≡ self.old.happened ++ Happening.Foreign port bytes ∷ []) }
    {
        self.happened.push(Happening::Foreign(port, bytes))
    }
}
