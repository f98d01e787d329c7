// The nodes of a program, and what they have sent that hasn't come yet.
use anyhow::Error;
use bytes::Bytes;
use circus_config::read_program;
use circus_machine::TextModule;
use circus_node::{Event, Outputs};
use circus_node_guard::GuardedNode;
use circus_plan_modules::load;
use circus_value::ListOf;
use std::alloc::Global;
use std::collections::VecDeque;

// After so many datagrams a tick comes to each node.
const TICKS_AFTER: u64 = 1_000;

// A datagram that is on its way.
#[derive(Drop)]
struct Sent {
    from: u16,
    to: u16,
    bytes: Bytes,
}

/// The nodes of a program, of which one may have crashed.
pub struct Net {
    nodes: Vec<Option<GuardedNode<TextModule>>>,
    sent: VecDeque<Sent>,
    // What is sent to this node is lost.
    crashed: Option<u16>,
    events: u64,
}

// Written out, so that dropping one is one step of a proof (docs/PROOFS.md, "Cost").
impl Drop for Net {
    fn drop(self) {
        let Net {
            nodes: _,
            sent: _,
            crashed: _,
            events: _,
        } = self;
    }
}

// The nodes of a program at boot, and what they give.
fn boot_nodes(
    alloc: Global,
    text: &str,
) -> Result<ListOf<(GuardedNode<TextModule>, Outputs)>, Error> {
    let program = load(alloc, read_program(alloc, text.as_bytes())?)?;
    let nodes = GuardedNode::boot_all(alloc, &program.deployment, program.modules.as_slice())?;
    Ok(nodes)
}

impl Net {
    /// The nodes of a program at boot. Where one has crashed, it did so then, and ticks come to the others.
    pub fn boot(alloc: Global, text: &str, crashed: Option<u16>) -> Result<Net, Error> {
        let mut net = Net {
            nodes: Vec::new(alloc),
            sent: VecDeque::new(alloc),
            crashed,
            events: 0,
        };
        for (node, outputs) in boot_nodes(alloc, text)?.into_items() {
            net.add(node, outputs)?;
        }
        Ok(net)
    }

    // The next node, and what it gives at boot.
    fn add(&mut self, node: GuardedNode<TextModule>, outputs: Outputs) -> Result<(), Error> {
        let own = node.number();
        self.nodes.push(Some(node))?;
        self.send(own, outputs)
    }

    fn send(&mut self, from: u16, outputs: Outputs) -> Result<(), Error> {
        for give in outputs.gives.into_items() {
            let bytes = give.bytes.share()?;
            let to = give.to;
            self.sent.push_back(Sent { from, to, bytes })?;
        }
        Ok(())
    }

    // Something comes to a node, unless it has crashed.
    fn step(&mut self, to: u16, event: Event) -> Result<(), Error> {
        if self.crashed == Some(to) {
            return Ok(());
        }
        let Some(place) = self.nodes.get_mut(usize::from(to)) else {
            return Ok(());
        };
        let Some(node) = place.take() else {
            return Ok(());
        };
        self.events = self.events.saturating_add(1);
        let (node, outputs) = node.step(self.events, event)?;
        *place = Some(node);
        self.send(to, outputs)
    }

    fn tick(&mut self) -> Result<(), Error> {
        for number in 0..self.nodes.len() {
            self.step(u16::try_from(number)?, Event::Tick)?;
        }
        Ok(())
    }

    /// Lets so many datagrams come, where so many are sent.
    pub fn go_on(&mut self, datagrams: u64) -> Result<(), Error> {
        for number in 0..datagrams {
            let Some(Sent { from, to, bytes }) = self.sent.pop_front() else {
                break;
            };
            self.step(to, Event::Datagram(from, bytes))?;
            if self.crashed.is_some() && number % TICKS_AFTER == 0 {
                self.tick()?;
            }
        }
        Ok(())
    }

    /// How many events there were so far: datagrams that came, and ticks.
    pub fn events(&self) -> u64 {
        self.events
    }
}
