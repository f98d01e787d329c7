// What a record tells of an event, beside what came of it.
ghost use Rattle.std.specs.Prelude.{◌≡◌, ℕ, true, false, List, All, IfOk};
ghost use Rattle.std.specs.Bool.{Decides};
ghost use Rattle.circus_collate.specs.declared.deployment.Deployment.{Deployment as Deployed};
ghost use Rattle.circus_wire.specs.Wire.{Remains};
ghost use Rattle.circus_wire.specs.WireActs.{WireAct, WireActs};
ghost use Rattle.circus_member_rules.specs.declared.occurrence.Purpose.{Purpose as MadeFor};
ghost use Rattle.circus_member_theory.specs.Made.{at_most_one};
ghost use Rattle.circus_world_theory.specs.Histories.{beginning_of};
ghost use Rattle.circus_world_theory.specs.NodeActs.{with_all};
ghost use Rattle.circus_headline_theory.specs.Peers.{GoesToPeer};
ghost use Rattle.circus_headline_theory.specs.Trace.{gives_for_all};
ghost use Rattle.circus_verdict.specs.Seen.Living as living;
ghost use Rattle.circus_verdict.specs.Seen.Station.{IsFormatted, StandFor, IsHandedOver, TellsOf};

use crate::same::Same;
use crate::station::Pairs;
use circus_audit::GivenEvent;
use circus_member_rules::{Difference, Effects};
use circus_node::{Event, Gives, StepFault};
use circus_value::{ListOf, NoMemory, Nodes};
use std::alloc::{AllocError, Global};

/// What was made of an event, behind what came of it, is handed over. Whether each call of it has a number, and the record
/// tells of the event what was sent and what differed. After `NoMemory`, and where it doesn't, some of it may have been
/// handed over.
pub(crate) fn is_told(
    told: &GivenEvent,
    pairs: &mut Pairs,
    made: Effects,
    gives: Gives,
    differs: &Option<Difference>,
) -> Result<bool, NoMemory>
    requires { IsFormatted pairs.old }
    ensures tells { (d : Deployed) (node : ℕ) (acts : WireActs MadeFor)
        (came : List (WireAct MadeFor)) → StandFor d node (with_all acts came) pairs.old
        → gives ≡ gives_for_all (beginning_of d node) acts came
        → All (GoesToPeer (beginning_of d node)) made
        → IfOk result (λ tells. TellsOf d node acts came made
        (at_most_one differs.now) told.now pairs.new tells) }
    ensures format { IsFormatted pairs.new }
    ensures remains { Remains pairs.old.wire pairs.new.wire }
{
    let mut gives = gives;
    let has_numbers = hand(pairs, made, &mut gives)?;
    if !has_numbers {
        return Ok(false);
    }
    if !told.gives.is_same(&gives) {
        return Ok(false);
    }
    Ok(differs_so(told.differences.as_slice(), differs))
}

// What is made is handed over, and what is sent is added. False exactly where a call of it has no number.
fn hand(pairs: &mut Pairs, made: Effects, gives: &mut Gives) -> Result<bool, NoMemory>
    requires { IsFormatted pairs.old }
    ensures handed { (d : Deployed) (node : ℕ) (acts : WireActs MadeFor)
        (came : List (WireAct MadeFor)) → StandFor d node (with_all acts came) pairs.old
        → gives.old ≡ gives_for_all (beginning_of d node) acts came
        → All (GoesToPeer (beginning_of d node)) made
        → IfOk result (IsHandedOver d node acts came made pairs.new gives.new) }
    ensures format { IsFormatted pairs.new }
    ensures remains { Remains pairs.old.wire pairs.new.wire }
{
    match pairs.hand(made, gives) {
        Ok(()) => Ok(true),
        Err(StepFault::Spent(_)) => Ok(false),
        Err(StepFault::NoMemory) => Err(AllocError),
    }
}

// One is told where it differs, and none where none does.
fn differs_so(told: &[Difference], differs: &Option<Difference>) -> bool
    ensures { Decides result (told.now ≡ at_most_one differs.now) }
{
    match differs {
        Some(difference) => match told.split_first() {
            Some((first, others)) => others.is_empty() && first.is_same(difference),
            None => false,
        },
        None => told.is_empty(),
    }
}

/// Which declarations are to come behind an event in whose step these nodes are suspected, where these were to come before
/// it. `None` where the event isn't what is due.
pub(crate) fn awaited_behind(
    alloc: Global,
    due: Nodes,
    event: &Event,
    suspects: Nodes,
) -> Result<Option<Nodes>, NoMemory>
    ensures { IfOk result (λ nodes. nodes ≡ living.awaited_by event.now suspects due) }
{
    match event {
        Event::Down(node) => behind(alloc, *node, due.as_slice()),
        _ if due.is_empty() => Ok(Some(suspects)),
        _ => Ok(None),
    }
}

// The nodes behind the first one, where that is this.
fn behind(alloc: Global, node: u16, due: &[u16]) -> Result<Option<Nodes>, NoMemory>
    ensures { IfOk result (λ nodes. nodes ≡ living.behind node due.now) }
{
    match due.split_first() {
        Some((first, others)) if *first == node => {
            let mut nodes = ListOf::new(alloc);
            nodes.append(others)?;
            Ok(Some(nodes))
        }
        _ => Ok(None),
    }
}
