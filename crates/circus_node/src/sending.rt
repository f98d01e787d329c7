// What is made is sent.
ghost use Rattle.std.specs.Prelude.{◌≡◌, ◌⊎◌, ◌++◌, map, OnOk};
ghost use Rattle.std.specs.List.{flat_map};
ghost use Rattle.circus_wire.specs.Wire.{Remains};
ghost use Rattle.circus_node.specs.Sending as sending;
ghost use Rattle.circus_node.specs.Seen.Sent.{IsHanded};

use crate::{Give, Gives, StepFault};
use circus_member_rules::{Effect, Effects, Purpose};
use circus_segment::{Datagrams, LONGEST, PART};
use circus_value::{Caller, Message, NoMemory};
use circus_wire::{Batch, Batches, Wire};

// The most bytes of a message in format 1.
const LONGEST_IN_FORMAT_1: usize = PART * 255;

/// Adds the datagrams of a batch.
pub fn add_gives(batch: Batch, gives: &mut Gives) -> Result<(), NoMemory>
    ensures { OnOk result (gives.new ≡ gives.old ++ sending.gives_of batch) }
{
    let Batch { to, datagrams } = batch;
    if datagrams.is_empty() {
        return Ok(());
    }
    add_each(to, datagrams, gives)
}

fn add_each(to: u16, datagrams: Datagrams, gives: &mut Gives) -> Result<(), NoMemory>
    ensures { OnOk result (gives.new ≡ gives.old ++ map (sending.give_to to) datagrams) }
{
    for bytes in datagrams.into_items() {
        gives.push(Give { to, bytes })?;
    }
    Ok(())
}

/// Adds those of each batch.
pub fn add_all_gives(batches: Batches, gives: &mut Gives) -> Result<(), NoMemory>
    ensures { OnOk result (gives.new ≡ gives.old ++ flat_map sending.gives_of batches) }
{
    for batch in batches.into_items() {
        add_gives(batch, gives)?;
    }
    Ok(())
}

// Whether a message can be sent in a format.
fn is_sendable(format: u8, message: &Message) -> bool
    requires { (format ≡ 1) ⊎ (format ≡ 2) }
    ensures { result ≡ sending.is_sendable format message.now }
{
    let longest = if format == 1 {
        LONGEST_IN_FORMAT_1
    } else {
        LONGEST
    };
    !message.is_empty() && message.len() <= longest
}

/// Hands calls and returns to the pairs in their order, and adds what is sent. After a fault some of them may have been
/// handed over.
pub fn hand_all(
    format: u8,
    wire: &mut Wire<Purpose>,
    effects: Effects,
    gives: &mut Gives,
) -> Result<(), StepFault>
    requires format { (format ≡ 1) ⊎ (format ≡ 2) }
    requires same { wire.old.format ≡ format }
    ensures handed { IsHanded result wire.new gives.new
        (sending.all_handed (sending.sent wire.old gives.old) effects) }
    ensures remains { Remains wire.old wire.new }
{
    if effects.is_empty() {
        return Ok(());
    }
    hand_each(format, wire, effects, gives)
}

fn hand_each(
    format: u8,
    wire: &mut Wire<Purpose>,
    effects: Effects,
    gives: &mut Gives,
) -> Result<(), StepFault>
    requires format { (format ≡ 1) ⊎ (format ≡ 2) }
    requires same { wire.old.format ≡ format }
    ensures handed { IsHanded result wire.new gives.new
        (sending.all_handed (sending.sent wire.old gives.old) effects) }
    ensures remains { Remains wire.old wire.new }
{
    for effect in effects.into_items() {
        hand(format, wire, effect, gives)?;
    }
    Ok(())
}

// Hands one call or return over.
fn hand(
    format: u8,
    wire: &mut Wire<Purpose>,
    effect: Effect,
    gives: &mut Gives,
) -> Result<(), StepFault>
    requires format { (format ≡ 1) ⊎ (format ≡ 2) }
    requires same { wire.old.format ≡ format }
    ensures handed { IsHanded result wire.new gives.new
        (sending.hand_over wire.old gives.old effect) }
    ensures remains { Remains wire.old wire.new }
{
    match effect {
        Effect::Call {
            to,
            message,
            purpose,
        } => call(format, wire, to, message, purpose, gives),
        Effect::Answer { caller, message } => answer(format, wire, caller, message, gives),
    }
}

fn call(
    format: u8,
    wire: &mut Wire<Purpose>,
    to: u16,
    message: Message,
    purpose: Purpose,
    gives: &mut Gives,
) -> Result<(), StepFault>
    requires format { (format ≡ 1) ⊎ (format ≡ 2) }
    requires same { wire.old.format ≡ format }
    ensures handed { IsHanded result wire.new gives.new
        (sending.call_handed wire.old gives.old to message purpose) }
    ensures remains { Remains wire.old wire.new }
{
    if !wire.is_up(to) || !is_sendable(format, &message) {
        return Ok(());
    }
    let batch = wire.call(to, message, purpose)?;
    add_gives(batch, gives)?;
    Ok(())
}

fn answer(
    format: u8,
    wire: &mut Wire<Purpose>,
    caller: Caller,
    message: Message,
    gives: &mut Gives,
) -> Result<(), StepFault>
    requires format { (format ≡ 1) ⊎ (format ≡ 2) }
    requires same { wire.old.format ≡ format }
    ensures handed { IsHanded result wire.new gives.new
        (sending.return_handed wire.old gives.old caller message) }
    ensures remains { Remains wire.old wire.new }
{
    if !is_sendable(format, &message) {
        return Ok(());
    }
    let batch = wire.answer(caller, message)?;
    add_gives(batch, gives)?;
    Ok(())
}
