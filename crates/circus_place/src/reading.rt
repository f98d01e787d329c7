// Reading placings.
ghost use Rattle.std.specs.Prelude.{◌≡◌, IfOk};
ghost use Rattle.circus_place.specs.Written.{placing_of};
ghost use Rattle.circus_place.specs.Grammar.{most_levels};
ghost use Rattle.circus_place.specs.Seen.Reading.{attribute, attributes, machine, machines, names_present, present_if_any, text_end, heading, member_count, placing};

use crate::condition_reading::condition;
use crate::value_reading::{constant, names, next_name, own_name};
use crate::{AttributeText, AttributeTexts, MachineText, MachineTexts, PlacingText};
use circus_syntax::{Nameds, Numeral, Reader, StopCause};
use circus_value::NoMemory;

#[tactic(auto, unfolding(crate::specs::Seen::Reading::attribute))]
fn attribute(reader: &mut Reader) -> Result<AttributeText, NoMemory>
    ensures { IfOk result (λ read. attribute reader.old ≡ (read, reader.new)) }
{
    let name = own_name(reader)?;
    reader.sign(b"=");
    let constant = constant(reader)?;
    Ok(AttributeText { name, constant })
}

#[tactic(auto, unfolding(crate::specs::Seen::Reading::attributes))]
fn attributes(reader: &mut Reader) -> Result<AttributeTexts, NoMemory>
    ensures { IfOk result (λ read. attributes reader.old ≡ (read, reader.new)) }
{
    let mut attributes = AttributeTexts::new(reader.alloc());
    if next_name(reader).is_none() {
        return Ok(attributes);
    }
    attributes.push(attribute(reader)?)?;
    while reader.sees_sign(b",") {
        reader.sign(b",");
        attributes.push(attribute(reader)?)?;
    }
    Ok(attributes)
}

#[tactic(auto, unfolding(crate::specs::Seen::Reading::machine))]
fn machine(reader: &mut Reader) -> Result<MachineText, NoMemory>
    ensures { IfOk result (λ read. machine reader.old ≡ (read, reader.new)) }
{
    reader.word(b"MACHINE");
    let name = own_name(reader)?;
    reader.sign(b"[");
    let attributes = attributes(reader)?;
    reader.sign(b"]");
    reader.sign(b";");
    Ok(MachineText { name, attributes })
}

#[tactic(auto, unfolding(crate::specs::Seen::Reading::machines))]
fn machines(reader: &mut Reader) -> Result<MachineTexts, NoMemory>
    ensures { IfOk result (λ read. machines reader.old ≡ (read, reader.new)) }
{
    let mut machines = MachineTexts::new(reader.alloc());
    while reader.sees_word(b"MACHINE") {
        machines.push(machine(reader)?)?;
    }
    Ok(machines)
}

#[tactic(auto, unfolding(crate::specs::Seen::Reading::present_if_any, crate::specs::Seen::Reading::names_present))]
fn names_present(reader: &mut Reader) -> Result<Option<Nameds>, NoMemory>
    ensures { IfOk result (λ read. present_if_any reader.old ≡ (read, reader.new)) }
{
    if !reader.sees_word(b"PRESENT") {
        return Ok(None);
    }
    reader.word(b"PRESENT");
    let names = names(reader)?;
    reader.sign(b";");
    Ok(Some(names))
}

// Stops where there is a token more.
#[tactic(auto, unfolding(crate::specs::Seen::Reading::text_end))]
fn end(reader: &mut Reader)
    ensures { text_end reader.old ≡ (tt, reader.new) }
{
    if reader.tokens_left() > 0 {
        reader.stop_here(StopCause::Unexpected);
    }
}

#[tactic(auto, unfolding(crate::specs::Seen::Reading::heading))]
fn heading(reader: &mut Reader)
    ensures { heading reader.old ≡ (tt, reader.new) }
{
    reader.word(b"PLACE");
    reader.digits(b"1");
    reader.sign(b";");
}

#[tactic(auto, unfolding(crate::specs::Seen::Reading::member_count))]
fn member_count(reader: &mut Reader) -> Numeral
    ensures { member_count reader.old ≡ (result, reader.new) }
{
    reader.word(b"MEMBERS");
    let members = reader.number();
    reader.word(b"WHERE");
    members
}

/// How many levels a condition may have (docs/LANGUAGE.md, "Placing").
pub const MOST_LEVELS: u8 = 64;

/// Reads a placing to the end of the text, or up to the first token with which none goes on, or that opens a level
/// too many. From there on what is missing is filled in.
#[tactic(auto, unfolding(crate::specs::Seen::Reading::placing))]
pub fn placing(reader: &mut Reader) -> Result<PlacingText, NoMemory>
    ensures { IfOk result (λ read. placing most_levels reader.old ≡ (placing_of read, reader.new)) }
{
    heading(reader);
    let machines = machines(reader)?;
    let members = member_count(reader);
    let condition = condition(reader, MOST_LEVELS)?;
    reader.sign(b";");
    let present = names_present(reader)?;
    end(reader);
    Ok(PlacingText {
        machines,
        members,
        condition,
        present,
    })
}
