// The text of a world (docs/FORMATS.md, "Report").
ghost use Rattle.std.specs.Prelude.{◌≡◌, ◌++◌, ◌<◌, [], length, slice_get, Some, All, IsAscii, IfOk, OnOk, string_bytes};
ghost use Rattle.circus_record.specs.Naming.{host_name, names_of};
ghost use Rattle.circus_world.specs.WorldState.{Standing};
ghost use Rattle.circus_world.specs.Seen.Entries.{sent_as};
ghost use Rattle.circus_report.specs.Report as report;

use crate::sent::write_sent;
use crate::views::{RingmasterLine, ViewsText};
use circus_collate::{Deployment, Host};
use circus_model::Module;
use circus_record::{MemberText, Naming, ProgramNames};
use circus_value::{ListOf, Name, NoMemory, Octets};
use circus_world::{Sent, SentList, World};
use std::alloc::Global;

/// The first line of a report.
pub const REPORT: &str = "circus report 1\n";

/// The line of a datagram with its number (docs/FORMATS.md, "Report"). `NoMemory` is the one fault.
pub fn show_sent(
    alloc: Global,
    deployment: &Deployment,
    number: u64,
    sent: &Sent<'_>,
) -> Result<Octets, NoMemory>
    ensures { IfOk result (λ text.
        text ≡ report.sent_line (names_of deployment.now.nodes []) number (sent_as sent.now)) }
{
    let mut text = Vec::new(alloc);
    let mut room = Vec::new(alloc);
    append_sent(
        &mut text,
        &mut room,
        deployment.nodes.as_slice(),
        number,
        sent,
    )?;
    Ok(ListOf::of(text))
}

/// The report of a world: each datagram that was sent, and what stands behind them (docs/FORMATS.md, "Report"), by the names
/// of the modules in module order. `NoMemory` is the one fault.
pub fn show_report<M: Module>(
    alloc: Global,
    world: &World<M>,
    names: &ListOf<Name>,
) -> Result<Octets, NoMemory>
    requires nodes { All (λ h. IsAscii (host_name h)) world.now.deployment.nodes }
    requires modules { All IsAscii names.now }
    ensures { IfOk result (λ text.
        text ≡ report.report_text (names_of world.now.deployment.nodes names.now) world.now) }
{
    let nodes = world.deployment().nodes.as_slice();
    let mut text = Vec::new(alloc);
    text.extend_from_slice(REPORT.as_bytes())?;
    append_all_sent(alloc, &mut text, nodes, world.sent())?;
    let rest = show_rest(alloc, world, names)?;
    text.extend_from_slice(rest.as_slice())?;
    Ok(ListOf::of(text))
}

/// The lines of a report behind the datagrams: the Ringmaster and its views, and the members (docs/FORMATS.md, "Report").
/// `NoMemory` is the one fault.
pub fn show_rest<M: Module>(
    alloc: Global,
    world: &World<M>,
    names: &ListOf<Name>,
) -> Result<Octets, NoMemory>
    requires nodes { All (λ h. IsAscii (host_name h)) world.now.deployment.nodes }
    requires modules { All IsAscii names.now }
    ensures { IfOk result (λ text.
        text ≡ report.rest_text (names_of world.now.deployment.nodes names.now) world.now) }
{
    let names = ProgramNames::new(world.deployment().nodes.as_slice(), names.as_slice());
    let mut text = String::new(alloc);
    append_rest(&mut text, &names, world)?;
    Ok(ListOf::of(text.into_bytes()))
}

// Adds the line of a datagram, by the names of the nodes. It is written in the room first.
fn append_sent(
    text: &mut Vec<u8>,
    room: &mut Vec<u8>,
    nodes: &[Host],
    number: u64,
    sent: &Sent<'_>,
) -> Result<(), NoMemory>
    ensures { OnOk result (text.new.items
        ≡ text.old.items ++ report.sent_line (names_of nodes.now []) number (sent_as sent.now)) }
{
    let start = write_sent(room, nodes, number, sent)?;
    text.extend_from_slice(&room.as_slice()[start..])
}

// Adds the lines of datagrams, the first of which has number 0.
fn append_all_sent(
    alloc: Global,
    text: &mut Vec<u8>,
    nodes: &[Host],
    all: &SentList,
) -> Result<(), NoMemory>
    ensures { OnOk result (text.new.items
        ≡ text.old.items ++ report.sent_lines (names_of nodes.now []) 0 all.now) }
{
    let mut room = Vec::new(alloc);
    for number in 0..all.len() {
        append_sent(text, &mut room, nodes, number as u64, &all.at(number))?;
    }
    Ok(())
}

// Adds what stands behind the datagrams.
fn append_rest<M: Module, N: Naming>(
    text: &mut String,
    names: &N,
    world: &World<M>,
) -> Result<(), NoMemory>
    ensures { OnOk result
        (string_bytes text.new
        ≡ string_bytes text.old ++ report.rest_text (N.names names.now) world.now) }
{
    append_ring(text, names, world)?;
    append_members(text, names, world)
}

/// Adds the lines of the Ringmaster and of the views that it keeps.
pub(crate) fn append_ring<M: Module, N: Naming>(
    text: &mut String,
    names: &N,
    world: &World<M>,
) -> Result<(), NoMemory>
    ensures { OnOk result
        (string_bytes text.new
        ≡ string_bytes text.old ++ report.ring_text (N.names names.now) world.now) }
{
    let views = ViewsText {
        names,
        views: world.ring_views().as_slice(),
    };
    let ringmaster = RingmasterLine {
        names,
        crashed: world.crashed(0),
    };
    write!(text, "{ringmaster}{views}")?;
    Ok(())
}

// Adds the lines of the members, in the order of their nodes.
fn append_members<M: Module, N: Naming>(
    text: &mut String,
    names: &N,
    world: &World<M>,
) -> Result<(), NoMemory>
    ensures { OnOk result (string_bytes text.new
        ≡ string_bytes text.old
        ++ report.members_lines (N.names names.now) 0 world.now.deployment.nodes world.now.nodes) }
{
    for (node, host) in world.deployment().nodes.as_slice().iter().enumerate() {
        append_member(text, names, world, node as u16, host)?;
    }
    Ok(())
}

/// Adds the lines of the member that a node hosts, if it hosts one.
pub(crate) fn append_member<M: Module, N: Naming>(
    text: &mut String,
    names: &N,
    world: &World<M>,
    node: u16,
    host: &Host,
) -> Result<(), NoMemory>
    requires { node < length world.now.nodes }
    ensures { (s : Standing M) → slice_get world.now.nodes node ≡ Some s
        → OnOk result (string_bytes text.new
        ≡ string_bytes text.old ++ report.member_at (N.names names.now) node host.now s) }
{
    let Some(troupe) = host.module else {
        return Ok(());
    };
    let Some(kept) = world.kept(node) else {
        return Ok(());
    };
    let member = MemberText {
        names,
        node,
        troupe,
        crashed: world.crashed(node),
        kept,
    };
    member.append_to(text)
}
