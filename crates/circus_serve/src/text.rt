// The text of a node that was served (docs/FORMATS.md, "Node record").
ghost use Rattle.std.specs.Prelude.{◌≡◌, [], ◌++◌, All, IsAscii, IfOk, OnOk, string_bytes};
ghost use Rattle.std.specs.Option.{option_map_or};
ghost use Rattle.circus_record.specs.Naming.{host_name, names_of};
ghost use Rattle.circus_record.specs.MemberText.{member_lines};
ghost use Rattle.circus_node.specs.NodeState.{member_record, ring_views};
ghost use Rattle.circus_report.specs.ViewLines.{ringmaster_line, views_lines};
ghost use Rattle.circus_serve.specs.NodeText.{node_lines, node_text};

use crate::NodeRecord;
use crate::happening_lines::append_happened;
use circus_collate::Deployment;
use circus_model::Module;
use circus_node::{NodeCore, troupe_at};
use circus_record::{MemberText, Naming, ProgramNames};
use circus_report::{RingmasterLine, ViewsText};
use circus_value::{ListOf, Name, NoMemory, Octets};
use std::alloc::Global;

/// What happened to a served node of this number, and what its member did or the views of the Ringmaster (docs/FORMATS.md,
/// "Node record"), by the names of the modules in module order. `NoMemory` is the one fault.
pub fn show_node<M: Module>(
    alloc: Global,
    deployment: &Deployment,
    names: &ListOf<Name>,
    node: u16,
    record: &NodeRecord<M>,
) -> Result<Octets, NoMemory>
    requires nodes { All (λ h. IsAscii (host_name h)) deployment.now.nodes }
    requires modules { All IsAscii names.now }
    ensures { IfOk result (λ text.
        text ≡ node_text
        (names_of deployment.now.nodes names.now) deployment.now node «record».now) }
{
    let names = ProgramNames::new(deployment.nodes.as_slice(), names.as_slice());
    let own = names.node(usize::from(node));
    let mut text = String::new(alloc);
    writeln!(text, "circus node 1 {own}")?;
    append_happened(alloc, &mut text, &names, record.happenings().as_slice())?;
    append_node(&mut text, &names, deployment, node, record.core())?;
    Ok(ListOf::of(text.into_bytes()))
}

// Adds what stands behind the events: the lines of the member that a node hosts, or of the Ringmaster and its views.
fn append_node<M: Module, N: Naming>(
    text: &mut String,
    names: &N,
    deployment: &Deployment,
    node: u16,
    core: &NodeCore<M>,
) -> Result<(), NoMemory>
    ensures { OnOk result (string_bytes text.new
        ≡ string_bytes text.old ++ node_lines (N.names names.now) deployment.now node core.now) }
{
    match troupe_at(deployment, node) {
        Some(troupe) => append_member(text, names, node, troupe, core),
        None => append_ringmaster(text, names, core),
    }
}

// Adds the lines of the member that a node hosts, if there is one.
fn append_member<M: Module, N: Naming>(
    text: &mut String,
    names: &N,
    node: u16,
    troupe: u16,
    core: &NodeCore<M>,
) -> Result<(), NoMemory>
    ensures { OnOk result (string_bytes text.new
        ≡ string_bytes text.old
        ++ option_map_or (member_lines (N.names names.now) node troupe None)
        (member_record core.now.acting) []) }
{
    let Some(kept) = core.member_record() else {
        return Ok(());
    };
    let member = MemberText {
        names,
        node,
        troupe,
        crashed: None,
        kept,
    };
    member.append_to(text)
}

// Adds the line of the Ringmaster, and the lines of its views.
fn append_ringmaster<M: Module, N: Naming>(
    text: &mut String,
    names: &N,
    core: &NodeCore<M>,
) -> Result<(), NoMemory>
    ensures { OnOk result (string_bytes text.new
        ≡ string_bytes text.old ++ (ringmaster_line (N.names names.now) None
        ++ option_map_or (views_lines (N.names names.now)) (ring_views core.now.acting) [])) }
{
    let ringmaster = RingmasterLine {
        names,
        crashed: None,
    };
    write!(text, "{ringmaster}")?;
    if let Some(views) = core.ring_views() {
        let views = ViewsText {
            names,
            views: views.as_slice(),
        };
        write!(text, "{views}")?;
    }
    Ok(())
}
