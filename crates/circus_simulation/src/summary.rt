// What is written of a sample (docs/FORMATS.md, "Samples").
ghost use Rattle.std.specs.Prelude.{◌≡◌, ◌++◌, ◌<◌, [], length, slice_get, Some, All, IsAscii, IfOk, OnOk, string_bytes};
ghost use Rattle.circus_record.specs.Naming.{host_name, names_of};
ghost use Rattle.circus_world.specs.WorldState.{Standing};
ghost use Rattle.circus_simulation.specs.Summary.{count_at, summary};

use circus_model::Module;
use circus_record::{Naming, ProgramNames};
use circus_transfer::Joiner;
use circus_value::{ListOf, NoMemory, Octets};
use circus_world::World;
use std::alloc::Global;

/// The lines that are written of a sample: how many lines were stepped, how many datagrams were sent, and which call each
/// active member performs next (docs/FORMATS.md, "Samples"). The names of nodes are ASCII. `NoMemory` is the one fault.
pub fn show_sample<M: Module>(
    alloc: Global,
    world: &World<M>,
    steps: u32,
) -> Result<Octets, NoMemory>
    requires { All (λ h. IsAscii (host_name h)) world.now.deployment.nodes }
    ensures { IfOk result (λ text.
        text ≡ summary (names_of world.now.deployment.nodes []) steps world.now) }
{
    let names = ProgramNames::new(world.deployment().nodes.as_slice(), &[]);
    let sent = world.sent().len();
    let mut text = format!(in alloc; "circus sample 1\nlines {steps}\nsent {sent}\n")?;
    for node in 0..world.deployment().nodes.len() as u16 {
        append_count(&mut text, &names, world, node)?;
    }
    Ok(ListOf::of(text.into_bytes()))
}

// Adds the line of the member that a node hosts, if that is active.
fn append_count<M: Module, N: Naming>(
    text: &mut String,
    names: &N,
    world: &World<M>,
    node: u16,
) -> Result<(), NoMemory>
    requires { node < length world.now.nodes }
    ensures { (s : Standing M) → slice_get world.now.nodes node ≡ Some s
        → OnOk result (string_bytes text.new
        ≡ string_bytes text.old ++ count_at (N.names names.now) node s) }
{
    let Some(kept) = world.kept(node) else {
        return Ok(());
    };
    if let Joiner::Active(_) = kept.phase {
        let name = names.node(usize::from(node));
        let count = kept.count;
        writeln!(text, "member {name} count {count}")?;
    }
    Ok(())
}
