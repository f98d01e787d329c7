// What is written of a world that has settled (docs/FORMATS.md, "Settling").
ghost use Rattle.std.specs.Prelude.{◌≡◌, All, IsAscii, IfOk};
ghost use Rattle.circus_record.specs.Naming.{host_name, names_of};
ghost use Rattle.circus_settle.specs.Summary.{settled_text};

use circus_model::Module;
use circus_report::show_rest;
use circus_value::{ListOf, Name, NoMemory, Octets};
use circus_world::World;
use std::alloc::Global;

/// The lines that are written of a world that has settled: how many datagrams were delivered, and
/// the report of the world behind its datagrams, by the names of the modules in module order
/// (docs/FORMATS.md, "Settling"). `NoMemory` is the one fault.
pub fn show_settled<M: Module>(
    alloc: Global,
    world: &World<M>,
    given: u64,
    names: &ListOf<Name>,
) -> Result<Octets, NoMemory>
    requires nodes { All (λ h. IsAscii (host_name h)) world.now.deployment.nodes }
    requires modules { All IsAscii names.now }
    ensures { IfOk result (λ text. text
        ≡ settled_text (names_of world.now.deployment.nodes names.now) given world.now) }
{
    let text = format!(in alloc; "circus settle 1\ndeliveries {given}\n")?;
    let mut text = ListOf::of(text.into_bytes());
    let rest = show_rest(alloc, world, names)?;
    text.append(rest.as_slice())?;
    Ok(text)
}
