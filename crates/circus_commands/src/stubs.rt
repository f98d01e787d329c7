// The stubs of a program.
ghost use Rattle.std.specs.Prelude.{◌≡◌, ◌++◌, IsTrue, IfOk, OnOk};
ghost use Rattle.std.specs.List.{flat_map};
ghost use Rattle.circus_stub.specs.StubsText.{stubs_text};
ghost use Rattle.circus_commands.specs.Program.{stubs_lines, IsEndOfProgram};
ghost use Rattle.circus_commands.specs.Seen.Ending.{ending_of};
ghost use Rattle.circus_commands.specs.Status.{is_end};

use crate::refused::plan_of;
use crate::{Ending, Status};
use circus_config::Plan;
use circus_idl::Interface;
use circus_stub::{append_stubs, compile};
use circus_value::{ListOf, NoMemory, Octets};
use std::alloc::Global;

// Adds the stubs of an interface.
fn append_interface(
    alloc: Global,
    text: &mut Octets,
    limit: u32,
    interface: &Interface,
) -> Result<(), NoMemory>
    ensures { OnOk result (text.new ≡ text.old ++ stubs_text interface.now) }
{
    let stubs = compile(alloc, interface, limit)?;
    append_stubs(alloc, text, interface, &stubs)
}

// Adds the stubs of interfaces.
fn append_interfaces(
    alloc: Global,
    text: &mut Octets,
    limit: u32,
    interfaces: &[Interface],
) -> Result<(), NoMemory>
    ensures { OnOk result (text.new ≡ text.old ++ flat_map stubs_text interfaces.now) }
{
    for interface in interfaces {
        append_interface(alloc, text, limit, interface)?;
    }
    Ok(())
}

// The lines of the stubs of a plan.
fn stubs_lines(alloc: Global, plan: &Plan) -> Result<Octets, NoMemory>
    ensures { IfOk result (λ text. text ≡ stubs_lines plan.now) }
{
    let mut text = ListOf::from_text(alloc, "circus stubs 1\n")?;
    let interfaces = plan.checked.interfaces.as_slice();
    append_interfaces(alloc, &mut text, plan.limit(), interfaces)?;
    Ok(text)
}

/// What comes of a program whose stubs are shown.
pub fn stubs(alloc: Global, bytes: &[u8]) -> Result<Ending, NoMemory>
    ensures ending { IfOk result (λ ending.
        IsEndOfProgram stubs_lines bytes.now (ending_of ending)) }
    ensures status { IfOk result (λ ending. IsTrue (is_end ending.status)) }
{
    match plan_of(alloc, bytes)? {
        Ok(plan) => Ok(Ending {
            status: Status::Done,
            text: stubs_lines(alloc, &plan)?,
        }),
        Err(refused) => Ok(refused),
    }
}
