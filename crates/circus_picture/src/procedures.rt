// The procedures of each module, by their names.
ghost use Rattle.std.specs.Prelude.{◌≡◌, option_copied, IfOk};
ghost use Rattle.circus_picture.specs.Picture.{procedures_of, procedures_in};
ghost use Rattle.circus_picture.specs.Label.{procedure_numbered, name_among, procedure_name};

use circus_config::Plan;
use circus_idl::{Interface, Procedure, Procedures};
use circus_value::{Duplicate, ListOf, NoMemory};
use std::alloc::Global;

/// The procedures of each module, in module order, as its interface declares them. A root has none.
pub type ModuleProcedures = ListOf<Procedures>;

/// The procedures of each module of a program. `NoMemory` is the one fault.
pub fn procedures_in(alloc: Global, plan: &Plan) -> Result<ModuleProcedures, NoMemory>
    ensures { IfOk result (λ procedures. procedures ≡ procedures_in plan.now) }
{
    let interfaces = plan.checked.interfaces.as_slice();
    let mut procedures = ListOf::new(alloc);
    for module in plan.checked.modules.as_slice() {
        procedures.push(procedures_of(alloc, interfaces, module.interface)?)?;
    }
    Ok(procedures)
}

// Those of an interface, if there is one.
fn procedures_of(
    alloc: Global,
    interfaces: &[Interface],
    interface: Option<u16>,
) -> Result<Procedures, NoMemory>
    ensures { IfOk result (λ procedures. procedures ≡ procedures_of interfaces.now interface) }
{
    let Some(number) = interface else {
        return Ok(ListOf::new(alloc));
    };
    match interfaces.get(usize::from(number)) {
        Some(interface) => interface.procedures.copy(),
        None => Ok(ListOf::new(alloc)),
    }
}

/// What the procedure of a number of a module is called. One that isn't there is called nothing. It takes no memory.
pub(crate) fn procedure_name(procedures: &[Procedures], module: u16, number: u16) -> &[u8]
    ensures { result.now ≡ procedure_name procedures.now «module» number }
{
    match procedures.get(usize::from(module)) {
        Some(own) => name_among(own.as_slice(), number),
        None => &[],
    }
}

// What the procedure of a number is called.
fn name_among(procedures: &[Procedure], number: u16) -> &[u8]
    ensures { result.now ≡ name_among procedures.now number }
{
    match procedure_numbered(procedures, number) {
        Some(procedure) => procedure.name.as_slice(),
        None => &[],
    }
}

// The procedure of a number.
fn procedure_numbered(procedures: &[Procedure], number: u16) -> Option<&Procedure>
    ensures { option_copied result ≡ procedure_numbered number procedures.now }
{
    procedures
        .iter()
        .find(|procedure| procedure.number == number)
}
