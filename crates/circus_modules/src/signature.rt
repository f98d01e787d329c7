// What modules declare.
ghost use Rattle.std.specs.Prelude.{◌≡◌, map, IfOk};
ghost use Rattle.circus_model.specs.Agree as agree;
ghost use Rattle.circus_check.specs.Resolved.{module_as};
ghost use Rattle.circus_modules.specs.Signatures as means;

use crate::{procedures_of, shapes_of};
use circus_check::ResolvedModule;
use circus_idl::Interface;
use circus_model::{ErrorShapes, Import, Imports, ProcedureShape, ProcedureShapes, Signature};
use circus_value::{NoMemory, Shapes};
use std::alloc::Global;

fn main_alone(alloc: Global) -> Result<ProcedureShapes, NoMemory>
    ensures { IfOk result (λ procedures. procedures ≡ agree.main_alone) }
{
    let mut procedures = ProcedureShapes::new(alloc);
    procedures.push(ProcedureShape {
        number: 0,
        arguments: Shapes::new(alloc),
        results: Shapes::new(alloc),
        errors: ErrorShapes::new(alloc),
    })?;
    Ok(procedures)
}

// The procedures of a module, by the number of its interface.
fn procedures_offered(
    alloc: Global,
    interfaces: &[Interface],
    number: Option<u16>,
) -> Result<ProcedureShapes, NoMemory>
    ensures { IfOk result (λ procedures.
        procedures ≡ means.procedures_offered interfaces.now number) }
{
    match number {
        None => main_alone(alloc),
        Some(number) => match interfaces.get(usize::from(number)) {
            Some(interface) => procedures_of(alloc, interface),
            None => Ok(ProcedureShapes::new(alloc)),
        },
    }
}

// A module that is imported, where modules implement interfaces of these numbers.
fn import(
    alloc: Global,
    interfaces: &[Interface],
    implemented: &[Option<u16>],
    module: u16,
) -> Result<Import, NoMemory>
    ensures { IfOk result (λ import.
        import ≡ means.import_of interfaces.now implemented.now «module») }
{
    let number = implemented.get(usize::from(module)).copied();
    Ok(Import {
        module,
        procedures: procedures_offered(alloc, interfaces, number.unwrap_or(None))?,
    })
}

fn imports(
    alloc: Global,
    interfaces: &[Interface],
    implemented: &[Option<u16>],
    numbers: &[u16],
) -> Result<Imports, NoMemory>
    ensures { IfOk result (λ imports.
        imports ≡ map (means.import_of interfaces.now implemented.now) numbers.now) }
{
    let mut imports = Imports::new(alloc);
    for number in numbers {
        imports.push(import(alloc, interfaces, implemented, *number)?)?;
    }
    Ok(imports)
}

/// The number of each module's interface, `None` where it has none, or `NoMemory`.
pub fn interface_numbers(
    alloc: Global,
    modules: &[ResolvedModule],
) -> Result<Vec<Option<u16>>, NoMemory>
    ensures { IfOk result (λ numbers. numbers.items ≡ map (λ m. m.interface) modules.now) }
{
    modules.iter().map(|module| module.interface).collect(alloc)
}

/// What a module declares whose states and values may have at most `limit` bytes (docs/LANGUAGE.md, "Executions"), by the
/// interfaces and the number of the interface that each module implements; or `NoMemory`.
pub fn signature_of(
    alloc: Global,
    limit: u32,
    interfaces: &[Interface],
    implemented: &[Option<u16>],
    module: &ResolvedModule,
) -> Result<Signature, NoMemory>
    ensures { IfOk result (λ signature.
        signature ≡ means.signature_of limit interfaces.now implemented.now
        (module_as «module».now)) }
{
    Ok(Signature {
        root: module.root,
        imports: imports(alloc, interfaces, implemented, module.imports.as_slice())?,
        variables: shapes_of(alloc, module.variables.as_slice())?,
        procedures: procedures_offered(alloc, interfaces, module.interface)?,
        limit,
    })
}
