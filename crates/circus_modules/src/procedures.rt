// Procedures without names.
ghost use Rattle.std.specs.Prelude.{◌≡◌, ◌++◌, map, IfOk, OnOk};
ghost use Rattle.circus_value.specs.ShapeOf.{field_of};
ghost use Rattle.circus_modules.specs.InterfaceSignatures.{shapes_in, error_of, error_numbered, errors_numbered, procedure_of, procedures_of};

use circus_idl::{DeclaredError, ErrorsByNumber, Interface, Procedure};
use circus_model::{ErrorShape, ErrorShapes, ProcedureShape, ProcedureShapes};
use circus_value::{Duplicate, Field, NoMemory, Shapes};
use std::alloc::Global;

/// The types of fields, in order. `NoMemory` is the one fault.
pub fn shapes_of(alloc: Global, fields: &[Field]) -> Result<Shapes, NoMemory>
    ensures { IfOk result (λ shapes. shapes ≡ shapes_in (map field_of fields.now)) }
{
    let mut shapes = Shapes::new(alloc);
    for field in fields {
        shapes.push(field.shape.copy()?)?;
    }
    Ok(shapes)
}

fn error_of(alloc: Global, error: &DeclaredError) -> Result<ErrorShape, NoMemory>
    ensures { IfOk result (λ shape. shape ≡ error_of error.now) }
{
    Ok(ErrorShape {
        number: error.number,
        arguments: shapes_of(alloc, error.arguments.as_slice())?,
    })
}

// Adds the error of a number, if there is one.
fn add_error(
    alloc: Global,
    errors: &ErrorsByNumber<'_>,
    number: u16,
    shapes: &mut ErrorShapes,
) -> Result<(), NoMemory>
    ensures { OnOk result (shapes.new ≡ shapes.old ++ error_numbered errors.now.errors.now number) }
{
    if let Some(error) = errors.error(number) {
        shapes.push(error_of(alloc, error)?)?;
    }
    Ok(())
}

fn errors_of(
    alloc: Global,
    errors: &ErrorsByNumber<'_>,
    numbers: &[u16],
) -> Result<ErrorShapes, NoMemory>
    ensures { IfOk result (λ shapes. shapes ≡ errors_numbered errors.now.errors.now numbers.now) }
{
    let mut shapes = ErrorShapes::new(alloc);
    for number in numbers {
        add_error(alloc, errors, *number, &mut shapes)?;
    }
    Ok(shapes)
}

fn procedure_of(
    alloc: Global,
    errors: &ErrorsByNumber<'_>,
    procedure: &Procedure,
) -> Result<ProcedureShape, NoMemory>
    ensures { IfOk result (λ shape. shape ≡ procedure_of errors.now.errors.now procedure.now) }
{
    Ok(ProcedureShape {
        number: procedure.number,
        arguments: shapes_of(alloc, procedure.arguments.as_slice())?,
        results: shapes_of(alloc, procedure.results.as_slice())?,
        errors: errors_of(alloc, errors, procedure.reports.as_slice())?,
    })
}

/// The procedures of an interface, in its order, each with the errors that it reports, in the order in which it names
/// them (docs/LANGUAGE.md, "Interfaces"). `NoMemory` is the one fault.
pub fn procedures_of(alloc: Global, interface: &Interface) -> Result<ProcedureShapes, NoMemory>
    ensures { IfOk result (λ shapes. shapes ≡ procedures_of interface.now) }
{
    let errors = ErrorsByNumber::new(alloc, interface.errors.as_slice())?;
    let mut shapes = ProcedureShapes::new(alloc);
    for procedure in interface.procedures.as_slice() {
        shapes.push(procedure_of(alloc, &errors, procedure)?)?;
    }
    Ok(shapes)
}
