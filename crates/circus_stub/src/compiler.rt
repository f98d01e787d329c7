// From an interface to flat operations.
ghost use Rattle.std.specs.Prelude.{◌≡◌, [], ◌∷◌, ◌++◌, length, map, IfOk, OnOk};
ghost use Rattle.circus_value.specs.ShapeOf.{tree_of};
ghost use Rattle.circus_value.specs.ShapeTree.{field_trees, arm_trees};
ghost use Rattle.circus_stub.specs.Flat.{label_numbers, flat, flat_fields, flat_arms};
ghost use Rattle.circus_stub.specs.Compiled.{compile_stubs, AreCompiled, procedure_stub, error_stub};

use crate::stubs::{ErrorStub, ErrorStubs, ProcedureStub, ProcedureStubs};
use crate::{Operation, Operations, Stubs};
use circus_idl::{DeclaredError, Interface, Procedure};
use circus_value::{Arms, Duplicate, Fields, Label, ListOf, NoMemory, Numbers, Shape};
use std::alloc::Global;

/// Compiles an interface to flat operations, for which arguments, results and the values of an error may
/// have at most `limit` bytes (docs/FORMATS.md, "Stubs"). `NoMemory` is the one fault.
pub fn compile(alloc: Global, interface: &Interface, limit: u32) -> Result<Stubs, NoMemory>
    ensures value { IfOk result (λ stubs. stubs ≡ compile_stubs interface.now limit) }
    ensures some { IfOk result AreCompiled }
{
    Ok(Stubs {
        limit,
        procedures: procedure_stubs(alloc, interface.procedures.as_slice())?,
        errors: error_stubs(alloc, interface.errors.as_slice())?,
    })
}

fn procedure_stubs(alloc: Global, procedures: &[Procedure]) -> Result<ProcedureStubs, NoMemory>
    ensures { IfOk result (λ stubs. stubs ≡ map procedure_stub procedures.now) }
{
    let mut stubs = ListOf::new(alloc);
    for procedure in procedures {
        stubs.push(procedure_stub(alloc, procedure)?)?;
    }
    Ok(stubs)
}

fn error_stubs(alloc: Global, errors: &[DeclaredError]) -> Result<ErrorStubs, NoMemory>
    ensures { IfOk result (λ stubs. stubs ≡ map error_stub errors.now) }
{
    let mut stubs = ListOf::new(alloc);
    for error in errors {
        stubs.push(error_stub(alloc, error)?)?;
    }
    Ok(stubs)
}

fn procedure_stub(alloc: Global, procedure: &Procedure) -> Result<ProcedureStub, NoMemory>
    ensures { IfOk result (λ stub. stub ≡ procedure_stub procedure.now) }
{
    Ok(ProcedureStub {
        number: procedure.number,
        arguments: operations_of(alloc, &procedure.arguments)?,
        results: operations_of(alloc, &procedure.results)?,
        reports: procedure.reports.copy()?,
    })
}

fn error_stub(alloc: Global, error: &DeclaredError) -> Result<ErrorStub, NoMemory>
    ensures { IfOk result (λ stub. stub ≡ error_stub error.now) }
{
    Ok(ErrorStub {
        number: error.number,
        values: operations_of(alloc, &error.arguments)?,
    })
}

// A list of its own for the operations of fields.
fn operations_of(alloc: Global, fields: &Fields) -> Result<Operations, NoMemory>
    ensures { IfOk result (λ operations. operations ≡ flat_fields (field_trees fields.now) 0) }
{
    let mut operations = Operations::new(alloc);
    add_fields(alloc, &mut operations, fields)?;
    Ok(operations)
}

// Adds the operations of fields, in order.
#[cycle(compiling)]
fn add_fields(alloc: Global, operations: &mut Operations, fields: &Fields) -> Result<(), NoMemory>
    ensures { OnOk result
        (operations.new ≡ operations.old
        ++ flat_fields (field_trees fields.now) (length operations.old)) }
{
    for field in fields.as_slice() {
        add_shape(alloc, operations, &field.shape)?;
    }
    Ok(())
}

// Adds the operations of arms, in order.
#[cycle(compiling)]
fn add_arms(alloc: Global, operations: &mut Operations, arms: &Arms) -> Result<(), NoMemory>
    ensures { OnOk result
        (operations.new ≡ operations.old
        ++ flat_arms (arm_trees arms.now) (length operations.old)) }
{
    for arm in arms.as_slice() {
        let at = operations.len();
        operations.push(Operation::Arm {
            number: arm.number,
            end: 0,
        })?;
        add_shape(alloc, operations, &arm.shape)?;
        operations.set(
            at,
            Operation::Arm {
                number: arm.number,
                end: operations.len(),
            },
        );
    }
    Ok(())
}

// Adds the operations of a shape.
#[cycle(compiling)]
fn add_shape(alloc: Global, operations: &mut Operations, shape: &Shape) -> Result<(), NoMemory>
    ensures { OnOk result
        (operations.new ≡ operations.old ++ flat (tree_of shape.now) (length operations.old)) }
{
    let at = operations.len();
    match shape {
        Shape::Boolean => operations.push(Operation::Boolean),
        Shape::Cardinal => operations.push(Operation::Cardinal),
        Shape::LongCardinal => operations.push(Operation::LongCardinal),
        Shape::Integer => operations.push(Operation::Integer),
        Shape::LongInteger => operations.push(Operation::LongInteger),
        Shape::Text => operations.push(Operation::Text),
        Shape::Enumeration(labels) => add_numbers(alloc, operations, labels.as_slice()),
        Shape::Array(len, element) => {
            operations.push(Operation::Array { len: *len, end: 0 })?;
            add_shape(alloc, operations, element.shape())?;
            operations.set(
                at,
                Operation::Array {
                    len: *len,
                    end: operations.len(),
                },
            );
            Ok(())
        }
        Shape::Sequence(bound, element) => {
            operations.push(Operation::Sequence {
                bound: *bound,
                end: 0,
            })?;
            add_shape(alloc, operations, element.shape())?;
            operations.set(
                at,
                Operation::Sequence {
                    bound: *bound,
                    end: operations.len(),
                },
            );
            Ok(())
        }
        Shape::Record(fields) => {
            operations.push(Operation::Record {
                fields: fields.len(),
                end: 0,
            })?;
            add_fields(alloc, operations, fields)?;
            operations.set(
                at,
                Operation::Record {
                    fields: fields.len(),
                    end: operations.len(),
                },
            );
            Ok(())
        }
        Shape::Choice(arms) => {
            operations.push(Operation::Choice {
                arms: arms.len(),
                end: 0,
            })?;
            add_arms(alloc, operations, arms)?;
            operations.set(
                at,
                Operation::Choice {
                    arms: arms.len(),
                    end: operations.len(),
                },
            );
            Ok(())
        }
    }
}

// Adds the operation of an enumeration with these labels.
fn add_numbers(alloc: Global, operations: &mut Operations, labels: &[Label]) -> Result<(), NoMemory>
    ensures { OnOk result
        (operations.new ≡ operations.old ++ Operation.Enumeration (label_numbers labels.now) ∷ []) }
{
    operations.push(Operation::Enumeration(numbers(alloc, labels)?))
}

// The numbers of labels.
fn numbers(alloc: Global, labels: &[Label]) -> Result<Numbers, NoMemory>
    ensures { IfOk result (λ numbers. numbers ≡ label_numbers labels.now) }
{
    let mut numbers = ListOf::new(alloc);
    for label in labels {
        numbers.push(label.number)?;
    }
    Ok(numbers)
}
