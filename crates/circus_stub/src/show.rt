// The text of stubs.
ghost use Rattle.std.specs.Prelude.{◌≡◌, ◌++◌, codes, map, IfOk, OnOk};
ghost use Rattle.std.specs.Fmt.{decimal};
ghost use Rattle.std.specs.List.{flat_map};
ghost use Rattle.circus_value.specs.ThreadText.{numbers_behind};
ghost use Rattle.circus_value.specs.ShapeTree.{ShapeTree, FieldTrees, ArmTrees};
ghost use Rattle.circus_stub.specs.Flat.{flat_fields};
ghost use Rattle.circus_stub.specs.Seen.Standing.{Stands, FieldsStand, ArmsStand};
ghost use Rattle.circus_stub.specs.Compiled.{compile_stubs, procedure_stub, error_stub};
ghost use Rattle.circus_stub.specs.StubsText.{part_words, shape_words, field_words, arm_words, interface_line, error_line, reports_line, procedure_lines, stubs_text};

use crate::place::place_behind;
use crate::stubs::{ErrorStub, ProcedureStub};
use crate::{Operation, Stubs};
use circus_idl::{DeclaredError, Interface, Procedure};
use circus_value::{Name, NoMemory, Octets};
use std::alloc::Global;

/// The text of an interface's stubs (docs/FORMATS.md, "Stubs"): a line for the interface, one for each error,
/// and for each procedure a line, a line of its call, one of its return and, where it reports errors, one of
/// their numbers. `NoMemory` is the one fault.
pub fn show_stubs(alloc: Global, interface: &Interface, stubs: &Stubs) -> Result<Octets, NoMemory>
    requires { stubs.now ≡ compile_stubs interface.now stubs.now.limit }
    ensures { IfOk result (λ text. text ≡ stubs_text interface.now) }
{
    let mut text = Octets::new(alloc);
    append_stubs(alloc, &mut text, interface, stubs)?;
    Ok(text)
}

/// Adds the text of an interface's stubs behind what stands there. After `NoMemory` a part of it is added.
pub fn append_stubs(
    alloc: Global,
    text: &mut Octets,
    interface: &Interface,
    stubs: &Stubs,
) -> Result<(), NoMemory>
    requires { stubs.now ≡ compile_stubs interface.now stubs.now.limit }
    ensures { OnOk result (text.new ≡ text.old ++ stubs_text interface.now) }
{
    add_interface(alloc, text, interface)?;
    let errors = interface.errors.as_slice();
    add_errors(alloc, text, errors, stubs.errors.as_slice())?;
    let procedures = interface.procedures.as_slice();
    add_procedures(alloc, text, procedures, stubs.procedures.as_slice())
}

fn add_interface(alloc: Global, text: &mut Octets, interface: &Interface) -> Result<(), NoMemory>
    ensures { OnOk result (text.new ≡ text.old ++ interface_line interface.now) }
{
    let number = u64::from(interface.number);
    add_named(alloc, text, b"interface ", &interface.name, number)?;
    text.append(b" version ")?;
    add_number(alloc, text, u64::from(interface.version))?;
    text.append(b"\n")?;
    Ok(())
}

fn add_errors(
    alloc: Global,
    text: &mut Octets,
    errors: &[DeclaredError],
    stubs: &[ErrorStub],
) -> Result<(), NoMemory>
    requires { stubs.now ≡ map error_stub errors.now }
    ensures { OnOk result (text.new ≡ text.old ++ flat_map error_line errors.now) }
{
    for (place, error) in errors.iter().enumerate() {
        add_error(alloc, text, error, &stubs[place])?;
    }
    Ok(())
}

fn add_error(
    alloc: Global,
    text: &mut Octets,
    error: &DeclaredError,
    stub: &ErrorStub,
) -> Result<(), NoMemory>
    requires { stub.now ≡ error_stub error.now }
    ensures { OnOk result (text.new ≡ text.old ++ error_line error.now) }
{
    add_named(alloc, text, b"error ", &error.name, u64::from(error.number))?;
    add_all_values(alloc, text, stub.values.as_slice())?;
    text.append(b"\n")?;
    Ok(())
}

fn add_procedures(
    alloc: Global,
    text: &mut Octets,
    procedures: &[Procedure],
    stubs: &[ProcedureStub],
) -> Result<(), NoMemory>
    requires { stubs.now ≡ map procedure_stub procedures.now }
    ensures { OnOk result (text.new ≡ text.old ++ flat_map procedure_lines procedures.now) }
{
    for (place, procedure) in procedures.iter().enumerate() {
        add_procedure(alloc, text, procedure, &stubs[place])?;
    }
    Ok(())
}

fn add_procedure(
    alloc: Global,
    text: &mut Octets,
    procedure: &Procedure,
    stub: &ProcedureStub,
) -> Result<(), NoMemory>
    requires { stub.now ≡ procedure_stub procedure.now }
    ensures { OnOk result (text.new ≡ text.old ++ procedure_lines procedure.now) }
{
    let number = u64::from(procedure.number);
    add_named(alloc, text, b"procedure ", &procedure.name, number)?;
    text.append(b"\n")?;
    add_line(alloc, text, b"call", stub.arguments.as_slice())?;
    add_line(alloc, text, b"return", stub.results.as_slice())?;
    add_reports(alloc, text, stub.reports.as_slice())?;
    Ok(())
}

// Adds what something is, its name and its number.
fn add_named(
    alloc: Global,
    text: &mut Octets,
    kind: &[u8],
    name: &Name,
    number: u64,
) -> Result<(), NoMemory>
    ensures { OnOk result
        (text.new ≡ text.old ++ (kind.now ++ name.now ++ codes " " ++ decimal number)) }
{
    text.append(kind)?;
    text.append(name.as_slice())?;
    text.append(b" ")?;
    add_number(alloc, text, number)?;
    Ok(())
}

fn add_number(alloc: Global, text: &mut Octets, number: u64) -> Result<(), NoMemory>
    ensures { OnOk result (text.new ≡ text.old ++ decimal number) }
{
    let digits = format!(in alloc; "{number}")?;
    text.append(digits.as_bytes())?;
    Ok(())
}

// Adds each number behind a space.
fn add_numbers(alloc: Global, text: &mut Octets, numbers: &[u16]) -> Result<(), NoMemory>
    ensures { OnOk result (text.new ≡ text.old ++ numbers_behind 32 numbers.now) }
{
    for number in numbers {
        text.append(b" ")?;
        add_number(alloc, text, u64::from(*number))?;
    }
    Ok(())
}

fn add_reports(alloc: Global, text: &mut Octets, reports: &[u16]) -> Result<(), NoMemory>
    ensures { OnOk result (text.new ≡ text.old ++ reports_line reports.now) }
{
    if reports.is_empty() {
        return Ok(());
    }
    text.append(b"reports")?;
    add_numbers(alloc, text, reports)?;
    text.append(b"\n")?;
    Ok(())
}

// Adds a line of a word and the operations of fields.
fn add_line(
    alloc: Global,
    text: &mut Octets,
    word: &[u8],
    operations: &[Operation],
) -> Result<(), NoMemory>
    requires { (fields : FieldTrees) × (operations.now ≡ flat_fields fields 0) }
    ensures { (fields : FieldTrees) → operations.now ≡ flat_fields fields 0
        → OnOk result (text.new ≡ text.old ++ (word.now ++ field_words fields ++ codes "\n")) }
{
    text.append(word)?;
    add_all_values(alloc, text, operations)?;
    text.append(b"\n")?;
    Ok(())
}

// Adds the operations of fields.
fn add_all_values(
    alloc: Global,
    text: &mut Octets,
    operations: &[Operation],
) -> Result<(), NoMemory>
    requires { (fields : FieldTrees) × (operations.now ≡ flat_fields fields 0) }
    ensures { (fields : FieldTrees) → operations.now ≡ flat_fields fields 0
        → OnOk result (text.new ≡ text.old ++ field_words fields) }
{
    add_values(alloc, text, operations, 0, operations.len())
}

// Adds the operations of the value whose first stands at a place.
#[cycle(showing)]
fn add_value(
    alloc: Global,
    text: &mut Octets,
    operations: &[Operation],
    place: usize,
) -> Result<(), NoMemory>
    requires { (shape : ShapeTree) × Stands operations.now place shape }
    ensures { (shape : ShapeTree) → Stands operations.now place shape
        → OnOk result (text.new ≡ text.old ++ shape_words shape) }
{
    let next = place + 1;
    match &operations[place] {
        Operation::Boolean => text.append(b" boolean"),
        Operation::Cardinal => text.append(b" cardinal"),
        Operation::LongCardinal => text.append(b" long-cardinal"),
        Operation::Integer => text.append(b" integer"),
        Operation::LongInteger => text.append(b" long-integer"),
        Operation::Text => text.append(b" string"),
        Operation::Enumeration(numbers) => add_enumeration(alloc, text, numbers.as_slice()),
        Operation::Array { len, .. } => {
            add_part(alloc, text, b" array", u64::from(*len), operations, next)
        }
        Operation::Sequence { bound, .. } => {
            add_part(
                alloc,
                text,
                b" sequence",
                u64::from(*bound),
                operations,
                next,
            )
        }
        Operation::Record { fields, end } => {
            add_record(alloc, text, *fields as u64, operations, next, *end)
        }
        Operation::Choice { arms, end } => {
            add_choice(alloc, text, *arms as u64, operations, next, *end)
        }
        Operation::Arm { .. } => unreachable!(),
    }
}

fn add_enumeration(alloc: Global, text: &mut Octets, numbers: &[u16]) -> Result<(), NoMemory>
    ensures { OnOk result
        (text.new ≡ text.old
        ++ (codes " enumeration (" ++ numbers_behind 32 numbers.now ++ codes " )")) }
{
    text.append(b" enumeration (")?;
    add_numbers(alloc, text, numbers)?;
    text.append(b" )")?;
    Ok(())
}

// Adds a number and an opening parenthesis.
fn add_open(alloc: Global, text: &mut Octets, number: u64) -> Result<(), NoMemory>
    ensures { OnOk result (text.new ≡ text.old ++ (codes " " ++ decimal number ++ codes " (")) }
{
    text.append(b" ")?;
    add_number(alloc, text, number)?;
    text.append(b" (")?;
    Ok(())
}

// Adds a word, a number and the operations of one value.
#[cycle(showing)]
fn add_part(
    alloc: Global,
    text: &mut Octets,
    word: &[u8],
    number: u64,
    operations: &[Operation],
    place: usize,
) -> Result<(), NoMemory>
    requires { (shape : ShapeTree) × Stands operations.now place shape }
    ensures { (shape : ShapeTree) → Stands operations.now place shape
        → OnOk result (text.new ≡ text.old ++ (word.now ++ part_words number (shape_words shape))) }
{
    text.append(word)?;
    add_open(alloc, text, number)?;
    add_value(alloc, text, operations, place)?;
    text.append(b" )")?;
    Ok(())
}

#[cycle(showing)]
fn add_record(
    alloc: Global,
    text: &mut Octets,
    number: u64,
    operations: &[Operation],
    place: usize,
    end: usize,
) -> Result<(), NoMemory>
    requires { (fields : FieldTrees) × FieldsStand operations.now place end fields }
    ensures { (fields : FieldTrees) → FieldsStand operations.now place end fields
        → OnOk result (text.new
        ≡ text.old ++ (codes " record" ++ part_words number (field_words fields))) }
{
    text.append(b" record")?;
    add_open(alloc, text, number)?;
    add_values(alloc, text, operations, place, end)?;
    text.append(b" )")?;
    Ok(())
}

#[cycle(showing)]
fn add_choice(
    alloc: Global,
    text: &mut Octets,
    number: u64,
    operations: &[Operation],
    place: usize,
    end: usize,
) -> Result<(), NoMemory>
    requires { (arms : ArmTrees) × ArmsStand operations.now place end arms }
    ensures { (arms : ArmTrees) → ArmsStand operations.now place end arms
        → OnOk result (text.new
        ≡ text.old ++ (codes " choice" ++ part_words number (arm_words arms))) }
{
    text.append(b" choice")?;
    add_open(alloc, text, number)?;
    add_arms(alloc, text, operations, place, end)?;
    text.append(b" )")?;
    Ok(())
}

// Adds the operations of values that stand from a place up to an end.
#[cycle(showing)]
fn add_values(
    alloc: Global,
    text: &mut Octets,
    operations: &[Operation],
    place: usize,
    end: usize,
) -> Result<(), NoMemory>
    requires { (fields : FieldTrees) × FieldsStand operations.now place end fields }
    ensures { (fields : FieldTrees) → FieldsStand operations.now place end fields
        → OnOk result (text.new ≡ text.old ++ field_words fields) }
{
    let mut here = place;
    while here < end {
        add_value(alloc, text, operations, here)?;
        here = place_behind(operations, here);
    }
    Ok(())
}

// Adds the arms that stand from a place up to an end.
#[cycle(showing)]
fn add_arms(
    alloc: Global,
    text: &mut Octets,
    operations: &[Operation],
    place: usize,
    end: usize,
) -> Result<(), NoMemory>
    requires { (arms : ArmTrees) × ArmsStand operations.now place end arms }
    ensures { (arms : ArmTrees) → ArmsStand operations.now place end arms
        → OnOk result (text.new ≡ text.old ++ arm_words arms) }
{
    let mut here = place;
    while here < end {
        match &operations[here] {
            Operation::Arm {
                number,
                end: behind,
            } => {
                add_part(
                    alloc,
                    text,
                    b" arm",
                    u64::from(*number),
                    operations,
                    here + 1,
                )?;
                here = *behind;
            }
            _ => unreachable!(),
        }
    }
    Ok(())
}
