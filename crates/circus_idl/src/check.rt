// The interface that a tree means, or the least of its faults.
ghost use Rattle.std.specs.Prelude.{◌≡◌, ◌⊎◌, ◌≤◌, List, [], map, None, Some, OnOk, IfOk, IfErr, IfNone};
ghost use Rattle.circus_value.specs.ShapeTree.{boolean};
ghost use Rattle.circus_syntax.specs.InterfaceTree.{declared_of, interface_of};
ghost use Rattle.circus_fault.specs.declared.fault.Fault.{Fault};
ghost use Rattle.circus_fault.specs.Least.{least_from};
ghost use Rattle.circus_fault.specs.Stopping.{stop_faults};
ghost use Rattle.circus_fault.specs.Seen.Tables.{known_of};
ghost use Rattle.circus_idl.specs.declared.fault.Cause.{Cause};
ghost use Rattle.circus_idl.specs.declared.fault.Cause.TheVariants.{Expected, Deep};
ghost use Rattle.circus_idl.specs.Rank.{rank_of};
ghost use Rattle.circus_idl.specs.declared.idl_fault.IdlFault.{IdlFault};
ghost use Rattle.circus_idl.specs.Limits.{greatest_program};
ghost use Rattle.circus_idl.specs.Seen.Known.{type_form};
ghost use Rattle.circus_type.specs.InRange.{IsOneWord};
ghost use Rattle.circus_type.specs.Seen.Measured.{cut_off};
ghost use Rattle.circus_idl.specs.InRange.{AreWords};
ghost use Rattle.circus_idl.specs.Seen.Scoped.{before_of, cut_in};
ghost use Rattle.circus_idl.specs.Seen.Drafted.{draft_meaning};
ghost use Rattle.circus_idl.specs.Answer.{answer_of};
ghost use Rattle.circus_idl.specs.Faults.{nothing, cut_of, declarations_faults, read_faults};
ghost use Rattle.circus_idl.specs.Means.{Means, meant_of, and_then, nothing_meant, declarations_meant};

use crate::draft::Draft;
use crate::fault::Cause;
use crate::idl_fault::IdlFault;
use crate::interface::{Declared, Errors, Interface, Procedures};
use crate::limits::GREATEST_PROGRAM;
use crate::scope::Scope;
use crate::types::Types;
use circus_fault::{Best, Fault, Names, NumberSet};
use circus_syntax::{DeclaredText, InterfaceText, Stop};
use circus_type::{GREATEST_WORD, note_above, word};
use circus_value::{Duplicate, NoMemory};
use std::alloc::Global;

fn answer(fault: Fault<Cause>) -> IdlFault
    ensures { result ≡ answer_of fault }
{
    let place = u64::from(fault.place);
    match fault.cause {
        Cause::Expected => IdlFault::Expected(place),
        Cause::Deep => IdlFault::Deep(place),
        Cause::Unknown => IdlFault::Unknown(place),
        Cause::Repeated => IdlFault::Repeated(place),
        Cause::OutOfRange => IdlFault::OutOfRange(place),
        Cause::TooLarge => IdlFault::TooLarge(place),
    }
}

fn within(stop: &Option<Stop>) -> Option<u32>
    ensures { result ≡ (cut_of stop.now).within }
{
    match stop {
        Some(stop) => stop.within,
        None => None,
    }
}

fn list(stop: &Option<Stop>) -> Option<u32>
    ensures { result ≡ (cut_of stop.now).list }
{
    match stop {
        Some(stop) => stop.list,
        None => None,
    }
}

fn start<'a>(alloc: Global, stop: &Option<Stop>) -> Draft<'a>
    ensures found { result.scope.best.fault
        ≡ least_from rank_of None (stop_faults Expected Deep stop.now) }
    ensures cut { cut_in result.scope ≡ cut_of stop.now }
    ensures before { before_of result.scope ≡ nothing cut_off }
    ensures formed { type_form result.scope.types ≡ (λ _. boolean) }
    ensures drafted { draft_meaning result ≡ nothing_meant }
    ensures errors { AreWords (known_of result.scope.errors) }
{
    let scope = Scope {
        alloc,
        within: within(stop),
        list: list(stop),
        best: Best::of_stop(stop, Cause::Expected, Cause::Deep),
        names: Names::new(alloc),
        types: Types::new(alloc),
        errors: Names::new(alloc),
        error_numbers: NumberSet::new(alloc),
        procedure_numbers: NumberSet::new(alloc),
        parts: 0,
    };
    Draft {
        scope,
        types: Declared::new(alloc),
        errors: Errors::new(alloc),
        procedures: Procedures::new(alloc),
    }
}

fn declare_all<'a>(draft: &mut Draft<'a>, declared: &'a [DeclaredText]) -> Result<(), NoMemory>
    requires errors { IfNone draft.old.scope.best.fault
        (AreWords (known_of draft.old.scope.errors)) }
    ensures found { OnOk result
        (draft.new.scope.best.fault
        ≡ least_from rank_of draft.old.scope.best.fault
        (declarations_faults cut_off (cut_in draft.old.scope) (before_of draft.old.scope)
        (map declared_of declared.now))) }
    ensures meant { OnOk result
        (IfNone draft.new.scope.best.fault
        (draft_meaning draft.new
        ≡ and_then (draft_meaning draft.old)
        (declarations_meant (type_form draft.old.scope.types) (known_of draft.old.scope.errors)
        (map declared_of declared.now)))) }
{
    for item in declared {
        draft.add(item)?;
    }
    Ok(())
}

/// The interface that a tree means where it has no fault and reading didn't stop, else the least of its
/// faults (docs/LANGUAGE.md, "Interfaces").
pub fn check(
    alloc: Global,
    tree: &InterfaceText,
    stop: &Option<Stop>,
) -> Result<Interface, IdlFault>
    ensures ok { IfOk result (λ i.
        (read_faults stop.now (interface_of tree.now) ≡ []) × Means (interface_of tree.now) i) }
    ensures err { IfErr result (λ e.
        (e ≡ IdlFault.NoMemory)
        ⊎ ((f : Fault Cause)
        × (least_from rank_of None (read_faults stop.now (interface_of tree.now)) ≡ Some f)
        × (e ≡ answer_of f))) }
{
    let mut draft = start(alloc, stop);
    note_above(&mut draft.scope.best, GREATEST_PROGRAM, tree.number);
    note_above(&mut draft.scope.best, GREATEST_WORD, tree.version);
    declare_all(&mut draft, tree.declared.as_slice())?;
    match draft.scope.best.fault {
        Some(fault) => Err(answer(fault)),
        None => Ok(interface_of_draft(tree, draft)?),
    }
}

// The interface of a draft, with its name and its numbers.
fn interface_of_draft(tree: &InterfaceText, draft: Draft) -> Result<Interface, NoMemory>
    requires number { tree.now.number.value ≤ greatest_program }
    requires version { IsOneWord tree.now.version }
    ensures declared { IfOk result (λ i. meant_of i ≡ draft_meaning draft.entry) }
    ensures name { IfOk result (λ i. i.name ≡ tree.now.name.name) }
    ensures number { IfOk result (λ i. i.number ≡ tree.now.number.value) }
    ensures version { IfOk result (λ i. i.version ≡ tree.now.version.value) }
{
    Ok(Interface {
        name: tree.name.name.copy()?,
        number: tree.number.value as u32,
        version: word(tree.version),
        types: draft.types,
        errors: draft.errors,
        procedures: draft.procedures,
    })
}
