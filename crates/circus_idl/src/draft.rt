// An interface that is made from its declarations, as long as no fault is found.
ghost use Rattle.std.specs.Prelude.{◌≡◌, OnOk, IfOk, IfNone};
ghost use Rattle.circus_syntax.specs.InterfaceTree.{declared_of, a_type, an_error, a_procedure};
ghost use Rattle.circus_syntax.specs.TypeOf.{tree_of};
ghost use Rattle.circus_fault.specs.Least.{least_from};
ghost use Rattle.circus_fault.specs.Seen.Tables.{known_of};
ghost use Rattle.circus_idl.specs.Rank.{rank_of};
ghost use Rattle.circus_idl.specs.Seen.Known.{type_form};
ghost use Rattle.circus_type.specs.InRange.{IsOneWord};
ghost use Rattle.circus_type.specs.Seen.Measured.{cut_off};
ghost use Rattle.circus_idl.specs.InRange.{AreWords, AreFieldsInRange};
ghost use Rattle.circus_idl.specs.Seen.Scoped.{before_of, cut_in};
ghost use Rattle.circus_idl.specs.Faults.{declared_faults, behind};
ghost use Rattle.circus_idl.specs.Seen.Drafted.{draft_meaning};
ghost use Rattle.circus_idl.specs.Means.{and_then, fields_meant, reports_meant, numbers_meant, procedure_meant, declared_meant, forms_behind};

use crate::interface::{Declared, DeclaredError, DeclaredType, Errors, Procedure, Procedures};
use crate::scope::Scope;
use crate::types::Types;
use circus_fault::Names;
use circus_syntax::{DeclaredText, ErrorText, FieldsText, Named, Nameds, ProcedureText, TypeText};
use circus_type::{word, written_groups};
use circus_value::{Duplicate, Fields, NoMemory, Numbers};
use std::alloc::Global;

/// What is declared so far, and what it means.
#[derive(Drop)]
pub struct Draft<'a> {
    pub scope: Scope<'a>,
    pub types: Declared,
    pub errors: Errors,
    pub procedures: Procedures,
}

// The fields of a list, none where it isn't written.
fn fields_meant(
    alloc: Global,
    types: &Types,
    fields: &Option<FieldsText>,
) -> Result<Fields, NoMemory>
    requires { AreFieldsInRange fields.now }
    ensures { IfOk result (λ list. list ≡ fields_meant (type_form types.now) fields.now) }
{
    match fields {
        Some(fields) => written_groups(alloc, types, fields.groups.as_slice()),
        None => Ok(Fields::new(alloc)),
    }
}

// The numbers of the errors of these names.
fn reports_meant(alloc: Global, errors: &Names, names: &Option<Nameds>) -> Result<Numbers, NoMemory>
    requires { AreWords (known_of errors.now) }
    ensures { IfOk result (λ numbers. numbers ≡ reports_meant (known_of errors.now) names.now) }
{
    match names {
        Some(names) => numbers_meant(alloc, errors, names.as_slice()),
        None => Ok(Numbers::new(alloc)),
    }
}

fn numbers_meant(alloc: Global, errors: &Names, names: &[Named]) -> Result<Numbers, NoMemory>
    requires { AreWords (known_of errors.now) }
    ensures { IfOk result (λ numbers. numbers ≡ numbers_meant (known_of errors.now) names.now) }
{
    let mut numbers = Numbers::new(alloc);
    for name in names {
        let number = errors.get(name.name.as_slice()).unwrap_or(0);
        numbers.push(number as u16)?;
    }
    Ok(numbers)
}

impl<'a> Draft<'a> {
    fn add_type(&mut self, name: &'a Named, shape: &'a TypeText) -> Result<(), NoMemory>
        ensures found { OnOk result
            (self.new.scope.best.fault
            ≡ least_from rank_of self.old.scope.best.fault
            (declared_faults cut_off (cut_in self.old.scope) (before_of self.old.scope)
            (a_type name.now (tree_of shape.now)))) }
        ensures behind { OnOk result
            (before_of self.new.scope
            ≡ behind cut_off (before_of self.old.scope) (a_type name.now (tree_of shape.now))) }
        ensures cut { OnOk result (cut_in self.new.scope ≡ cut_in self.old.scope) }
        ensures formed { OnOk result
            (IfNone self.new.scope.best.fault
            (type_form self.new.scope.types
            ≡ forms_behind (type_form self.old.scope.types)
            (a_type name.now (tree_of shape.now)))) }
        ensures meant { OnOk result
            (IfNone self.new.scope.best.fault
            (draft_meaning self.new
            ≡ and_then (draft_meaning self.old)
            (declared_meant (type_form self.old.scope.types) (known_of self.old.scope.errors)
            (a_type name.now (tree_of shape.now))))) }
    {
        self.scope.declared_type(name, shape)?;
        if self.scope.best.fault.is_none() {
            self.types.push(DeclaredType {
                name: name.name.copy()?,
                shape: self.scope.types.shape_of_name(name.name.as_slice())?,
            })?;
        }
        Ok(())
    }

    fn add_error(&mut self, error: &'a ErrorText) -> Result<(), NoMemory>
        ensures found { OnOk result
            (self.new.scope.best.fault
            ≡ least_from rank_of self.old.scope.best.fault
            (declared_faults cut_off (cut_in self.old.scope) (before_of self.old.scope)
            (an_error error.now))) }
        ensures behind { OnOk result
            (before_of self.new.scope
            ≡ behind cut_off (before_of self.old.scope) (an_error error.now)) }
        ensures cut { OnOk result (cut_in self.new.scope ≡ cut_in self.old.scope) }
        ensures formed { OnOk result
            (type_form self.new.scope.types ≡ type_form self.old.scope.types) }
        ensures meant { OnOk result
            (IfNone self.new.scope.best.fault
            (draft_meaning self.new
            ≡ and_then (draft_meaning self.old)
            (declared_meant (type_form self.old.scope.types) (known_of self.old.scope.errors)
            (an_error error.now)))) }
    {
        self.scope.error(error)?;
        if self.scope.best.fault.is_none() {
            self.errors.push(DeclaredError {
                name: error.name.name.copy()?,
                number: word(error.number),
                arguments: fields_meant(self.scope.alloc, &self.scope.types, &error.arguments)?,
            })?;
        }
        Ok(())
    }

    fn add_procedure(&mut self, procedure: &'a ProcedureText) -> Result<(), NoMemory>
        requires { IfNone self.old.scope.best.fault (AreWords (known_of self.old.scope.errors)) }
        ensures found { OnOk result
            (self.new.scope.best.fault
            ≡ least_from rank_of self.old.scope.best.fault
            (declared_faults cut_off (cut_in self.old.scope) (before_of self.old.scope)
            (a_procedure procedure.now))) }
        ensures behind { OnOk result
            (before_of self.new.scope
            ≡ behind cut_off (before_of self.old.scope) (a_procedure procedure.now)) }
        ensures cut { OnOk result (cut_in self.new.scope ≡ cut_in self.old.scope) }
        ensures formed { OnOk result
            (type_form self.new.scope.types ≡ type_form self.old.scope.types) }
        ensures meant { OnOk result
            (IfNone self.new.scope.best.fault
            (draft_meaning self.new
            ≡ and_then (draft_meaning self.old)
            (declared_meant (type_form self.old.scope.types) (known_of self.old.scope.errors)
            (a_procedure procedure.now)))) }
    {
        self.scope.procedure(procedure)?;
        if self.scope.best.fault.is_none() {
            let meant = procedure_meant(&self.scope, procedure)?;
            self.procedures.push(meant)?;
        }
        Ok(())
    }

    /// One more declaration.
    pub fn add(&mut self, declared: &'a DeclaredText) -> Result<(), NoMemory>
        requires { IfNone self.old.scope.best.fault (AreWords (known_of self.old.scope.errors)) }
        ensures found { OnOk result
            (self.new.scope.best.fault
            ≡ least_from rank_of self.old.scope.best.fault
            (declared_faults cut_off (cut_in self.old.scope) (before_of self.old.scope)
            (declared_of declared.now))) }
        ensures behind { OnOk result
            (before_of self.new.scope
            ≡ behind cut_off (before_of self.old.scope) (declared_of declared.now)) }
        ensures cut { OnOk result (cut_in self.new.scope ≡ cut_in self.old.scope) }
        ensures formed { OnOk result
            (IfNone self.new.scope.best.fault
            (type_form self.new.scope.types
            ≡ forms_behind (type_form self.old.scope.types) (declared_of declared.now))) }
        ensures meant { OnOk result
            (IfNone self.new.scope.best.fault
            (draft_meaning self.new
            ≡ and_then (draft_meaning self.old)
            (declared_meant (type_form self.old.scope.types) (known_of self.old.scope.errors)
            (declared_of declared.now)))) }
    {
        match declared {
            DeclaredText::Type(name, shape) => self.add_type(name, shape),
            DeclaredText::Error(error) => self.add_error(error),
            DeclaredText::Procedure(procedure) => self.add_procedure(procedure),
        }
    }
}

fn procedure_meant(scope: &Scope, procedure: &ProcedureText) -> Result<Procedure, NoMemory>
    requires number { IsOneWord procedure.now.number }
    requires arguments { AreFieldsInRange procedure.now.arguments }
    requires results { AreFieldsInRange procedure.now.results }
    requires errors { AreWords (known_of scope.now.errors) }
    ensures { IfOk result (λ meant.
        meant ≡ procedure_meant (type_form scope.now.types)
        (known_of scope.now.errors) procedure.now) }
{
    let alloc = scope.alloc;
    Ok(Procedure {
        name: procedure.name.name.copy()?,
        number: word(procedure.number),
        arguments: fields_meant(alloc, &scope.types, &procedure.arguments)?,
        results: fields_meant(alloc, &scope.types, &procedure.results)?,
        reports: reports_meant(alloc, &scope.errors, &procedure.reports)?,
    })
}
