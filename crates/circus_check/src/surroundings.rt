// What all bodies of a module may name, in tables that are built once for each module.
ghost use Rattle.std.specs.Prelude.{◌≡◌, ◌≤◌, ℕ, List, Some, min, map, option_copied, IfOk, OnOk};
ghost use Rattle.std.specs.Ordering.{nat_cmp};
ghost use Rattle.std.specs.Cmp.Lexicographic.{slice_cmp};
ghost use Rattle.std.specs.BTreeMap.{get_by};
ghost use Rattle.circus_value.specs.ShapeTree.{field_trees};
ghost use Rattle.circus_resolve.specs.Seen.Scoped.{variable_in};
ghost use Rattle.circus_body.specs.Seen.Named.{called_or};
ghost use Rattle.circus_lang.specs.ModuleTree.{module_of};
ghost use Rattle.circus_limits.specs.Limits.{most_modules};
ghost use Rattle.circus_check.specs.Naming.{import_of};
ghost use Rattle.circus_check.specs.Scope.{places_behind, import_named, called_by};
ghost use Rattle.circus_check.specs.Seen.Programs.{IsOwn, IsImported, modules_in, interfaces_in, types_in, types_had, types_now};
ghost use Rattle.circus_check.specs.Seen.Scoped.{interface_in};
ghost use Rattle.circus_check.specs.Seen.Surroundings.{variables_kept, IsAround, own_variables, number_or, procedures_now};

use crate::known::Known;
use crate::module::{Own, Program};
use crate::naming::{Import, Naming};
use circus_body::{Callee, OfferedProcedures};
use circus_resolve::{ModuleScope, Scope, Types, Variable};
use circus_syntax::Named;
use circus_value::{Fields, NoMemory};
use std::alloc::Global;
use std::collections::BTreeMap;

/// What the bodies of a module share.
#[derive(Drop)]
pub struct Surroundings<'m, 's> {
    pub scope: ModuleScope<'m, 's>,
    /// The modules that it imports, as statements call them.
    pub callees: BTreeMap<&'m [u8], Callee<'m, 's>>,
    /// How many variables the state has, which stops at 65,535.
    pub places: u16,
}

// Adds fields as variables behind so many others, and answers how many there are with them, which stops at 65,535.
fn put<'v>(
    variables: &mut BTreeMap<&'v [u8], Variable<'v>>,
    behind: u16,
    fields: &'v Fields,
) -> Result<u16, NoMemory>
    ensures added { OnOk result
        (variable_in variables.new
        ≡ variables_kept behind (field_trees fields.now) (variable_in variables.old)) }
    ensures places { IfOk result (λ place.
        place ≡ min (places_behind behind (field_trees fields.now)) 65535) }
{
    let mut place = behind;
    for field in fields.as_slice() {
        let variable = Variable {
            place,
            shape: &field.shape,
        };
        variables.insert(field.name.as_slice(), variable)?;
        place = place.saturating_add(1);
    }
    Ok(place)
}

// The types of an interface, where it is known.
fn types_of<'m, 's>(known: Option<&'m Known<'s>>) -> Option<&'m Types<'s>>
    ensures { option_copied result ≡ types_now known.entry }
{
    match known {
        Some(known) => Some(&known.types),
        None => None,
    }
}

// Its procedures.
fn procedures_of<'m, 's>(known: Option<&'m Known<'s>>) -> Option<&'m OfferedProcedures<'s>>
    ensures { option_copied result ≡ procedures_now known.entry }
{
    match known {
        Some(known) => Some(&known.procedures),
        None => None,
    }
}

// The types of the modules that are imported, as statements name them.
fn imported_types<'m, 's>(
    program: &Program<'_, 's>,
    own: &'m Own<'_, 's>,
) -> Result<BTreeMap<&'m [u8], Option<&'m Types<'s>>>, NoMemory>
    requires { IsOwn program.now own.now }
    ensures { IfOk result (λ types.
        (name : List ℕ) → types_in types name ≡ types_had own.now name) }
{
    let mut imported = BTreeMap::new(program.alloc);
    for name in own.text.imports.as_slice() {
        let bytes = name.name.as_slice();
        imported.insert(bytes, types_of(own.types.of_module(bytes)))?;
    }
    Ok(imported)
}

// The number of an import, or 0 where it isn't a good one.
fn import_number(naming: &Naming<'_>, importing: usize, name: &Named) -> u16
    requires { importing ≤ most_modules }
    ensures { result
        ≡ number_or (import_of (map module_of naming.now.modules.now) importing name.now) }
{
    match naming.import(importing, name) {
        Import::Good(number) => number as u16,
        Import::Forward => 0,
        Import::NoModule => 0,
    }
}

// The module of an import, as statements call it.
fn callee<'m, 's>(program: &Program<'_, 's>, own: &'m Own<'_, 's>, name: &Named) -> Callee<'m, 's>
    requires few { own.now.number ≤ most_modules }
    requires imported { IsImported (interfaces_in program.now) (modules_in program.now)
        (Some (import_of (modules_in program.now) own.now.number name.now))
        (interface_in own.now.types (Some name.now.name)) }
    ensures { called_or (Some result)
        ≡ called_by (interfaces_in program.now) (modules_in program.now)
        (Some (import_of (modules_in program.now) own.now.number name.now)) }
{
    Callee {
        number: import_number(program.naming, own.number, name),
        procedures: procedures_of(own.types.of_module(name.name.as_slice())),
    }
}

// The modules that are imported, as statements call them.
fn callees<'m, 's>(
    program: &Program<'_, 's>,
    own: &'m Own<'_, 's>,
) -> Result<BTreeMap<&'m [u8], Callee<'m, 's>>, NoMemory>
    requires { IsOwn program.now own.now }
    ensures { IfOk result (λ callees.
        (name : List ℕ) → called_or (get_by (λ k. slice_cmp nat_cmp name k.now) callees)
        ≡ called_by (interfaces_in program.now) (modules_in program.now)
        (import_named (modules_in program.now) own.now.number own.now.text.now.imports name)) }
{
    let mut callees = BTreeMap::new(program.alloc);
    for name in own.text.imports.as_slice() {
        callees.insert(name.name.as_slice(), callee(program, own, name))?;
    }
    Ok(callees)
}

impl<'m, 's> Surroundings<'m, 's> {
    /// Those of a module whose state has these variables.
    pub fn of<'p>(
        program: &Program<'p, 's>,
        own: &'m Own<'p, 's>,
        state: &'m Fields,
    ) -> Result<Self, NoMemory>
        requires { IsOwn program.now own.now }
        ensures { IfOk result (IsAround program.now own.now (field_trees state.now)) }
    {
        let mut variables = BTreeMap::new(program.alloc);
        let places = put(&mut variables, 0, state)?;
        Ok(Surroundings {
            scope: ModuleScope {
                state: variables,
                own: types_of(own.types.own),
                imported: imported_types(program, own)?,
            },
            callees: callees(program, own)?,
            places,
        })
    }

    /// What a body with these variables may name besides modules.
    pub fn scope<'l>(
        &'l self,
        alloc: Global,
        arguments: &'l Fields,
        locals: &'l Fields,
    ) -> Result<Scope<'l, 'm, 's>, NoMemory>
        ensures variables { IfOk result (λ scope. variable_in scope.variables
            ≡ own_variables self.now.places (field_trees arguments.now) (field_trees locals.now)) }
        ensures outer { IfOk result (λ scope. scope.outer.now ≡ self.now.scope) }
    {
        let mut variables = BTreeMap::new(alloc);
        let places = put(&mut variables, self.places, arguments)?;
        put(&mut variables, places, locals)?;
        Ok(Scope {
            variables,
            outer: &self.scope,
        })
    }
}
