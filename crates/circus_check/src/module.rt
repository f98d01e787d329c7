// One module but for its procedures: what its names stand for, and its faults.
ghost use Rattle.std.specs.Prelude.{◌≡◌, ◌++◌, ◌+◌, ◌≤◌, ℕ, List, min, map, option_map, slice_get, Some, IfOk, OnOk};
ghost use Rattle.std.specs.Ordering.{nat_cmp};
ghost use Rattle.std.specs.Cmp.Lexicographic.{slice_cmp};
ghost use Rattle.std.specs.BTreeMap.{get_by};
ghost use Rattle.circus_value.specs.ShapeTree.{field_trees};
ghost use Rattle.circus_fault.specs.Least.{least_from};
ghost use Rattle.circus_fault.specs.Seen.Tables.{holds_name};
ghost use Rattle.circus_type.specs.Limits.{most_parts};
ghost use Rattle.circus_type.specs.Scale.{written_out};
ghost use Rattle.circus_resolve.specs.Causes.{rank};
ghost use Rattle.circus_lang.specs.ModuleTree.{module_of, procedure_of, variable_of};
ghost use Rattle.circus_limits.specs.Limits.{most_modules};
ghost use Rattle.circus_check.specs.Naming.{interface_called, import_of};
ghost use Rattle.circus_check.specs.Reach.{shared_at};
ghost use Rattle.circus_check.specs.Scope.{implemented_by, import_named};
ghost use Rattle.circus_check.specs.Faults as faults;
ghost use Rattle.circus_check.specs.Seen.Programs.{IsProgram, IsTable, IsTableOf, IsTableAt, IsImported, IsOwn, modules_in, interfaces_in, order_of, list_now, parameters_in, missing_among};
ghost use Rattle.circus_check.specs.Seen.Rows.{shared_as};
ghost use Rattle.circus_check.specs.Seen.Scoped.{unknown_in, form_in};

use crate::known::Known;
use crate::naming::{Import, Naming};
use crate::reach::Shared;
use crate::type_scope::TypeScope;
use crate::variables::{add_name, state_size, variables};
use circus_body::Offered;
use circus_fault::{Best, Names};
use circus_idl::Procedure;
use circus_lang::{ModuleText, ProcedureText};
use circus_limits::MOST_MODULES;
use circus_resolve::CheckCause;
use circus_syntax::Named;
use circus_value::{Fields, NoMemory};
use std::alloc::Global;
use std::collections::BTreeMap;

/// What all modules of a program share.
#[derive(Clone, Copy)]
pub struct Program<'p, 's> {
    pub alloc: Global,
    pub naming: &'p Naming<'s>,
    /// The interfaces by their numbers.
    pub known: &'p [Known<'s>],
    /// What a root has in place of an interface.
    pub nothing: &'p Known<'s>,
    /// What MAIN offers.
    pub main: &'p Offered<'s>,
}

/// The module of a number, with what its names stand for.
#[derive(Drop)]
pub struct Own<'p, 's> {
    pub number: usize,
    pub text: &'s ModuleText,
    pub types: TypeScope<'p, 's>,
    /// The procedures of its interface in order, where it is known.
    pub order: Option<&'s [Procedure]>,
}

impl<'p, 's> Program<'p, 's> {
    // The interface of this name.
    fn interface_named(&self, name: &Named) -> Option<&'p Known<'s>>
        requires { IsProgram self.now }
        ensures { IsTable (interface_called (interfaces_in self.now) name.now) result }
    {
        match self.naming.interface(name) {
            Some(number) => self.known.get(number),
            None => None,
        }
    }

    // That of a module; a root has none, and so no types.
    fn interface(&self, name: &Option<Named>) -> Option<&'p Known<'s>>
        requires { IsProgram self.now }
        ensures { IsTableOf (interfaces_in self.now) name.now result }
    {
        match name {
            None => Some(self.nothing),
            Some(name) => self.interface_named(name),
        }
    }

    // That of the module of a number.
    fn interface_of_module(&self, number: usize) -> Option<&'p Known<'s>>
        requires { IsProgram self.now }
        ensures { IsTableAt (interfaces_in self.now)
            (slice_get (modules_in self.now) number) result }
    {
        match self.naming.modules.get(number) {
            Some(module) => self.interface(&module.interface),
            None => None,
        }
    }

    /// The procedures of the interface of a module, in order, where it is known.
    pub fn order(&self, text: &ModuleText) -> Option<&'s [Procedure]>
        requires { IsProgram self.now }
        ensures { list_now result
            ≡ order_of (implemented_by (interfaces_in self.now) text.now.interface) }
    {
        match &text.interface {
            Some(name) => match self.interface_named(name) {
                Some(known) => Some(known.order),
                None => None,
            },
            None => None,
        }
    }

    // That of an import of a module.
    fn imported_interface(&self, importing: usize, name: &Named) -> Option<&'p Known<'s>>
        requires { IsProgram self.now }
        ensures { IsImported (interfaces_in self.now) (modules_in self.now)
            (Some (import_of (modules_in self.now) importing name.now)) (Some result) }
    {
        match self.naming.import(importing, name) {
            Import::Good(number) => self.interface_of_module(number),
            Import::Forward => None,
            Import::NoModule => None,
        }
    }

    // Those of all its imports, by the names of these.
    fn all_imported(
        &self,
        importing: usize,
        imports: &'s [Named],
    ) -> Result<BTreeMap<&'s [u8], Option<&'p Known<'s>>>, NoMemory>
        requires { IsProgram self.now }
        ensures { IfOk result (λ imported. (name : List ℕ)
            → IsImported (interfaces_in self.now) (modules_in self.now)
            (import_named (modules_in self.now) importing imports.now name)
            (get_by (λ k. slice_cmp nat_cmp name k.now) imported)) }
    {
        let mut imported = BTreeMap::new(self.alloc);
        for name in imports {
            imported.insert(
                name.name.as_slice(),
                self.imported_interface(importing, name),
            )?;
        }
        Ok(imported)
    }

    /// What the names of a module stand for.
    pub fn own_names(&self, number: usize, text: &'s ModuleText) -> Result<Own<'p, 's>, NoMemory>
        requires program { IsProgram self.now }
        requires number { number ≤ most_modules }
        ensures own { IfOk result (IsOwn self.now) }
        ensures its { IfOk result (λ own. (own.number ≡ number) × (own.text.now ≡ text.now)) }
    {
        Ok(Own {
            number,
            text,
            types: TypeScope {
                own: self.interface(&text.interface),
                imported: self.all_imported(number, text.imports.as_slice())?,
            },
            order: self.order(text),
        })
    }
}

// The name of a module: an earlier one may have it, it may be one too many, and a second root may stand there.
fn check_name(
    naming: &Naming<'_>,
    best: &mut Best<CheckCause>,
    own: &Own<'_, '_>,
    shared: Option<Shared>,
)
    requires { option_map shared_as shared
        ≡ shared_at (map module_of naming.now.modules.now) own.now.number }
    ensures { best.new.fault
        ≡ least_from rank best.old.fault
        (faults.name_faults (map module_of naming.now.modules.now) own.now.number
        (module_of own.now.text.now)) }
{
    let name = &own.text.name;
    let first = naming.module(name).unwrap_or(own.number);
    best.note(first < own.number, name.at, CheckCause::Repeated);
    best.note(own.number == MOST_MODULES, name.at, CheckCause::TooMany);
    best.note(shared.is_some(), name.at, CheckCause::Shared);
}

// The interface that a module names.
fn check_interface(naming: &Naming<'_>, best: &mut Best<CheckCause>, name: &Option<Named>)
    ensures { best.new.fault
        ≡ least_from rank best.old.fault
        (faults.interface_faults naming.now.interfaces.now name.now) }
{
    if let Some(name) = name {
        let known = naming.interface(name);
        best.note(known.is_none(), name.at, CheckCause::Unknown);
    }
}

fn check_imports(naming: &Naming<'_>, best: &mut Best<CheckCause>, number: usize, names: &[Named])
    ensures { best.new.fault
        ≡ least_from rank best.old.fault
        (faults.imports_faults (map module_of naming.now.modules.now) number names.now) }
{
    for name in names {
        match naming.import(number, name) {
            Import::Good(_) => {}
            Import::Forward => best.note(true, name.at, CheckCause::Forward),
            Import::NoModule => best.note(true, name.at, CheckCause::Unknown),
        }
    }
}

// The names of procedures as they are written.
fn procedure_names<'a>(
    alloc: Global,
    procedures: &'a [ProcedureText],
) -> Result<Names<'a>, NoMemory>
    ensures { IfOk result (λ names.
        (name : List ℕ) → holds_name names name
        ≡ faults.has_procedure (map procedure_of procedures.now) name) }
{
    let mut names = Names::new(alloc);
    for procedure in procedures {
        add_name(&mut names, &procedure.name.name)?;
    }
    Ok(names)
}

/// The first procedure of an interface, in its order, that a module lacks.
pub fn first_missing<'p>(
    alloc: Global,
    order: &'p [Procedure],
    procedures: &[ProcedureText],
) -> Result<Option<&'p Procedure>, NoMemory>
    ensures { IfOk result (λ found.
        option_map (λ p. p.now) found
        ≡ faults.lacking_of order.now (map procedure_of procedures.now)) }
{
    let names = procedure_names(alloc, procedures)?;
    for procedure in order {
        if names.get(procedure.name.as_slice()).is_none() {
            return Ok(Some(procedure));
        }
    }
    Ok(None)
}

/// Adds the names of fields to those that stand before.
pub fn also_fields<'a>(names: &mut Names<'a>, fields: &'a Fields) -> Result<(), NoMemory>
    ensures { OnOk result
        (holds_name names.new
        ≡ faults.also_fields (field_trees fields.now) (holds_name names.old)) }
{
    for field in fields.as_slice() {
        add_name(names, &field.name)?;
    }
    Ok(())
}

// The names of the parameters of all procedures of an interface.
fn parameters<'a>(alloc: Global, order: Option<&'a [Procedure]>) -> Result<Names<'a>, NoMemory>
    ensures { IfOk result (λ names. holds_name names ≡ parameters_in (list_now order.entry)) }
{
    let mut names = Names::new(alloc);
    if let Some(procedures) = order {
        for procedure in procedures {
            also_fields(&mut names, &procedure.arguments)?;
        }
    }
    Ok(names)
}

// The procedures of its interface that a module lacks.
fn check_missing(
    alloc: Global,
    best: &mut Best<CheckCause>,
    own: &Own<'_, '_>,
) -> Result<(), NoMemory>
    ensures { OnOk result
        (best.new.fault ≡ least_from rank best.old.fault
        (missing_among (list_now own.now.order) (module_of own.now.text.now))) }
{
    if let Some(order) = own.order {
        let missing = first_missing(alloc, order, own.text.procedures.as_slice())?;
        best.note(missing.is_some(), own.text.name.at, CheckCause::Missing);
    }
    Ok(())
}

// The state, behind the parameters, with its parts.
fn check_state<'p, 's>(
    program: &Program<'p, 's>,
    best: &mut Best<CheckCause>,
    own: &Own<'p, 's>,
    parts: &mut u32,
) -> Result<(), NoMemory>
    requires program { IsProgram program.now }
    requires own { IsOwn program.now own.now }
    requires first { parts.old ≡ 0 }
    ensures found { OnOk result (best.new.fault ≡ least_from rank best.old.fault
        (faults.variables_faults written_out (unknown_in own.now.types) (form_in own.now.types) 0
        (faults.parameters_of
        (implemented_by (interfaces_in program.now) own.now.text.now.interface))
        (map variable_of own.now.text.now.variables)
        ++ faults.state_faults (unknown_in own.now.types) (form_in own.now.types)
        (faults.parameters_of
        (implemented_by (interfaces_in program.now) own.now.text.now.interface))
        (module_of own.now.text.now))) }
    ensures counted { OnOk result
        (parts.new ≡ min
        (faults.variables_parts written_out (form_in own.now.types) 0
        (map variable_of own.now.text.now.variables)) (1 + most_parts)) }
{
    let alloc = program.alloc;
    let list = own.text.variables.as_slice();
    let outer = parameters(alloc, own.order)?;
    let mut names = Names::new(alloc);
    variables(alloc, &own.types, best, &outer, &mut names, parts, list)?;
    state_size(alloc, &own.types, best, &outer, &own.text.name, list)
}

/// Finds the faults of a module but for its procedures, and counts the parts of its state.
pub fn check_head<'p, 's>(
    program: &Program<'p, 's>,
    best: &mut Best<CheckCause>,
    own: &Own<'p, 's>,
    shared: Option<Shared>,
    parts: &mut u32,
) -> Result<(), NoMemory>
    requires program { IsProgram program.now }
    requires own { IsOwn program.now own.now }
    requires shared { option_map shared_as shared
        ≡ shared_at (modules_in program.now) own.now.number }
    requires first { parts.old ≡ 0 }
    ensures found { OnOk result (best.new.fault ≡ least_from rank best.old.fault
        (faults.head_faults (interfaces_in program.now) (modules_in program.now) own.now.number
        (module_of own.now.text.now))) }
    ensures counted { OnOk result
        (parts.new ≡ min
        (faults.variables_parts written_out (form_in own.now.types) 0
        (map variable_of own.now.text.now.variables)) (1 + most_parts)) }
{
    let naming = program.naming;
    check_name(naming, best, own, shared);
    check_interface(naming, best, &own.text.interface);
    check_imports(naming, best, own.number, own.text.imports.as_slice());
    check_missing(program.alloc, best, own)?;
    check_state(program, best, own, parts)
}
