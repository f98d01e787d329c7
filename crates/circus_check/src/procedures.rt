// The procedures of a module: their faults, and what they mean while none is found.
ghost use Rattle.std.specs.Prelude.{◌≡◌, ◌+◌, ◌≤◌, ℕ, List, min, map, length, option_map, Some, None, replicate, slice_set, IfOk, OnOk, IfNone};
ghost use Rattle.circus_value.specs.ShapeTree.{field_trees};
ghost use Rattle.circus_statement.specs.StatementTree.{statement_trees};
ghost use Rattle.circus_fault.specs.Least.{least_from};
ghost use Rattle.circus_fault.specs.Seen.Tables.{known_of, holds_name};
ghost use Rattle.circus_type.specs.Inside.{no_name, also_name};
ghost use Rattle.circus_type.specs.Scale.{written_out};
ghost use Rattle.circus_type.specs.Limits.{most_parts};
ghost use Rattle.circus_resolve.specs.Causes.{rank};
ghost use Rattle.circus_resolve.specs.Faults.{Faults};
ghost use Rattle.circus_body.specs.Faults.{all_faults};
ghost use Rattle.circus_body.specs.Meaning.{all_do};
ghost use Rattle.circus_body.specs.Seen.Named.{known_offer, offered_as};
ghost use Rattle.circus_lang.specs.ModuleTree.{module_of, procedure_of, variable_of};
ghost use Rattle.circus_check.specs.Scope.{offered_here, implemented_by};
ghost use Rattle.circus_check.specs.InRange.{AreVariablesInRange};
ghost use Rattle.circus_check.specs.Faults as faults;
ghost use Rattle.circus_check.specs.Meaning as meaning;
ghost use Rattle.circus_check.specs.Resolved.{body_as};
ghost use Rattle.circus_check.specs.Seen.Programs.{IsProgram, IsOwn, modules_in, interfaces_in, place_named, list_now};
ghost use Rattle.circus_check.specs.Seen.Tables.{those_there, unless_kept};
ghost use Rattle.circus_check.specs.Seen.Contexts.{context_with};
ghost use Rattle.circus_check.specs.Seen.Scoped.{form_in};
ghost use Rattle.circus_check.specs.Seen.Surroundings.{AreFew, IsAround, context_around, place_for, count_for};

use crate::checked::{CheckedBodies, CheckedBody};
use crate::module::{Own, Program, also_fields};
use crate::naming::first_place;
use crate::surroundings::Surroundings;
use crate::variables::{add_name, fields, variables};
use circus_body::{Callee, Context, Offered, all_end, resolve_statements};
use circus_checked::CheckedStatements;
use circus_fault::{Best, Names};
use circus_idl::Procedure;
use circus_lang::{ProcedureText, VariableText};
use circus_resolve::{CheckCause, Findings, Scope};
use circus_type::meet_name;
use circus_value::{Fields, NoMemory};
use std::alloc::Global;
use std::collections::BTreeMap;

// The names of the state, and of the procedures so far.
#[derive(Drop)]
struct SoFar<'a> {
    state: Names<'a>,
    procedures: Names<'a>,
}

// The names of the state.
fn state_names<'a>(alloc: Global, state: &'a [VariableText]) -> Result<Names<'a>, NoMemory>
    ensures { IfOk result (λ names.
        holds_name names ≡ faults.also_variables (map variable_of state.now) no_name) }
{
    let mut names = Names::new(alloc);
    for variable in state {
        add_name(&mut names, &variable.name.name)?;
    }
    Ok(names)
}

// The names of the arguments.
fn argument_names<'a>(alloc: Global, offered: Option<&Offered<'a>>) -> Result<Names<'a>, NoMemory>
    ensures { IfOk result (λ names.
        holds_name names
        ≡ faults.also_fields (faults.arguments_of (known_offer offered.entry)) no_name) }
{
    let mut names = Names::new(alloc);
    if let Some(offered) = offered {
        also_fields(&mut names, offered.arguments)?;
    }
    Ok(names)
}

// What a procedure offers.
fn offer_named<'p, 's>(
    program: &Program<'p, 's>,
    own: &Own<'p, 's>,
    name: &[u8],
) -> Option<&'p Offered<'s>>
    requires program { IsProgram program.now }
    requires own { IsOwn program.now own.now }
    ensures { known_offer result
        ≡ offered_here (implemented_by (interfaces_in program.now) own.now.text.now.interface)
        name.now }
{
    match own.order {
        None => Some(program.main),
        Some(_) => match own.types.own {
            Some(known) => known.procedures.get(name),
            None => None,
        },
    }
}

// A procedure but for its statements. It answers what the procedure offers.
fn head<'p, 's>(
    program: &Program<'p, 's>,
    best: &mut Best<CheckCause>,
    own: &Own<'p, 's>,
    parts: &mut u32,
    so_far: &mut SoFar<'s>,
    procedure: &'s ProcedureText,
) -> Result<Option<&'p Offered<'s>>, NoMemory>
    requires program { IsProgram program.now }
    requires own { IsOwn program.now own.now }
    requires state { holds_name so_far.old.state
        ≡ faults.also_variables (map variable_of own.now.text.now.variables) no_name }
    ensures found { OnOk result ((before : ℕ) → parts.old ≡ min before (1 + most_parts)
        → best.new.fault
        ≡ least_from rank best.old.fault
        (faults.procedure_faults (interfaces_in program.now) (modules_in program.now) own.now.number
        (module_of own.now.text.now) before (holds_name so_far.old.procedures)
        (procedure_of procedure.now))) }
    ensures counted { OnOk result ((before : ℕ) → parts.old ≡ min before (1 + most_parts)
        → parts.new ≡ min
        (faults.variables_parts written_out (form_in own.now.types) before
        (map variable_of procedure.now.variables)) (1 + most_parts)) }
    ensures added { OnOk result
        (holds_name so_far.new.procedures
        ≡ also_name procedure.now.name.name (holds_name so_far.old.procedures)) }
    ensures same { OnOk result (so_far.new.state ≡ so_far.old.state) }
    ensures offered { IfOk result (λ offers.
        known_offer offers
        ≡ offered_here (implemented_by (interfaces_in program.now) own.now.text.now.interface)
        procedure.now.name.name) }
{
    let alloc = program.alloc;
    let name = &procedure.name;
    let offers = offer_named(program, own, name.name.as_slice());
    best.note(offers.is_none(), name.at, CheckCause::Unknown);
    meet_name(&mut so_far.procedures, best, name)?;
    best.note(
        !all_end(&procedure.statements),
        name.at,
        CheckCause::Unfinished,
    );
    let mut names = argument_names(alloc, offers)?;
    let list = procedure.variables.as_slice();
    variables(
        alloc,
        &own.types,
        best,
        &so_far.state,
        &mut names,
        parts,
        list,
    )?;
    Ok(offers)
}

// The statements of a procedure with these variables of its own.
fn statements<'s>(
    alloc: Global,
    best: &mut Best<CheckCause>,
    around: &Surroundings<'_, 's>,
    own: &Offered<'s>,
    locals: &Fields,
    procedure: &ProcedureText,
) -> Result<CheckedStatements, NoMemory>
    ensures found { OnOk result
        (best.new.fault ≡ least_from rank best.old.fault
        (all_faults (context_around around.now own.now (field_trees locals.now))
        (statement_trees procedure.now.statements))) }
    ensures meant { IfOk result (λ made.
        made ≡ all_do (context_around around.now own.now (field_trees locals.now))
        (statement_trees procedure.now.statements)) }
{
    let scope = around.scope(alloc, own.arguments, locals)?;
    resolve_procedure(alloc, best, &scope, &around.callees, own, procedure)
}

// The statements of a procedure over what it may name.
fn resolve_procedure<'c, 'm, 's>(
    alloc: Global,
    best: &mut Best<CheckCause>,
    scope: &'c Scope<'_, 'm, 's>,
    imported: &'c BTreeMap<&'m [u8], Callee<'m, 's>>,
    own: &'c Offered<'s>,
    procedure: &ProcedureText,
) -> Result<CheckedStatements, NoMemory>
    ensures found { OnOk result
        (best.new.fault ≡ least_from rank best.old.fault
        (all_faults (context_with scope.now imported.now own.now)
        (statement_trees procedure.now.statements))) }
    ensures meant { IfOk result (λ made.
        made ≡ all_do (context_with scope.now imported.now own.now)
        (statement_trees procedure.now.statements)) }
{
    let context = Context {
        scope,
        imported,
        own,
    };
    let mut found = Findings {
        best: *best,
        any: false,
    };
    let made = resolve_statements(alloc, &context, &mut found, &procedure.statements)?;
    *best = found.best;
    Ok(made)
}

// The body of a procedure that offers this, which is looked into where no fault was found before it.
fn body<'s>(
    program: &Program<'_, 's>,
    best: &mut Best<CheckCause>,
    own: &Own<'_, 's>,
    around: &Surroundings<'_, 's>,
    offers: &Offered<'s>,
    text: &ProcedureText,
) -> Result<Option<CheckedBody>, NoMemory>
    requires own { IsOwn program.now own.now }
    requires around { IfNone best.old.fault
        (IsAround program.now own.now
        (field_trees (faults.fields_of (form_in own.now.types)
        (module_of own.now.text.now).variables)) around.now) }
    requires in_range { IfNone best.old.fault
        (AreVariablesInRange (procedure_of text.now).body.variables) }
    requires few { IfNone best.old.fault
        (length own.now.text.now.variables + length offers.now.arguments.now
        + length text.now.variables ≤ 65535) }
    requires offers { Some (offered_as offers.now)
        ≡ faults.offer_of (interfaces_in program.now) (modules_in program.now) own.now.number
        (module_of own.now.text.now) (procedure_of text.now) }
    ensures found { OnOk result
        (best.new.fault ≡ least_from rank best.old.fault
        (unless_kept best.old.fault
        (faults.body_faults (interfaces_in program.now) (modules_in program.now) own.now.number
        (module_of own.now.text.now) (procedure_of text.now)))) }
    ensures meant { IfOk result (λ body.
        IfNone best.new.fault
        (option_map body_as body
        ≡ Some (meaning.body_meant (interfaces_in program.now)
        (modules_in program.now) own.now.number (module_of own.now.text.now)
        (procedure_of text.now)))) }
{
    if best.fault.is_some() {
        return Ok(None);
    }
    let locals = fields(program.alloc, &own.types, text.variables.as_slice())?;
    let made = statements(program.alloc, best, around, offers, &locals, text)?;
    Ok(Some(CheckedBody {
        locals,
        statements: made,
    }))
}

// A procedure, whose statements are looked into where no fault was found before them.
fn procedure<'p, 's>(
    program: &Program<'p, 's>,
    best: &mut Best<CheckCause>,
    own: &Own<'p, 's>,
    around: &Surroundings<'_, 's>,
    parts: &mut u32,
    so_far: &mut SoFar<'s>,
    text: &'s ProcedureText,
) -> Result<Option<CheckedBody>, NoMemory>
    requires program { IsProgram program.now }
    requires own { IsOwn program.now own.now }
    requires names { holds_name so_far.old.state
        ≡ faults.also_variables (map variable_of own.now.text.now.variables) no_name }
    requires around { IfNone best.old.fault
        (IsAround program.now own.now
        (field_trees (faults.fields_of (form_in own.now.types)
        (module_of own.now.text.now).variables)) around.now) }
    requires small { parts.old ≤ 1 + most_parts }
    requires few { IfNone best.old.fault (AreFew (length own.now.text.now.variables) parts.old) }
    ensures found { OnOk result
        ((found : Faults) (before : ℕ) → best.old.fault ≡ least_from rank None found
        → parts.old ≡ min before (1 + most_parts)
        → best.new.fault
        ≡ least_from rank best.old.fault
        (faults.whole_procedure (interfaces_in program.now) (modules_in program.now) own.now.number
        (module_of own.now.text.now) found before (holds_name so_far.old.procedures)
        (procedure_of text.now))) }
    ensures counted { OnOk result ((before : ℕ) → parts.old ≡ min before (1 + most_parts)
        → parts.new ≡ min
        (faults.variables_parts written_out (form_in own.now.types) before
        (map variable_of text.now.variables)) (1 + most_parts)) }
    ensures added { OnOk result
        (holds_name so_far.new.procedures
        ≡ also_name text.now.name.name (holds_name so_far.old.procedures)) }
    ensures same { OnOk result (so_far.new.state ≡ so_far.old.state) }
    ensures meant { IfOk result (λ body.
        IfNone best.new.fault
        (option_map body_as body
        ≡ Some (meaning.body_meant (interfaces_in program.now)
        (modules_in program.now) own.now.number (module_of own.now.text.now)
        (procedure_of text.now)))) }
{
    let offers = head(program, best, own, parts, so_far, text)?;
    match offers {
        Some(offers) => body(program, best, own, around, offers, text),
        None => Ok(None),
    }
}

// The place of a procedure among those of its interface; without one it is where the procedure is written.
fn place_in(own: &Own<'_, '_>, places: &Names<'_>, text: &ProcedureText, written: usize) -> usize
    requires { (name : List ℕ)
        → known_of places.now name ≡ place_named (list_now own.now.order) name }
    ensures { result ≡ place_for (list_now own.now.order) text.now.name.name written }
{
    match own.order {
        Some(_) => places.get(text.name.name.as_slice()).unwrap_or(0),
        None => written,
    }
}

// The first place of each name among the procedures of an interface.
fn places<'a>(alloc: Global, order: Option<&'a [Procedure]>) -> Result<Names<'a>, NoMemory>
    ensures { IfOk result (λ places.
        (name : List ℕ) → known_of places name ≡ place_named (list_now order.entry) name) }
{
    let mut places = Names::new(alloc);
    if let Some(procedures) = order {
        for (place, procedure) in procedures.iter().enumerate() {
            first_place(&mut places, &procedure.name, place)?;
        }
    }
    Ok(places)
}

// How many bodies a module has: one for each procedure of its interface, or else for each that is written.
fn body_count(own: &Own<'_, '_>) -> usize
    ensures { result ≡ count_for (list_now own.now.order) (length own.now.text.now.procedures) }
{
    match own.order {
        Some(order) => order.len(),
        None => own.text.procedures.len(),
    }
}

// A place for each body, none of which is there yet.
fn slots(alloc: Global, count: usize) -> Result<Vec<Option<CheckedBody>>, NoMemory>
    ensures { IfOk result (λ slots. slots.items ≡ replicate count None) }
{
    let mut slots = Vec::new(alloc);
    for _ in 0..count {
        slots.push(None)?;
    }
    Ok(slots)
}

// Puts a body at its place, where there is one.
fn put_body(slots: &mut Vec<Option<CheckedBody>>, place: usize, body: Option<CheckedBody>)
    ensures { slots.new.items ≡ slice_set slots.old.items place body }
{
    if place < slots.len() {
        slots[place] = body;
    }
}

/// Finds the faults of the procedures of a module, and answers their bodies in the order of its interface while no fault
/// is found.
pub fn check_procedures<'p, 's>(
    program: &Program<'p, 's>,
    best: &mut Best<CheckCause>,
    own: &Own<'p, 's>,
    state: &Fields,
    parts: &mut u32,
) -> Result<CheckedBodies, NoMemory>
    requires program { IsProgram program.now }
    requires own { IsOwn program.now own.now }
    requires state { IfNone best.old.fault
        (state.now ≡ faults.fields_of (form_in own.now.types)
        (module_of own.now.text.now).variables) }
    requires small { parts.old ≤ 1 + most_parts }
    requires few { IfNone best.old.fault (AreFew (length own.now.text.now.variables) parts.old) }
    ensures found { OnOk result
        ((found : Faults) (so_far : ℕ) → best.old.fault ≡ least_from rank None found
        → parts.old ≡ min so_far (1 + most_parts)
        → best.new.fault
        ≡ least_from rank best.old.fault
        (faults.procedures_faults (interfaces_in program.now)
        (modules_in program.now) own.now.number (module_of own.now.text.now) found so_far no_name
        (module_of own.now.text.now).procedures)) }
    ensures meant { IfOk result (λ bodies. IfNone best.new.fault (map body_as bodies
        ≡ (meaning.module_meant (interfaces_in program.now) (modules_in program.now) own.now.number
        (module_of own.now.text.now)).bodies)) }
{
    let alloc = program.alloc;
    let places = places(alloc, own.order)?;
    let mut slots = slots(alloc, body_count(own))?;
    let around = Surroundings::of(program, own, state)?;
    let mut so_far = SoFar {
        state: state_names(alloc, own.text.variables.as_slice())?,
        procedures: Names::new(alloc),
    };
    for (written, text) in own.text.procedures.as_slice().iter().enumerate() {
        let body = procedure(program, best, own, &around, parts, &mut so_far, text)?;
        put_body(&mut slots, place_in(own, &places, text, written), body);
    }
    bodies(alloc, slots)
}

// The bodies that are there, in order.
#[tactic(auto, using(crate::proofs::BodiesPlaced::there_append))]
fn bodies(alloc: Global, slots: Vec<Option<CheckedBody>>) -> Result<CheckedBodies, NoMemory>
    ensures { IfOk result (λ bodies. bodies ≡ those_there slots.items) }
{
    let mut bodies = CheckedBodies::new(alloc);
    for slot in slots {
        match slot {
            Some(body) => bodies.push(body)?,
            None => {}
        }
    }
    Ok(bodies)
}
