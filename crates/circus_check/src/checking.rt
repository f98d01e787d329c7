// Modules over interfaces, or the least of their faults.
ghost use Rattle.std.specs.Prelude.{◌≡◌, ◌⊎◌, ◌≤◌, ◌+◌, suc, [], length, map, take, option_map, slice_get, None, Some, IfOk, IfErr, OnOk, IfNone};
ghost use Rattle.std.specs.List.{AllByRecursion};
ghost use Rattle.circus_fault.specs.declared.fault.Fault.{Fault};
ghost use Rattle.circus_fault.specs.Least.{least_from};
ghost use Rattle.circus_resolve.specs.declared.cause.CheckCause.{CheckCause};
ghost use Rattle.circus_resolve.specs.Causes.{rank};
ghost use Rattle.circus_idl.specs.Obeys.{Obeys};
ghost use Rattle.circus_lang.specs.ModuleTree.{module_of};
ghost use Rattle.circus_check.specs.Answer.{answer_of, lacks, missing_at, shares as shares_at, shared_told};
ghost use Rattle.circus_limits.specs.Limits.{most_modules, most_interfaces};
ghost use Rattle.circus_resolve.specs.Faults.{Faults};
ghost use Rattle.circus_check.specs.Reach.{shared_at};
ghost use Rattle.circus_check.specs.Faults.{faults, first_missing, module_faults};
ghost use Rattle.circus_check.specs.Scope.{implemented_by};
ghost use Rattle.circus_check.specs.Meaning.{modules_meant, module_meant, interface_number, import_numbers};
ghost use Rattle.circus_check.specs.Read.{IsRead};
ghost use Rattle.circus_check.specs.Resolved.{module_as};
ghost use Rattle.circus_check.specs.Seen.Programs.{IsProgram, IsOwn, AreTold, modules_in, interfaces_in};
ghost use Rattle.circus_check.specs.Seen.Progress.{IsProgress};
ghost use Rattle.circus_check.specs.Seen.Rows.{shared_as, AreShares};
ghost use Rattle.circus_check.specs.WellFormed.{AreWellFormed};

use crate::check_fault::CheckFault;
use crate::checked::{Checked, Interfaces, ResolvedModule, ResolvedModules};
use crate::known::Known;
use crate::module::{Own, Program, check_head, first_missing};
use crate::naming::{Import, Naming};
use crate::procedures::check_procedures;
use crate::reach::{Reach, Shared};
use crate::variables::fields;
use circus_body::Offered;
use circus_fault::{Best, Fault};
use circus_idl::{Interface, Procedure};
use circus_lang::{ModuleText, ModuleTexts};
use circus_limits::MOST_MODULES;
use circus_resolve::CheckCause;
use circus_value::{Duplicate, Fields, Name, NoMemory, Numbers};
use std::alloc::Global;
use std::collections::BTreeMap;

// What is made and found of the modules so far.
#[derive(Drop)]
struct Progress {
    made: ResolvedModules,
    reach: Reach,
    best: Best<CheckCause>,
    // For each module, what it shares as a second root.
    shares: Vec<Option<Shared>>,
}

/// Checks modules over interfaces (docs/LANGUAGE.md, "Rules for modules"), and answers both where no rule is broken, with
/// each name in the modules replaced by the number of what it names. The arguments are consumed.
///
/// Of all faults the one at the least place is given, at one place the first in the order of `CheckFault`. `NoMemory` can
/// come at any module.
pub fn check(
    alloc: Global,
    interfaces: Interfaces,
    modules: ModuleTexts,
) -> Result<Checked, CheckFault>
    requires obey { AllByRecursion Obeys interfaces }
    requires few { length interfaces ≤ most_interfaces }
    requires read { AllByRecursion IsRead (map module_of modules) }

    // No rule is broken, and each module is answered as what it means.
    ensures faultless { OnOk result (faults interfaces (map module_of modules) ≡ []) }
    ensures meant { IfOk result (λ checked.
        map module_as checked.modules
        ≡ modules_meant interfaces (map module_of modules) 0 (map module_of modules)) }
    ensures same { IfOk result (λ checked. checked.interfaces ≡ interfaces) }
    ensures well_formed { IfOk result (λ checked.
        AreWellFormed checked.interfaces (map module_as checked.modules)) }

    // The fault is the least of all.
    ensures err { IfErr result (λ e.
        (e ≡ CheckFault.NoMemory)
        ⊎ ((f : Fault CheckCause)
        × (least_from rank None (faults interfaces (map module_of modules)) ≡ Some f)
        × (e ≡ answer_of interfaces (map module_of modules) f))) }
{
    let resolved = resolve_modules(alloc, interfaces.as_slice(), modules.as_slice())?;
    Ok(Checked {
        interfaces,
        modules: resolved,
    })
}

fn known_all(alloc: Global, interfaces: &[Interface]) -> Result<Vec<Known<'_>>, NoMemory>
    requires { AllByRecursion Obeys interfaces.now }
    ensures { IfOk result (λ known. AreTold known.items interfaces.now) }
{
    let mut known = Vec::new(alloc);
    for interface in interfaces {
        known.push(Known::of(alloc, interface)?)?;
    }
    Ok(known)
}

fn resolve_modules(
    alloc: Global,
    interfaces: &[Interface],
    modules: &[ModuleText],
) -> Result<ResolvedModules, CheckFault>
    requires obey { AllByRecursion Obeys interfaces.now }
    requires few { length interfaces.now ≤ most_interfaces }
    ensures faultless { OnOk result (faults interfaces.now (map module_of modules.now) ≡ []) }
    ensures meant { IfOk result (λ made.
        map module_as made
        ≡ modules_meant interfaces.now (map module_of modules.now) 0 (map module_of modules.now)) }
    ensures err { IfErr result (λ e.
        (e ≡ CheckFault.NoMemory)
        ⊎ ((f : Fault CheckCause)
        × (least_from rank None (faults interfaces.now (map module_of modules.now)) ≡ Some f)
        × (e ≡ answer_of interfaces.now (map module_of modules.now) f))) }
{
    let no_fields = Fields::new(alloc);
    let naming = Naming::new(alloc, interfaces, modules)?;
    let known = known_all(alloc, interfaces)?;
    resolved_among(alloc, &naming, known.as_slice(), &no_fields)
}

fn resolved_among<'p, 's>(
    alloc: Global,
    naming: &'p Naming<'s>,
    known: &'p [Known<'s>],
    no_fields: &'s Fields,
) -> Result<ResolvedModules, CheckFault>
    requires obey { AllByRecursion Obeys naming.now.interfaces.now }
    requires few { length naming.now.interfaces.now ≤ most_interfaces }
    requires none { no_fields.now ≡ [] }
    requires told { AreTold known.now naming.now.interfaces.now }
    ensures faultless { OnOk result
        (faults naming.now.interfaces.now (map module_of naming.now.modules.now) ≡ []) }
    ensures meant { IfOk result (λ made.
        map module_as made
        ≡ modules_meant naming.now.interfaces.now (map module_of naming.now.modules.now) 0
        (map module_of naming.now.modules.now)) }
    ensures err { IfErr result (λ e.
        (e ≡ CheckFault.NoMemory)
        ⊎ ((f : Fault CheckCause)
        × (least_from rank None
        (faults naming.now.interfaces.now (map module_of naming.now.modules.now)) ≡ Some f)
        × (e ≡ answer_of naming.now.interfaces.now (map module_of naming.now.modules.now) f))) }
{
    let nothing = Known::nothing(alloc);
    let main = Offered {
        number: 0,
        arguments: no_fields,
        results: no_fields,
        reported: BTreeMap::new(alloc),
    };
    let program = Program {
        alloc,
        naming,
        known,
        nothing: &nothing,
        main: &main,
    };
    let progress = resolved_modules(&program)?;
    match progress.best.fault {
        None => Ok(progress.made),
        Some(fault) => Err(answer(&program, fault, progress.shares.as_slice())?),
    }
}

// The modules up to the first that is one too many.
fn resolved_modules(program: &Program<'_, '_>) -> Result<Progress, NoMemory>
    requires program { IsProgram program.now }
    requires few { length (interfaces_in program.now) ≤ most_interfaces }
    ensures found { IfOk result (λ progress.
        progress.best.fault
        ≡ least_from rank None (faults (interfaces_in program.now) (modules_in program.now))) }
    ensures shared { IfOk result (λ progress.
        AreShares progress.shares.items (modules_in program.now)) }
    ensures meant { IfOk result (λ progress.
        IfNone progress.best.fault
        (map module_as progress.made
        ≡ modules_meant (interfaces_in program.now) (modules_in program.now) 0
        (modules_in program.now))) }
{
    let mut progress = Progress {
        made: ResolvedModules::new(program.alloc),
        reach: Reach::new(program.alloc),
        best: Best { fault: None },
        shares: Vec::new(program.alloc),
    };
    for (number, text) in program.naming.modules.iter().enumerate() {
        if number <= MOST_MODULES {
            add_module(program, &mut progress, number, text)?;
        }
    }
    Ok(progress)
}

// One module more.
fn add_module<'s>(
    program: &Program<'_, 's>,
    progress: &mut Progress,
    number: usize,
    text: &'s ModuleText,
) -> Result<(), NoMemory>
    requires program { IsProgram program.now }
    requires few { length (interfaces_in program.now) ≤ most_interfaces }
    requires number { number ≤ most_modules }
    requires its { slice_get program.now.naming.now.modules.now number ≡ Some text.now }
    requires before { IsProgress program.now progress.old number }
    ensures { OnOk result (IsProgress program.now progress.new (number + 1)) }
{
    let own = program.own_names(number, text)?;
    progress
        .reach
        .add(program.alloc, program.naming, text.imports.as_slice())?;
    let shared = progress.reach.first_shared(program.naming, number);
    progress.shares.push(shared)?;
    let module = module(program, &mut progress.best, &own, shared)?;
    if progress.best.fault.is_none() {
        progress.made.push(module)?;
    }
    Ok(())
}

fn module<'p, 's>(
    program: &Program<'p, 's>,
    best: &mut Best<CheckCause>,
    own: &Own<'p, 's>,
    shared: Option<Shared>,
) -> Result<ResolvedModule, NoMemory>
    requires program { IsProgram program.now }
    requires few { length (interfaces_in program.now) ≤ most_interfaces }
    requires own { IsOwn program.now own.now }
    requires shared { option_map shared_as shared
        ≡ shared_at (modules_in program.now) own.now.number }
    ensures found { OnOk result ((found : Faults) → best.old.fault ≡ least_from rank None found
        → best.new.fault
        ≡ least_from rank best.old.fault
        (module_faults (interfaces_in program.now) (modules_in program.now) own.now.number
        (module_of own.now.text.now) found)) }
    ensures meant { IfOk result (λ made.
        IfNone best.new.fault
        (module_as made ≡ module_meant (interfaces_in program.now)
        (modules_in program.now) own.now.number (module_of own.now.text.now))) }
{
    let mut parts = 0;
    check_head(program, best, own, shared, &mut parts)?;
    let variables = match best.fault {
        None => fields(program.alloc, &own.types, own.text.variables.as_slice())?,
        Some(_) => Fields::new(program.alloc),
    };
    let bodies = check_procedures(program, best, own, &variables, &mut parts)?;
    Ok(ResolvedModule {
        name: own.text.name.name.copy()?,
        root: own.text.root,
        interface: interface_number(program.naming, own.text),
        imports: import_numbers(program, own)?,
        variables,
        bodies,
    })
}

fn interface_number(naming: &Naming<'_>, text: &ModuleText) -> Option<u16>
    requires { length naming.now.interfaces.now ≤ most_interfaces }
    ensures { result ≡ interface_number naming.now.interfaces.now text.now.interface }
{
    match &text.interface {
        Some(name) => match naming.interface(name) {
            Some(number) => Some(number.min(65_535) as u16),
            None => None,
        },
        None => None,
    }
}

fn import_numbers(program: &Program<'_, '_>, own: &Own<'_, '_>) -> Result<Numbers, NoMemory>
    requires { own.now.number ≤ most_modules }
    ensures { IfOk result (λ numbers.
        numbers ≡ import_numbers (modules_in program.now) own.now.number own.now.text.now.imports) }
{
    let mut numbers = Numbers::new(program.alloc);
    for name in own.text.imports.as_slice() {
        if let Import::Good(number) = program.naming.import(own.number, name) {
            numbers.push(number.min(65_535) as u16)?;
        }
    }
    Ok(numbers)
}

fn answer(
    program: &Program<'_, '_>,
    fault: Fault<CheckCause>,
    shares: &[Option<Shared>],
) -> Result<CheckFault, NoMemory>
    requires program { IsProgram program.now }
    requires shared { AreShares shares.now (modules_in program.now) }
    ensures { IfOk result (λ e.
        e ≡ answer_of (interfaces_in program.now) (modules_in program.now) fault) }
{
    let place = u64::from(fault.place);
    Ok(match fault.cause {
        CheckCause::Unknown => CheckFault::Unknown(place),
        CheckCause::Repeated => CheckFault::Repeated(place),
        CheckCause::OutOfRange => CheckFault::OutOfRange(place),
        CheckCause::TooLarge => CheckFault::TooLarge(place),
        CheckCause::Mistyped => CheckFault::Mistyped(place),
        CheckCause::Unfinished => CheckFault::Unfinished(place),
        CheckCause::Forward => CheckFault::Forward(place),
        CheckCause::Shared => sharing_fault(program, fault.place, shares),
        CheckCause::Missing => missing_fault(program, fault.place)?,
        CheckCause::TooMany => CheckFault::TooMany(place),
    })
}

// Which module the root whose name stands at the place shares, with which other root.
fn sharing_fault(program: &Program<'_, '_>, place: u32, shares: &[Option<Shared>]) -> CheckFault
    requires { AreShares shares.now (modules_in program.now) }
    ensures { result
        ≡ shared_told place
        (shares_at (modules_in program.now) place 0
        (take (suc most_modules) (modules_in program.now))) }
{
    for (number, text) in program.naming.modules.iter().enumerate() {
        if text.name.at == place {
            match shares.get(number).copied().unwrap_or(None) {
                Some(shared) => {
                    return CheckFault::Shared(
                        u64::from(place),
                        shared.module,
                        shared.first,
                        number.min(65_535) as u16,
                    );
                }
                None => {}
            }
        }
    }
    CheckFault::Shared(u64::from(place), 0, 0, 0)
}

// The first procedure that a module lacks.
fn procedure_missing_in<'s>(
    program: &Program<'_, 's>,
    text: &ModuleText,
) -> Result<Option<&'s Procedure>, NoMemory>
    requires { IsProgram program.now }
    ensures { IfOk result (λ found.
        option_map (λ p. p.now) found
        ≡ first_missing (implemented_by (interfaces_in program.now) text.now.interface)
        (module_of text.now).procedures) }
{
    match program.order(text) {
        Some(order) => Ok(first_missing(program.alloc, order, text.procedures.as_slice())?),
        None => Ok(None),
    }
}

// What the module whose name stands at the place lacks.
fn missing_fault(program: &Program<'_, '_>, place: u32) -> Result<CheckFault, NoMemory>
    requires { IsProgram program.now }
    ensures { IfOk result (λ e.
        e ≡ missing_at place
        (lacks (interfaces_in program.now) place
        (take (suc most_modules) (modules_in program.now)))) }
{
    for (number, text) in program.naming.modules.iter().enumerate() {
        if number <= MOST_MODULES && text.name.at == place {
            match procedure_missing_in(program, text)? {
                Some(procedure) => {
                    return Ok(CheckFault::Missing(u64::from(place), procedure.name.copy()?));
                }
                None => {}
            }
        }
    }
    Ok(CheckFault::Missing(u64::from(place), Name::new(program.alloc)))
}
