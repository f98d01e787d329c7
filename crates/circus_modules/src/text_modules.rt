// Modules made of checked ones.
ghost use Rattle.std.specs.Prelude.{◌≡◌, ◌≤◌, length, map, IfOk};
ghost use Rattle.std.specs.List.{AllByRecursion};
ghost use Rattle.circus_model.specs.Agree.{Agree};
ghost use Rattle.circus_model.specs.Behaviour.{behaviours};
ghost use Rattle.circus_limits.specs.Limits.{most_modules, first_limit, most_bytes};
ghost use Rattle.circus_idl.specs.Obeys.{Obeys};
ghost use Rattle.circus_check.specs.Resolved.{module_as, body_as};
ghost use Rattle.circus_check.specs.WellFormed.{AreWellFormed};
ghost use Rattle.circus_modules.specs.Behaviours.{behaviour_of, program_of};
ghost use Rattle.circus_modules.specs.Seen.Made.{AreMade, IsSmall, CanBeMade};

use crate::signature::{interface_numbers, signature_of};
use crate::zero::zero_fields;
use circus_check::{Checked, CheckedBodies, Interfaces, ResolvedModule, ResolvedModules};
use circus_idl::Interface;
use circus_machine::{Body, TextModule};
use circus_value::{ListOf, NoMemory};
use std::alloc::Global;

// The bodies, compiled.
fn compile_bodies(alloc: Global, bodies: CheckedBodies) -> Result<ListOf<Body>, NoMemory>
    requires { AllByRecursion IsSmall (map body_as bodies) }
    ensures { IfOk result (λ made. AreMade (map body_as bodies) made) }
{
    let mut made = ListOf::new(alloc);
    for body in bodies.into_items() {
        let locals = zero_fields(alloc, body.locals.as_slice())?;
        made.push(Body::new(alloc, body.statements, locals)?)?;
    }
    Ok(made)
}

fn text_module(
    alloc: Global,
    limit: u32,
    interfaces: &[Interface],
    implemented: &[Option<u16>],
    module: ResolvedModule,
) -> Result<TextModule, NoMemory>
    requires { CanBeMade limit interfaces.now implemented.now (module_as «module») }
    ensures { IfOk result (λ made. record {
      declared = ⟦<TextModule as circus_model::Module>⟧.declared made;
      turn = ⟦<TextModule as circus_model::Module>⟧.turn made;
      first = ⟦<TextModule as circus_model::Module>⟧.first made;
    } ≡ behaviour_of limit interfaces.now implemented.now (module_as «module»)) }
{
    let signature = signature_of(alloc, limit, interfaces, implemented, &module)?;
    let first = zero_fields(alloc, module.variables.as_slice())?;
    let bodies = compile_bodies(alloc, module.bodies)?;
    TextModule::new(alloc, signature, first, bodies)
}

fn text_modules(
    alloc: Global,
    limit: u32,
    interfaces: &[Interface],
    implemented: &[Option<u16>],
    modules: ResolvedModules,
) -> Result<Vec<TextModule>, NoMemory>
    requires { AllByRecursion (CanBeMade limit interfaces.now implemented.now)
        (map module_as modules) }
    ensures { IfOk result (λ made.
        behaviours ⟦<TextModule as circus_model::Module>⟧.declared
        ⟦<TextModule as circus_model::Module>⟧.turn
        ⟦<TextModule as circus_model::Module>⟧.first made.items
        ≡ map (behaviour_of limit interfaces.now implemented.now) (map module_as modules)) }
{
    let mut made = Vec::with_capacity(alloc, modules.len())?;
    for module in modules.into_items() {
        made.push(text_module(alloc, limit, interfaces, implemented, module)?)?;
    }
    Ok(made)
}

/// The modules of a checked program, whose states and values may have so many bytes: 65,536 to 1,048,576, and its
/// interfaces (docs/LANGUAGE.md, "Executions"). They agree. After `NoMemory` both are gone.
pub fn modules_of(
    alloc: Global,
    limit: u32,
    checked: Checked,
) -> Result<(Interfaces, Vec<TextModule>), NoMemory>
    requires least { first_limit ≤ limit }
    requires most { limit ≤ most_bytes }
    requires obey { AllByRecursion Obeys checked.interfaces }
    requires well_formed { AreWellFormed checked.interfaces (map module_as checked.modules) }
    ensures interfaces { IfOk result (λ made. made.0 ≡ checked.interfaces) }
    ensures behave { IfOk result (λ made.
        behaviours ⟦<TextModule as circus_model::Module>⟧.declared
        ⟦<TextModule as circus_model::Module>⟧.turn
        ⟦<TextModule as circus_model::Module>⟧.first made.1.items
        ≡ program_of limit checked.interfaces (map module_as checked.modules)) }
    ensures agree { IfOk result (λ made.
        Agree (behaviours ⟦<TextModule as circus_model::Module>⟧.declared
        ⟦<TextModule as circus_model::Module>⟧.turn
        ⟦<TextModule as circus_model::Module>⟧.first made.1.items)) }
    ensures few { IfOk result (λ made. length made.1.items ≤ most_modules) }
{
    let Checked {
        interfaces,
        modules,
    } = checked;
    let implemented = interface_numbers(alloc, modules.as_slice())?;
    let made = text_modules(
        alloc,
        limit,
        interfaces.as_slice(),
        implemented.as_slice(),
        modules,
    )?;
    Ok((interfaces, made))
}
