// The plan of a file, or the least fault of the pass that checks it.
ghost use Rattle.std.specs.Prelude.{◌≡◌, ◌⊎◌, ◌≤◌, [], length, map, IfOk, IfErr};
ghost use Rattle.std.specs.List.{AllByRecursion};
ghost use Rattle.circus_text.specs.Form.{longest_text};
ghost use Rattle.circus_lang.specs.ModuleTree.{module_of};
ghost use Rattle.circus_idl.specs.Obeys.{Obeys};
ghost use Rattle.circus_file.specs.ProgramTree.{program_of};
ghost use Rattle.circus_check.specs.Read.{IsRead};
ghost use Rattle.circus_check.specs.Meaning.{modules_meant};
ghost use Rattle.circus_check.specs.Resolved.{module_as};
ghost use Rattle.circus_deployment.specs.Meaning.{deployment_meant};
ghost use Rattle.circus_limits.specs.Limits.{most_interfaces};
ghost use Rattle.circus_config.specs.declared.program_fault.ProgramFault.{ProgramFault};
ghost use Rattle.circus_config.specs.Told.{module_names};
ghost use Rattle.circus_config.specs.Seen.{looked_faults};
ghost use Rattle.circus_config.specs.Program.{format_number, IsAnswerTo};

use crate::least::refusal_of;
use crate::told::{of_deployment, of_modules};
use crate::{ModuleNames, Plan, ProgramFault};
use circus_check::Interfaces;
use circus_file::{Format, ProgramText};
use circus_lang::ModuleText;
use circus_value::{Duplicate, NoMemory};
use std::alloc::Global;

fn format_number(format: Format) -> u8
    ensures { result ≡ format_number format }
{
    match format {
        Format::One => 1,
        Format::Two => 2,
    }
}

fn names_of(alloc: Global, modules: &[ModuleText]) -> Result<ModuleNames, NoMemory>
    ensures { IfOk result (λ names. names ≡ module_names (map module_of modules.now)) }
{
    let mut names = ModuleNames::new(alloc);
    for text in modules {
        names.push(text.name.name.copy()?)?;
    }
    Ok(names)
}

/// The plan that a file means, which has these interfaces, or the least fault of its modules and its deployment.
pub fn plan(
    alloc: Global,
    bytes: &[u8],
    text: ProgramText,
    interfaces: Interfaces,
) -> Result<Plan, ProgramFault>
    requires short { length bytes.now ≤ longest_text }
    requires obey { AllByRecursion Obeys interfaces }
    requires few { length interfaces ≤ most_interfaces }
    requires read { AllByRecursion IsRead (program_of text).modules }
    ensures faultless { IfOk result (λ plan.
        looked_faults interfaces (program_of text).modules (length bytes.now) text.deployment
        ≡ []) }
    ensures same { IfOk result (λ plan. plan.checked.interfaces ≡ interfaces) }
    ensures modules { IfOk result (λ plan.
        map module_as plan.checked.modules
        ≡ modules_meant interfaces (program_of text).modules 0 (program_of text).modules) }
    ensures names { IfOk result (λ plan. plan.names ≡ module_names (program_of text).modules) }
    ensures deployment { IfOk result (λ plan.
        plan.deployment ≡ deployment_meant (program_of text).modules
        (format_number text.format) text.deployment) }
    ensures err { IfErr result (λ e.
        (e ≡ ProgramFault.NoMemory)
        ⊎ IsAnswerTo bytes.now
        (looked_faults interfaces (program_of text).modules (length bytes.now) text.deployment) e) }
{
    let ProgramText {
        format,
        interfaces: _,
        modules,
        deployment,
    } = text;
    let end = bytes.len() as u32;
    let names = names_of(alloc, modules.as_slice())?;
    let deployed = circus_deployment::check(
        alloc,
        modules.as_slice(),
        &deployment,
        format_number(format),
        end,
    );
    match circus_check::check(alloc, interfaces, modules) {
        Ok(checked) => match deployed {
            Ok(deployment) => Ok(Plan {
                deployment,
                names,
                checked,
            }),
            Err(fault) => Err(refusal_of(bytes, of_deployment(fault)?)),
        },
        Err(fault) => {
            let found = of_modules(alloc, &names, fault)?;
            match deployed {
                Ok(_) => Err(refusal_of(bytes, found)),
                Err(other) => Err(refusal_of(bytes, found.lesser_of(of_deployment(other)?))),
            }
        }
    }
}
