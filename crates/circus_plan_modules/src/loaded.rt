// A plan whose modules are made.
ghost use Rattle.std.specs.Prelude.{◌≡◌, map, IfOk};
ghost use Rattle.circus_config.specs.Program.{IsPlan};
ghost use Rattle.circus_model.specs.Agree.{Agree};
ghost use Rattle.circus_model.specs.Behaviour.{behaviours};
ghost use Rattle.circus_node.specs.Booting.{AreOfTroupes};
ghost use Rattle.circus_plan_modules.specs.Loaded.{behaviours_in};

use circus_check::Interfaces;
use circus_collate::Deployment;
use circus_config::{ModuleNames, Plan};
use circus_machine::TextModule;
use circus_modules::modules_of;
use circus_value::NoMemory;
use std::alloc::Global;

/// A program whose nodes may boot: its troupes and nodes, the names of its modules, its interfaces, and its modules, one for
/// each troupe in their order.
#[derive(Drop)]
pub struct Loaded {
    pub deployment: Deployment,
    pub names: ModuleNames,
    pub interfaces: Interfaces,
    pub modules: Vec<TextModule>,
}

/// Makes the modules of a plan that was read of a file (docs/LANGUAGE.md, "Executions"). `NoMemory` is the one fault; the
/// plan is gone then.
pub fn load(alloc: Global, plan: Plan) -> Result<Loaded, NoMemory>
    requires { IsPlan plan }
    ensures deployment { IfOk result (λ loaded. loaded.deployment ≡ plan.deployment) }
    ensures names { IfOk result (λ loaded. loaded.names ≡ plan.names) }
    ensures interfaces { IfOk result (λ loaded. loaded.interfaces ≡ plan.checked.interfaces) }

    // The modules do what those of the file mean, agree, and are those of the troupes.
    ensures behave { IfOk result (λ loaded.
        behaviours ⟦<TextModule as circus_model::Module>⟧.declared
        ⟦<TextModule as circus_model::Module>⟧.turn
        ⟦<TextModule as circus_model::Module>⟧.first
        loaded.modules.items
        ≡ behaviours_in plan) }
    ensures agree { IfOk result (λ loaded.
        Agree (behaviours ⟦<TextModule as circus_model::Module>⟧.declared
        ⟦<TextModule as circus_model::Module>⟧.turn
        ⟦<TextModule as circus_model::Module>⟧.first
        loaded.modules.items)) }
    ensures fit { IfOk result (λ loaded.
        AreOfTroupes loaded.deployment
        (map ⟦<TextModule as circus_model::Module>⟧.declared loaded.modules.items)) }
{
    let limit = plan.limit();
    let Plan {
        deployment,
        names,
        checked,
    } = plan;
    let (interfaces, modules) = modules_of(alloc, limit, checked)?;
    Ok(Loaded {
        deployment,
        names,
        interfaces,
        modules,
    })
}
