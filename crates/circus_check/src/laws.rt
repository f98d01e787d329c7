// What holds of every list of modules.
ghost use Rattle.std.specs.Prelude.{◌≡◌, ◌↔◌, ℕ, true, List, [], None};
ghost use Rattle.std.specs.List.{AllByRecursion};
ghost use Rattle.circus_fault.specs.Least.{least_from};
ghost use Rattle.circus_resolve.specs.Causes.{rank};
ghost use Rattle.circus_idl.specs.declared.interface.Interface.{Interface};
ghost use Rattle.circus_idl.specs.Obeys.{Obeys};
ghost use Rattle.circus_lang.specs.ModuleTree.{ModuleTree};
ghost use Rattle.circus_check.specs.Faults.{faults};
ghost use Rattle.circus_check.specs.Meaning.{modules_meant};
ghost use Rattle.circus_check.specs.Plain.{all, AreInOrder, HaveSameLeast};
ghost use Rattle.circus_check.specs.Reach.{reaches};
ghost use Rattle.circus_check.specs.ReachByImports.{ReachesByImports};
ghost use Rattle.circus_check.specs.Read.{IsRead};
ghost use Rattle.circus_check.specs.TextOrder.{AreModulesOf};
ghost use Rattle.circus_check.specs.WellFormed.{AreWellFormed};

use circus_text::tokens_lie;

/// The least fault is that of all faults, also of those in bodies that stand behind another.
pub fn least_is_of_all()
    ensures { (interfaces : List Interface) (modules : List ModuleTree)
        → HaveSameLeast interfaces modules }
{}

/// Modules that were read and have no fault over interfaces that obey the rules mean modules that are well formed as a
/// whole.
pub fn faultless_are_well_formed()
    ensures { (interfaces : List Interface) (modules : List ModuleTree)
        → AllByRecursion Obeys interfaces → AllByRecursion IsRead modules
        → faults interfaces modules ≡ []
        → AreWellFormed interfaces (modules_meant interfaces modules 0 modules) }
{}

/// A module reaches another one where its imports, and theirs, come to it, step by step.
pub fn reach_is_by_imports()
    ensures { (modules : List ModuleTree) (i j : ℕ) → (reaches modules i j ≡ true)
        ↔ ReachesByImports modules i j }
{}

/// Modules that stand one behind the other in a text are in order: what is wrong in a body stands behind all that is
/// wrong before it.
pub fn modules_are_in_order()
    ensures { (interfaces : List Interface) (modules : List ModuleTree) (text : List ℕ)
        → AreModulesOf text modules → AreInOrder interfaces modules }
{
    tokens_lie();
}

/// Of such modules the least fault is that of all faults.
pub fn least_is_of_all_in_a_text()
    ensures { (interfaces : List Interface) (modules : List ModuleTree) (text : List ℕ)
        → AreModulesOf text modules
        → least_from rank None (faults interfaces modules)
        ≡ least_from rank None (all interfaces modules) }
{
    least_is_of_all();
    modules_are_in_order();
}
