// Modules whose names are found.
ghost use Rattle.std.specs.Prelude.{◌≡◌, map};
ghost use Rattle.std.specs.List.{AllByRecursion};
ghost use Rattle.circus_idl.specs.Obeys.{Obeys};
ghost use Rattle.circus_check.specs.Resolved.{module_as};
ghost use Rattle.circus_check.specs.WellFormed.{AreWellFormed};

use circus_checked::CheckedStatements;
use circus_idl::Interface;
use circus_value::{Fields, ListOf, Name, Numbers};

/// Interfaces in order.
pub type Interfaces = ListOf<Interface>;

/// The variables of a procedure of its own, and its statements.
#[derive(Debug, Drop)]
pub struct CheckedBody {
    pub locals: Fields,
    pub statements: CheckedStatements,
}

/// The bodies of a module, in the order of the procedures of its interface.
pub type CheckedBodies = ListOf<CheckedBody>;

/// A module in which each name is the number of what it names.
#[derive(Debug, Drop)]
pub struct ResolvedModule {
    pub name: Name,
    pub root: bool,
    /// The number of its interface, or `None` for a root.
    pub interface: Option<u16>,
    /// The numbers of the modules that it imports, in the order in which it names them.
    pub imports: Numbers,
    /// Its state.
    pub variables: Fields,
    pub bodies: CheckedBodies,
}

/// Modules in order, each of which has its place as its number.
pub type ResolvedModules = ListOf<ResolvedModule>;

/// Interfaces that obey the rules, and modules that are well formed over them.
#[derive(Debug, Drop)]
pub struct Checked {
    pub interfaces: Interfaces,
    pub modules: ResolvedModules,
    pub ghost obey: { ∥ AllByRecursion Obeys interfaces ∥₁ },
    pub ghost well_formed: { ∥ AreWellFormed interfaces (map module_as modules) ∥₁ },
}

impl Checked {
    /// Hands the interfaces back. It takes no memory.
    pub fn interfaces(self) -> Interfaces
        ensures { result ≡ self.interfaces }
    {
        self.interfaces
    }
}
