// What a program file means.
ghost use Rattle.std.specs.Prelude.{◌≡◌};
ghost use Rattle.circus_limits.specs.Limits.{limit_of};

use circus_check::Checked;
use circus_collate::Deployment;
use circus_limits::limit_of;
use circus_value::{ListOf, Name};

/// The names of modules, in their order.
pub type ModuleNames = ListOf<Name>;

/// A program: its troupes and nodes, the names of its modules, and its interfaces and modules, which are well formed.
#[derive(Debug, Drop)]
pub struct Plan {
    pub deployment: Deployment,
    pub names: ModuleNames,
    pub checked: Checked,
}

impl Plan {
    /// How many bytes a value of the program has at most, and so the state of a module: 65,536 or 1,048,576, by its format.
    pub fn limit(&self) -> u32
        ensures { result ≡ limit_of self.now.deployment.format }
    {
        limit_of(self.deployment.format)
    }
}
