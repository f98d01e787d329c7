// What a node knows of the program.
ghost use Rattle.std.specs.Prelude.{◌≡◌, option_copied};
ghost use Rattle.circus_model.specs.Lawful.{import_of};
ghost use Rattle.circus_node.specs.Accepting as accepting;

use circus_collate::Deployment;
use circus_model::{Import, ProcedureShape, Signature, procedure_numbered};
use circus_value::is_among;

/// The troupe of the member that a node hosts. `None` where it hosts none. It takes no memory.
pub fn troupe_at(deployment: &Deployment, node: u16) -> Option<u16>
    ensures { result ≡ accepting.troupe_at deployment.now node }
{
    deployment.nodes.get(usize::from(node))?.module
}

/// Whether a node hosts a member of a troupe.
pub(crate) fn is_host_of(deployment: &Deployment, troupe: u16, node: u16) -> bool
    ensures { result ≡ accepting.is_host_of deployment.now troupe node }
{
    troupe_at(deployment, node) == Some(troupe)
}

/// Whether a module is a root.
pub(crate) fn is_root(deployment: &Deployment, module: u16) -> bool
    ensures { result ≡ accepting.is_root deployment.now «module» }
{
    match deployment.troupes.get(usize::from(module)) {
        Some(troupe) => troupe.root,
        None => false,
    }
}

/// Whether a node is a founder or a spare of a troupe.
pub(crate) fn may_belong(deployment: &Deployment, troupe: u16, node: u16) -> bool
    ensures { result ≡ accepting.may_belong deployment.now troupe node }
{
    match deployment.troupes.get(usize::from(troupe)) {
        Some(troupe) => {
            is_among(troupe.founders.as_slice(), node) || is_among(troupe.spares.as_slice(), node)
        }
        None => false,
    }
}

fn import_of(signature: &Signature, module: u16) -> Option<&Import>
    ensures { option_copied result ≡ import_of «module» signature.now.imports }
{
    signature
        .imports
        .as_slice()
        .iter()
        .find(|import| import.module == module)
}

/// Which procedure of whom an ask calls.
#[derive(Clone, Copy, Debug, PartialEq, Eq, Drop)]
pub(crate) struct Callee {
    pub troupe: u16,
    pub procedure: u16,
}

/// The procedure of an import that is called.
pub(crate) fn imported_procedure(signature: &Signature, callee: Callee) -> Option<&ProcedureShape>
    ensures { option_copied result ≡ accepting.imported_procedure signature.now callee }
{
    let import = import_of(signature, callee.troupe)?;
    procedure_numbered(&import.procedures, callee.procedure)
}
