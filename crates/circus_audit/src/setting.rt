// Whose record is read.
use circus_model::Signature;

/// The module of the member that a node hosts, what it declares, and whether the program has a root: runs are entered from
/// roots alone.
#[derive(Drop)]
pub(crate) struct Hosted {
    pub module: u16,
    pub signature: Signature,
    pub rooted: bool,
}
