// Where a member stands, and how it begins.
use circus_collate::Kind;
use circus_value::ListOf;

/// Where a member stands, which never changes.
#[derive(Debug, Drop)]
pub struct Place {
    pub node: u16,
    pub troupe: u16,
    /// How calls to the troupe are collated.
    pub calls: Kind,
    /// How replies to its calls are.
    pub replies: Kind,
    /// The troupe of each node, none for the Ringmaster's.
    pub troupes: ListOf<Option<u16>>,
}

/// How a member is at boot.
#[derive(Clone, Copy, Debug, PartialEq, Eq, Drop)]
pub enum Beginning {
    /// It is active from the first call on.
    Founder,
    /// It isn't active.
    Spare,
}
