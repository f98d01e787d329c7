// The troupes and nodes of a program.
use crate::Kind;
use circus_value::{Duplicate, ListOf, Name, NoMemory, Nodes};

/// The members of a module's troupe, and how they take calls and replies.
#[derive(Debug, PartialEq, Eq, Drop)]
pub struct Troupe {
    /// Whether its module is a root.
    pub root: bool,
    /// How members of the troupe collate calls, not `Watchdog`.
    pub calls: Kind,
    /// How they collate replies.
    pub replies: Kind,
    /// Its members at boot, 1 to 16.
    pub founders: Nodes,
    /// The nodes that may join it.
    pub spares: Nodes,
}

/// One troupe a module, in module order, at most 32.
pub type Troupes = ListOf<Troupe>;

/// A node: what it is called, at which port it is, and the module that it runs a member of. The Ringmaster's
/// node has none.
#[derive(Debug, PartialEq, Eq, Drop)]
pub struct Host {
    pub name: Name,
    pub port: u16,
    pub module: Option<u16>,
}

/// The nodes by their numbers, at most 64, the first of which is the Ringmaster's.
pub type Hosts = ListOf<Host>;

/// The troupes and nodes of a program, and the segment format that it uses, 1 or 2. Its conditions are in
/// `IsDeployment`.
#[derive(Debug, PartialEq, Eq, Drop)]
pub struct Deployment {
    pub troupes: Troupes,
    pub nodes: Hosts,
    pub format: u8,
}

impl Duplicate for Troupe {
    fn copy(&self) -> Result<Self, NoMemory> {
        Ok(Troupe {
            root: self.root,
            calls: self.calls,
            replies: self.replies,
            founders: self.founders.copy()?,
            spares: self.spares.copy()?,
        })
    }
}

impl Duplicate for Host {
    fn copy(&self) -> Result<Self, NoMemory> {
        Ok(Host {
            name: self.name.copy()?,
            port: self.port,
            module: self.module,
        })
    }
}

impl Duplicate for Deployment {
    fn copy(&self) -> Result<Self, NoMemory> {
        Ok(Deployment {
            troupes: self.troupes.copy()?,
            nodes: self.nodes.copy()?,
            format: self.format,
        })
    }
}
