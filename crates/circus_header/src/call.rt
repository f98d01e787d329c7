// What a call message's header says.
ghost use Rattle.std.specs.Prelude.{◌≡◌};

use circus_value::{Clock, Duplicate, NoMemory, Path};

/// Who calls, by which path, which procedure of whom, and what the thread has done so far
/// (docs/FORMATS.md, "Headers"). Its conditions are in `IsAsk`.
#[derive(Debug, Drop)]
pub struct CallHeader {
    /// The module that the thread began in, below 32.
    pub root: u16,
    /// The numbers of the asks from the root down: 1 to 31 of them, each below 65,535.
    pub path: Path,
    /// The troupe that calls, below 32.
    pub client: u16,
    /// The incarnation of the client's view, at least 1.
    pub client_incarnation: u32,
    /// Which of the client's calls it is.
    pub client_index: u32,
    /// The troupe that is called, below 32.
    pub server: u16,
    /// The incarnation of the server's view, at least 1.
    pub server_incarnation: u32,
    /// The procedure's number in the server's module.
    pub procedure: u16,
    /// For each module, how many calls the thread has made to it: at most 32, and more than the numbers of
    /// the client and of the server.
    pub clock: Clock,
}

/// A request to the ring (docs/FORMATS.md, "Headers"): first a troupe, below 32, then a node, below 64.
#[derive(Clone, Copy, Debug, PartialEq, Eq, Drop)]
pub enum Request {
    /// The troupe's view is asked for.
    Lookup(u16),
    /// The node joins the troupe.
    Join(u16, u16),
    /// The node is an active member of the troupe, with a count.
    Active(u16, u16, u32),
    /// The node is gone from the troupe.
    Gone(u16, u16),
}

/// What a call message begins with (docs/FORMATS.md, "Headers").
#[derive(Debug, Drop)]
pub enum Call {
    /// A procedure is called. Its arguments stand behind the header.
    Ask(CallHeader),
    /// A request to the ring.
    Ring(Request),
    /// The state of a troupe, below 32, in an incarnation, at least 1, is asked for.
    Fetch(u16, u32),
}

impl Call {
    ghost use Rattle.circus_header.specs.CallFields as call_fields;

    /// Whether arguments stand behind the header, as they do behind that of an ask alone (docs/FORMATS.md,
    /// "Headers").
    pub fn has_body(&self) -> bool
        ensures { result ≡ call_fields.has_body self.now }
    {
        matches!(self, Call::Ask(_))
    }
}

impl Duplicate for CallHeader {
    fn copy(&self) -> Result<Self, NoMemory> {
        Ok(CallHeader {
            root: self.root,
            path: self.path.copy()?,
            client: self.client,
            client_incarnation: self.client_incarnation,
            client_index: self.client_index,
            server: self.server,
            server_incarnation: self.server_incarnation,
            procedure: self.procedure,
            clock: self.clock.copy()?,
        })
    }
}

impl Duplicate for Request {
    fn copy(&self) -> Result<Self, NoMemory> {
        Ok(*self)
    }
}

impl Duplicate for Call {
    fn copy(&self) -> Result<Self, NoMemory> {
        Ok(match self {
            Call::Ask(header) => Call::Ask(header.copy()?),
            Call::Ring(request) => Call::Ring(*request),
            Call::Fetch(troupe, incarnation) => Call::Fetch(*troupe, *incarnation),
        })
    }
}
