// How far a message has come.
ghost use Rattle.std.specs.Prelude.{◌≡◌, ◌+◌, ◌<◌};

/// The segments of a message, and how many of them have come from the first on without a gap. Of a message
/// that is sent these are the acknowledged ones.
#[derive(Clone, Copy, Debug, PartialEq, Eq)]
pub struct Progress {
    pub total: u16,
    pub count: u16,
}

impl Progress {
    /// The number of the first segment that has not come.
    pub fn next(self) -> u16
        requires { self.count < self.total }
        ensures { result ≡ self.count + 1 }
    {
        self.count + 1
    }
}
