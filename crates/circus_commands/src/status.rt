// How a call of the command ends.
ghost use Rattle.std.specs.Prelude.{◌≡◌};

/// How the command ends (docs/GUIDE.md, "Statuses").
#[derive(Clone, Copy, Debug, PartialEq, Eq)]
pub enum Status {
    /// What was asked for is written.
    Done = 0,
    /// The words are of no form.
    BadCommandLine = 1,
    /// The program is refused.
    BadProgram = 2,
    /// A line of the schedule is refused.
    BadSchedule = 3,
    /// The shelf failed.
    ShelfFault = 4,
    /// The sink failed.
    SinkFault = 5,
    /// The link failed.
    LinkFault = 6,
    /// There is no memory.
    NoMemory = 7,
    /// A node has no number left for a call to another one.
    Spent = 8,
    /// All deliveries were made, and datagrams are left.
    Unsettled = 10,
    /// The text of a placing is refused.
    BadPlacing = 11,
    /// No choice of machines satisfies a placing.
    NoPlacement = 12,
    /// A record is none of the program, no run of its node, or doesn't stand.
    BadRecord = 13,
}

impl Status {
    ghost use Rattle.circus_commands.specs.Status.{code_of};

    /// The number that the program ends with.
    pub fn code(self) -> u8
        ensures { result ≡ code_of self }
    {
        self as u8
    }
}
