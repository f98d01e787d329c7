// The least of the faults of a pass, which are found one by one, and the refusal for it.
ghost use Rattle.std.specs.Prelude.{◌≡◌, ◌≤◌, length, Some, None};
ghost use Rattle.circus_text.specs.Form.{longest_text};
ghost use Rattle.circus_text.specs.Lines.{line_of};
ghost use Rattle.circus_fault.specs.Least.{is_before, lesser, least_from, faults_if};
ghost use Rattle.circus_fault.specs.Stopping.{cause_of, stop_faults};
ghost use Rattle.circus_config.specs.declared.program_fault.ProgramCause.TheVariants.{Syntax, Deep};
ghost use Rattle.circus_config.specs.declared.program_fault.ProgramFault.{ProgramFault};
ghost use Rattle.circus_config.specs.Rank.{rank_of};
ghost use Rattle.circus_config.specs.Seen.{fault_of, least_fault};

use crate::{ProgramCause, ProgramFault};
use circus_syntax::{Stop, StopCause};
use circus_text::line_at;

/// A fault at a place of a file, counted in bytes.
#[derive(Drop)]
pub struct Found {
    pub place: u64,
    pub cause: ProgramCause,
}

/// The least fault so far.
#[derive(Drop)]
pub struct Least {
    pub found: Option<Found>,
}

impl Found {
    /// The fault of this cause at a place.
    pub fn at(place: u64, cause: ProgramCause) -> Self
        ensures { fault_of result ≡ record { place = place; cause = cause } }
    {
        Found { place, cause }
    }

    // Whether this fault is given where both are found.
    fn is_before(&self, other: &Found) -> bool
        ensures { result ≡ is_before rank_of (fault_of self.now) (fault_of other.now) }
    {
        self.place < other.place
            || self.place == other.place && self.cause.rank() < other.cause.rank()
    }

    /// This fault, or another one that is found later where that is before it.
    pub fn lesser_of(self, other: Found) -> Found
        ensures { Some (fault_of result) ≡ lesser rank_of (Some (fault_of self)) (fault_of other) }
    {
        if other.is_before(&self) { other } else { self }
    }
}

fn stop_cause(cause: StopCause) -> ProgramCause
    ensures { result ≡ cause_of Syntax Deep cause }
{
    match cause {
        StopCause::Unexpected => ProgramCause::Syntax,
        StopCause::TooDeep => ProgramCause::Deep,
    }
}

impl Least {
    /// Where reading stopped, if it did.
    pub fn of_stop(stop: &Option<Stop>) -> Least
        ensures { least_fault result ≡ least_from rank_of None (stop_faults Syntax Deep stop.now) }
    {
        let found = match stop {
            Some(stop) => Some(Found::at(u64::from(stop.place), stop_cause(stop.cause))),
            None => None,
        };
        Least { found }
    }

    /// Keeps the lesser of a fault that is found and the one so far.
    pub fn keep(&mut self, found: Found)
        ensures { least_fault self.new ≡ lesser rank_of (least_fault self.old) (fault_of found) }
    {
        self.found = Some(match self.found.take() {
            Some(kept) => kept.lesser_of(found),
            None => found,
        });
    }

    /// Finds a fault at the place, if it is one.
    pub fn note(&mut self, is_fault: bool, place: u32, cause: ProgramCause)
        ensures { least_fault self.new
            ≡ least_from rank_of (least_fault self.old) (faults_if is_fault place cause) }
    {
        if is_fault {
            self.keep(Found::at(u64::from(place), cause));
        }
    }
}

/// The refusal of a file for a fault.
pub fn refusal_of(text: &[u8], found: Found) -> ProgramFault
    requires { length text.now ≤ longest_text }
    ensures { result ≡ ProgramFault.Refused (line_of text.now found.place) found.cause }
{
    ProgramFault::Refused(line_at(text, found.place), found.cause)
}
