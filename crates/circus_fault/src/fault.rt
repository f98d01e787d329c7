// Faults of a text with their places, and the least of them.
ghost use Rattle.std.specs.Prelude.{◌≡◌, ℕ, List, None};
ghost use Rattle.circus_fault.specs.Least.{is_before, lesser, least_from, faults_if, is_clean, out_of};
ghost use Rattle.circus_fault.specs.Stopping.{cause_of, stop_faults};

use circus_syntax::{Numeral, Stop, StopCause};

/// Why a text is refused. Of two causes at one place the one of the lesser rank is given.
pub trait Cause: Copy {
    ghost rank: { Self → ℕ };

    /// The rank.
    fn rank(self) -> u8
        ensures { result ≡ rank self };
}

/// A fault at a place of a text, counted in bytes.
#[derive(Clone, Copy)]
pub struct Fault<C> {
    pub place: u32,
    pub cause: C,
}

/// The least fault that was found.
#[derive(Clone, Copy)]
pub struct Best<C> {
    pub fault: Option<Fault<C>>,
}

fn cause_of<C: Cause>(stop: StopCause, unexpected: C, too_deep: C) -> C
    ensures { result ≡ cause_of unexpected too_deep stop }
{
    match stop {
        StopCause::Unexpected => unexpected,
        StopCause::TooDeep => too_deep,
    }
}

impl<C: Cause> Fault<C> {
    // Whether this fault is given where both are found.
    fn is_before(self, other: Fault<C>) -> bool
        ensures { result ≡ is_before C.rank self other }
    {
        self.place < other.place
            || self.place == other.place && self.cause.rank() < other.cause.rank()
    }
}

impl<C: Cause> Best<C> {
    /// The fault that a stop of reading is, by the cause of a token that nothing continues with and the one of too
    /// many levels; none where reading came to its end.
    pub fn of_stop(stop: &Option<Stop>, unexpected: C, too_deep: C) -> Best<C>
        ensures { result.fault ≡ least_from C.rank None (stop_faults unexpected too_deep stop.now) }
    {
        let fault = match stop {
            Some(stop) => Some(Fault {
                place: stop.place,
                cause: cause_of(stop.cause, unexpected, too_deep),
            }),
            None => None,
        };
        Best { fault }
    }

    // Keeps the lesser of a fault that is found and the one that is kept.
    fn keep(&mut self, fault: Fault<C>)
        ensures { self.new.fault ≡ lesser C.rank self.old.fault fault }
    {
        let stays = match self.fault {
            Some(kept) => !fault.is_before(kept),
            None => false,
        };
        if !stays {
            self.fault = Some(fault);
        }
    }

    /// Whether nothing was found.
    pub fn is_clean(&self) -> bool
        ensures { (faults : List (Fault C)) → self.now.fault ≡ least_from C.rank None faults
            → result ≡ is_clean faults }
    {
        self.fault.is_none()
    }

    /// Finds what was found apart.
    pub fn join(&mut self, other: Best<C>)
        ensures { (faults : List (Fault C)) → other.fault ≡ least_from C.rank None faults
            → self.new.fault ≡ least_from C.rank self.old.fault faults }
    {
        if let Some(fault) = other.fault {
            self.keep(fault);
        }
    }

    /// Finds a fault at the place, if it is one.
    pub fn note(&mut self, is_fault: bool, place: u32, cause: C)
        ensures { self.new.fault
            ≡ least_from C.rank self.old.fault (faults_if is_fault place cause) }
    {
        if is_fault {
            self.keep(Fault { place, cause });
        }
    }

    /// Finds a number that isn't 1 to the greatest.
    pub fn note_out_of(&mut self, greatest: u64, number: Numeral, cause: C)
        ensures { self.new.fault ≡ least_from C.rank self.old.fault (out_of cause greatest number) }
    {
        self.note(
            number.value == 0 || number.value > greatest,
            number.at,
            cause,
        );
    }
}
