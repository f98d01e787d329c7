// The faults that are found so far.
ghost use Rattle.std.specs.Prelude.{◌≡◌, false, None};
ghost use Rattle.circus_fault.specs.Least.{faults_if};
ghost use Rattle.circus_resolve.specs.Seen.Found.{with_faults};

use crate::CheckCause;
use circus_fault::Best;

/// The least fault that was found, and whether there was any since this was last asked.
#[derive(Clone, Copy)]
pub struct Findings {
    pub best: Best<CheckCause>,
    pub any: bool,
}

impl Findings {
    /// Nothing is found.
    pub fn new() -> Self
        ensures { (result.best.fault ≡ None) × (result.any ≡ false) }
    {
        Findings {
            best: Best { fault: None },
            any: false,
        }
    }

    /// Finds a fault at the place, if it is one.
    pub fn note(&mut self, is_fault: bool, place: u32, cause: CheckCause)
        ensures { self.new ≡ with_faults self.old (faults_if is_fault place cause) }
    {
        self.best.note(is_fault, place, cause);
        self.any |= is_fault;
    }
}
