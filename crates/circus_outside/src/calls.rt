// Which calls of a form in memory are to fail, and how many did.
ghost use Rattle.std.specs.Prelude.{◌≡◌, ◌≤◌, Contains, IsTrue, ◌↔◌};
ghost use Rattle.circus_outside.specs.Faults.{one_more};

use circus_value::ListOf;

/// The numbers of the calls that are to fail, counted from 0.
pub type Failing = ListOf<u64>;

/// The calls of a form in memory. A call that finds no memory takes no number.
#[derive(Drop)]
pub struct Calls {
    pub failing: Failing,
    pub number: u64,
    pub faults: u64,
}

impl Calls {
    /// No call was made yet; these are to fail.
    pub fn new(failing: Failing) -> Self
        ensures { result ≡ record { failing = failing; number = 0; faults = 0 } }
    {
        Calls {
            failing,
            number: 0,
            faults: 0,
        }
    }

    /// Whether the next call is to fail.
    pub fn is_failing(&self) -> bool
        ensures { IsTrue result ↔ Contains self.now.failing self.now.number }
    {
        self.failing.as_slice().contains(&self.number)
    }

    /// The next call was answered.
    pub fn note_answer(&mut self)
        ensures { self.new ≡ record self.old { number = one_more self.old.number } }
    {
        self.number = self.number.saturating_add(1);
    }

    /// The next call failed.
    pub fn note_failure(&mut self)
        ensures failed { self.new
            ≡ record self.old
            { number = one_more self.old.number; faults = one_more self.old.faults } }
        ensures never_falls { self.old.faults ≤ self.new.faults }
    {
        self.number = self.number.saturating_add(1);
        self.faults = self.faults.saturating_add(1);
    }
}
