// How many calls a thread has made.
ghost use Rattle.std.specs.Prelude.{◌≡◌};
ghost use Rattle.circus_model.specs.Execution.{is_spent};

use circus_limits::MOST_CALLS;
use circus_value::Clock;

/// Whether a thread with this clock has made all its calls: its counts come to 16,777,216 or more. It takes no memory.
pub fn is_spent(clock: &Clock) -> bool
    ensures { result ≡ is_spent clock.now }
{
    let mut calls: u64 = 0;
    for count in clock.as_slice() {
        calls += u64::from(*count);
        if calls >= MOST_CALLS {
            return true;
        }
    }
    false
}
