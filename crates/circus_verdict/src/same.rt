// Which things are the same.
ghost use Rattle.std.specs.Prelude.{◌≡◌};
ghost use Rattle.std.specs.Bool.{Decides};

use circus_value::{ListOf, Outcome, Values};

/// Plain data of which it can be told whether it is the same.
pub(crate) trait Same {
    /// Whether this equals the other. It takes no memory.
    fn is_same(&self, other: &Self) -> bool
        ensures { Decides result (self.now ≡ other.now) };
}

impl Same for u8 {
    fn is_same(&self, other: &Self) -> bool {
        *self == *other
    }
}

impl Same for u16 {
    fn is_same(&self, other: &Self) -> bool {
        *self == *other
    }
}

impl Same for u32 {
    fn is_same(&self, other: &Self) -> bool {
        *self == *other
    }
}

impl Same for u64 {
    fn is_same(&self, other: &Self) -> bool {
        *self == *other
    }
}

impl Same for Values {
    fn is_same(&self, other: &Self) -> bool {
        self == other
    }
}

impl Same for Outcome {
    fn is_same(&self, other: &Self) -> bool {
        self == other
    }
}

impl<T: Same> Same for Option<T> {
    fn is_same(&self, other: &Self) -> bool {
        match (self, other) {
            (None, None) => true,
            (Some(one), Some(two)) => one.is_same(two),
            _ => false,
        }
    }
}

impl<T: Same> Same for ListOf<T> {
    fn is_same(&self, other: &Self) -> bool {
        if self.len() != other.len() {
            return false;
        }
        let others = other.as_slice();
        for (place, item) in self.as_slice().iter().enumerate() {
            if !item.is_same(&others[place]) {
                return false;
            }
        }
        true
    }
}
