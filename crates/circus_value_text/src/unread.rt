// Why something isn't read from a text.
use circus_value::NoMemory;
use thiserror::Error;

/// Why something isn't read from a text.
#[derive(Clone, Copy, Debug, PartialEq, Eq, Drop, Error)]
pub enum Unread {
    /// It doesn't stand there.
    #[error("no such text")]
    Unlike,

    /// Memory ran out.
    #[error("out of memory")]
    NoMemory,
}

impl From<NoMemory> for Unread {
    ghost use Rattle.std.specs.Prelude.{◌≡◌};
    ghost use Rattle.circus_value_text.specs.declared.unread.Unread.TheVariants.{NoMemory};

    ghost from_gives = { λ _ e. e ≡ NoMemory };

    fn from(_refused: NoMemory) -> Self {
        Unread::NoMemory
    }
}
