// Why texts have no tokens.
ghost use Rattle.std.specs.Prelude.{◌≡◌};

use circus_value::NoMemory;
use thiserror::Error;

/// Why a text has no tokens. A place is counted in bytes from the text's front (docs/LANGUAGE.md, "Tokens").
#[derive(Debug, PartialEq, Eq, Drop, Error)]
pub enum LexFault {
    /// The byte at the place can't stand there.
    #[error("bad character at {0}")]
    BadCharacter(u64),

    /// The string that the quote at the place opens isn't closed on its line.
    #[error("open string at {0}")]
    OpenString(u64),

    /// The number that begins at the place is above 9,223,372,036,854,775,807.
    #[error("long number at {0}")]
    LongNumber(u64),

    /// Memory ran out.
    #[error("out of memory")]
    NoMemory,
}

impl From<NoMemory> for LexFault {
    ghost use Rattle.circus_text.specs.declared.lex_fault.LexFault.TheVariants.{NoMemory};

    ghost from_gives = { λ _ e. e ≡ NoMemory };

    fn from(_refused: NoMemory) -> Self {
        LexFault::NoMemory
    }
}
