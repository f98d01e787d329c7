// What is wrong with the texts of modules.
ghost use Rattle.std.specs.Prelude.{◌≡◌};

use circus_value::NoMemory;
use thiserror::Error;

/// What is wrong with the text of a module. A place is counted in bytes from the text's front (docs/LANGUAGE.md,
/// "Modules").
#[derive(Debug, PartialEq, Eq, Drop, Error)]
pub enum LangFault {
    /// No module goes on with the token at the place, or with the text's end there.
    #[error("unexpected token at {0}")]
    Expected(u64),

    /// The token at the place opens level 65.
    #[error("nested too deep at {0}")]
    Deep(u64),

    /// Memory ran out.
    #[error("out of memory")]
    NoMemory,
}

impl From<NoMemory> for LangFault {
    ghost use Rattle.circus_lang.specs.declared.lang_fault.LangFault.TheVariants.{NoMemory};

    ghost from_gives = { λ _ e. e ≡ NoMemory };

    fn from(_refused: NoMemory) -> Self {
        LangFault::NoMemory
    }
}
