// Why types are refused.
ghost use Rattle.std.specs.Prelude.{◌≡◌};
ghost use Rattle.circus_type.specs.declared.cause.TypeCause.{TypeCause as OfType};

use circus_fault::Cause;

/// Why a type is refused (docs/LANGUAGE.md, "Interfaces").
#[derive(Clone, Copy, Debug, PartialEq, Eq)]
pub enum TypeCause {
    Unknown,
    Repeated,
    OutOfRange,
    TooLarge,
}

/// Why a text is refused in which types stand: the causes of types are among its own.
pub trait WithTypeCauses: Cause {
    ghost embed: { OfType → Self };

    /// The cause of a type, among those of the text.
    fn of_type(cause: TypeCause) -> Self
        ensures { result ≡ embed cause };
}
