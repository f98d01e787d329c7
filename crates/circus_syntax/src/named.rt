// Names and numbers, with the places where they stand.
use circus_value::Name;

/// A name (docs/LANGUAGE.md, "Interfaces").
#[derive(Debug, Drop)]
pub struct Named {
    pub name: Name,
    /// The place of its first byte, counted from 0.
    pub at: u32,
}

/// A number.
#[derive(Clone, Copy, Debug, PartialEq, Eq)]
pub struct Numeral {
    pub value: u64,
    /// The place of its first digit, counted from 0.
    pub at: u32,
}

/// What a type is called: a name, or a module's name and a name in it.
#[derive(Debug, Drop)]
pub struct TypeName {
    pub module: Option<Named>,
    pub name: Named,
}

/// A label of an enumeration with its number.
#[derive(Debug, Drop)]
pub struct LabelText {
    pub name: Named,
    pub number: Numeral,
}
