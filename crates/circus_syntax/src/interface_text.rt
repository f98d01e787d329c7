// An interface as it is written.
use crate::{DeclaredTexts, GroupTexts, Named, Nameds, Numeral, TypeText};

/// A list of fields (docs/LANGUAGE.md, "Interfaces").
#[derive(Debug, Drop)]
pub struct FieldsText {
    /// The place of its opening bracket, counted from 0.
    pub at: u32,
    pub groups: GroupTexts,
}

/// A declared error. Without a list of fields it has no arguments.
#[derive(Debug, Drop)]
pub struct ErrorText {
    pub name: Named,
    pub arguments: Option<FieldsText>,
    pub number: Numeral,
}

/// A declared procedure. What isn't written is `None`.
#[derive(Debug, Drop)]
pub struct ProcedureText {
    pub name: Named,
    pub arguments: Option<FieldsText>,
    pub results: Option<FieldsText>,
    pub reports: Option<Nameds>,
    pub number: Numeral,
}

/// What an interface declares.
#[derive(Debug, Drop)]
pub enum DeclaredText {
    Type(Named, TypeText),
    Error(ErrorText),
    Procedure(ProcedureText),
}

/// An interface: the number of its program, its version, and what it declares, in order.
#[derive(Debug, Drop)]
pub struct InterfaceText {
    pub name: Named,
    pub number: Numeral,
    pub version: Numeral,
    pub declared: DeclaredTexts,
}
