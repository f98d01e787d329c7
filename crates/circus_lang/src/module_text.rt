// A module as it is written.
use crate::{ProcedureTexts, VariableTexts};
use circus_statement::Statements;
use circus_syntax::{Named, Nameds, TypeText};

/// A variable and its type (docs/LANGUAGE.md, "Modules").
#[derive(Debug, Drop)]
pub struct VariableText {
    pub name: Named,
    pub shape: TypeText,
}

/// A procedure: its name, its own variables and its statements. That of a root is named by the word MAIN.
#[derive(Debug, Drop)]
pub struct ProcedureText {
    pub name: Named,
    pub variables: VariableTexts,
    pub statements: Statements,
}

/// A module or a root. A root has no interface and one procedure.
#[derive(Debug, Drop)]
pub struct ModuleText {
    pub root: bool,
    pub name: Named,
    pub interface: Option<Named>,
    pub imports: Nameds,
    pub variables: VariableTexts,
    pub procedures: ProcedureTexts,
}
