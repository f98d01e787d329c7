// A program file as it is written.
use crate::InterfaceTexts;
use circus_lang::ModuleTexts;
use circus_troupe::DeploymentText;

/// The format of a program, by which its segments are made (docs/PROTOCOL.md, "Segments").
#[derive(Clone, Copy, Debug, PartialEq, Eq)]
pub enum Format {
    One,
    Two,
}

/// A program file: its format, interfaces, modules, and the Ringmaster with the troupes (docs/LANGUAGE.md, "Program
/// files").
#[derive(Debug, Drop)]
pub struct ProgramText {
    pub format: Format,
    pub interfaces: InterfaceTexts,
    pub modules: ModuleTexts,
    pub deployment: DeploymentText,
}
