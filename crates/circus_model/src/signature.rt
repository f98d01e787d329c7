// What a module declares.
ghost use Rattle.std.specs.Prelude.{◌≡◌, option_copied};
ghost use Rattle.circus_model.specs.Lawful.{procedure_numbered};

use circus_value::{Duplicate, ListOf, NoMemory, Shapes};

/// What a module declares to those that run it and to those that call it.
#[derive(Debug, Drop)]
pub struct Signature {
    pub root: bool,
    pub imports: Imports,
    pub variables: Shapes,
    pub procedures: ProcedureShapes,
    /// The most bytes, in external form, of a state, of arguments together, of results together and of an error's values together.
    pub limit: u32,
}

/// An imported module, by its number, with its procedures.
#[derive(Debug, Drop)]
pub struct Import {
    pub module: u16,
    pub procedures: ProcedureShapes,
}

/// The imported modules, in the order in which they are named.
pub type Imports = ListOf<Import>;

/// A procedure, by its number, with the errors that it reports.
#[derive(Debug, Drop)]
pub struct ProcedureShape {
    pub number: u16,
    pub arguments: Shapes,
    pub results: Shapes,
    pub errors: ErrorShapes,
}

/// The procedures of a module.
pub type ProcedureShapes = ListOf<ProcedureShape>;

/// The first procedure with a number. It takes no memory.
pub fn procedure_numbered(procedures: &ProcedureShapes, number: u16) -> Option<&ProcedureShape>
    ensures { option_copied result ≡ procedure_numbered number procedures.now }
{
    procedures
        .as_slice()
        .iter()
        .find(|procedure| procedure.number == number)
}

/// An error, by its number, with the shapes of its values.
#[derive(Debug, Drop)]
pub struct ErrorShape {
    pub number: u16,
    pub arguments: Shapes,
}

/// The errors of a procedure.
pub type ErrorShapes = ListOf<ErrorShape>;

impl Duplicate for ErrorShape {
    fn copy(&self) -> Result<Self, NoMemory> {
        Ok(ErrorShape {
            number: self.number,
            arguments: self.arguments.copy()?,
        })
    }
}

impl Duplicate for ProcedureShape {
    fn copy(&self) -> Result<Self, NoMemory> {
        Ok(ProcedureShape {
            number: self.number,
            arguments: self.arguments.copy()?,
            results: self.results.copy()?,
            errors: self.errors.copy()?,
        })
    }
}

impl Duplicate for Import {
    fn copy(&self) -> Result<Self, NoMemory> {
        Ok(Import {
            module: self.module,
            procedures: self.procedures.copy()?,
        })
    }
}

impl Duplicate for Signature {
    fn copy(&self) -> Result<Self, NoMemory> {
        Ok(Signature {
            root: self.root,
            imports: self.imports.copy()?,
            variables: self.variables.copy()?,
            procedures: self.procedures.copy()?,
            limit: self.limit,
        })
    }
}
