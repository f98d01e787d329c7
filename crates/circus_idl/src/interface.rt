// Interfaces and their parts.
use circus_value::{Duplicate, Fields, ListOf, Name, NoMemory, Numbers, Shape};

/// A type that an interface names.
#[derive(Debug, Drop)]
pub struct DeclaredType {
    pub name: Name,
    /// The type with every name in it written out.
    pub shape: Shape,
}

/// An error that procedures of an interface may report.
#[derive(Debug, Drop)]
pub struct DeclaredError {
    pub name: Name,
    /// 0 to 59,999.
    pub number: u16,
    pub arguments: Fields,
}

/// A procedure of an interface.
#[derive(Debug, Drop)]
pub struct Procedure {
    pub name: Name,
    pub number: u16,
    pub arguments: Fields,
    pub results: Fields,
    /// The numbers of the errors that it reports, in the order in which it names them.
    pub reports: Numbers,
}

/// The types that an interface declares, in order.
pub type Declared = ListOf<DeclaredType>;

/// The errors that an interface declares, in order.
pub type Errors = ListOf<DeclaredError>;

/// The procedures that an interface declares, in order.
pub type Procedures = ListOf<Procedure>;

/// What the modules that implement an interface offer (docs/LANGUAGE.md, "Interfaces").
#[derive(Debug, Drop)]
pub struct Interface {
    pub name: Name,
    /// Its program number.
    pub number: u32,
    pub version: u16,
    pub types: Declared,
    pub errors: Errors,
    pub procedures: Procedures,
}

impl Duplicate for DeclaredType {
    fn copy(&self) -> Result<Self, NoMemory> {
        Ok(DeclaredType {
            name: self.name.copy()?,
            shape: self.shape.copy()?,
        })
    }
}

impl Duplicate for DeclaredError {
    fn copy(&self) -> Result<Self, NoMemory> {
        Ok(DeclaredError {
            name: self.name.copy()?,
            number: self.number,
            arguments: self.arguments.copy()?,
        })
    }
}

impl Duplicate for Procedure {
    fn copy(&self) -> Result<Self, NoMemory> {
        Ok(Procedure {
            name: self.name.copy()?,
            number: self.number,
            arguments: self.arguments.copy()?,
            results: self.results.copy()?,
            reports: self.reports.copy()?,
        })
    }
}

impl Duplicate for Interface {
    fn copy(&self) -> Result<Self, NoMemory> {
        Ok(Interface {
            name: self.name.copy()?,
            number: self.number,
            version: self.version,
            types: self.types.copy()?,
            errors: self.errors.copy()?,
            procedures: self.procedures.copy()?,
        })
    }
}
