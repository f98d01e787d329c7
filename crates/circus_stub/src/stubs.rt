// What is compiled from an interface.
use crate::Operations;
use circus_value::{Duplicate, ListOf, NoMemory, Numbers};

/// The operations of a procedure.
#[derive(Debug, Drop)]
pub(crate) struct ProcedureStub {
    pub number: u16,
    pub arguments: Operations,
    pub results: Operations,
    /// The numbers of the errors that it reports.
    pub reports: Numbers,
}

/// The operations of an error.
#[derive(Debug, Drop)]
pub(crate) struct ErrorStub {
    pub number: u16,
    pub values: Operations,
}

/// The procedures of an interface, in its order.
pub(crate) type ProcedureStubs = ListOf<ProcedureStub>;

/// The errors of an interface, in its order.
pub(crate) type ErrorStubs = ListOf<ErrorStub>;

/// Several interfaces' stubs, where they are known.
pub type StubsList = ListOf<Option<Stubs>>;

/// Flat lists of operations, by which the calls of an interface are packed and unpacked
/// (docs/FORMATS.md, "Stubs").
#[derive(Debug, Drop)]
pub struct Stubs {
    /// How many bytes the arguments, the results or an error's values may have.
    pub limit: u32,
    pub(crate) procedures: ProcedureStubs,
    pub(crate) errors: ErrorStubs,
}

impl Duplicate for ProcedureStub {
    fn copy(&self) -> Result<Self, NoMemory> {
        Ok(ProcedureStub {
            number: self.number,
            arguments: self.arguments.copy()?,
            results: self.results.copy()?,
            reports: self.reports.copy()?,
        })
    }
}

impl Duplicate for ErrorStub {
    fn copy(&self) -> Result<Self, NoMemory> {
        Ok(ErrorStub {
            number: self.number,
            values: self.values.copy()?,
        })
    }
}

impl Duplicate for Stubs {
    fn copy(&self) -> Result<Self, NoMemory> {
        Ok(Stubs {
            limit: self.limit,
            procedures: self.procedures.copy()?,
            errors: self.errors.copy()?,
        })
    }
}
