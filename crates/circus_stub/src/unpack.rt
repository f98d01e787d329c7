// Unpacking arguments and outcomes.
ghost use Rattle.std.specs.Prelude.{◌≡◌, ◌≤◌, Some, None, cond, nat_lt, length, drop, option_copied, IfOk};
ghost use Rattle.circus_value.specs.ShapeTree.{FieldTrees};
ghost use Rattle.circus_idl.specs.declared.interface.Interface.{Interface};
ghost use Rattle.circus_idl.specs.declared.interface.Procedure.{Procedure};
ghost use Rattle.circus_external.specs.Octets.{first_word};
ghost use Rattle.circus_external.specs.Reading.{fields_reading};
ghost use Rattle.circus_external.specs.Spelling.{spelling_of_all};
ghost use Rattle.circus_stub.specs.Flat.{flat_fields};
ghost use Rattle.circus_stub.specs.Compiled.{compile_stubs, AreCompiled, procedure_stub, stub_of, error_values, raised_operations};
ghost use Rattle.circus_stub.specs.Packed.{AreArguments, IsOutcome, outcome_spelling};
ghost use Rattle.circus_stub.specs.Unpacked.{Answers, arguments_unpacked, outcome_unpacked, outcome_behind, raised_unpacked, values_unpacked, values_alone};

use crate::behind::Behind;
use crate::reader::read_values;
use crate::stubs::ProcedureStub;
use crate::{Operation, StubFault, Stubs};
use circus_external::{ByteSource, word_at};
use circus_model::LanguageError;
use circus_value::{Outcome, Parts, Values, is_among};
use std::alloc::Global;

impl Stubs {
    /// The arguments of a procedure, of its call's bytes (docs/FORMATS.md, "Stubs").
    ///
    /// `NoProcedure` comes exactly for a number that the interface doesn't declare, `Large` exactly where
    /// there are more bytes than the limit, `Short`, `NotAValue` and `BadPad` where the bytes begin no
    /// arguments, and `Excess` where bytes remain.
    pub fn unpack(&self, alloc: Global, procedure: u16, bytes: &[u8]) -> Result<Values, StubFault>
        requires { AreCompiled self.now }
        // What is unpacked are arguments, and the bytes are theirs.
        ensures spelled { (i : Interface) → self.now ≡ compile_stubs i self.now.limit
            → IfOk result (λ values.
            AreArguments i procedure values × (bytes.now ≡ spelling_of_all values)) }

        // Which answer it is.
        ensures exact { (i : Interface) → self.now ≡ compile_stubs i self.now.limit
            → Answers result (arguments_unpacked i self.now.limit procedure bytes.now) }
    {
        self.arguments_from(alloc, procedure, &bytes)
    }

    /// The outcome of a procedure, of its return's bytes: behind word 0 the results, behind word 1 an
    /// error's number and its values (docs/FORMATS.md, "Stubs").
    ///
    /// The faults are those of `unpack`, of the first word, the error's number and the values. `Large` has the
    /// number of the bytes behind the first word, or behind the error's number. `NoError` comes exactly for a
    /// number that the procedure doesn't report and that isn't one of 60,001 to 60,009.
    pub fn unpack_outcome(
        &self,
        alloc: Global,
        procedure: u16,
        bytes: &[u8],
    ) -> Result<Outcome, StubFault>
        requires { AreCompiled self.now }
        // What is unpacked is an outcome, and the bytes are its bytes.
        ensures spelled { (i : Interface) → self.now ≡ compile_stubs i self.now.limit
            → IfOk result (λ outcome.
            IsOutcome i procedure outcome × (bytes.now ≡ outcome_spelling outcome)) }

        // Which answer it is.
        ensures exact { (i : Interface) → self.now ≡ compile_stubs i self.now.limit
            → Answers result (outcome_unpacked i self.now.limit procedure bytes.now) }
    {
        self.outcome_from(alloc, procedure, &bytes)
    }

    /// As `unpack`, of the joined bytes from a place on, from where places are counted. Only the bytes of
    /// strings are copied.
    pub fn unpack_parts(
        &self,
        alloc: Global,
        procedure: u16,
        parts: &Parts,
        at: usize,
    ) -> Result<Values, StubFault>
        requires stubs { AreCompiled self.now }
        requires within { at ≤ length parts.now }
        // What is unpacked are arguments, and the bytes are theirs.
        ensures spelled { (i : Interface) → self.now ≡ compile_stubs i self.now.limit
            → IfOk result (λ values.
            AreArguments i procedure values × (drop at parts.now ≡ spelling_of_all values)) }

        // The answer of `unpack`.
        ensures exact { (i : Interface) → self.now ≡ compile_stubs i self.now.limit
            → Answers result (arguments_unpacked i self.now.limit procedure (drop at parts.now)) }
    {
        prove!(at <= parts.len());
        self.arguments_from(alloc, procedure, &Behind { source: parts, at })
    }

    /// As `unpack_outcome`, of the joined bytes from a place on, from where places are counted. Only the bytes
    /// of strings are copied.
    pub fn unpack_outcome_parts(
        &self,
        alloc: Global,
        procedure: u16,
        parts: &Parts,
        at: usize,
    ) -> Result<Outcome, StubFault>
        requires stubs { AreCompiled self.now }
        requires within { at ≤ length parts.now }
        // What is unpacked is an outcome, and the bytes are its bytes.
        ensures spelled { (i : Interface) → self.now ≡ compile_stubs i self.now.limit
            → IfOk result (λ outcome.
            IsOutcome i procedure outcome × (drop at parts.now ≡ outcome_spelling outcome)) }

        // The answer of `unpack_outcome`.
        ensures exact { (i : Interface) → self.now ≡ compile_stubs i self.now.limit
            → Answers result (outcome_unpacked i self.now.limit procedure (drop at parts.now)) }
    {
        prove!(at <= parts.len());
        self.outcome_from(alloc, procedure, &Behind { source: parts, at })
    }

    fn arguments_from<S: ByteSource>(
        &self,
        alloc: Global,
        procedure: u16,
        source: &S,
    ) -> Result<Values, StubFault>
        requires { AreCompiled self.now }
        ensures { (i : Interface) → self.now ≡ compile_stubs i self.now.limit
            → Answers result (arguments_unpacked i self.now.limit procedure (S.octets source.now)) }
    {
        match self.stub(procedure) {
            Some(stub) => values_from(alloc, self.limit, stub.arguments.as_slice(), source, 0),
            None => Err(StubFault::NoProcedure(procedure)),
        }
    }

    fn outcome_from<S: ByteSource>(
        &self,
        alloc: Global,
        procedure: u16,
        source: &S,
    ) -> Result<Outcome, StubFault>
        requires { AreCompiled self.now }
        ensures { (i : Interface) → self.now ≡ compile_stubs i self.now.limit
            → Answers result (outcome_unpacked i self.now.limit procedure (S.octets source.now)) }
    {
        match self.stub(procedure) {
            Some(stub) => self.outcome_behind(alloc, stub, source),
            None => Err(StubFault::NoProcedure(procedure)),
        }
    }

    fn outcome_behind<S: ByteSource>(
        &self,
        alloc: Global,
        stub: &ProcedureStub,
        source: &S,
    ) -> Result<Outcome, StubFault>
        requires { (i : Interface) × (p : Procedure) × (self.now ≡ compile_stubs i self.now.limit)
            × (stub.now ≡ procedure_stub p) }
        ensures { (i : Interface) (p : Procedure) → self.now ≡ compile_stubs i self.now.limit
            → stub.now ≡ procedure_stub p
            → Answers result
            (outcome_behind i p self.now.limit (S.octets source.now)
            (first_word (S.octets source.now))) }
    {
        match word_at(source, 0) {
            Some(0) => {
                let results = stub.results.as_slice();
                let values = values_from(alloc, self.limit, results, source, 2)?;
                Ok(Outcome::Returned(values))
            }
            Some(1) => self.raised_from(alloc, stub, source),
            Some(_) => Err(StubFault::NotAValue(0)),
            None => Err(StubFault::Short(0)),
        }
    }

    // What was raised, of bytes that begin with a word.
    fn raised_from<S: ByteSource>(
        &self,
        alloc: Global,
        stub: &ProcedureStub,
        source: &S,
    ) -> Result<Outcome, StubFault>
        requires { (i : Interface) × (p : Procedure) × (self.now ≡ compile_stubs i self.now.limit)
            × (stub.now ≡ procedure_stub p) }
        ensures { (i : Interface) (p : Procedure) → self.now ≡ compile_stubs i self.now.limit
            → stub.now ≡ procedure_stub p
            → Answers result
            (raised_unpacked i p self.now.limit (S.octets source.now)
            (first_word (drop 2 (S.octets source.now)))) }
    {
        let Some(number) = word_at(source, 2) else {
            return Err(StubFault::Short(2));
        };
        match self.raised_operations(stub, number) {
            Some(operations) => {
                let values = values_from(alloc, self.limit, operations, source, 4)?;
                Ok(Outcome::Raised(number, values))
            }
            None => match length_above(self.limit, source, 4) {
                Some(length) => Err(StubFault::Large(length)),
                None => Err(StubFault::NoError(number)),
            },
        }
    }

    /// The operations of a procedure. `None` exactly where no procedure has the number.
    pub(crate) fn stub(&self, procedure: u16) -> Option<&ProcedureStub>
        ensures { option_copied result ≡ stub_of self.now procedure }
    {
        self.procedures
            .as_slice()
            .iter()
            .find(|stub| stub.number == procedure)
    }

    /// The operations of the values that a procedure raises under a number.
    pub(crate) fn raised_operations(
        &self,
        stub: &ProcedureStub,
        number: u16,
    ) -> Option<&[Operation]>
        ensures { option_copied result ≡ raised_operations self.now stub.now number }
    {
        if is_among(stub.reports.as_slice(), number) {
            self.error_values(number)
        } else {
            LanguageError::has(number).then_some(&[])
        }
    }

    fn error_values(&self, number: u16) -> Option<&[Operation]>
        ensures { option_copied result ≡ error_values self.now number }
    {
        let errors = self.errors.as_slice();
        let error = errors.iter().find(|error| error.number == number)?;
        Some(error.values.as_slice())
    }
}

// How many bytes stand from a place on, where there are more than the limit.
fn length_above<S: ByteSource>(limit: u32, source: &S, at: usize) -> Option<u64>
    requires { at ≤ length (S.octets source.now) }
    ensures { result
        ≡ cond (nat_lt limit (length (drop at (S.octets source.now))))
        (Some (length (drop at (S.octets source.now)))) None }
{
    let length = (source.len() - at) as u64;
    (length > u64::from(limit)).then_some(length)
}

// The values with these operations, of all bytes from a place on.
fn values_from<S: ByteSource>(
    alloc: Global,
    limit: u32,
    operations: &[Operation],
    source: &S,
    at: usize,
) -> Result<Values, StubFault>
    requires within { at ≤ length (S.octets source.now) }
    requires flat { (fields : FieldTrees) × (operations.now ≡ flat_fields fields 0) }
    ensures { (fields : FieldTrees) → operations.now ≡ flat_fields fields 0
        → Answers result (values_unpacked fields limit at (S.octets source.now)) }
{
    match length_above(limit, source, at) {
        Some(length) => Err(StubFault::Large(length)),
        None => values_alone(alloc, operations, source, at),
    }
}

// The same, whatever the limit.
fn values_alone<S: ByteSource>(
    alloc: Global,
    operations: &[Operation],
    source: &S,
    at: usize,
) -> Result<Values, StubFault>
    requires within { at ≤ length (S.octets source.now) }
    requires flat { (fields : FieldTrees) × (operations.now ≡ flat_fields fields 0) }
    ensures { (fields : FieldTrees) → operations.now ≡ flat_fields fields 0
        → Answers result (values_alone (fields_reading fields at (drop at (S.octets source.now)))) }
{
    let (values, next) = read_values(alloc, source, at, operations, 0, operations.len())?;
    if next < source.len() {
        return Err(StubFault::Excess(next as u64));
    }
    Ok(values)
}
