// Packing arguments and outcomes.
ghost use Rattle.std.specs.Prelude.{◌≡◌, true, ◌++◌, IfOk};
ghost use Rattle.circus_value.specs.ShapeTree.{FieldTrees};
ghost use Rattle.circus_idl.specs.declared.interface.Interface.{Interface};
ghost use Rattle.circus_idl.specs.declared.interface.Procedure.{Procedure};
ghost use Rattle.circus_external.specs.Spelling.{spelling_of_all, fields_admit};
ghost use Rattle.circus_stub.specs.Flat.{flat_fields};
ghost use Rattle.circus_stub.specs.Compiled.{compile_stubs, procedure_stub};
ghost use Rattle.circus_stub.specs.Packed.{AreArguments, MayEnd, IsOutcome, words, outcome_spelling};

use crate::stubs::ProcedureStub;
use crate::writer::write_all;
use crate::{Operation, Stubs};
use circus_external::write_word;
use circus_value::{ListOf, Message, NoMemory, Outcome, Values};
use std::alloc::Global;

impl Stubs {
    /// The bytes of a call's arguments, one value behind another (docs/FORMATS.md, "Stubs"). `NoMemory` is the
    /// one fault.
    pub fn pack(&self, alloc: Global, procedure: u16, values: &Values) -> Result<Message, NoMemory>
        requires { (i : Interface) × (self.now ≡ compile_stubs i self.now.limit)
            × AreArguments i procedure values.now }
        ensures { IfOk result (λ bytes. bytes ≡ spelling_of_all values.now) }
    {
        match self.stub(procedure) {
            Some(stub) => pack_values(alloc, &[], stub.arguments.as_slice(), values),
            None => unreachable!(),
        }
    }

    /// The bytes of a procedure's outcome: word 0 and the results, or word 1, the error's number and its values
    /// (docs/FORMATS.md, "Stubs"). `NoMemory` is the one fault.
    pub fn pack_outcome(
        &self,
        alloc: Global,
        procedure: u16,
        outcome: &Outcome,
    ) -> Result<Message, NoMemory>
        requires { (i : Interface) × (self.now ≡ compile_stubs i self.now.limit)
            × IsOutcome i procedure outcome.now }
        ensures { IfOk result (λ bytes. bytes ≡ outcome_spelling outcome.now) }
    {
        match self.stub(procedure) {
            Some(stub) => self.packed_outcome(alloc, stub, outcome),
            None => unreachable!(),
        }
    }

    fn packed_outcome(
        &self,
        alloc: Global,
        stub: &ProcedureStub,
        outcome: &Outcome,
    ) -> Result<Message, NoMemory>
        requires { (i : Interface) × (p : Procedure) × (self.now ≡ compile_stubs i self.now.limit)
            × (stub.now ≡ procedure_stub p) × MayEnd i p outcome.now }
        ensures { IfOk result (λ bytes. bytes ≡ outcome_spelling outcome.now) }
    {
        match outcome {
            Outcome::Returned(results) => pack_values(
                alloc,
                &[0],
                stub.results.as_slice(),
                results,
            ),
            Outcome::Raised(error, values) => match self.raised_operations(stub, *error) {
                Some(operations) => pack_values(alloc, &[1, *error], operations, values),
                None => unreachable!(),
            },
        }
    }
}

// Words, and behind them values, whose operations are these.
fn pack_values(
    alloc: Global,
    numbers: &[u16],
    operations: &[Operation],
    values: &Values,
) -> Result<Message, NoMemory>
    requires { (fields : FieldTrees) × (operations.now ≡ flat_fields fields 0)
        × (fields_admit fields values.now ≡ true) }
    ensures { IfOk result (λ bytes. bytes ≡ words numbers.now ++ spelling_of_all values.now) }
{
    let mut bytes = ListOf::new(alloc);
    for number in numbers {
        write_word(*number, &mut bytes)?;
    }
    write_all(values, operations, &mut bytes)?;
    Ok(bytes)
}
