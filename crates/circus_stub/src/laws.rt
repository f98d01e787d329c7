// What holds of all stubs.
ghost use Rattle.std.specs.Prelude.{◌≡◌, ◌<◌, ◌≤◌, ℕ, List, Ok, Some, length, true};
ghost use Rattle.circus_value.specs.ValueTree.{ValueTree};
ghost use Rattle.circus_value.specs.declared.outcome.Outcome.{Outcome};
ghost use Rattle.circus_value.specs.declared.outcome.Outcome.TheVariants.{Returned, Raised};
ghost use Rattle.circus_value.specs.ShapeTree.{FieldTrees, field_trees};
ghost use Rattle.circus_idl.specs.declared.interface.Interface.{Interface};
ghost use Rattle.circus_idl.specs.declared.interface.Procedure.{Procedure};
ghost use Rattle.circus_idl.specs.Obeys.{Obeys};
ghost use Rattle.circus_value.specs.Parts.{AreOctets};
ghost use Rattle.circus_external.specs.Refusal.{are_proper};
ghost use Rattle.circus_external.specs.Spelling.{spelling_of_all, fields_admit};
ghost use Rattle.circus_stub.specs.Unpacked.{arguments_unpacked, outcome_unpacked, procedure_of, raised_fields};
ghost use Rattle.circus_stub.specs.Packed.{AreArguments, IsOutcome, outcome_spelling, outcome_values};

/// What is unpacked are arguments of the procedure, or an outcome of it, the bytes are theirs, and those of the
/// values are no more than the limit.
pub fn unpacked_is_packed()
    ensures arguments { (i : Interface) (limit n : ℕ) (bytes : List ℕ) (values : List ValueTree)
        → AreOctets bytes
        → arguments_unpacked i limit n bytes ≡ Ok values
        → AreArguments i n values × (bytes ≡ spelling_of_all values) × (length bytes ≤ limit) }
    ensures outcome { (i : Interface) (limit n : ℕ) (bytes : List ℕ) (outcome : Outcome)
        → AreOctets bytes
        → outcome_unpacked i limit n bytes ≡ Ok outcome
        → IsOutcome i n outcome × (bytes ≡ outcome_spelling outcome)
        × (length (spelling_of_all (outcome_values outcome)) ≤ limit) }
{}

/// Arguments whose bytes are no more than the limit are unpacked from their bytes, and an outcome from its
/// bytes where those of its values are no more than the limit.
pub fn packed_is_unpacked()
    ensures arguments { (i : Interface) (limit n : ℕ) (values : List ValueTree)
        → (fits : AreArguments i n values)
        → are_proper (field_trees fits.procedure.arguments) ≡ true
        → length (spelling_of_all values) ≤ limit
        → arguments_unpacked i limit n (spelling_of_all values) ≡ Ok values }
    ensures returned { (i : Interface) (limit n : ℕ) (p : Procedure) (results : List ValueTree)
        → procedure_of i n ≡ Some p
        → fields_admit (field_trees p.results) results ≡ true
        → are_proper (field_trees p.results) ≡ true
        → length (spelling_of_all results) ≤ limit
        → outcome_unpacked i limit n (outcome_spelling (Returned results)) ≡ Ok (Returned results) }
    ensures raised { (i : Interface) (limit n : ℕ) (p : Procedure) (error : ℕ) (fields : FieldTrees)
        (values : List ValueTree) → procedure_of i n ≡ Some p
        → error < 65536 → raised_fields i p error ≡ Some fields → fields_admit fields values ≡ true
        → are_proper fields ≡ true
        → length (spelling_of_all values) ≤ limit
        → outcome_unpacked i limit n (outcome_spelling (Raised error values))
        ≡ Ok (Raised error values) }
{}

/// The fields of an interface that obeys the rules have shapes with values in all their parts.
pub fn obeying_interfaces_are_proper()
    ensures arguments { (i : Interface) (n : ℕ) (p : Procedure) → Obeys i
        → procedure_of i n ≡ Some p
        → are_proper (field_trees p.arguments) ≡ true }
    ensures results { (i : Interface) (n : ℕ) (p : Procedure) → Obeys i → procedure_of i n ≡ Some p
        → are_proper (field_trees p.results) ≡ true }
    ensures raised { (i : Interface) (p : Procedure) (n : ℕ) (fields : FieldTrees) → Obeys i
        → raised_fields i p n ≡ Some fields → are_proper fields ≡ true }
{}
