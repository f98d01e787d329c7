// What holds of every shape and every bytes.
ghost use Rattle.std.specs.Prelude.{◌≡◌, ◌+◌, ◌++◌, ℕ, List, true, length};
ghost use Rattle.circus_value.specs.ValueTree.{ValueTree};
ghost use Rattle.circus_value.specs.ShapeTree.{ShapeTree, FieldTrees};
ghost use Rattle.circus_value.specs.Fits as fit;
ghost use Rattle.circus_value.specs.ExternalSize.{external_size, size_of_values};
ghost use Rattle.circus_external.specs.Spelling.{pieces, pieces_of_all, spelling, spelling_of_all, fields_admit};
ghost use Rattle.circus_external.specs.Answer.{Answer, found};
ghost use Rattle.circus_value.specs.Parts.{AreOctets};
ghost use Rattle.circus_external.specs.Refusal.{IsAnswer, is_proper, are_proper};
ghost use Rattle.circus_external.specs.Reading as pure;

/// Of two values that a shape admits, with anything behind their bytes, the bytes are equal only where the
/// values are: a value has bytes of its own, and no spelling of a shape begins another.
pub fn no_spelling_begins_another()
    ensures value { (shape : ShapeTree) → is_proper shape ≡ true → (v w : ValueTree) (x y : List ℕ)
        → fit.fits shape v ≡ true
        → fit.fits shape w ≡ true → spelling v ++ x ≡ spelling w ++ y → (v ≡ w) × (x ≡ y) }
    ensures fields { (fields : FieldTrees) → are_proper fields ≡ true
        → (vs ws : List ValueTree) (x y : List ℕ) → fields_admit fields vs ≡ true
        → fields_admit fields ws ≡ true → spelling_of_all vs ++ x ≡ spelling_of_all ws ++ y
        → (vs ≡ ws) × (x ≡ y) }
{}

/// Bytes have one answer: a value, or one fault at one place.
pub fn one_answer()
    ensures value { (shape : ShapeTree) (at : ℕ) (bytes : List ℕ) (a b : Answer ValueTree)
        → is_proper shape ≡ true
        → IsAnswer (fit.fits shape) pieces at bytes a → IsAnswer (fit.fits shape) pieces at bytes b
        → a ≡ b }
    ensures fields { (fields : FieldTrees) (at : ℕ) (bytes : List ℕ) (a b : Answer (List ValueTree))
        → are_proper fields ≡ true
        → IsAnswer (fields_admit fields) pieces_of_all at bytes a
        → IsAnswer (fields_admit fields) pieces_of_all at bytes b → a ≡ b }
{}

/// Reading comes to the answer that the bytes have.
pub fn reading_answers()
    ensures value { (shape : ShapeTree) (at : ℕ) (bytes : List ℕ) → AreOctets bytes
        → is_proper shape ≡ true
        → IsAnswer (fit.fits shape) pieces at bytes (pure.reading shape at bytes) }
    ensures fields { (fields : FieldTrees) (at : ℕ) (bytes : List ℕ) → AreOctets bytes
        → are_proper fields ≡ true
        → IsAnswer (fields_admit fields) pieces_of_all at bytes
        (pure.fields_reading fields at bytes) }
{}

/// What reading finds is admitted, and the bytes begin with its spelling, whatever the shape.
pub fn read_is_spelled()
    ensures value { (shape : ShapeTree) (at : ℕ) (bytes : List ℕ) (v : ValueTree) (next : ℕ)
        (rest : List ℕ) → AreOctets bytes
        → pure.reading shape at bytes ≡ found v next rest
        → (fit.fits shape v ≡ true) × (bytes ≡ spelling v ++ rest)
        × (next ≡ at + length (spelling v)) }
    ensures fields { (fields : FieldTrees) (at : ℕ) (bytes : List ℕ) (vs : List ValueTree)
        (next : ℕ) (rest : List ℕ) → AreOctets bytes
        → pure.fields_reading fields at bytes ≡ found vs next rest
        → (fields_admit fields vs ≡ true) × (bytes ≡ spelling_of_all vs ++ rest)
        × (next ≡ at + length (spelling_of_all vs)) }
{}

/// What is spelled is read again.
pub fn spelled_is_read()
    ensures value { (shape : ShapeTree) → is_proper shape ≡ true
        → (v : ValueTree) (at : ℕ) (rest : List ℕ) → fit.fits shape v ≡ true
        → AreOctets (spelling v ++ rest)
        → pure.reading shape at (spelling v ++ rest) ≡ found v (at + length (spelling v)) rest }
    ensures fields { (fields : FieldTrees) → are_proper fields ≡ true
        → (vs : List ValueTree) (at : ℕ) (rest : List ℕ) → fields_admit fields vs ≡ true
        → AreOctets (spelling_of_all vs ++ rest)
        → pure.fields_reading fields at (spelling_of_all vs ++ rest)
        ≡ found vs (at + length (spelling_of_all vs)) rest }
{}

/// The spelling of what is admitted is made of the values of bytes.
pub fn spellings_are_octets()
    ensures value { (shape : ShapeTree) (v : ValueTree) → fit.fits shape v ≡ true
        → AreOctets (spelling v) }
    ensures fields { (fields : FieldTrees) (vs : List ValueTree) → fields_admit fields vs ≡ true
        → AreOctets (spelling_of_all vs) }
{}

/// `external_size` counts the bytes of a spelling.
pub fn spellings_are_counted()
    ensures value { (v : ValueTree) → length (spelling v) ≡ external_size v }
    ensures values { (vs : List ValueTree) → length (spelling_of_all vs) ≡ size_of_values vs }
{}
