// What holds of every body.
ghost use Rattle.std.specs.Prelude.{ℕ, List, IfOk};
ghost use Rattle.circus_value.specs.ShapeTree.{ShapeTree, sequence};
ghost use Rattle.circus_value.specs.ValueTree.{ValueTree};
ghost use Rattle.circus_checked.specs.declared.expression.CheckedPlace.{CheckedPlace};
ghost use Rattle.circus_checked.specs.StatementTree.{StatementTrees};
ghost use Rattle.circus_evaluate.specs.Got.{Got};
ghost use Rattle.circus_machine.specs.Storing.{stored_over, appended_over, store_at};
ghost use Rattle.circus_checked.specs.Sorts.{sort_of, kind_of, Holds};
ghost use Rattle.circus_machine.specs.Meaning.{Going, does_all};
ghost use Rattle.circus_evaluate.specs.Typed.{IsGot};
ghost use Rattle.circus_machine.specs.Typed.{AreWell};
ghost use Rattle.circus_machine.specs.Seen.Code.{codes_of, Comes};

/// The code of a body does what the body means (docs/LANGUAGE.md, "Statements").
pub fn code_does_what_it_means()
    ensures { (limit states : ℕ) (body : StatementTrees) (c : Going)
        → Comes limit states (codes_of body) (does_all limit states body c) 0 c }
{}

/// What is stored in a place keeps the variables' shapes, and the state within the limit, or an error of the language is
/// raised (docs/LANGUAGE.md, "Statements").
pub fn stored_values_keep_shapes()
    ensures assigned { (limit states : ℕ) (shapes : List ShapeTree) (variables : List ValueTree)
        (place : CheckedPlace) (s : ShapeTree) (x : Got)
        → AreWell limit states shapes variables → Holds shapes place s → IsGot (sort_of s) x
        → IfOk (store_at limit states variables place (stored_over x))
        (AreWell limit states shapes) }
    ensures appended { (limit states : ℕ) (shapes : List ShapeTree) (variables : List ValueTree)
        (place : CheckedPlace) (bound : ℕ) (s : ShapeTree) (x : Got)
        → AreWell limit states shapes variables → Holds shapes place (sequence bound s)
        → IsGot (sort_of s) x
        → IfOk (store_at limit states variables place (appended_over bound (kind_of s) x))
        (AreWell limit states shapes) }
{}
