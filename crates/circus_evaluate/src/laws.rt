// What holds of every expression.
ghost use Rattle.std.specs.Prelude.{ℕ, List, IfOk};
ghost use Rattle.circus_value.specs.ShapeTree.{ShapeTree};
ghost use Rattle.circus_value.specs.ValueTree.{ValueTree};
ghost use Rattle.circus_checked.specs.ExpressionTree.{ExpressionTree};
ghost use Rattle.circus_checked.specs.Sorts.{Sort, Has};
ghost use Rattle.circus_evaluate.specs.Evaluating.{evaluate};
ghost use Rattle.circus_evaluate.specs.Typed.{IsGot, Hold};

/// An expression of a sort gives what the sort says, in variables that hold values of their shapes, or raises an error of
/// the language (docs/LANGUAGE.md, "Expressions").
pub fn expressions_give_their_sorts()
    ensures { (limit : ℕ) (shapes : List ShapeTree) (variables : List ValueTree)
        (e : ExpressionTree) (s : Sort)
        → Hold shapes variables → Has shapes e s → IfOk (evaluate limit variables e) (IsGot s) }
{}
