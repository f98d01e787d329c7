// What holds of every shape, and of what is resolved.
ghost use Rattle.std.specs.Prelude.{◌≡◌, List, [], Some};
ghost use Rattle.std.specs.Bool.{Decides};
ghost use Rattle.circus_value.specs.ShapeTree.{ShapeTree};
ghost use Rattle.circus_expression.specs.ExpressionTree.{ExpressionTree};
ghost use Rattle.circus_checked.specs.Sorts.{Sort, Has};
ghost use Rattle.circus_resolve.specs.Same.{shape_eq};
ghost use Rattle.circus_resolve.specs.Scope.{Scope};
ghost use Rattle.circus_resolve.specs.Faults.{expression_faults, sort};
ghost use Rattle.circus_resolve.specs.Meaning.{meant};
ghost use Rattle.circus_resolve.specs.Regular.{IsWhole, IsOfBytes};

/// Shapes are the same exactly where they are equal.
pub fn same_is_equal()
    ensures { (s t : ShapeTree) → Decides (shape_eq s t) (s ≡ t) }
{}

/// An expression without a fault means one that is well formed, by the shapes of the variables, and gives what is said
/// of it.
pub fn faultless_is_well_formed()
    ensures { (variables : List ShapeTree) (scope : Scope) → IsWhole variables scope
        → (e : ExpressionTree) → IsOfBytes e
        → expression_faults scope e ≡ []
        → (s : Sort) × (sort scope e ≡ Some s) × Has variables (meant scope e) s }
{}
