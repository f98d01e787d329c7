// What holds of statements that are resolved.
ghost use Rattle.std.specs.Prelude.{◌≡◌, List, []};
ghost use Rattle.circus_value.specs.ShapeTree.{ShapeTree};
ghost use Rattle.circus_statement.specs.StatementTree.{StatementTrees};
ghost use Rattle.circus_checked.specs.StatementTree.{statement_trees};
ghost use Rattle.circus_checked.specs.WellTyped.{AreTyped};
ghost use Rattle.circus_body.specs.Context.{Context};
ghost use Rattle.circus_body.specs.Faults.{all_faults};
ghost use Rattle.circus_body.specs.Meaning.{all_do};
ghost use Rattle.circus_body.specs.Regular.{IsWholeContext, StatementsAreOfBytes, shapes_of, IsReported, ContextTakes, ContextReports};

/// Statements without a fault mean such as are well formed, by the shapes of the variables and by what the procedures
/// take, give and report that may be named.
pub fn faultless_are_well_formed()
    ensures { (variables : List ShapeTree) (context : Context) → IsWholeContext variables context
        → (ss : StatementTrees) → StatementsAreOfBytes ss
        → all_faults context ss ≡ []
        → AreTyped variables (ContextTakes context) (ContextReports context)
        (shapes_of context.own.results) (IsReported context.own)
        (statement_trees (all_do context ss)) }
{}
