// Which lists of statements end on every path.
ghost use Rattle.std.specs.Prelude.{◌≡◌};
ghost use Rattle.circus_statement.specs.StatementOf.{tree_of};
ghost use Rattle.circus_statement.specs.StatementTree.{statement_trees};
ghost use Rattle.circus_body.specs.Ending as ending;

use circus_statement::{Statement, StatementKind, Statements};

/// Whether a list of statements ends on every path: by RETURN, RAISE, or an IF with ELSE whose two lists do.
#[cycle(ending)]
pub fn all_end(statements: &Statements) -> bool
    ensures { result ≡ ending.all_end (statement_trees statements.now) }
{
    match statements.as_slice().last() {
        Some(last) => ends(last),
        None => false,
    }
}

#[cycle(ending)]
fn ends(statement: &Statement) -> bool
    ensures { result ≡ ending.ends (tree_of statement.now) }
{
    match &statement.kind {
        StatementKind::Return(_) | StatementKind::Raise(_, _) => true,
        StatementKind::If(_, statements, Some(others)) => all_end(statements) && all_end(others),
        _ => false,
    }
}
