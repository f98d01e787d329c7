// Checked statements, and the lists that they are made of.
ghost use Rattle.std.specs.Prelude.{◌≡◌, List, [], ◌∷◌, ◌++◌, length, map, option_map, option_copied, slice_get, OnOk, OnErr, IsTrue, ◌↔◌};
ghost use Rattle.circus_checked.specs.StatementOf.{tree_of, handler_of};

use crate::{CheckedExpression, CheckedExpressions, CheckedPlace, NumberKind};
use circus_value::{ListOf, NoMemory};
use std::alloc::Global;
use std::marker::Model;

/// Places in order.
pub type CheckedPlaces = ListOf<CheckedPlace>;

/// A statement whose names are found (docs/LANGUAGE.md, "Statements").
#[cycle(checked_statement)]
#[derive(Debug, Drop)]
pub enum CheckedStatement {
    Assign(CheckedPlace, CheckedExpression),
    /// The statements where the condition holds, and those where it doesn't.
    If(CheckedExpression, CheckedStatements, CheckedStatements),
    While(CheckedExpression, CheckedStatements),
    /// An item, the sequence that it is added to, the most items of it, and the kind of its items where these are
    /// numbers.
    Append(CheckedExpression, CheckedPlace, u16, Option<NumberKind>),
    Call(CheckedCall),
    Return(CheckedExpressions),
    /// The error with this number, with its values.
    Raise(u16, CheckedExpressions),
}

/// A call to another module.
#[cycle(checked_statement)]
#[derive(Debug, Drop)]
pub struct CheckedCall {
    /// The number of the module.
    pub callee: u16,
    /// The number of the procedure.
    pub procedure: u16,
    pub arguments: CheckedExpressions,
    /// Where the results go, or no places where they are dropped.
    pub into: CheckedPlaces,
    pub handlers: CheckedHandlers,
}

/// What is done where the called procedure raised an error.
#[cycle(checked_statement)]
#[derive(Debug, Drop)]
pub struct CheckedHandler {
    /// The number of the error, or `None` for every other error.
    pub error: Option<u16>,
    /// Where the error's values go, or no places where they are dropped.
    pub places: CheckedPlaces,
    pub statements: CheckedStatements,
}

/// Statements in order. Clauses see the plain list of their trees.
#[cycle(checked_statement)]
#[derive(Debug)]
pub struct CheckedStatements {
    items: Vec<CheckedStatement>,
}

// Written out, so that dropping one is one step of a proof (docs/PROOFS.md, "Cost").
impl Drop for CheckedStatements {
    #[cycle(statement_drop)]
    fn drop(self) {
        let CheckedStatements { items: _ } = self;
    }
}

/// Handlers in order. Clauses see the plain list of their trees.
#[cycle(checked_statement)]
#[derive(Debug)]
pub struct CheckedHandlers {
    items: Vec<CheckedHandler>,
}

// Written out, so that dropping one is one step of a proof (docs/PROOFS.md, "Cost").
impl Drop for CheckedHandlers {
    #[cycle(statement_drop)]
    fn drop(self) {
        let CheckedHandlers { items: _ } = self;
    }
}

impl Model for CheckedStatements {
    ghost use Rattle.std.specs.Prelude.{List, map};
    ghost use Rattle.std.specs.Coded.{coded_list};
    ghost use Rattle.std.proofs.Common.{arith};
    ghost use Rattle.circus_checked.specs.StatementTree.{StatementTree, statement_trees};
    ghost use Rattle.circus_checked.specs.Seen.StatementCode.{coded_statement};
    ghost use Rattle.circus_checked.specs.Seen.StatementWeight.{list_weight};

    ghost Value = { List StatementTree };

    ghost coded = { coded_list coded_statement };

    ghost use Rattle.circus_checked.specs.StatementOf.{tree_of};

    ghost view = { λ a. map tree_of a.items.items };

    ghost size = { λ ss. list_weight (statement_trees ss) };

    ghost use Rattle.circus_checked.specs.Seen.StatementFalls.{most_deep_le-list_weight};

    ghost size_decreases = { λ a h. Prim.omega (arith, most_deep_le-list_weight a.items.items) };
}

impl Model for CheckedHandlers {
    ghost use Rattle.std.specs.Prelude.{List, map};
    ghost use Rattle.std.specs.Coded.{coded_list};
    ghost use Rattle.std.proofs.Common.{arith};
    ghost use Rattle.circus_checked.specs.StatementTree.{HandlerTree, handler_trees};
    ghost use Rattle.circus_checked.specs.Seen.StatementCode.{coded_handler};
    ghost use Rattle.circus_checked.specs.Seen.StatementWeight.{handler_weights};

    ghost Value = { List HandlerTree };

    ghost coded = { coded_list coded_handler };

    ghost use Rattle.circus_checked.specs.StatementOf.{handler_of};

    ghost view = { λ a. map handler_of a.items.items };

    ghost size = { λ hs. handler_weights (handler_trees hs) };

    ghost use Rattle.circus_checked.specs.Seen.StatementFalls.{most_deep_le-handler_weights};

    ghost size_decreases = { λ a h. Prim.omega (arith, most_deep_le-handler_weights a.items.items) };
}

impl CheckedStatements {
    /// No statements. It takes no memory, and grows with this allocator.
    pub fn new(alloc: Global) -> Self
        ensures { result ≡ [] }
    {
        CheckedStatements {
            items: Vec::new(alloc),
        }
    }

    /// How many there are.
    pub fn len(&self) -> usize
        ensures { result ≡ length self.now }
    {
        self.items.len()
    }

    /// Whether there are none.
    pub fn is_empty(&self) -> bool
        ensures { IsTrue result ↔ (self.now ≡ []) }
    {
        self.items.is_empty()
    }

    /// All of them, in order.
    pub fn as_slice(&self) -> &[CheckedStatement]
        ensures { map tree_of result.now ≡ self.now }
    {
        self.items.as_slice()
    }

    /// Adds a statement at the end. After `NoMemory` the list is unchanged.
    pub fn push(&mut self, item: CheckedStatement) -> Result<(), NoMemory>
        ensures ok { OnOk result (self.new ≡ self.old ++ tree_of item ∷ []) }
        ensures err { OnErr result (self.new ≡ self.old) }
    {
        self.items.push(item)?;
        Ok(())
    }
}

impl CheckedHandlers {
    /// No handlers. It takes no memory, and grows with this allocator.
    pub fn new(alloc: Global) -> Self
        ensures { result ≡ [] }
    {
        CheckedHandlers {
            items: Vec::new(alloc),
        }
    }

    /// How many there are.
    pub fn len(&self) -> usize
        ensures { result ≡ length self.now }
    {
        self.items.len()
    }

    /// Whether there are none.
    pub fn is_empty(&self) -> bool
        ensures { IsTrue result ↔ (self.now ≡ []) }
    {
        self.items.is_empty()
    }

    /// All of them, in order.
    pub fn as_slice(&self) -> &[CheckedHandler]
        ensures { map handler_of result.now ≡ self.now }
    {
        self.items.as_slice()
    }

    /// Adds a handler at the end. After `NoMemory` the list is unchanged.
    pub fn push(&mut self, item: CheckedHandler) -> Result<(), NoMemory>
        ensures ok { OnOk result (self.new ≡ self.old ++ handler_of item ∷ []) }
        ensures err { OnErr result (self.new ≡ self.old) }
    {
        self.items.push(item)?;
        Ok(())
    }
}
