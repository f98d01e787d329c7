// Statements, and the lists that they are made of.
ghost use Rattle.std.specs.Prelude.{◌≡◌, List, [], ◌∷◌, ◌++◌, length, map, option_map, option_copied, slice_get, OnOk, OnErr, IsTrue, ◌↔◌};
ghost use Rattle.circus_statement.specs.StatementOf.{tree_of, handler_of};

use crate::PlaceTexts;
use circus_expression::{Expression, Expressions, PlaceText};
use circus_syntax::Named;
use circus_value::NoMemory;
use std::alloc::Global;
use std::marker::Model;

/// A statement with the place of its first byte, counted from 0 (docs/LANGUAGE.md, "Statements").
#[cycle(statement)]
#[derive(Debug, Drop)]
pub struct Statement {
    pub at: u32,
    pub kind: StatementKind,
}

/// What a statement is.
#[cycle(statement)]
#[derive(Debug, Drop)]
pub enum StatementKind {
    /// The place takes the value of the expression.
    Assign(PlaceText, Expression),
    /// A condition, the statements of THEN, and those of ELSE.
    If(Expression, Statements, Option<Statements>),
    While(Expression, Statements),
    /// The value is added at the end of the place.
    Append(Expression, PlaceText),
    Call(CallText),
    Return(Expressions),
    /// An error with its values.
    Raise(Named, Expressions),
}

/// A call of a procedure of another module.
#[cycle(statement)]
#[derive(Debug, Drop)]
pub struct CallText {
    pub module: Named,
    pub procedure: Named,
    pub arguments: Expressions,
    pub into: Option<IntoText>,
    pub handlers: Handlers,
}

/// Where the results of a call go.
#[derive(Debug, Drop)]
pub struct IntoText {
    /// The place of the word INTO.
    pub at: u32,
    pub places: PlaceTexts,
}

/// What is done where a call raises an error.
#[cycle(statement)]
#[derive(Debug, Drop)]
pub struct Handler {
    /// The place of the error's name, or of the word OTHER.
    pub at: u32,
    /// The error, or `None` for every other one.
    pub error: Option<Named>,
    /// Where the error's values go.
    pub places: Option<PlaceTexts>,
    pub statements: Statements,
}

/// Statements in order. Clauses see the plain list of their trees.
#[cycle(statement)]
#[derive(Debug)]
pub struct Statements {
    items: Vec<Statement>,
}

// Written out, so that dropping one is one step of a proof (docs/PROOFS.md, "Cost").
impl Drop for Statements {
    #[cycle(statement_drop)]
    fn drop(self) {
        let Statements { items: _ } = self;
    }
}

/// Handlers in order. Clauses see the plain list of their trees.
#[cycle(statement)]
#[derive(Debug)]
pub struct Handlers {
    items: Vec<Handler>,
}

// Written out, so that dropping one is one step of a proof (docs/PROOFS.md, "Cost").
impl Drop for Handlers {
    #[cycle(statement_drop)]
    fn drop(self) {
        let Handlers { items: _ } = self;
    }
}

impl Model for Statements {
    ghost use Rattle.std.specs.Prelude.{List, map};
    ghost use Rattle.std.specs.Coded.{coded_list};
    ghost use Rattle.std.proofs.Common.{arith};
    ghost use Rattle.circus_statement.specs.StatementTree.{StatementTree, statement_trees};
    ghost use Rattle.circus_statement.specs.Seen.StatementCode.{coded_statement};
    ghost use Rattle.circus_statement.specs.Seen.StatementWeight.{list_weight};

    ghost Value = { List StatementTree };

    ghost coded = { coded_list coded_statement };

    ghost use Rattle.circus_statement.specs.StatementOf.{tree_of};

    ghost view = { λ a. map tree_of a.items.items };

    ghost size = { λ ss. list_weight (statement_trees ss) };

    ghost use Rattle.circus_statement.specs.Seen.StatementFalls.{most_deep_le-list_weight};

    ghost size_decreases = { λ a h. Prim.omega (arith, most_deep_le-list_weight a.items.items) };
}

impl Model for Handlers {
    ghost use Rattle.std.specs.Prelude.{List, map};
    ghost use Rattle.std.specs.Coded.{coded_list};
    ghost use Rattle.std.proofs.Common.{arith};
    ghost use Rattle.circus_statement.specs.StatementTree.{HandlerTree, handler_trees};
    ghost use Rattle.circus_statement.specs.Seen.StatementCode.{coded_handler};
    ghost use Rattle.circus_statement.specs.Seen.StatementWeight.{handlers_weight};

    ghost Value = { List HandlerTree };

    ghost coded = { coded_list coded_handler };

    ghost use Rattle.circus_statement.specs.StatementOf.{handler_of};

    ghost view = { λ a. map handler_of a.items.items };

    ghost size = { λ hs. handlers_weight (handler_trees hs) };

    ghost use Rattle.circus_statement.specs.Seen.StatementFalls.{most_deep_le-handlers_weight};

    ghost size_decreases = { λ a h. Prim.omega (arith, most_deep_le-handlers_weight a.items.items) };
}

impl Statements {
    /// No statements. It takes no memory, and grows with this allocator.
    pub fn new(alloc: Global) -> Self
        ensures { result ≡ [] }
    {
        Statements {
            items: Vec::new(alloc),
        }
    }

    /// How many there are.
    pub fn len(&self) -> usize
        ensures { result ≡ length self.now }
    {
        self.items.len()
    }

    /// Whether there are none.
    pub fn is_empty(&self) -> bool
        ensures { IsTrue result ↔ (self.now ≡ []) }
    {
        self.items.is_empty()
    }

    /// The statement at a place, counted from 0. `None` exactly where the place is not below the length.
    pub fn get(&self, place: usize) -> Option<&Statement>
        ensures { option_map tree_of (option_copied result) ≡ slice_get self.now place }
    {
        self.items.get(place)
    }

    /// All of them, in order.
    pub fn as_slice(&self) -> &[Statement]
        ensures { map tree_of result.now ≡ self.now }
    {
        self.items.as_slice()
    }

    /// Adds a statement at the end. After `NoMemory` the list is unchanged.
    pub fn push(&mut self, item: Statement) -> Result<(), NoMemory>
        ensures ok { OnOk result (self.new ≡ self.old ++ tree_of item ∷ []) }
        ensures err { OnErr result (self.new ≡ self.old) }
    {
        self.items.push(item)?;
        Ok(())
    }
}

impl Handlers {
    /// No handlers. It takes no memory, and grows with this allocator.
    pub fn new(alloc: Global) -> Self
        ensures { result ≡ [] }
    {
        Handlers {
            items: Vec::new(alloc),
        }
    }

    /// How many there are.
    pub fn len(&self) -> usize
        ensures { result ≡ length self.now }
    {
        self.items.len()
    }

    /// Whether there are none.
    pub fn is_empty(&self) -> bool
        ensures { IsTrue result ↔ (self.now ≡ []) }
    {
        self.items.is_empty()
    }

    /// The handler at a place, counted from 0. `None` exactly where the place is not below the length.
    pub fn get(&self, place: usize) -> Option<&Handler>
        ensures { option_map handler_of (option_copied result) ≡ slice_get self.now place }
    {
        self.items.get(place)
    }

    /// All of them, in order.
    pub fn as_slice(&self) -> &[Handler]
        ensures { map handler_of result.now ≡ self.now }
    {
        self.items.as_slice()
    }

    /// Adds a handler at the end. After `NoMemory` the list is unchanged.
    pub fn push(&mut self, item: Handler) -> Result<(), NoMemory>
        ensures ok { OnOk result (self.new ≡ self.old ++ handler_of item ∷ []) }
        ensures err { OnErr result (self.new ≡ self.old) }
    {
        self.items.push(item)?;
        Ok(())
    }
}
