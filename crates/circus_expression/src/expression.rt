// Expressions and places, and the lists that they are made of.
ghost use Rattle.std.specs.Prelude.{◌≡◌, List, [], ◌∷◌, ◌++◌, length, map, option_map, option_copied, slice_get, OnOk, OnErr, IfOk, IsTrue, ◌↔◌};
ghost use Rattle.circus_expression.specs.ExpressionOf.{tree_of, suffix_of};

use crate::Operator;
use circus_syntax::{Named, TypeName};
use circus_value::{NoMemory, Octets};
use std::alloc::Global;
use std::marker::Model;

/// An expression with its place (docs/LANGUAGE.md, "Expressions"). One in parentheses begins at the
/// outermost of them.
#[cycle(expression)]
#[derive(Debug, Drop)]
pub struct Expression {
    /// The place of its first byte, counted from 0.
    pub at: u32,
    pub kind: ExpressionKind,
}

/// What an expression is.
#[cycle(expression)]
#[derive(Debug, Drop)]
pub enum ExpressionKind {
    /// Two operands and what joins them. Of `a + b + c` the left operand is `a + b`.
    Binary(Operator, Operand, Operand),
    Not(Operand),
    Minus(Operand),
    /// Whether a choice stands at this arm.
    Is(Operand, Named),
    Number(u64),
    /// The bytes between the quotes.
    Text(Octets),
    Truth(bool),
    Length(Operand),
    /// A label of an enumeration, or an arm of a choice with its value.
    Arm(TypeName, Named, Option<Operand>),
    /// An array, a sequence or a record by its items.
    Items(TypeName, Expressions),
    Read(PlaceText),
}

/// A variable, or a part of one.
#[cycle(expression)]
#[derive(Debug, Drop)]
pub struct PlaceText {
    pub name: Named,
    pub suffixes: Suffixes,
}

/// What leads from a value to a part of it.
#[cycle(expression)]
#[derive(Debug, Drop)]
pub enum Suffix {
    /// A field of a record or an arm of a choice.
    Field(Named),
    /// An item of an array or a sequence.
    Subscript(Expression),
}

/// Expressions in order. Clauses see the plain list of their trees.
#[cycle(expression)]
#[derive(Debug)]
pub struct Expressions {
    items: Vec<Expression>,
}

// Written out, so that dropping one is one step of a proof (docs/PROOFS.md, "Cost").
impl Drop for Expressions {
    #[cycle(expression_drop)]
    fn drop(self) {
        let Expressions { items: _ } = self;
    }
}

/// Suffixes in order. Clauses see the plain list of their trees.
#[cycle(expression)]
#[derive(Debug)]
pub struct Suffixes {
    items: Vec<Suffix>,
}

// Written out, so that dropping one is one step of a proof (docs/PROOFS.md, "Cost").
impl Drop for Suffixes {
    #[cycle(expression_drop)]
    fn drop(self) {
        let Suffixes { items: _ } = self;
    }
}

/// An expression in another one. Clauses see its tree.
#[cycle(expression)]
#[derive(Debug)]
pub struct Operand {
    expression: Box<Expression>,
}

// Written out, so that dropping one is one step of a proof (docs/PROOFS.md, "Cost").
impl Drop for Operand {
    #[cycle(expression_drop)]
    fn drop(self) {
        let Operand { expression: _ } = self;
    }
}

impl Model for Expressions {
    ghost use Rattle.std.specs.Prelude.{List, map};
    ghost use Rattle.std.specs.Coded.{coded_list};
    ghost use Rattle.std.proofs.Common.{arith};
    ghost use Rattle.circus_expression.specs.ExpressionTree.{ExpressionTree, expression_trees};
    ghost use Rattle.circus_expression.specs.Seen.ExpressionCode.{coded_expression};
    ghost use Rattle.circus_expression.specs.Seen.ExpressionWeight.{list_weight};

    ghost Value = { List ExpressionTree };

    ghost coded = { coded_list coded_expression };

    ghost use Rattle.circus_expression.specs.ExpressionOf.{tree_of};

    ghost view = { λ a. map tree_of a.items.items };

    ghost size = { λ es. list_weight (expression_trees es) };

    ghost use Rattle.circus_expression.specs.Seen.ExpressionFalls.{most_deep_le-list_weight};

    ghost size_decreases = { λ a h. Prim.omega (arith, most_deep_le-list_weight a.items.items) };
}

impl Model for Suffixes {
    ghost use Rattle.std.specs.Prelude.{List, map};
    ghost use Rattle.std.specs.Coded.{coded_list};
    ghost use Rattle.std.proofs.Common.{arith};
    ghost use Rattle.circus_expression.specs.ExpressionTree.{SuffixTree, suffix_trees};
    ghost use Rattle.circus_expression.specs.Seen.ExpressionCode.{coded_suffix};
    ghost use Rattle.circus_expression.specs.Seen.ExpressionWeight.{suffix_weights};

    ghost Value = { List SuffixTree };

    ghost coded = { coded_list coded_suffix };

    ghost use Rattle.circus_expression.specs.ExpressionOf.{suffix_of};

    ghost view = { λ a. map suffix_of a.items.items };

    ghost size = { λ ss. suffix_weights (suffix_trees ss) };

    ghost use Rattle.circus_expression.specs.Seen.ExpressionFalls.{most_deep_le-suffix_weights};

    ghost size_decreases = { λ a h. Prim.omega (arith, most_deep_le-suffix_weights a.items.items) };
}

impl Model for Operand {
    ghost use Rattle.std.proofs.Common.{arith};
    ghost use Rattle.circus_expression.specs.ExpressionTree.{ExpressionTree};
    ghost use Rattle.circus_expression.specs.Seen.ExpressionCode.{coded_expression};
    ghost use Rattle.circus_expression.specs.Seen.ExpressionWeight.{weight};

    ghost Value = { ExpressionTree };

    ghost coded = { coded_expression };

    ghost use Rattle.circus_expression.specs.ExpressionOf.{tree_of};

    ghost view = { λ a. tree_of a.expression.value };

    ghost size = { weight };

    ghost use Rattle.circus_expression.specs.Seen.ExpressionFalls.{deep_le-weight};

    ghost size_decreases = { λ a h. Prim.omega (arith, deep_le-weight a.expression.value) };
}

impl Expressions {
    /// No expressions. It takes no memory, and grows with this allocator.
    pub fn new(alloc: Global) -> Self
        ensures { result ≡ [] }
    {
        Expressions {
            items: Vec::new(alloc),
        }
    }

    /// How many there are.
    pub fn len(&self) -> usize
        ensures { result ≡ length self.now }
    {
        self.items.len()
    }

    /// Whether there are none.
    pub fn is_empty(&self) -> bool
        ensures { IsTrue result ↔ (self.now ≡ []) }
    {
        self.items.is_empty()
    }

    /// The expression at a place, counted from 0. `None` exactly where the place is not below the length.
    pub fn get(&self, place: usize) -> Option<&Expression>
        ensures { option_map tree_of (option_copied result) ≡ slice_get self.now place }
    {
        self.items.get(place)
    }

    /// All of them, in order.
    pub fn as_slice(&self) -> &[Expression]
        ensures { map tree_of result.now ≡ self.now }
    {
        self.items.as_slice()
    }

    /// Adds an expression at the end. After `NoMemory` the list is unchanged.
    pub fn push(&mut self, item: Expression) -> Result<(), NoMemory>
        ensures ok { OnOk result (self.new ≡ self.old ++ tree_of item ∷ []) }
        ensures err { OnErr result (self.new ≡ self.old) }
    {
        self.items.push(item)?;
        Ok(())
    }
}

impl Suffixes {
    /// No suffixes. It takes no memory, and grows with this allocator.
    pub fn new(alloc: Global) -> Self
        ensures { result ≡ [] }
    {
        Suffixes {
            items: Vec::new(alloc),
        }
    }

    /// How many there are.
    pub fn len(&self) -> usize
        ensures { result ≡ length self.now }
    {
        self.items.len()
    }

    /// Whether there are none.
    pub fn is_empty(&self) -> bool
        ensures { IsTrue result ↔ (self.now ≡ []) }
    {
        self.items.is_empty()
    }

    /// The suffix at a place, counted from 0. `None` exactly where the place is not below the length.
    pub fn get(&self, place: usize) -> Option<&Suffix>
        ensures { option_map suffix_of (option_copied result) ≡ slice_get self.now place }
    {
        self.items.get(place)
    }

    /// All of them, in order.
    pub fn as_slice(&self) -> &[Suffix]
        ensures { map suffix_of result.now ≡ self.now }
    {
        self.items.as_slice()
    }

    /// Adds a suffix at the end. After `NoMemory` the list is unchanged.
    pub fn push(&mut self, item: Suffix) -> Result<(), NoMemory>
        ensures ok { OnOk result (self.new ≡ self.old ++ suffix_of item ∷ []) }
        ensures err { OnErr result (self.new ≡ self.old) }
    {
        self.items.push(item)?;
        Ok(())
    }
}

impl Operand {
    /// The expression in memory of its own, or `NoMemory`.
    pub fn new(alloc: Global, expression: Expression) -> Result<Self, NoMemory>
        ensures { IfOk result (λ operand. operand ≡ tree_of expression) }
    {
        Ok(Operand {
            expression: Box::new(alloc, expression)?,
        })
    }

    /// The expression.
    pub fn expression(&self) -> &Expression
        ensures { tree_of result.now ≡ self.now }
    {
        &self.expression
    }
}
