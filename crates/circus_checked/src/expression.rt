// Checked expressions and places, and the lists that they are made of.
ghost use Rattle.std.specs.Prelude.{◌≡◌, List, [], ◌∷◌, ◌++◌, length, map, option_map, option_copied, slice_get, OnOk, OnErr, IfOk, IsTrue, ◌↔◌};
ghost use Rattle.circus_checked.specs.ExpressionOf.{tree_of, suffix_of};

use crate::{Calculation, Form, NumberKind, Order};
use circus_value::{Duplicate, NoMemory, Text};
use std::alloc::Global;
use std::marker::Model;

/// An expression whose names are found (docs/LANGUAGE.md, "Expressions").
#[cycle(checked_expression)]
#[derive(Debug, Drop)]
pub enum CheckedExpression {
    Or(CheckedOperand, CheckedOperand),
    And(CheckedOperand, CheckedOperand),
    Not(CheckedOperand),
    /// Whether two numbers, or two values of one shape, are equal.
    Equal(CheckedOperand, CheckedOperand),
    /// Whether two numbers are in this order.
    Compare(Order, CheckedOperand, CheckedOperand),
    Calculate(Calculation, CheckedOperand, CheckedOperand),
    Minus(CheckedOperand),
    /// One text behind another.
    Join(CheckedOperand, CheckedOperand),
    /// Whether a choice stands at the arm with this number.
    Is(u16, CheckedOperand),
    Number(u64),
    Text(Text),
    Truth(bool),
    /// How many bytes a text or how many items a sequence has.
    Length(CheckedOperand),
    /// The label of an enumeration with this number.
    Label(u16),
    /// The arm with this number of a choice, with its value.
    Arm(u16, CheckedOperand),
    Items(Form, CheckedExpressions),
    /// A number as one of this kind, as items, arguments and results are stored.
    Convert(NumberKind, CheckedOperand),
    Read(CheckedPlace),
}

/// A variable, or a part of one.
#[cycle(checked_expression)]
#[derive(Debug, Drop)]
pub struct CheckedPlace {
    /// Its place among the state variables, the parameters and the locals, in this order.
    pub variable: u16,
    pub suffixes: CheckedSuffixes,
}

/// What leads from a value to a part of it.
#[cycle(checked_expression)]
#[derive(Debug, Drop)]
pub enum CheckedSuffix {
    /// The field of a record at this place.
    Field(usize),
    /// The arm of a choice with this number.
    Arm(u16),
    /// An item of an array or a sequence.
    Subscript(CheckedExpression),
}

/// Expressions in order. Clauses see the plain list of their trees.
#[cycle(checked_expression)]
#[derive(Debug)]
pub struct CheckedExpressions {
    items: Vec<CheckedExpression>,
}

// Written out, so that dropping one is one step of a proof (docs/PROOFS.md, "Cost").
impl Drop for CheckedExpressions {
    #[cycle(expression_drop)]
    fn drop(self) {
        let CheckedExpressions { items: _ } = self;
    }
}

/// Suffixes in order. Clauses see the plain list of their trees.
#[cycle(checked_expression)]
#[derive(Debug)]
pub struct CheckedSuffixes {
    items: Vec<CheckedSuffix>,
}

// Written out, so that dropping one is one step of a proof (docs/PROOFS.md, "Cost").
impl Drop for CheckedSuffixes {
    #[cycle(expression_drop)]
    fn drop(self) {
        let CheckedSuffixes { items: _ } = self;
    }
}

/// An expression in another one. Clauses see its tree.
#[cycle(checked_expression)]
#[derive(Debug)]
pub struct CheckedOperand {
    expression: Box<CheckedExpression>,
}

// Written out, so that dropping one is one step of a proof (docs/PROOFS.md, "Cost").
impl Drop for CheckedOperand {
    #[cycle(expression_drop)]
    fn drop(self) {
        let CheckedOperand { expression: _ } = self;
    }
}

impl Model for CheckedExpressions {
    ghost use Rattle.std.specs.Prelude.{List, map};
    ghost use Rattle.std.specs.Coded.{coded_list};
    ghost use Rattle.std.proofs.Common.{arith};
    ghost use Rattle.circus_checked.specs.ExpressionTree.{ExpressionTree, expression_trees};
    ghost use Rattle.circus_checked.specs.Seen.ExpressionCode.{coded_expression};
    ghost use Rattle.circus_checked.specs.Seen.ExpressionWeight.{list_weight};

    ghost Value = { List ExpressionTree };

    ghost coded = { coded_list coded_expression };

    ghost use Rattle.circus_checked.specs.ExpressionOf.{tree_of};

    ghost view = { λ a. map tree_of a.items.items };

    ghost size = { λ es. list_weight (expression_trees es) };

    ghost use Rattle.circus_checked.specs.Seen.ExpressionFalls.{most_deep_le-list_weight};

    ghost size_decreases = { λ a h. Prim.omega (arith, most_deep_le-list_weight a.items.items) };
}

impl Model for CheckedSuffixes {
    ghost use Rattle.std.specs.Prelude.{List, map};
    ghost use Rattle.std.specs.Coded.{coded_list};
    ghost use Rattle.std.proofs.Common.{arith};
    ghost use Rattle.circus_checked.specs.ExpressionTree.{SuffixTree, suffix_trees};
    ghost use Rattle.circus_checked.specs.Seen.ExpressionCode.{coded_suffix};
    ghost use Rattle.circus_checked.specs.Seen.ExpressionWeight.{suffix_weights};

    ghost Value = { List SuffixTree };

    ghost coded = { coded_list coded_suffix };

    ghost use Rattle.circus_checked.specs.ExpressionOf.{suffix_of};

    ghost view = { λ a. map suffix_of a.items.items };

    ghost size = { λ ss. suffix_weights (suffix_trees ss) };

    ghost use Rattle.circus_checked.specs.Seen.ExpressionFalls.{most_deep_le-suffix_weights};

    ghost size_decreases = { λ a h. Prim.omega (arith, most_deep_le-suffix_weights a.items.items) };
}

impl Model for CheckedOperand {
    ghost use Rattle.std.proofs.Common.{arith};
    ghost use Rattle.circus_checked.specs.ExpressionTree.{ExpressionTree};
    ghost use Rattle.circus_checked.specs.Seen.ExpressionCode.{coded_expression};
    ghost use Rattle.circus_checked.specs.Seen.ExpressionWeight.{weight};

    ghost Value = { ExpressionTree };

    ghost coded = { coded_expression };

    ghost use Rattle.circus_checked.specs.ExpressionOf.{tree_of};

    ghost view = { λ a. tree_of a.expression.value };

    ghost size = { weight };

    ghost use Rattle.circus_checked.specs.Seen.ExpressionFalls.{deep_le-weight};

    ghost size_decreases = { λ a h. Prim.omega (arith, deep_le-weight a.expression.value) };
}

impl CheckedExpressions {
    /// No expressions. It takes no memory, and grows with this allocator.
    pub fn new(alloc: Global) -> Self
        ensures { result ≡ [] }
    {
        CheckedExpressions {
            items: Vec::new(alloc),
        }
    }

    /// How many there are.
    pub fn len(&self) -> usize
        ensures { result ≡ length self.now }
    {
        self.items.len()
    }

    /// Whether there are none.
    pub fn is_empty(&self) -> bool
        ensures { IsTrue result ↔ (self.now ≡ []) }
    {
        self.items.is_empty()
    }

    /// The expression at a place, counted from 0. `None` exactly where the place is not below the length.
    pub fn get(&self, place: usize) -> Option<&CheckedExpression>
        ensures { option_map tree_of (option_copied result) ≡ slice_get self.now place }
    {
        self.items.get(place)
    }

    /// All of them, in order.
    pub fn as_slice(&self) -> &[CheckedExpression]
        ensures { map tree_of result.now ≡ self.now }
    {
        self.items.as_slice()
    }

    /// Adds an expression at the end. After `NoMemory` the list is unchanged.
    pub fn push(&mut self, item: CheckedExpression) -> Result<(), NoMemory>
        ensures ok { OnOk result (self.new ≡ self.old ++ tree_of item ∷ []) }
        ensures err { OnErr result (self.new ≡ self.old) }
    {
        self.items.push(item)?;
        Ok(())
    }
}

impl CheckedSuffixes {
    /// No suffixes. It takes no memory, and grows with this allocator.
    pub fn new(alloc: Global) -> Self
        ensures { result ≡ [] }
    {
        CheckedSuffixes {
            items: Vec::new(alloc),
        }
    }

    /// How many there are.
    pub fn len(&self) -> usize
        ensures { result ≡ length self.now }
    {
        self.items.len()
    }

    /// Whether there are none.
    pub fn is_empty(&self) -> bool
        ensures { IsTrue result ↔ (self.now ≡ []) }
    {
        self.items.is_empty()
    }

    /// The suffix at a place, counted from 0. `None` exactly where the place is not below the length.
    pub fn get(&self, place: usize) -> Option<&CheckedSuffix>
        ensures { option_map suffix_of (option_copied result) ≡ slice_get self.now place }
    {
        self.items.get(place)
    }

    /// All of them, in order.
    pub fn as_slice(&self) -> &[CheckedSuffix]
        ensures { map suffix_of result.now ≡ self.now }
    {
        self.items.as_slice()
    }

    /// Adds a suffix at the end. After `NoMemory` the list is unchanged.
    pub fn push(&mut self, item: CheckedSuffix) -> Result<(), NoMemory>
        ensures ok { OnOk result (self.new ≡ self.old ++ suffix_of item ∷ []) }
        ensures err { OnErr result (self.new ≡ self.old) }
    {
        self.items.push(item)?;
        Ok(())
    }
}

impl CheckedOperand {
    /// The expression in memory of its own, or `NoMemory`.
    pub fn new(alloc: Global, expression: CheckedExpression) -> Result<Self, NoMemory>
        ensures { IfOk result (λ operand. operand ≡ tree_of expression) }
    {
        Ok(CheckedOperand {
            expression: Box::new(alloc, expression)?,
        })
    }

    /// The expression.
    pub fn expression(&self) -> &CheckedExpression
        ensures { tree_of result.now ≡ self.now }
    {
        &self.expression
    }
}

impl Duplicate for CheckedExpression {
    #[cycle(checked_expression_copy)]
    fn copy(&self) -> Result<Self, NoMemory> {
        use CheckedExpression::*;
        Ok(match self {
            Or(left, right) => Or(left.copy()?, right.copy()?),
            And(left, right) => And(left.copy()?, right.copy()?),
            Not(operand) => Not(operand.copy()?),
            Equal(left, right) => Equal(left.copy()?, right.copy()?),
            Compare(order, left, right) => Compare(*order, left.copy()?, right.copy()?),
            Calculate(calculation, left, right) => {
                Calculate(*calculation, left.copy()?, right.copy()?)
            }
            Minus(operand) => Minus(operand.copy()?),
            Join(left, right) => Join(left.copy()?, right.copy()?),
            Is(arm, operand) => Is(*arm, operand.copy()?),
            Number(value) => Number(*value),
            Text(bytes) => Text(bytes.copy()?),
            Truth(truth) => Truth(*truth),
            Length(operand) => Length(operand.copy()?),
            Label(number) => Label(*number),
            Arm(number, operand) => Arm(*number, operand.copy()?),
            Items(form, items) => Items(*form, items.copy()?),
            Convert(kind, operand) => Convert(*kind, operand.copy()?),
            Read(place) => Read(place.copy()?),
        })
    }
}

impl Duplicate for CheckedPlace {
    #[cycle(checked_expression_copy)]
    fn copy(&self) -> Result<Self, NoMemory> {
        Ok(CheckedPlace {
            variable: self.variable,
            suffixes: self.suffixes.copy()?,
        })
    }
}

impl Duplicate for CheckedSuffix {
    #[cycle(checked_expression_copy)]
    fn copy(&self) -> Result<Self, NoMemory> {
        Ok(match self {
            CheckedSuffix::Field(place) => CheckedSuffix::Field(*place),
            CheckedSuffix::Arm(number) => CheckedSuffix::Arm(*number),
            CheckedSuffix::Subscript(expression) => CheckedSuffix::Subscript(expression.copy()?),
        })
    }
}

impl Duplicate for CheckedExpressions {
    #[cycle(checked_expression_copy)]
    fn copy(&self) -> Result<Self, NoMemory> {
        let mut items = Vec::with_capacity(*self.items.allocator(), self.items.len())?;
        for item in &self.items {
            items.push(item.copy()?)?;
        }
        Ok(CheckedExpressions { items })
    }
}

impl Duplicate for CheckedSuffixes {
    #[cycle(checked_expression_copy)]
    fn copy(&self) -> Result<Self, NoMemory> {
        let mut items = Vec::with_capacity(*self.items.allocator(), self.items.len())?;
        for item in &self.items {
            items.push(item.copy()?)?;
        }
        Ok(CheckedSuffixes { items })
    }
}

impl Duplicate for CheckedOperand {
    #[cycle(checked_expression_copy)]
    fn copy(&self) -> Result<Self, NoMemory> {
        CheckedOperand::new(*Box::allocator(&self.expression), self.expression.copy()?)
    }
}
