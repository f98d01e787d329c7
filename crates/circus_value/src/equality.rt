// Which values, outcomes and lists are equal.
ghost use Rattle.std.specs.Prelude.{◌≡◌, List};
ghost use Rattle.std.specs.Bool.{Decides};
ghost use Rattle.circus_value.specs.ValueTree.{ValueTree, value_trees};
ghost use Rattle.circus_value.specs.ValueOf as values;
ghost use Rattle.circus_value.specs.ValueEquality.{value_eq, items_eq, values_eq};
ghost use Rattle.circus_value.specs.OutcomeEquality.{outcome_eq};
ghost use Rattle.circus_value.specs.declared.outcome.Outcome.{Outcome as Ended};

use crate::{Chosen, ListOf, Outcome, Text, Value, Values};

impl<T: PartialEq> PartialEq for ListOf<T> {
    ghost use Rattle.std.specs.Cmp.Lexicographic.{pointwise, lists_per};

    ghost eq = { pointwise T.eq };

    ghost laws = { lists_per T.PartialEq.laws };

    fn eq(&self, other: &Self) -> bool {
        self.as_slice() == other.as_slice()
    }
}

impl<T: Eq> Eq for ListOf<T> {
    ghost use Rattle.std.specs.Cmp.Lexicographic.{lists_equiv};

    ghost laws = { lists_equiv T.Eq.laws };
}

impl PartialEq for Text {
    ghost use Rattle.std.specs.Prelude.{nat_eq};
    ghost use Rattle.std.specs.Cmp.{nat_eq_equiv, partial_equiv_from_equiv};
    ghost use Rattle.std.specs.Cmp.Lexicographic.{pointwise, lists_per};

    ghost eq = { pointwise nat_eq };

    ghost laws = { lists_per (partial_equiv_from_equiv nat_eq_equiv) };

    fn eq(&self, other: &Self) -> bool {
        self.as_slice() == other.as_slice()
    }
}

impl Eq for Text {
    ghost use Rattle.std.specs.Cmp.Lexicographic.{nat_list_eq_equiv};

    ghost laws = { nat_list_eq_equiv };
}

#[cycle(equality)]
fn same_value(one: &Value, other: &Value) -> bool
    ensures { result ≡ value_eq (values.tree_of one.now) (values.tree_of other.now) }
{
    match (one, other) {
        (Value::Boolean(a), Value::Boolean(b)) => a == b,
        (Value::Cardinal(a), Value::Cardinal(b)) => a == b,
        (Value::LongCardinal(a), Value::LongCardinal(b)) => a == b,
        (Value::Integer(a), Value::Integer(b)) => a == b,
        (Value::LongInteger(a), Value::LongInteger(b)) => a == b,
        (Value::Text(a), Value::Text(b)) => a == b,
        (Value::Enumeration(a), Value::Enumeration(b)) => a == b,
        (Value::Array(a), Value::Array(b)) => same_values(a, b),
        (Value::Sequence(a), Value::Sequence(b)) => same_values(a, b),
        (Value::Record(a), Value::Record(b)) => same_values(a, b),
        (Value::Choice(m, a), Value::Choice(n, b)) => m == n && same_value(a.value(), b.value()),
        _ => false,
    }
}

#[cycle(equality)]
fn same_values(one: &Values, other: &Values) -> bool
    ensures { result ≡ items_eq (value_trees one.now) (value_trees other.now) }
{
    if one.len() != other.len() {
        return false;
    }
    let others = other.as_slice();
    for (place, item) in one.as_slice().iter().enumerate() {
        if !same_value(item, &others[place]) {
            return false;
        }
    }
    true
}

impl PartialEq for Value {
    ghost use Rattle.circus_value.specs.ValueEquality.{value_eq, value_eq_per};
    ghost use Rattle.circus_value.specs.ValueOf.{tree_of};
    ghost use Rattle.std.specs.Cmp.{on_per};
    ghost use Rattle.std.specs.Ordering.{on};

    ghost eq = { on tree_of value_eq };

    ghost laws = { on_per tree_of value_eq_per };

    fn eq(&self, other: &Self) -> bool {
        same_value(self, other)
    }
}

impl Eq for Value {
    ghost use Rattle.circus_value.specs.ValueEquality.{value_eq_equiv};
    ghost use Rattle.circus_value.specs.ValueOf.{tree_of};
    ghost use Rattle.std.specs.Cmp.{on_equiv};

    ghost laws = { on_equiv tree_of value_eq_equiv };
}

impl PartialEq for Values {
    ghost use Rattle.circus_value.specs.ValueEquality.{values_eq, values_eq_per};

    ghost eq = { values_eq };

    ghost laws = { values_eq_per };

    fn eq(&self, other: &Self) -> bool {
        same_values(self, other)
    }
}

impl Eq for Values {
    ghost use Rattle.circus_value.specs.ValueEquality.{values_eq_equiv};

    ghost laws = { values_eq_equiv };
}

impl PartialEq for Chosen {
    ghost use Rattle.circus_value.specs.ValueEquality.{value_eq, value_eq_per};

    ghost eq = { value_eq };

    ghost laws = { value_eq_per };

    fn eq(&self, other: &Self) -> bool {
        same_value(self.value(), other.value())
    }
}

impl Eq for Chosen {
    ghost use Rattle.circus_value.specs.ValueEquality.{value_eq_equiv};

    ghost laws = { value_eq_equiv };
}

impl PartialEq for Outcome {
    ghost use Rattle.circus_value.specs.OutcomeEquality.{outcome_eq, outcome_eq_per};

    ghost eq = { outcome_eq };

    ghost laws = { outcome_eq_per };

    fn eq(&self, other: &Self) -> bool {
        match (self, other) {
            (Outcome::Returned(a), Outcome::Returned(b)) => a == b,
            (Outcome::Raised(m, a), Outcome::Raised(n, b)) => m == n && a == b,
            _ => false,
        }
    }
}

impl Eq for Outcome {
    ghost use Rattle.circus_value.specs.OutcomeEquality.{outcome_eq_equiv};

    ghost laws = { outcome_eq_equiv };
}

/// Values, lists of values and outcomes are equal exactly where they are the same.
pub fn equal_is_the_same()
    ensures value { (a b : ValueTree) → Decides (value_eq a b) (a ≡ b) }
    ensures values { (a b : List ValueTree) → Decides (values_eq a b) (a ≡ b) }
    ensures outcome { (a b : Ended) → Decides (outcome_eq a b) (a ≡ b) }
{}
