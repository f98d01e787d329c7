// What holds of each two machines.
ghost use Rattle.std.specs.Prelude.{◌≡◌, map, IfOk};
ghost use Rattle.std.specs.Option.{option_copied};
ghost use Rattle.circus_place.specs.Seen.Table.{pointed_to, flag_at, relates};
ghost use Rattle.circus_place.specs.Value.{is_of_kind, is_same, compares, is_related};

use crate::{Comparison, Constant};
use circus_value::{ListOf, NoMemory};
use std::alloc::Global;

/// A relation of machines: a row for each, with a flag for each.
#[derive(Drop)]
pub struct Relation {
    rows: ListOf<ListOf<bool>>,
}

impl Relation {
    /// The relation of two machines of which the first has such a value on the left and the second on the
    /// right.
    pub fn of(
        alloc: Global,
        comparison: Comparison,
        left: &[Option<&Constant>],
        right: &[Option<&Constant>],
    ) -> Result<Self, NoMemory>
        ensures { IfOk result (λ made.
            made.rows ≡ map (λ a.
            map (is_related comparison a) (pointed_to right.now)) (pointed_to left.now)) }
    {
        let mut rows = ListOf::new(alloc);
        for value in left {
            rows.push(row(alloc, comparison, *value, right)?)?;
        }
        Ok(Relation { rows })
    }

    /// Whether it holds of two machines.
    pub fn relates(&self, first: u16, second: u16) -> bool
        ensures { result ≡ relates self.now first second }
    {
        match self.rows.get(usize::from(first)) {
            Some(row) => flag_at(row, second),
            None => false,
        }
    }
}

/// The flag of a machine, if there is one.
pub fn flag_at(flags: &ListOf<bool>, machine: u16) -> bool
    ensures { result ≡ flag_at flags.now machine }
{
    match flags.get(usize::from(machine)) {
        Some(flag) => *flag,
        None => false,
    }
}

fn row(
    alloc: Global,
    comparison: Comparison,
    left: Option<&Constant>,
    right: &[Option<&Constant>],
) -> Result<ListOf<bool>, NoMemory>
    ensures { IfOk result (λ made.
        made ≡ map (is_related comparison (option_copied left.entry)) (pointed_to right.now)) }
{
    let mut flags = ListOf::new(alloc);
    for value in right {
        flags.push(is_related(comparison, left, *value))?;
    }
    Ok(flags)
}

fn is_related(comparison: Comparison, left: Option<&Constant>, right: Option<&Constant>) -> bool
    ensures { result
        ≡ is_related comparison (option_copied left.entry) (option_copied right.entry) }
{
    match (left, right) {
        (Some(left), Some(right)) => compares(comparison, left, right),
        _ => false,
    }
}

fn compares(comparison: Comparison, left: &Constant, right: &Constant) -> bool
    ensures { result ≡ compares comparison left.now right.now }
{
    match (comparison, left, right) {
        (Comparison::Equal, _, _) => is_same(left, right),
        (Comparison::Unequal, _, _) => is_of_kind(left, right) && !is_same(left, right),
        (Comparison::Less, Constant::Number(a), Constant::Number(b)) => a < b,
        (Comparison::AtMost, Constant::Number(a), Constant::Number(b)) => a <= b,
        (Comparison::Greater, Constant::Number(a), Constant::Number(b)) => a > b,
        (Comparison::AtLeast, Constant::Number(a), Constant::Number(b)) => a >= b,
        _ => false,
    }
}

fn is_of_kind(left: &Constant, right: &Constant) -> bool
    ensures { result ≡ is_of_kind left.now right.now }
{
    match (left, right) {
        (Constant::Number(_), Constant::Number(_))
        | (Constant::Text(_), Constant::Text(_))
        | (Constant::Truth(_), Constant::Truth(_)) => true,
        _ => false,
    }
}

fn is_same(left: &Constant, right: &Constant) -> bool
    ensures { result ≡ is_same left.now right.now }
{
    match (left, right) {
        (Constant::Number(a), Constant::Number(b)) => a == b,
        (Constant::Text(a), Constant::Text(b)) => a.as_slice() == b.as_slice(),
        (Constant::Truth(a), Constant::Truth(b)) => a == b,
        _ => false,
    }
}
