// A condition as the search asks it.
ghost use Rattle.std.specs.Prelude.{◌≡◌};
ghost use Rattle.std.specs.List.{list_any};
ghost use Rattle.std.specs.Option.{option_copied};
ghost use Rattle.circus_place.specs.Seen.Table.{relates};
ghost use Rattle.circus_place.specs.Seen.Test.{differs, known_related, value_so_far, is_known_false};

use crate::relation::{Relation, flag_at};
use circus_value::ListOf;

/// What has to hold of the machines of the members, which are numbered from 0.
#[derive(Drop)]
pub enum Test {
    Or(Box<Test>, Box<Test>),
    And(Box<Test>, Box<Test>),
    Not(Box<Test>),
    /// A relation of the machines of two members.
    Related(usize, usize, Relation),
    /// Each of so many members has a value, and no two have the same: which machines have one, and which
    /// have the same.
    Differ(usize, ListOf<bool>, Relation),
}

impl Test {
    /// Whether it fails where the first members are at these machines, whoever the others are.
    pub fn fails(&self, members: &[u16]) -> bool
        ensures { result ≡ is_known_false (value_so_far self.now members.now) }
    {
        matches!(self.value_so_far(members), Some(false))
    }

    // Whether it holds where the first members are at these machines, as far as that is known of all choices
    // of the others.
    fn value_so_far(&self, members: &[u16]) -> Option<bool>
        ensures { result ≡ value_so_far self.now members.now }
    {
        match self {
            Test::Or(left, right) => match left.value_so_far(members) {
                Some(true) => Some(true),
                Some(false) => right.value_so_far(members),
                None => right.value_so_far(members).filter(|holds| *holds),
            },
            Test::And(left, right) => match left.value_so_far(members) {
                Some(true) => right.value_so_far(members),
                Some(false) => Some(false),
                None => right.value_so_far(members).filter(|holds| !*holds),
            },
            Test::Not(inner) => inner.value_so_far(members).map(|holds| !holds),
            Test::Related(first, second, relation) => {
                known_related(relation, members.get(*first), members.get(*second))
            }
            Test::Differ(all, has, same) => {
                if differs(has, same, members) {
                    (members.len() == *all).then_some(true)
                } else {
                    Some(false)
                }
            }
        }
    }
}

fn known_related(relation: &Relation, first: Option<&u16>, second: Option<&u16>) -> Option<bool>
    ensures { result
        ≡ known_related relation.now (option_copied first.entry) (option_copied second.entry) }
{
    match (first, second) {
        (Some(first), Some(second)) => Some(relation.relates(*first, *second)),
        _ => None,
    }
}

// Whether each of the machines has a value, and no two have the same.
fn differs(has: &ListOf<bool>, same: &Relation, machines: &[u16]) -> bool
    ensures { result ≡ differs has.now same.now machines.now }
{
    let mut left = machines;
    while let Some((first, others)) = left.split_first() {
        if !flag_at(has, *first) || is_like_any(same, *first, others) {
            return false;
        }
        left = others;
    }
    true
}

fn is_like_any(same: &Relation, machine: u16, others: &[u16]) -> bool
    ensures { result ≡ list_any (relates same.now machine) others.now }
{
    others.iter().any(|other| same.relates(machine, *other))
}
