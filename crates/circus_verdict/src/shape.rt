// Where boot and joins stand among the events of a record.
ghost use Rattle.std.specs.Prelude.{◌≡◌};
ghost use Rattle.std.specs.List.{list_all, list_any};
ghost use Rattle.circus_verdict.specs.Seen.Shape as shape;

use circus_audit::GivenEvent;
use circus_node::Event;

/// The first event is boot, and no other is.
pub(crate) fn is_begun(boot: &GivenEvent, later: &[GivenEvent]) -> bool
    ensures { result ≡ shape.is_begun boot.now later.now }
{
    boot.event.is_none() && all_come(later)
}

// None of them is boot.
fn all_come(later: &[GivenEvent]) -> bool
    ensures { result ≡ list_all shape.comes later.now }
{
    for told in later {
        if told.event.is_none() {
            return false;
        }
    }
    true
}

/// Of a spare the second event is a join, and no other is one.
pub(crate) fn joins_so(spare: bool, later: &[GivenEvent]) -> bool
    ensures { result ≡ shape.joins_so spare later.now }
{
    match later.split_first() {
        Some((second, others)) => is_second(spare, second) && !any_joins(others),
        None => !spare,
    }
}

// It is a join where the node is a spare.
fn is_second(spare: bool, second: &GivenEvent) -> bool
    ensures { result ≡ shape.is_second spare second.now }
{
    if spare {
        is_join(second)
    } else {
        !is_join(second)
    }
}

// One of them is a join.
fn any_joins(others: &[GivenEvent]) -> bool
    ensures { result ≡ list_any shape.joins others.now }
{
    for told in others {
        if is_join(told) {
            return true;
        }
    }
    false
}

fn is_join(told: &GivenEvent) -> bool
    ensures { result ≡ shape.joins told.now }
{
    matches!(told.event, Some(Event::Join))
}
