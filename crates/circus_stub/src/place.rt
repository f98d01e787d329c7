// Places in a list of operations.
ghost use Rattle.std.specs.Prelude.{◌≡◌, ◌+◌, ◌<◌, ℕ, MatchOption, None, Some};
ghost use Rattle.circus_value.specs.ShapeTree.{ShapeTree, ArmTrees};
ghost use Rattle.circus_stub.specs.Flat.{operations_in};
ghost use Rattle.circus_stub.specs.Seen.Standing.{Stands, ArmsStand, first_arm};

use crate::Operation;

/// The place behind the operations of the value whose first stands at a place.
pub(crate) fn place_behind(operations: &[Operation], place: usize) -> usize
    requires { (shape : ShapeTree) × Stands operations.now place shape }
    ensures { (shape : ShapeTree) → Stands operations.now place shape
        → result ≡ place + operations_in shape }
{
    operations[place].end().unwrap_or(place + 1)
}

/// Where the part of the first arm with a number begins, of arms that stand from a place up to an end.
pub(crate) fn arm_place(
    operations: &[Operation],
    place: usize,
    end: usize,
    wanted: u16,
) -> Option<usize>
    requires { (arms : ArmTrees) × ArmsStand operations.now place end arms }
    ensures { (arms : ArmTrees) → ArmsStand operations.now place end arms
        → MatchOption result (first_arm arms wanted ≡ None)
        (λ part. (place < part)
        × ((shape : ShapeTree) × (first_arm arms wanted ≡ Some shape)
        × Stands operations.now part shape)) }
{
    let mut here = place;
    while here < end {
        match &operations[here] {
            Operation::Arm {
                number,
                end: behind,
            } => {
                if *number == wanted {
                    return Some(here + 1);
                }
                here = *behind;
            }
            _ => unreachable!(),
        }
    }
    None
}
