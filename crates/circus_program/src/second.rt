// The second file of a command.

use crate::shown::Shown;

/// What the second file of a command is, whose first one is a program: a schedule, of which this is shown, or the record of
/// a node.
#[derive(Clone, Copy, Debug)]
pub enum Second {
    Schedule(Shown),
    NodeRecord,
}
