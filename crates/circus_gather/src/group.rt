// Calls that are answered together.
ghost use Rattle.std.specs.Prelude.{◌≡◌};
ghost use Rattle.circus_gather.specs.Gathering as gathering;
ghost use Rattle.circus_gather.specs.Seen.Groups as groups;

use crate::HeldCall;
use crate::held::index_of;

/// Calls that are answered together, whatever their index.
#[derive(Clone, Copy)]
pub(crate) enum Group {
    /// Those of an older view than is required, but for those of the run that is open.
    Stale {
        required: u32,
        open_run: Option<u32>,
    },
    /// Those before an index.
    Before(u32),
}

impl Group {
    /// Whether a call to a module is one of them.
    pub fn has(self, module: u16, call: &HeldCall) -> bool
        ensures { result ≡ groups.is_in_group «module» self call.now }
    {
        match self {
            Group::Stale { required, open_run } => {
                call.header.server_incarnation < required && !is_of_run(module, open_run, call)
            }
            Group::Before(from) => index_of(module, &call.header) < from,
        }
    }

    /// Whether a slot has a call that is none of them.
    pub fn spares(self, module: u16, slot: &Option<HeldCall>) -> bool
        ensures { result ≡ groups.stays «module» self slot.now }
    {
        match slot {
            Some(call) => !self.has(module, call),
            None => false,
        }
    }
}

/// Whether a call to a module is of an index.
pub(crate) fn is_of_index(module: u16, index: u32, call: &HeldCall) -> bool
    ensures { result ≡ gathering.is_of_index «module» index call.now }
{
    index_of(module, &call.header) == index
}

// Whether it is a call of the run, where there is one.
fn is_of_run(module: u16, run: Option<u32>, call: &HeldCall) -> bool
    ensures { result ≡ gathering.is_of_run «module» run call.now }
{
    match run {
        Some(index) => is_of_index(module, index, call),
        None => false,
    }
}
