// A call that waits for its reply.
ghost use Rattle.std.specs.Prelude.{◌≡◌};
ghost use Rattle.circus_gather.specs.Gathering as gathering;

use circus_header::CallHeader;
use circus_value::{Caller, Parts};

/// A call that waits: its header, its arguments and who made it.
#[derive(Drop)]
pub struct HeldCall {
    pub header: CallHeader,
    pub body: Parts,
    pub sender: Caller,
}

/// Which call to a module it is.
pub(crate) fn index_of(module: u16, header: &CallHeader) -> u32
    ensures { result ≡ gathering.index_of «module» header.now }
{
    header.clock.get(usize::from(module)).copied().unwrap_or(0)
}
