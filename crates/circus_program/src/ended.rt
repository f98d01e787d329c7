// What lines come to that end too early.
ghost use Rattle.std.specs.Prelude.{◌≡◌, [], All, IsAscii};
ghost use Rattle.circus_record.specs.Naming.{host_name, names_of};
ghost use Rattle.circus_program.specs.Seen.Ended.{IsEndedBy};

use crate::put::put_end;
use crate::schedule_refused::end_of_illegal;
use circus_collate::Hosts;
use circus_commands::{Status, end_of_spent};
use circus_outside::Sink;
use circus_report::RunFault;
use std::alloc::Global;

/// What lines come to that end at the line of this number.
pub fn end_of_lines<K: Sink>(
    alloc: Global,
    hosts: &Hosts,
    number: u64,
    fault: RunFault,
    sink: &mut K,
) -> Status
    requires { All (λ h. IsAscii (host_name h)) hosts.now }
    ensures { IsEndedBy (names_of hosts.now []) number fault
        (K.written sink.old) (K.written sink.new) (K.faults sink.old) (K.faults sink.new) result }
{
    match fault {
        RunFault::Illegal(cause) => put_end(end_of_illegal(alloc, hosts, number, cause), sink),
        RunFault::Spent(node, peer) => put_end(end_of_spent(alloc, hosts, node, peer), sink),
        RunFault::SinkFailed => Status::SinkFault,
        RunFault::NoMemory => Status::NoMemory,
    }
}

/// What a fault comes to where no line was stepped.
pub fn end_of_stop(fault: RunFault) -> Status
    ensures sink { fault ≡ RunFault.SinkFailed → result ≡ Status.SinkFault }
    ensures memory { fault ≡ RunFault.NoMemory → result ≡ Status.NoMemory }
{
    match fault {
        RunFault::SinkFailed => Status::SinkFault,
        _ => Status::NoMemory,
    }
}
