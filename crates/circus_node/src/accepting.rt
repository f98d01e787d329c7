// Which messages that arrive are accepted.
ghost use Rattle.std.specs.Prelude.{◌≡◌, length, IfOk, IfSome};
ghost use Rattle.circus_member_rules.specs.Happening.{CanHappen};
ghost use Rattle.circus_node.specs.Accepting as accepting;
ghost use Rattle.circus_node.specs.Accepting.{IsMemberOf};
ghost use Rattle.circus_node.specs.Seen.Can.{IsHeardRightly};

use crate::calls_accepted::accept_call;
use crate::returns_accepted::{accept_return, accept_return_by_record};
use circus_collate::Deployment;
use circus_member::Member;
use circus_member_rules::{Occurrence, Purpose};
use circus_model::{Module, Signature};
use circus_record::MemberRecord;
use circus_value::NoMemory;
use circus_wire::Heard;
use std::alloc::Global;

/// What happens to a member by what it hears from a node. `None` where it accepts nothing (docs/PROTOCOL.md, "Accepted
/// messages"). `NoMemory` where memory runs out.
pub fn accept<M: Module>(
    alloc: Global,
    deployment: &Deployment,
    member: &Member<M>,
    from: u16,
    heard: Heard<Purpose>,
) -> Result<Option<Occurrence>, NoMemory>
    requires { IsMemberOf deployment.now member.now }
    ensures accepted { IfOk result (λ accepted.
        accepted ≡ accepting.occurrence_of_heard deployment.now
        (M.declared member.now.performing.hosted) member.now from heard) }
    ensures can { IfOk result (λ accepted.
        IfSome accepted (CanHappen (M.declared member.now.performing.hosted) member.now)) }
{
    match heard {
        Heard::Dropped | Heard::Taken => Ok(None),
        Heard::Called(sender, message) => {
            let own = member.place().troupe;
            accept_call(alloc, deployment, member.signature(), own, sender, &message)
        }
        Heard::Returned(_, purpose, message) => {
            accept_return(alloc, deployment, member, from, purpose, &message)
        }
    }
}

/// What happens to a member of a troupe by what its node hears from another one, by the record of the member in the end,
/// which says what its asks call. `None` where it accepts nothing (docs/PROTOCOL.md, "Accepted messages"). `NoMemory`
/// where memory runs out.
pub fn accept_by_record(
    alloc: Global,
    deployment: &Deployment,
    signature: &Signature,
    own: u16,
    record: &MemberRecord,
    from: u16,
    heard: Heard<Purpose>,
) -> Result<Option<Occurrence>, NoMemory>
    ensures accepted { IfOk result (λ accepted.
        accepted ≡ accepting.occurrence_by deployment.now signature.now
        (accepting.recorded_ask record.now) own from heard) }
    ensures can { IfOk result (λ accepted.
        IfSome accepted (IsHeardRightly signature.now own (length deployment.now.troupes)
        (accepting.recorded_ask record.now))) }
{
    match heard {
        Heard::Dropped | Heard::Taken => Ok(None),
        Heard::Called(sender, message) => {
            accept_call(alloc, deployment, signature, own, sender, &message)
        }
        Heard::Returned(_, purpose, message) => {
            accept_return_by_record(
                alloc, deployment, signature, record, from, purpose, &message,
            )
        }
    }
}
