// Which header a message begins with.
ghost use Rattle.std.specs.Prelude.{◌≡◌, ◌≢◌, ◌≤◌, length, IfOk, IfSome, Err};
ghost use Rattle.std.specs.Result.{result_ok};
ghost use Rattle.circus_header.specs.CallFields.{IsCall};
ghost use Rattle.circus_ring.specs.TableFields.{IsTable};
ghost use Rattle.circus_node.specs.Headers as headers;

use circus_collate::Table;
use circus_header::{Call, HeaderFault, ReturnHeader, read_call, read_return};
use circus_ring::read_table;
use circus_value::{NoMemory, Parts};
use std::alloc::Global;

/// The header of the call that a message is, and how many bytes it has. `None` where the message is no call.
pub(crate) fn call_in(alloc: Global, message: &Parts) -> Result<Option<(Call, usize)>, NoMemory>
    ensures read { IfOk result (λ call. call ≡ headers.call_in message.now) }
    ensures one { IfOk result (λ call. IfSome call (λ read. IsCall read.0)) }
    ensures within { IfOk result (λ call. IfSome call (λ read. read.1 ≤ length message.now)) }
{
    let bytes = message.joined()?;
    unless_refused(read_call(alloc, bytes.as_slice()))
}

/// The header of the return that a message is, and how many bytes it has. `None` where the message is no return.
pub(crate) fn return_in(
    alloc: Global,
    message: &Parts,
) -> Result<Option<(ReturnHeader, usize)>, NoMemory>
    ensures read { IfOk result (λ header. header ≡ headers.return_in message.now) }
    ensures within { IfOk result (λ header. IfSome header (λ read. read.1 ≤ length message.now)) }
{
    let bytes = message.joined()?;
    unless_refused(read_return(alloc, bytes.as_slice()))
}

/// The table that the bytes of a message from a place on are. `None` where they are no table.
pub(crate) fn table_at(alloc: Global, message: &Parts, at: usize) -> Result<Option<Table>, NoMemory>
    requires { at ≤ length message.now }
    ensures read { IfOk result (λ table. table ≡ headers.table_at at message.now) }
    ensures one { IfOk result (λ table. IfSome table IsTable) }
{
    let rest = message.rest(at)?;
    let bytes = rest.joined()?;
    unless_refused(read_table(alloc, bytes.as_slice()))
}

// What was read, or nothing where the bytes were refused.
fn unless_refused<T>(read: Result<T, HeaderFault>) -> Result<Option<T>, NoMemory>
    ensures found { IfOk result (λ found. found ≡ result_ok read) }
    ensures made { IfOk result (λ found. read ≢ Err HeaderFault.NoMemory) }
{
    match read {
        Ok(read) => Ok(Some(read)),
        Err(HeaderFault::NoMemory) => Err(NoMemory {}),
        Err(HeaderFault::Short(_place)) => Ok(None),
        Err(HeaderFault::BadField(_place)) => Ok(None),
    }
}
