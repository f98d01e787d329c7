// Tables, written and read.
ghost use Rattle.std.specs.Prelude.{◌≡◌, ◌≤◌, ◌++◌, [], length, OnOk, OnErr};
ghost use Rattle.std.specs.List.{flat_map};
ghost use Rattle.circus_header.specs.Field.{bytes_of};
ghost use Rattle.circus_header.specs.Seen.Layout.{Reading};
ghost use Rattle.circus_header.specs.Seen.Written.{Written};
ghost use Rattle.circus_ring.specs.RingTable.{most_entries};
ghost use Rattle.circus_ring.specs.TableFields as table_fields;
ghost use Rattle.circus_ring.specs.TableFields.{IsTable, IsTableRead};
ghost use Rattle.circus_ring.specs.Seen.TableLayout as layouts;

use circus_collate::{Entries, Entry, RingResult, Since, Table, View};
use circus_header::{HeaderFault, long, push_long, push_word, word};
use circus_limits::{MOST_MEMBERS, MOST_MODULES, MOST_NODES};
use circus_value::{ListOf, Message, NoMemory};
use std::alloc::Global;

// The greatest number of a troupe.
const LAST_TROUPE: u16 = MOST_MODULES as u16 - 1;

// The greatest number of a node.
const LAST_NODE: u16 = MOST_NODES as u16 - 1;

/// Adds the bytes of a table at the end of `out` (docs/FORMATS.md, "Tables"). After `NoMemory`, the one fault, `out`
/// is unchanged.
pub fn write_table(alloc: Global, table: &Table, out: &mut Message) -> Result<(), NoMemory>
    requires { IsTable table.now }
    ensures ok { OnOk result (out.new ≡ out.old ++ bytes_of (table_fields.table_fields table.now)) }
    ensures err { OnErr result (out.new ≡ out.old) }
{
    let mut bytes = ListOf::new(alloc);
    push_table(table, &mut bytes)?;
    out.append(bytes.as_slice())
}

/// The table that the bytes behind a `Table` header are (docs/FORMATS.md, "Tables").
///
/// `Short` names the first byte of the first field that isn't whole, and `BadField` that of the first field that is
/// out of its range, or the first byte behind the table.
pub fn read_table(alloc: Global, bytes: &[u8]) -> Result<Table, HeaderFault>
    ensures { IsTableRead bytes.now result }
{
    let (table, end) = any_table(alloc, bytes)?;
    if end < bytes.len() {
        return Err(HeaderFault::BadField(end as u64));
    }
    Ok(table)
}

fn push_table(table: &Table, out: &mut Message) -> Result<(), NoMemory>
    requires { length table.now.view.entries ≤ most_entries }
    ensures { OnOk result (Written out.old (table_fields.table_fields table.now) out.new) }
{
    push_word(result_number(table.result), out)?;
    push_word(table.view.troupe, out)?;
    push_long(table.view.incarnation, out)?;
    push_word(table.view.entries.len() as u16, out)?;
    push_entries(table.view.entries.as_slice(), out)
}

fn result_number(taken: RingResult) -> u16
    ensures { result ≡ table_fields.result_number taken }
{
    match taken {
        RingResult::Done => 0,
        RingResult::RootTroupe => 1,
        RingResult::NotSpare => 2,
        RingResult::Full => 3,
    }
}

fn push_entries(entries: &[Entry], out: &mut Message) -> Result<(), NoMemory>
    ensures { OnOk result
        (Written out.old (flat_map table_fields.entry_fields entries.now) out.new) }
{
    for entry in entries {
        push_entry(entry, out)?;
    }
    Ok(())
}

fn push_entry(entry: &Entry, out: &mut Message) -> Result<(), NoMemory>
    ensures { OnOk result (Written out.old (table_fields.entry_fields entry.now) out.new) }
{
    push_word(entry.node, out)?;
    push_since(entry.since, out)
}

fn push_since(since: Since, out: &mut Message) -> Result<(), NoMemory>
    ensures { OnOk result (Written out.old (table_fields.since_fields since) out.new) }
{
    match since {
        Since::Joining => {
            push_word(0, out)?;
            push_long(0, out)
        }
        Since::From(first) => {
            push_word(1, out)?;
            push_long(first, out)
        }
    }
}

fn any_table(alloc: Global, bytes: &[u8]) -> Result<(Table, usize), HeaderFault>
    ensures { Reading bytes.now layouts.table_layout 0 result }
{
    let (number, at) = word(&bytes, 0, 0, 3)?;
    let (troupe, at) = word(&bytes, at, 0, LAST_TROUPE)?;
    let (incarnation, at) = long(&bytes, at, 1, u32::MAX)?;
    let (count, at) = word(&bytes, at, 0, MOST_MEMBERS as u16)?;
    let (entries, end) = entries(alloc, bytes, at, count)?;
    Ok((table_of(number, troupe, incarnation, entries), end))
}

fn table_of(number: u16, troupe: u16, incarnation: u32, entries: Entries) -> Table
    ensures { result ≡ layouts.table_of number troupe incarnation entries }
{
    Table {
        result: result_of(number),
        view: View {
            troupe,
            incarnation,
            entries,
        },
    }
}

fn result_of(number: u16) -> RingResult
    ensures { result ≡ layouts.result_of number }
{
    match number {
        0 => RingResult::Done,
        1 => RingResult::RootTroupe,
        2 => RingResult::NotSpare,
        _ => RingResult::Full,
    }
}

// As many entries as are said.
fn entries(
    alloc: Global,
    bytes: &[u8],
    from: usize,
    count: u16,
) -> Result<(Entries, usize), HeaderFault>
    ensures { Reading bytes.now (layouts.entries_layout count []) from result }
{
    let mut entries = ListOf::new(alloc);
    let mut at = from;
    for _i in 0..count {
        let (entry, next) = entry(bytes, at)?;
        entries.push(entry)?;
        at = next;
    }
    Ok((entries, at))
}

fn entry(bytes: &[u8], at: usize) -> Result<(Entry, usize), HeaderFault>
    ensures { Reading bytes.now layouts.entry_layout at result }
{
    let (node, at) = word(&bytes, at, 0, LAST_NODE)?;
    let (kind, at) = word(&bytes, at, 0, 1)?;
    let (first, at) = long(&bytes, at, 0, most_first(kind))?;
    Ok((entry_of(node, kind, first), at))
}

// The greatest first index of an entry of this kind.
fn most_first(kind: u16) -> u32
    ensures { result ≡ layouts.most_first kind }
{
    if kind == 0 { 0 } else { u32::MAX }
}

fn entry_of(node: u16, kind: u16, first: u32) -> Entry
    ensures { result ≡ layouts.entry_of node kind first }
{
    Entry {
        node,
        since: if kind == 0 {
            Since::Joining
        } else {
            Since::From(first)
        },
    }
}
