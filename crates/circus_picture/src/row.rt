// A row of a picture (docs/FORMATS.md, "Pictures").
ghost use Rattle.std.specs.Prelude.{◌≡◌, ◌-◌, ◌==◌, [], ◌++◌, None, codes, length, map, replicate, string_bytes, IfOk, OnOk};
ghost use Rattle.std.specs.List.{suffix_len};
ghost use Rattle.circus_record.specs.Line.{line};
ghost use Rattle.circus_picture.specs.Row as spec;

use circus_collate::Host;
use circus_model::Module;
use circus_value::{ListOf, NoMemory, Octets};
use circus_world::World;
use std::alloc::Global;

const BLANK: u8 = b' ';

/// What is drawn over the columns of a row.
#[derive(Clone, Copy)]
pub(crate) enum Drawn {
    Nothing,
    /// This character at a node.
    Sign(u16, u8),
    /// An arrow from a node to another one, with this head.
    Arrow(u16, u16, u8),
}

impl Drawn {
    // What is drawn on the left of a node.
    fn left_of(self, node: usize) -> u8
        ensures { result ≡ spec.left_of self node }
    {
        match self {
            Drawn::Arrow(from, to, _head) => dash_if(is_left(from, to, node)),
            _ => BLANK,
        }
    }

    // On the right of it.
    fn right_of(self, node: usize) -> u8
        ensures { result ≡ spec.right_of self node }
    {
        match self {
            Drawn::Arrow(from, to, _head) => dash_if(is_right(from, to, node)),
            _ => BLANK,
        }
    }

    // At a node, where otherwise this mark stands.
    fn sign_at(self, node: usize, mark: u8) -> u8
        ensures { result ≡ spec.sign_at self node mark }
    {
        match self {
            Drawn::Nothing => mark,
            Drawn::Sign(at, sign) => { if node == usize::from(at) { sign } else { mark } }
            Drawn::Arrow(from, to, head) => arrow_at(from, to, head, node, mark),
        }
    }
}

// Whether an arrow passes on the left of a node.
fn is_left(from: u16, to: u16, node: usize) -> bool
    ensures { result ≡ spec.is_left from to node }
{
    usize::from(from.min(to)) < node && node <= usize::from(from.max(to))
}

// And on the right of it.
fn is_right(from: u16, to: u16, node: usize) -> bool
    ensures { result ≡ spec.is_right from to node }
{
    usize::from(from.min(to)) <= node && node < usize::from(from.max(to))
}

// An arrow at a node.
fn arrow_at(from: u16, to: u16, head: u8, node: usize, mark: u8) -> u8
    ensures { result ≡ spec.arrow_at from to head node mark }
{
    if node == usize::from(from) {
        b'o'
    } else if node == usize::from(to) {
        head
    } else if is_left(from, to, node) {
        b'-'
    } else {
        mark
    }
}

fn dash_if(passes: bool) -> u8
    ensures { result ≡ spec.dash_if passes }
{
    if passes { b'-' } else { BLANK }
}

/// Whether a node is live once a step was made, by the step in which it crashed.
pub(crate) fn is_live_at(step: u64, crashed: Option<u64>) -> bool
    ensures { result ≡ spec.is_live_at step crashed }
{
    match crashed {
        None => true,
        Some(crashed) => step < crashed,
    }
}

fn mark(step: u64, crashed: Option<u64>) -> u8
    ensures { result ≡ spec.mark step crashed }
{
    if is_live_at(step, crashed) {
        b'|'
    } else {
        b'x'
    }
}

/// The columns of the nodes: how many characters each has, and of each node the step in which it crashed.
#[derive(Drop)]
pub(crate) struct Columns {
    pub width: usize,
    pub crashes: ListOf<Option<u64>>,
}

impl Columns {
    /// Those of a world.
    pub fn new<M: Module>(alloc: Global, world: &World<M>) -> Result<Self, NoMemory>
        ensures width { IfOk result (λ columns.
            columns.width ≡ spec.width world.now.deployment.nodes) }
        ensures crashes { IfOk result (λ columns.
            columns.crashes ≡ map (λ s. s.crashed) world.now.nodes) }
    {
        Ok(Columns {
            width: width(world.deployment().nodes.as_slice()),
            crashes: crashes(alloc, world)?,
        })
    }

    // Adds the columns with what is drawn over them once a step was made.
    fn append(&self, row: &mut Octets, step: u64, drawn: Drawn) -> Result<(), NoMemory>
        ensures { OnOk result
            (row.new ≡ row.old ++ spec.field self.now.width step drawn 0 self.now.crashes) }
    {
        for (node, crashed) in self.crashes.as_slice().iter().enumerate() {
            self.append_one(row, step, drawn, node, *crashed)?;
        }
        Ok(())
    }

    // Adds the column of a node.
    fn append_one(
        &self,
        row: &mut Octets,
        step: u64,
        drawn: Drawn,
        node: usize,
        crashed: Option<u64>,
    ) -> Result<(), NoMemory>
        ensures { OnOk result
            (row.new ≡ row.old ++ spec.drawn_column self.now.width step drawn node crashed) }
    {
        let middle = self.width / 2;
        append_times(row, middle, drawn.left_of(node))?;
        row.push(drawn.sign_at(node, mark(step, crashed)))?;
        append_times(
            row,
            (self.width - middle).saturating_sub(1),
            drawn.right_of(node),
        )
    }

    /// A row with this number, what is drawn over the columns once a step was made, and this text.
    pub fn row(
        &self,
        alloc: Global,
        step: u64,
        number: Option<u64>,
        drawn: Drawn,
        text: &[u8],
    ) -> Result<Octets, NoMemory>
        ensures { IfOk result (λ row.
            row ≡ spec.row number
            (spec.field self.now.width step drawn 0 self.now.crashes) text.now) }
    {
        let mut row = row_start(alloc, number)?;
        self.append(&mut row, step, drawn)?;
        row_end(row, text)
    }
}

// How many characters a node's column has.
fn width(hosts: &[Host]) -> usize
    ensures { result ≡ spec.width hosts.now }
{
    let mut longest = 0;
    for host in hosts {
        longest = host.name.as_slice().len().max(longest);
    }
    (longest + 2).max(6)
}

// The step in which each node crashed.
fn crashes<M: Module>(alloc: Global, world: &World<M>) -> Result<ListOf<Option<u64>>, NoMemory>
    ensures { IfOk result (λ crashes. crashes ≡ map (λ s. s.crashed) world.now.nodes) }
{
    let mut crashes = ListOf::new(alloc);
    for node in 0..world.deployment().nodes.len() as u16 {
        crashes.push(world.crashed(node))?;
    }
    Ok(crashes)
}

// Adds a character so many times.
fn append_times(row: &mut Octets, count: usize, character: u8) -> Result<(), NoMemory>
    ensures { OnOk result (row.new ≡ row.old ++ replicate count character) }
{
    for _each in 0..count {
        row.push(character)?;
    }
    Ok(())
}

// What stands before the columns of a row with this number.
fn row_start(alloc: Global, number: Option<u64>) -> Result<Octets, NoMemory>
    ensures { IfOk result (λ row. row ≡ spec.at_right_end (spec.number_text number) ++ codes "  ") }
{
    let number = number_text(alloc, number)?;
    let mut row = ListOf::new(alloc);
    append_times(&mut row, 6_usize.saturating_sub(number.len()), BLANK)?;
    row.append(number.as_bytes())?;
    row.append(b"  ")?;
    Ok(row)
}

// The number of a row, or nothing.
fn number_text(alloc: Global, number: Option<u64>) -> Result<String, NoMemory>
    ensures { IfOk result (λ text. string_bytes text ≡ spec.number_text number) }
{
    match number {
        Some(number) => Ok(format!(in alloc; "{number}")?),
        None => Ok(String::new(alloc)),
    }
}

// A row with its text, without the blanks at its end.
fn row_end(mut row: Octets, text: &[u8]) -> Result<Octets, NoMemory>
    ensures { IfOk result (λ whole. whole ≡ line (spec.trim (row ++ codes "  " ++ text.now))) }
{
    row.append(b"  ")?;
    row.append(text)?;
    let mut row = row.into_items();
    row.truncate(trimmed_len(row.as_slice()));
    row.push(b'\n')?;
    Ok(ListOf::of(row))
}

// How long a text is without the blanks at its end.
fn trimmed_len(text: &[u8]) -> usize
    ensures { result
        ≡ length text.now - suffix_len (λ character. character == spec.blank) text.now }
{
    let mut len = text.len();
    while len > 0 && text[len - 1] == BLANK {
        len -= 1;
    }
    len
}

/// The row with the names of the nodes.
pub(crate) fn names_row(alloc: Global, hosts: &[Host]) -> Result<Octets, NoMemory>
    ensures { IfOk result (λ row.
        row ≡ spec.row None (spec.names_field (spec.width hosts.now) hosts.now) []) }
{
    let mut row = row_start(alloc, None)?;
    append_names(&mut row, width(hosts), hosts)?;
    row_end(row, &[])
}

// Adds the columns of the nodes with their names.
fn append_names(row: &mut Octets, width: usize, hosts: &[Host]) -> Result<(), NoMemory>
    ensures { OnOk result (row.new ≡ row.old ++ spec.names_field width hosts.now) }
{
    for host in hosts {
        append_name(row, width, host.name.as_slice())?;
    }
    Ok(())
}

// Adds the column of a node with its name.
fn append_name(row: &mut Octets, width: usize, name: &[u8]) -> Result<(), NoMemory>
    ensures { OnOk result (row.new ≡ row.old ++ spec.name_column width name.now) }
{
    let before = (width / 2).saturating_sub(name.len().saturating_sub(1) / 2);
    append_times(row, before, BLANK)?;
    row.append(name)?;
    append_times(row, (width - before).saturating_sub(name.len()), BLANK)
}
