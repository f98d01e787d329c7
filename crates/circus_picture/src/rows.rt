// The rows of lines, of what members did, and of what was never delivered (docs/FORMATS.md, "Pictures").
ghost use Rattle.std.specs.Prelude.{◌≡◌, ◌++◌, IfOk, OnOk};
ghost use Rattle.circus_world.specs.Seen.Entries.{sent_as};
ghost use Rattle.circus_picture.specs.Deeds as done;
ghost use Rattle.circus_picture.specs.Rows as spec;
ghost use Rattle.circus_picture.specs.Seen.Drawing.{scene_of};
ghost use Rattle.circus_picture.specs.Seen.Kept.{did_of, deed_at};

use crate::deeds::{Deed, Did};
use crate::label::label;
use crate::row::{Columns, Drawn, is_live_at};
use circus_idl::Procedures;
use circus_record::Naming;
use circus_value::{ListOf, NoMemory, Octets, PathText};
use circus_world::{Line, Sent, SentList};
use std::alloc::Global;

/// What rows are drawn by.
#[derive(Drop)]
pub(crate) struct Scene<'a, N> {
    pub alloc: Global,
    pub names: &'a N,
    /// Of each module.
    pub procedures: &'a [Procedures],
    pub columns: &'a Columns,
    /// Everything that was sent, by its number.
    pub sent: &'a SentList,
}

impl<N: Naming> Scene<'_, N> {
    /// The row of the line of a step.
    pub fn line_row(&self, step: u64, line: &Line) -> Result<Octets, NoMemory>
        ensures { IfOk result (λ row.
            row ≡ spec.line_row (scene_of N.names self.now) step line.now) }
    {
        let drawn = self.line_drawn(step, line);
        let text = self.line_text(line)?;
        self.columns
            .row(self.alloc, step, Some(step), drawn, text.as_slice())
    }

    fn line_drawn(&self, step: u64, line: &Line) -> Drawn
        ensures { result ≡ spec.line_drawn (scene_of N.names self.now) step line.now }
    {
        match *line {
            Line::Deliver(number) => self.delivery(step, number),
            Line::Tick(node) => Drawn::Sign(node, b't'),
            Line::Crash(node) => Drawn::Sign(node, b'X'),
            Line::Down(_node, told) => Drawn::Sign(told, b'!'),
            Line::Join(node) => Drawn::Sign(node, b'j'),
        }
    }

    // The arrow of the datagram of a number.
    fn delivery(&self, step: u64, number: u64) -> Drawn
        ensures { result ≡ spec.delivery (scene_of N.names self.now) step number }
    {
        match self.sent.get(number as usize) {
            Some(sent) => {
                let head = self.head(step, sent.from, sent.to);
                Drawn::Arrow(sent.from, sent.to, head)
            }
            None => Drawn::Nothing,
        }
    }

    // The head of an arrow.
    fn head(&self, step: u64, from: u16, to: u16) -> u8
        ensures { result ≡ spec.head (scene_of N.names self.now) step from to }
    {
        if self.has_crashed_by(step, to) {
            b'X'
        } else if from < to {
            b'>'
        } else {
            b'<'
        }
    }

    fn has_crashed_by(&self, step: u64, node: u16) -> bool
        ensures { result ≡ spec.has_crashed_by (scene_of N.names self.now) step node }
    {
        match self.columns.crashes.get(usize::from(node)) {
            Some(crashed) => !is_live_at(step, *crashed),
            None => false,
        }
    }

    fn line_text(&self, line: &Line) -> Result<Octets, NoMemory>
        ensures { IfOk result (λ text. text ≡ spec.line_text (scene_of N.names self.now) line.now) }
    {
        match *line {
            Line::Deliver(number) => self.delivery_text(number),
            Line::Tick(node) => self.happening_text(node, " ticks"),
            Line::Crash(node) => self.happening_text(node, " crashes"),
            Line::Down(node, told) => self.declaration_text(node, told),
            Line::Join(node) => self.happening_text(node, " is told to join"),
        }
    }

    // A node, and what happens to it.
    fn happening_text(&self, node: u16, what: &str) -> Result<Octets, NoMemory>
        ensures { IfOk result (λ text. text ≡ (N.names self.now.names.now).node node ++ what.now) }
    {
        let node = self.names.node(usize::from(node));
        let text = format!(in self.alloc; "{node}{what}")?;
        Ok(ListOf::of(text.into_bytes()))
    }

    // A node learns that another one is down.
    fn declaration_text(&self, node: u16, told: u16) -> Result<Octets, NoMemory>
        ensures { IfOk result (λ text.
            text ≡ spec.line_text (scene_of N.names self.now) (Line.Down node told)) }
    {
        let node = self.names.node(usize::from(node));
        let mut text = self.happening_text(told, " learns that ")?;
        text.append(node.as_bytes())?;
        text.append(b" is down")?;
        Ok(text)
    }

    fn delivery_text(&self, number: u64) -> Result<Octets, NoMemory>
        ensures { IfOk result (λ text.
            text ≡ spec.line_text (scene_of N.names self.now) (Line.Deliver number)) }
    {
        let text = format!(in self.alloc; "{number} ")?;
        let mut text = ListOf::of(text.into_bytes());
        if let Some(sent) = self.sent.get(number as usize) {
            self.append_label(&mut text, &sent)?;
        }
        Ok(text)
    }

    // Adds the label of a datagram.
    fn append_label(&self, text: &mut Octets, sent: &Sent<'_>) -> Result<(), NoMemory>
        ensures { OnOk result
            (text.new ≡ text.old ++ spec.label_of (scene_of N.names self.now) (sent_as sent.now)) }
    {
        let label = label(self.alloc, self.names, self.procedures, sent.bytes)?;
        text.append(label.as_slice())
    }

    /// The row of what a member did in a step.
    pub fn deed_row(&self, step: u64, deed: &Deed<'_>) -> Result<Octets, NoMemory>
        ensures { IfOk result (λ row.
            row ≡ spec.deed_row (scene_of N.names self.now) (deed_at step deed.now)) }
    {
        let text = self.deed_text(deed)?;
        let drawn = Drawn::Sign(deed.node, deed_sign(deed));
        self.columns
            .row(self.alloc, step, None, drawn, text.as_slice())
    }

    fn deed_text(&self, deed: &Deed<'_>) -> Result<Octets, NoMemory>
        ensures { IfOk result (λ text.
            text ≡ (N.names self.now.names.now).node deed.now.node
            ++ done.did_text (N.names self.now.names.now) (did_of deed.now.did)) }
    {
        let node = self.names.node(usize::from(deed.node));
        match deed.did {
            Did::BecameActive(from) => {
                let text = format!(in self.alloc; "{node} is active from {from}")?;
                Ok(ListOf::of(text.into_bytes()))
            }
            Did::Began(place, run) => {
                let path = PathText {
                    root: self.names.troupe(usize::from(run.root)),
                    asks: &run.path,
                };
                let text = format!(in self.alloc; "{node} begins {place} {path}")?;
                Ok(ListOf::of(text.into_bytes()))
            }
            Did::Ended(place, outcome) => {
                let text = format!(in self.alloc; "{node} ends {place} {outcome}")?;
                Ok(ListOf::of(text.into_bytes()))
            }
        }
    }

    /// The row that says how many datagrams were never delivered.
    pub fn count_row(&self, step: u64, count: usize) -> Result<Octets, NoMemory>
        ensures { IfOk result (λ row. row ≡ spec.count_row (scene_of N.names self.now) step count) }
    {
        let text = self.count_text(count)?;
        self.columns
            .row(self.alloc, step, None, Drawn::Nothing, text.as_slice())
    }

    fn count_text(&self, count: usize) -> Result<Octets, NoMemory>
        ensures { IfOk result (λ text. text ≡ spec.count_text (scene_of N.names self.now) count) }
    {
        let all = self.sent.len();
        let all = format!(in self.alloc; "{all}")?;
        let text = format!(in self.alloc; "never delivered: {count}")?;
        let mut text = ListOf::of(text.into_bytes());
        text.append(b" of ")?;
        text.append(all.as_bytes())?;
        Ok(text)
    }

    /// The row of a datagram that was never delivered.
    pub fn left_row(&self, step: u64, number: u64) -> Result<Octets, NoMemory>
        ensures { IfOk result (λ row. row ≡ spec.left_row (scene_of N.names self.now) step number) }
    {
        let text = self.left_text(number)?;
        self.columns
            .row(self.alloc, step, None, Drawn::Nothing, text.as_slice())
    }

    fn left_text(&self, number: u64) -> Result<Octets, NoMemory>
        ensures { IfOk result (λ text. text ≡ spec.left_text (scene_of N.names self.now) number) }
    {
        match self.sent.get(number as usize) {
            Some(sent) => self.sent_text(number, &sent),
            None => Ok(ListOf::new(self.alloc)),
        }
    }

    fn sent_text(&self, number: u64, sent: &Sent<'_>) -> Result<Octets, NoMemory>
        ensures { IfOk result (λ text.
            text ≡ spec.sent_text (scene_of N.names self.now) number (sent_as sent.now)) }
    {
        let from = self.names.node(usize::from(sent.from));
        let to = self.names.node(usize::from(sent.to));
        let text = format!(in self.alloc; "{number} {from} to {to} ")?;
        let mut text = ListOf::of(text.into_bytes());
        self.append_label(&mut text, sent)?;
        Ok(text)
    }
}

fn deed_sign(deed: &Deed<'_>) -> u8
    ensures { result ≡ done.deed_sign (did_of deed.now.did) }
{
    match deed.did {
        Did::BecameActive(_from) => b'A',
        Did::Began(_place, _run) => b'(',
        Did::Ended(_place, _outcome) => b')',
    }
}
