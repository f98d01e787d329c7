// The lines of the Ringmaster and of the views that it keeps (docs/FORMATS.md, "Report").
ghost use Rattle.std.specs.Prelude.{Some};
ghost use Rattle.circus_report.specs.ViewLines.{ringmaster_line, since_text, entry_text, entries_text, view_line, views_lines};

use circus_collate::{Entry, Since, View};
use circus_record::Naming;
use std::fmt;

/// The line of the Ringmaster's node, with its newline.
#[derive(Drop)]
pub struct RingmasterLine<'a, N> {
    pub names: &'a N,
    /// The step in which the node crashed.
    pub crashed: Option<u64>,
}

impl<N: Naming> fmt::Display for RingmasterLine<'_, N> {
    ghost output = { λ l. Some (ringmaster_line (N.names l.names.now) l.crashed) };

    fn fmt<W: fmt::Write>(&self, f: &mut fmt::Formatter<W>) -> fmt::Result {
        let node = self.names.node(0);
        match self.crashed {
            None => writeln!(f, "ringmaster {node} live"),
            Some(step) => writeln!(f, "ringmaster {node} crashed {step}"),
        }
    }
}

// The first call that a member performs itself.
#[derive(Clone, Copy)]
struct SinceText(Since);

impl fmt::Display for SinceText {
    ghost output = { λ t. Some (since_text t.0) };

    fn fmt<W: fmt::Write>(&self, f: &mut fmt::Formatter<W>) -> fmt::Result {
        match self.0 {
            Since::Joining => f.write_str("joining"),
            Since::From(first) => write!(f, "{first}"),
        }
    }
}

// A node in a view.
#[derive(Drop)]
struct EntryText<'a, N> {
    names: &'a N,
    entry: Entry,
}

impl<N: Naming> fmt::Display for EntryText<'_, N> {
    ghost output = { λ t. Some (entry_text (N.names t.names.now) t.entry) };

    fn fmt<W: fmt::Write>(&self, f: &mut fmt::Formatter<W>) -> fmt::Result {
        let node = self.names.node(usize::from(self.entry.node));
        let since = SinceText(self.entry.since);
        write!(f, " {node}={since}")
    }
}

#[derive(Drop)]
struct EntriesText<'a, N> {
    names: &'a N,
    entries: &'a [Entry],
}

impl<N: Naming> fmt::Display for EntriesText<'_, N> {
    ghost output = { λ t. Some (entries_text (N.names t.names.now) t.entries.now) };

    fn fmt<W: fmt::Write>(&self, f: &mut fmt::Formatter<W>) -> fmt::Result {
        let names = self.names;
        for entry in self.entries {
            let text = EntryText {
                names,
                entry: *entry,
            };
            write!(f, "{text}")?;
        }
        Ok(())
    }
}

// The line of a view.
#[derive(Drop)]
struct ViewLine<'a, N> {
    names: &'a N,
    view: &'a View,
}

impl<N: Naming> fmt::Display for ViewLine<'_, N> {
    ghost output = { λ l. Some (view_line (N.names l.names.now) l.view.now) };

    fn fmt<W: fmt::Write>(&self, f: &mut fmt::Formatter<W>) -> fmt::Result {
        let troupe = self.names.troupe(usize::from(self.view.troupe));
        let incarnation = self.view.incarnation;
        let entries = EntriesText {
            names: self.names,
            entries: self.view.entries.as_slice(),
        };
        writeln!(f, "view {troupe} {incarnation}{entries}")
    }
}

/// Views, a line each.
#[derive(Drop)]
pub struct ViewsText<'a, N> {
    pub names: &'a N,
    pub views: &'a [View],
}

impl<N: Naming> fmt::Display for ViewsText<'_, N> {
    ghost output = { λ t. Some (views_lines (N.names t.names.now) t.views.now) };

    fn fmt<W: fmt::Write>(&self, f: &mut fmt::Formatter<W>) -> fmt::Result {
        let names = self.names;
        for view in self.views {
            let line = ViewLine { names, view };
            write!(f, "{line}")?;
        }
        Ok(())
    }
}
