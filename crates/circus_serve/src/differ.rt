// The lines of replies that differ (docs/FORMATS.md, "Node record").
ghost use Rattle.std.specs.Prelude.{Some};
ghost use Rattle.std.specs.List.{flat_map};
ghost use Rattle.circus_serve.specs.NodeText.{reply_text, differ_line};

use circus_header::Reply;
use circus_node::Difference;
use circus_record::Naming;
use circus_value::ClockText;
use std::fmt;

// Who replied, and what.
#[derive(Drop)]
struct ReplyText<'a, N> {
    names: &'a N,
    node: u16,
    reply: &'a Reply,
}

impl<N: Naming> fmt::Display for ReplyText<'_, N> {
    ghost output = { λ t. Some (reply_text (N.names t.names.now) t.node t.reply.now) };

    fn fmt<W: fmt::Write>(&self, f: &mut fmt::Formatter<W>) -> fmt::Result {
        let node = self.names.node(usize::from(self.node));
        let clock = ClockText(&self.reply.clock);
        let outcome = &self.reply.outcome;
        write!(f, " {node} clock {clock} {outcome}")
    }
}

// Two replies to an ask that differ, with the newline.
#[derive(Drop)]
struct DifferLine<'a, N> {
    names: &'a N,
    difference: &'a Difference,
}

impl<N: Naming> fmt::Display for DifferLine<'_, N> {
    ghost output = { λ l. Some (differ_line (N.names l.names.now) l.difference.now) };

    fn fmt<W: fmt::Write>(&self, f: &mut fmt::Formatter<W>) -> fmt::Result {
        let run = self.difference.run;
        let ask = self.difference.ask;
        let first = ReplyText {
            names: self.names,
            node: self.difference.first,
            reply: &self.difference.first_reply,
        };
        let second = ReplyText {
            names: self.names,
            node: self.difference.second,
            reply: &self.difference.second_reply,
        };
        writeln!(f, "differ run {run} ask {ask}{first}{second}")
    }
}

/// Replies that differ, a line for each two.
#[derive(Drop)]
pub(crate) struct DifferLines<'a, N> {
    pub names: &'a N,
    pub differences: &'a [Difference],
}

impl<N: Naming> fmt::Display for DifferLines<'_, N> {
    ghost output = { λ l. Some (flat_map (differ_line (N.names l.names.now)) l.differences.now) };

    fn fmt<W: fmt::Write>(&self, f: &mut fmt::Formatter<W>) -> fmt::Result {
        let names = self.names;
        for difference in self.differences {
            let line = DifferLine { names, difference };
            write!(f, "{line}")?;
        }
        Ok(())
    }
}
