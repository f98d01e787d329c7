// The lines of runs and asks, with the step in which each came or without it, as they are added to a text (docs/FORMATS.md,
// "Report").
ghost use Rattle.std.specs.Prelude.{◌≡◌, ◌++◌, OnOk, string_bytes};
ghost use Rattle.circus_record.specs.Line.{run_head, run_rest, run_line, ask_head, ask_rest, ask_line, reply_line, end_head, end_rest, end_line};

use crate::append::{
    append_clock, append_number, append_outcome, append_path, append_step, append_values,
};
use circus_value::{Clock, NoMemory, Outcome, Path, State, Values};

/// The entry of a run, with its newline.
#[derive(Clone, Copy)]
pub struct RunLine<'a> {
    pub place: u128,
    pub step: Option<u64>,
    /// The name of the root.
    pub root: &'a str,
    pub path: &'a Path,
    pub procedure: u16,
    pub entry: &'a Clock,
    pub arguments: &'a Values,
}

impl RunLine<'_> {
    /// Adds the line to a text. `NoMemory` is the one fault.
    pub fn append_to(&self, text: &mut String) -> Result<(), NoMemory>
        ensures { OnOk result (string_bytes text.new ≡ string_bytes text.old
            ++ run_line self.now.place self.now.step self.now.root.now self.now.path.now
            self.now.procedure self.now.entry.now self.now.arguments.now) }
    {
        self.append_head(text)?;
        self.append_rest(text)
    }

    // Adds where a run is entered, and on which path.
    fn append_head(&self, text: &mut String) -> Result<(), NoMemory>
        ensures { OnOk result (string_bytes text.new ≡ string_bytes text.old
            ++ run_head self.now.place self.now.step self.now.root.now self.now.path.now) }
    {
        append_number(text, "run ", self.place)?;
        append_step(text, self.step)?;
        append_path(text, " path ", self.root, self.path)
    }

    // Adds what is performed.
    fn append_rest(&self, text: &mut String) -> Result<(), NoMemory>
        ensures { OnOk result (string_bytes text.new ≡ string_bytes text.old
            ++ run_rest self.now.procedure self.now.entry.now self.now.arguments.now) }
    {
        append_number(text, " procedure ", self.procedure)?;
        append_clock(text, " clock ", self.entry)?;
        append_values(text, " arguments ", self.arguments)?;
        text.push_str("\n")
    }
}

/// An ask of a run, with its newline.
#[derive(Clone, Copy)]
pub struct AskLine<'a> {
    /// Its number in the run.
    pub number: usize,
    pub step: Option<u64>,
    /// The name of the callee's module.
    pub callee: &'a str,
    pub index: u32,
    pub procedure: u16,
    pub arguments: &'a Values,
    pub state: &'a State,
}

impl AskLine<'_> {
    /// Adds the line to a text. `NoMemory` is the one fault.
    pub fn append_to(&self, text: &mut String) -> Result<(), NoMemory>
        ensures { OnOk result (string_bytes text.new ≡ string_bytes text.old
            ++ ask_line self.now.number self.now.step self.now.callee.now self.now.index
            self.now.procedure self.now.arguments.now self.now.state.now) }
    {
        self.append_head(text)?;
        self.append_rest(text)
    }

    // Adds whom an ask asks.
    fn append_head(&self, text: &mut String) -> Result<(), NoMemory>
        ensures { OnOk result (string_bytes text.new ≡ string_bytes text.old
            ++ ask_head self.now.number self.now.step self.now.callee.now self.now.index) }
    {
        append_number(text, "ask ", self.number)?;
        append_step(text, self.step)?;
        text.push_str(" to ")?;
        text.push_str(self.callee)?;
        append_number(text, " index ", self.index)
    }

    // Adds what it asks for.
    fn append_rest(&self, text: &mut String) -> Result<(), NoMemory>
        ensures { OnOk result (string_bytes text.new ≡ string_bytes text.old
            ++ ask_rest self.now.procedure self.now.arguments.now self.now.state.now) }
    {
        append_number(text, " procedure ", self.procedure)?;
        append_values(text, " arguments ", self.arguments)?;
        append_values(text, " state ", self.state)?;
        text.push_str("\n")
    }
}

/// The reply to an ask, with its newline.
#[derive(Clone, Copy)]
pub struct ReplyLine<'a> {
    /// The number of the ask in its run.
    pub number: usize,
    pub step: Option<u64>,
    pub after: &'a Clock,
    pub reply: &'a Outcome,
}

impl ReplyLine<'_> {
    /// Adds the line to a text. `NoMemory` is the one fault.
    pub fn append_to(&self, text: &mut String) -> Result<(), NoMemory>
        ensures { OnOk result (string_bytes text.new ≡ string_bytes text.old
            ++ reply_line self.now.number self.now.step self.now.after.now self.now.reply.now) }
    {
        append_number(text, "reply ", self.number)?;
        append_step(text, self.step)?;
        append_clock(text, " clock ", self.after)?;
        append_outcome(text, " ", self.reply)?;
        text.push_str("\n")
    }
}

/// The end of a run, with its newline.
#[derive(Clone, Copy)]
pub struct EndLine<'a> {
    pub place: u128,
    pub step: Option<u64>,
    pub end: &'a Clock,
    pub outcome: &'a Outcome,
    pub state: &'a State,
}

impl EndLine<'_> {
    /// Adds the line to a text. `NoMemory` is the one fault.
    pub fn append_to(&self, text: &mut String) -> Result<(), NoMemory>
        ensures { OnOk result (string_bytes text.new ≡ string_bytes text.old
            ++ end_line self.now.place self.now.step self.now.end.now self.now.outcome.now
            self.now.state.now) }
    {
        self.append_head(text)?;
        self.append_rest(text)
    }

    // Adds where a run has ended.
    fn append_head(&self, text: &mut String) -> Result<(), NoMemory>
        ensures { OnOk result (string_bytes text.new ≡ string_bytes text.old
            ++ end_head self.now.place self.now.step self.now.end.now) }
    {
        append_number(text, "end ", self.place)?;
        append_step(text, self.step)?;
        append_clock(text, " clock ", self.end)
    }

    // Adds how it has ended.
    fn append_rest(&self, text: &mut String) -> Result<(), NoMemory>
        ensures { OnOk result (string_bytes text.new ≡ string_bytes text.old
            ++ end_rest self.now.outcome.now self.now.state.now) }
    {
        append_outcome(text, " ", self.outcome)?;
        append_values(text, " state ", self.state)?;
        text.push_str("\n")
    }
}
