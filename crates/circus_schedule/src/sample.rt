// The lines of a sample, as they are drawn.
ghost use Rattle.std.specs.Prelude.{◌≡◌, ◌≤◌};
ghost use Rattle.circus_schedule.specs.Sampling.{word_behind, step_drawn, line_drawn, IsPossible};

use crate::Line;

const MULTIPLIER: u64 = 6_364_136_223_846_793_005;

const INCREMENT: u64 = 1_442_695_040_888_963_407;

/// What a line is drawn by.
#[derive(Clone, Copy, Debug)]
pub struct Facts {
    /// How many datagrams were sent.
    pub sent: u64,
    /// How many nodes there are, at least 1, the Ringmaster's among them.
    pub nodes: u16,
    /// The lowest spare that hasn't joined.
    pub spare: Option<u16>,
}

/// The word of the next step (docs/FORMATS.md, "Samples"). It takes no memory.
pub fn next_word(word: u64) -> u64
    ensures { result ≡ word_behind word }
{
    word.wrapping_mul(MULTIPLIER).wrapping_add(INCREMENT)
}

/// The line that a step's word draws: a join of the lowest spare, a tick, or a delivery of one of the 32 datagrams that
/// were sent last (docs/FORMATS.md, "Samples"). It takes no memory.
pub fn sample_line(word: u64, facts: &Facts) -> Line
    requires { 1 ≤ facts.now.nodes }
    ensures drawn { result ≡ line_drawn word facts.now }
    ensures possible { IsPossible facts.now result }
{
    let high = word / (1 << 33);
    let kind = high % 64;
    let choice = high / 64;
    match facts.spare {
        Some(spare) if kind == 0 => Line::Join(spare),
        _ => step_line(kind, choice, facts),
    }
}

// A tick, or a delivery of one of the datagrams that were sent last.
fn step_line(kind: u64, choice: u64, facts: &Facts) -> Line
    requires { 1 ≤ facts.now.nodes }
    ensures drawn { result ≡ step_drawn kind choice facts.now.sent facts.now.nodes }
    ensures possible { IsPossible facts.now result }
{
    if kind <= 7 || facts.sent == 0 {
        return Line::Tick((choice % u64::from(facts.nodes)) as u16);
    }
    Line::Deliver(facts.sent - 1 - choice % facts.sent.min(32))
}
