// The words of a command line.
ghost use Rattle.circus_program.specs.Form.{IsOfForm, IsOfNoForm};
ghost use Rattle.circus_program.specs.Seen.Words.{form_of};
ghost use Rattle.std.specs.Prelude.{[], ◌∷◌, IfNone, IfSome, map};
ghost use Rattle.std.specs.String.{string_bytes};

use circus_schedule::{MOST_LINES, decimal_at_most};

const MOST_TURNS: u64 = 100_000;

const MOST_STEPS: u64 = MOST_LINES as u64;

const MOST_DELIVERIES: u64 = 1_000_000;

/// What the words of a command line ask for (docs/GUIDE.md).
#[derive(Clone, Copy, Debug)]
pub enum CommandForm<'a> {
    /// `stubs PROGRAM`: the stubs of all interfaces.
    Stubs {
        program: &'a str,
    },
    /// `run PROGRAM`: the history of the unreplicated execution.
    Run {
        program: &'a str,
    },
    /// `replay PROGRAM SCHEDULE`: the report of a simulation under a schedule.
    Replay {
        program: &'a str,
        schedule: &'a str,
    },
    /// `picture PROGRAM SCHEDULE`: the picture of a simulation under a schedule.
    Picture {
        program: &'a str,
        schedule: &'a str,
    },
    /// `node PROGRAM NAME TURNS`: one node over the link, for 0 to 100,000 takes.
    Node {
        program: &'a str,
        name: &'a str,
        turns: u32,
    },
    /// `sample PROGRAM SEED STEPS`: a simulation of 0 to 200,000 steps that the seed chooses.
    Sample {
        program: &'a str,
        seed: u64,
        steps: u32,
    },
    /// `lines PROGRAM SEED STEPS`: the schedule of such a simulation.
    Lines {
        program: &'a str,
        seed: u64,
        steps: u32,
    },
    /// `settle PROGRAM DELIVERIES`: a simulation of 0 to 1,000,000 deliveries in order of sending.
    Settle {
        program: &'a str,
        deliveries: u32,
    },
    /// `place FILE`: a choice of machines for a troupe.
    Place {
        placing: &'a str,
    },
    /// `audit PROGRAM RECORD`: whether a node's record is a true one.
    Audit {
        program: &'a str,
        record: &'a str,
    },
}

/// The form of the words of a command line (docs/GUIDE.md). The names of files are not empty; numbers
/// are decimal without leading zeros and in the ranges of their form. `None` exactly where the words
/// are of no form. It takes no memory.
pub fn read_words(words: &[String]) -> Option<CommandForm<'_>>
    ensures form { IfSome result (λ form. IsOfForm (map string_bytes words.now) (form_of form)) }
    ensures none { IfNone result (IsOfNoForm (map string_bytes words.now)) }
{
    match words {
        [command, file] => read_two_words(command.as_str(), file.as_str()),
        [command, program, second] => {
            read_three_words(command.as_str(), program.as_str(), second.as_str())
        }
        [command, program, second, third] => read_four_words(
            command.as_str(),
            program.as_str(),
            second.as_str(),
            third.as_str(),
        ),
        _ => None,
    }
}

fn read_two_words<'a>(command: &'a str, file: &'a str) -> Option<CommandForm<'a>>
    ensures form { IfSome result (λ form. IsOfForm (command.now ∷ file.now ∷ []) (form_of form)) }
    ensures none { IfNone result (IsOfNoForm (command.now ∷ file.now ∷ [])) }
{
    if file.is_empty() {
        return None;
    }
    match command {
        "stubs" => Some(CommandForm::Stubs { program: file }),
        "run" => Some(CommandForm::Run { program: file }),
        "place" => Some(CommandForm::Place { placing: file }),
        _ => None,
    }
}

fn read_three_words<'a>(
    command: &'a str,
    program: &'a str,
    second: &'a str,
) -> Option<CommandForm<'a>>
    ensures form { IfSome result (λ form.
        IsOfForm (command.now ∷ program.now ∷ second.now ∷ []) (form_of form)) }
    ensures none { IfNone result (IsOfNoForm (command.now ∷ program.now ∷ second.now ∷ [])) }
{
    if program.is_empty() {
        return None;
    }
    match command {
        "replay" if !second.is_empty() => Some(CommandForm::Replay {
            program,
            schedule: second,
        }),
        "picture" if !second.is_empty() => Some(CommandForm::Picture {
            program,
            schedule: second,
        }),
        "settle" => {
            let deliveries = decimal_at_most(second.as_bytes(), MOST_DELIVERIES)?;
            Some(CommandForm::Settle {
                program,
                deliveries: deliveries as u32,
            })
        }
        "audit" if !second.is_empty() => Some(CommandForm::Audit {
            program,
            record: second,
        }),
        _ => None,
    }
}

fn read_four_words<'a>(
    command: &'a str,
    program: &'a str,
    second: &'a str,
    third: &'a str,
) -> Option<CommandForm<'a>>
    ensures form { IfSome result (λ form.
        IsOfForm (command.now ∷ program.now ∷ second.now ∷ third.now ∷ []) (form_of form)) }
    ensures none { IfNone result
        (IsOfNoForm (command.now ∷ program.now ∷ second.now ∷ third.now ∷ [])) }
{
    if program.is_empty() {
        return None;
    }
    match command {
        "node" => {
            let turns = decimal_at_most(third.as_bytes(), MOST_TURNS)?;
            Some(CommandForm::Node {
                program,
                name: second,
                turns: turns as u32,
            })
        }
        "sample" => {
            let seed = decimal_at_most(second.as_bytes(), u64::MAX)?;
            let steps = decimal_at_most(third.as_bytes(), MOST_STEPS)?;
            Some(CommandForm::Sample {
                program,
                seed,
                steps: steps as u32,
            })
        }
        "lines" => {
            let seed = decimal_at_most(second.as_bytes(), u64::MAX)?;
            let steps = decimal_at_most(third.as_bytes(), MOST_STEPS)?;
            Some(CommandForm::Lines {
                program,
                seed,
                steps: steps as u32,
            })
        }
        _ => None,
    }
}
