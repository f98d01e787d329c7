//! Theory: what it means that copies agree and that nothing comes late or early, and that both hold of what a member does.
//!
//! The definitions are in `specs/`. That copies agree: `Stands.antt` says when a member's record stands in the history of the
//! unreplicated program, and `Messages.antt` when a call, a reply and a snapshot that cite that history are true; a reader of
//! the promise needs these alone. `Truth.antt` is for the proof: what stays true of a member of a troupe, over
//! the history, and of what happens to it and what it makes.
//!
//! In time: `Past.antt` has what happened and what was known then, `Timely.antt` when a run starts, an ask is answered and a
//! member becomes active, and `Starts.antt` how the run of a call is entered. What is owed in a step: `Made.antt` has the
//! effects that were made with their steps, `Returns.antt` the one return that each call gets, `Snapshots.antt` the one that
//! each state request gets, `Requests.antt` the calls that are no asks, `Asks.antt` those of asks, and `Owed.antt` says that
//! what was made is this, and nothing else. `Differences.antt` has what a watchdog tells.
//!
//! True, in `proofs/`: a member that enters the next run of the history, with replies that are
//! those of the history, performs that run. `Histories.antt` has what the laws of histories say of
//! one ask, `OneRun.antt` that a run goes on as in the history, `Standing.antt` what each act of a
//! performer keeps of a record that stands. What is read of a message that was written is what was
//! meant, so that what is accepted is true: `Accepting/` has headers (`Heads.antt`, `Calls.antt`,
//! `Returns.antt`, `Tables.antt`), values behind them (`Arguments.antt`, `Outcomes.antt`,
//! `States.antt`), that what is accepted can happen (`Can.antt`), that of true messages it is true
//! (`True.antt`) and can happen (`TrueCan.antt`), and that true messages can be sent
//! (`Sendable.antt`). `grammar` has that what is read of bytes is what they spell, and which
//! messages are accepted, by their grammar (`Spelled.antt`, `Rules.antt`). The other files have
//! that a step of a member keeps what is true of it, and that what it makes is true;
//! `specs/Ranges.antt` says what a member has room for.
//!
//! In time: `laws` has this. `specs/Living.antt` says which pasts a member lives, and what it is
//! behind one, and `Counting.antt` what counts for a collator. In `proofs/Timely/`, `Firsts.antt` has
//! what was given first along a past, `Calls.antt` and `Replies.antt` that what a member holds, and
//! what was said to an ask that waits, gives what all that came gives, `Phases.antt` and `Known.antt`
//! that it knows and is what its past says, `Runs.antt`, `Open.antt`, `Turned.antt` and `Going.antt`
//! what each act within a step keeps, `Rests.antt` what holds between two steps, and `Lived.antt` the
//! sum. `Starts.antt` has how a run is entered by a call, and `Unanimity.antt` and `Counted.antt`
//! what is meant by a value that all have said, by those that are expected to say one, and by a call
//! that counts.
#![tactic(auto)]

mod grammar;
mod laws;

pub use grammar::{
    calls_are_accepted_by_rules, headers_are_read_by_their_fields, returns_are_accepted_by_rules,
    values_are_read_by_their_spelling,
};
pub use laws::{
    calls_of_known_views_count, nothing_comes_late_or_early, runs_are_entered_as_called,
    those_that_perform_are_expected, unanimous_values_are_said_by_all, words_say_what_they_mean,
};
