//! Theory: a node by itself is a node run, whatever comes to it, and what is promised of a whole run, over what a report shows of it.
//!
//! `laws` says it. `specs/Trace.antt` says what a trace says of a node and of its pairs, `NodeRun.antt` when a trace and a record are a
//! node run, without the state of a member or of a node, and `Lived.antt` which trace a node leaves that boots and steps; `ServedRun.antt`
//! when what happened to a served node is one. `Events.antt` says what lines give to a node, `Legality.antt` which line may stand behind
//! others, `Sendings.antt` what a node sent and gave, `RingRun.antt` when a trace is a run of the Ringmaster's node, and `Headline.antt`
//! puts them together; `Coming.antt` says what comes to a node of a world. `Numbers.antt` says that each call along a trace has a number.
//!
//! In `proofs/`, node runs: what arrives and is accepted (`Accepting.antt`), what is handed over and given (`Handing.antt`, `Sends.antt`),
//! what a record says alike as it grows (`Asks.antt`, `Growing.antt`, `Since.antt`), event by event (`Course.antt`) to the end
//! (`Theorem.antt`); `Stood.antt` has it of nodes that stand for a trace, and of a step in which no number is left; `One.antt` has that
//! there is one record for what happened, `Agree.antt` and `Alike.antt` that two records agree as far as their pasts do, `OneRun.antt`
//! that there is one run for given events, `Served.antt` and `PlainServed.antt` go along the takes of a served node. Whole runs: what a
//! line is to a node (`Walks.antt`), what lines are (`Along.antt`), and how the node began (`Boots.antt`); that all that is sent is bytes
//! (`Spelled.antt`, `Octets.antt`), so that each node lives by itself (`Worlds.antt`); that lines are legal (`Legality.antt`); what comes
//! to the Ringmaster's node (`Ring.antt`); the headline of worlds (`Headlines.antt`, `Runs.antt`), and of worlds of behaviours
//! (`Plain.antt`).
//!
//! What a member makes in a step is owed in it, and nothing else (`laws::owed`). `specs/Owed/Living.antt`
//! says what a member has made, and told, by the end of a past. In `proofs/Owed/`, `Going.antt` says
//! what an execution keeps, `Booting.antt` what holds at boot, `Links.antt`, `Grown.antt`,
//! `Stays.antt` and `Entries.antt` what is made of the record, `Callers.antt`, `Distinct.antt`,
//! `Handling.antt`, `Waiting.antt` and `Moments.antt` how a caller fares before an execution and in
//! it, `Coming.antt`, `Lives.antt` and `Status.antt` what the record then says. `Returned.antt` has the
//! sum for calls, `States.antt` for state requests, `Wants.antt`, `Owing.antt` and `Requesting.antt`
//! that for the calls that are no asks, and `Opening.antt`, `CallsOwing.antt` and `Calling.antt` that
//! for the calls of asks. `Differing.antt` and `Telling.antt` have that differences are told, and
//! `Ordering.antt` in which order all of it is made. `specs/Owed/OrderedMakes.antt` says of a trace
//! what was made at boot, and how runs stand; `OrderedParts.antt`, `OrderedReturns.antt` and
//! `OrderedMakes.antt` have that what is made in its order is what is owed, and `OrderedStarts.antt`
//! that runs stand in the order of their starts.
//!
//! So it is with what a node makes and tells in its steps, whatever comes to it, and in every world
//! (`laws::node_owed`). `specs/Owed/Makes.antt` says what a node makes, tells and hands over, by itself
//! and along lines of a world, and `Owes.antt` that it is what is owed. `Making.antt` has that a step
//! of a node makes what its member makes, `Nodes.antt` goes along events, `Worlds.antt` along lines,
//! and `Handing.antt` has that nothing of it is dropped.
//!
//! Every datagram that a node sends is justified, and in a world it is true (`laws::datagrams`).
//! In `specs/Datagrams/`, `Sendings.antt` says why an end of a pair sends a datagram, `Due.antt` which
//! cause each call and each return of a member has, and `TrueDatagram.antt` puts the two together;
//! `Ring.antt` does so for the Ringmaster's node, `Lives.antt` has a node by itself, and `Worlds.antt`
//! a world. In `proofs/Datagrams/`, `Sent.antt` and `AtPairs.antt` have what the pairs send.
//! `Returning.antt`, `Requested.antt` and `Asked.antt` read the causes off what is owed;
//! `Membership.antt` has lists. `Course.antt` says what a node keeps as it goes on, `Justifying.antt`
//! that what it sends then is justified, and `Theorem.antt` has its life. `Tables.antt` has the
//! Ringmaster, `WorldCourse.antt` and `WorldTheorem.antt` go along the lines of a world.
//!
//! Which returns a record accepts, by their grammar, `laws::rules` says (`proofs/Rules.antt`).
//!
//! What a report shows of a run, without the step of a node, is in `specs/Facts.antt`: the datagrams,
//! each member's record, who crashed and when, and the Ringmaster's views; and what it means that the
//! copies in it agree, and that its roots have ended. `proofs/Told.antt` has that the facts of a world
//! are told by its report, and `laws::ended` where roots have ended (`proofs/Ended.antt`).
#![tactic(auto)]

mod laws;

pub use laws::datagrams::{datagrams_are_justified, datagrams_are_true, tables_are_justified};
pub use laws::ended::{
    enough_deliveries_show_ended_roots, few_deliveries_leave_some, quiet_worlds_show_ended_roots,
};
pub use laws::node_owed::{
    each_call_comes_once, node_makes_what_is_owed, steps_give_differences,
    worlds_hand_over_what_is_made, worlds_make_what_is_owed,
};
pub use laws::owed::{
    calls_are_owed, calls_are_the_same_that_say_the_same, calls_go_to_whom_they_are_owed,
    differences_are_told, order_says_what_is_made, requests_are_owed, returns_are_owed,
    steps_are_in_order,
};
pub use laws::rules::returns_are_accepted_by_records;
pub use laws::{
    calls_have_numbers, every_core_is_a_node_run, every_node_is_a_node_run,
    nodes_get_what_lines_give, nodes_of_worlds_live, nodes_send_what_they_give,
    plain_served_nodes_are_node_runs, plain_worlds_keep_the_headline, served_nodes_are_node_runs,
    spent_nodes_have_no_run, there_is_one_record, there_is_one_run, worlds_keep_the_headline,
};
