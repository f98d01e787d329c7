//! The copies agree: in a world that lines lead to, every active record stands in the history of the
//! unreplicated program, and every message that cites it is true.
//!
//! `laws` says it, over `specs/Worlds.antt` and `specs/Agreeing.antt`. In `proofs/`, `True.antt` has what is true
//! of a node, and `Making.antt` that what it makes is true; `Stepping.antt`, `Along.antt` and `Beginning.antt`
//! say that this holds behind each step, along lines and at boot. `Booted.antt` has what a world that has
//! booted consists of, and `Lawful.antt` a world of behaviours as one of lawful modules; `ActsAlike.antt` says that the same
//! happens at the pairs of both.
//!
//! The border: nothing that a node makes is dropped there, and what was handed over was made in one
//! of its steps (`laws::border`, over `specs/Made.antt`; proofs in `proofs/Border/`).
//!
//! In time: nothing that a member does comes late or early, whatever comes to its node, and so in
//! every such world (`laws::timely`). `specs/Happened.antt` says what happens to the member of a node
//! by what comes to the node, and the past of that along lines, `NodeLives.antt` a node by itself to
//! which anything may come, and `InTime.antt` what is timely. In `proofs/Timely/`, `Octets.antt` and
//! `Wires.antt` have that what arrives at the pairs is bytes, so that what is accepted can happen and
//! is in range (`Ranges.antt`); `Lives.antt` and `Nodes.antt` that a member is what its past makes of
//! it, step by step; and `Once.antt` and `Callers.antt` that no two calls of that past are of one
//! caller. In a world what comes is true, and can happen therefore (`Heard.antt`); `Lines.antt` and
//! `Worlds.antt` go along its lines, and `PastsAlike.antt` and `Plain.antt` carry it over to worlds of
//! behaviours.
//!
//! Where nothing is lost everything that is handed over arrives, and every root ends
//! (`laws::quiescence`; proofs in `proofs/Quiescence/`).
//!
//! What passes between the nodes: each two of them talk as two ends of a pair, and what arrives was handed over
//! (`talk_laws`, over `specs/NodeActs.antt` and `specs/Histories.antt`; proofs in `proofs/Talks.antt` and `proofs/Worlds.antt`).
#![tactic(auto)]

mod laws;
mod talk_laws;

pub use laws::border::{messages_were_made, nothing_is_dropped};
pub use laws::quiescence::{
    all_that_came_arrived, where_all_is_delivered_members_stay,
    where_all_is_delivered_messages_are_asks_and_replies, where_nothing_is_lost_all_arrives,
    where_nothing_is_lost_all_is_told, where_nothing_is_lost_every_root_ends,
    where_nothing_is_repeated_few_are_sent,
};
pub use laws::timely::{node_records_are_timely, plain_records_are_timely, records_are_timely};
pub use laws::{
    messages_are_true, no_difference, plain_messages_are_true, plain_no_difference,
    plain_records_stand, records_stand,
};
pub use talk_laws::{messages_were_handed_over, pairs_stand_for_their_acts, two_nodes_talk};
