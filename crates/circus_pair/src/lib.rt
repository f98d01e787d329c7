//! Paired messages between two nodes: messages are cut into segments, acknowledged, sent again and joined.
//!
//! `pair` is what a node uses, `fault` why a call is not sent. `laws` says what holds after every list of acts.
//! `two_ends` puts two pairs together, whose datagrams come as the caller says: `side` is one of them and `sent` keeps
//! what it has sent. `two_laws` says what holds of both after every list of acts.
//!
//! Segments are those of `circus_segment`, and what an end does is `circus_exchange`.
#![tactic(auto)]

mod fault;
mod laws;
mod pair;
mod sent;
mod side;
mod two_ends;
mod two_laws;

pub use circus_exchange::{Arrived, Taken, Ticked};
pub use circus_segment::{
    ACKNOWLEDGEMENT, CALL, DATA, Datagrams, PLEASE_ACKNOWLEDGE, RETURN, Segment, SegmentFault,
    read_segment,
};
pub use fault::PairFault;
pub use laws::{
    acknowledgements_count_the_segments, acts_send_what_is_owed, arrivals_follow_the_segments,
    calls_are_sent_in_time, calls_are_sent_once, cut_messages_join, datagrams_say_what_is_known,
    ends_know_their_acts, messages_arrive_once, segments_are_taken_by_the_rules,
    sent_messages_arrive, ticks_are_counted, what_is_there_stays,
};
pub use pair::Pair;
pub use two_ends::{Act, TwoEnds, TwoFault};
pub use two_laws::{
    acknowledged_messages_have_arrived, datagrams_are_segments, each_end_is_lawful, two_ends_agree,
    whole_messages_have_arrived,
};
