//! Headers of messages: who calls what, how a call is answered, and the bytes of both.
//!
//! `call` has the headers of call messages and `answer` those of return messages. `reading` reads them from
//! a slice or from parts, `writing` writes them, and `laws` says that bytes have one answer.
#![tactic(auto)]

mod answer;
mod call;
mod header_fault;
mod laws;
mod party;
mod reading;
mod writing;

pub use answer::{Reply, ReturnHeader};
pub use call::{Call, CallHeader, Request};
pub use header_fault::HeaderFault;
pub use laws::{
    equal_replies_are_the_same, headers_are_read, no_header_begins_another, one_answer,
};
pub use reading::{long, read_call, read_call_parts, read_return, read_return_parts, word};
pub use writing::{ask_bytes, push_long, push_word, reply_bytes, write_call, write_return};
