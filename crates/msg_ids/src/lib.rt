//! Moments, and the numbers and seqs that a sender gives to its messages
//! (core.telegram.org/mtproto/description, "Message Identifier" and "Message Sequence Number").
//!
//! Contracts see a `Moment` as its seconds and `Numbers` as its two counters; `next_number` and `seq_of` of
//! `specs/Counters.antt` say what is given. Nothing here takes memory.
#![tactic(auto)]

pub mod laws;
mod moment;
mod numbers;

pub use moment::Moment;
pub use numbers::Numbers;
