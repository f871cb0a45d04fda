//! The journal of a server on a disk: its format, and records that are added one at a time behind a gate.
//!
//! `specs/Format.antt` is the format: what a file spells, and the first place where it is no journal. A record is written
//! behind a closed gate, made sure of, and then its gate is opened, so that a crash at any moment leaves the records that
//! there were, or these and the new one. What a record may be by itself is said here; what it may be behind the records
//! before it is for whoever plays them.
#![tactic(auto)]

mod fault;
mod header;
mod heads;
mod journal;
pub mod laws;
mod opening;
mod reading;
mod records;
mod writes;

pub use fault::JournalFault;
pub use journal::Journal;
pub use opening::Opening;
pub use records::{Event, Record};
