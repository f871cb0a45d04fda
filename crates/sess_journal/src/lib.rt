//! A server whose sessions outlive a crash: what it does is recorded in a journal on a disk, and who opens that journal
//! plays the records again.
//!
//! [`Kept::create`] makes one with a new journal, and [`Kept::open`] plays the records that a disk spells, and answers a run
//! that was cut off. A packet, a tick and an attach are stepped, recorded, and then answered; of a run its begin is recorded
//! before it and its reply behind it. `specs/Replay.antt` says which record is lawful in its place and which server records lead
//! to, `specs/Files.antt` what the first place of a file is where no lawful one stands. Whatever a crash at any moment of such a call leaves is a journal, and whoever opens it has the server of every event that
//! was answered ([`laws::what_comes_back`]). So it is of an opening, and whatever happens to a new journal by such servers,
//! openings and crashes, none refuses it ([`laws::journals_stay_journals`]).
#![tactic(auto)]

mod as_desk;
mod book;
mod desk;
mod kept;
pub mod laws;
mod played;
mod recorded;
mod runs;
mod staging;

pub use book::JOURNAL_BYTES_MAX;
pub use kept::Kept;
pub use sess_records::JournalFault;
