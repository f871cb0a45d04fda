//! Schedules as text: one event a line, words with one blank between, a space or a tab. The grammar is the relation
//! `Spells` of `specs/Schedule.antt` between a text and its events, each with the number of its line;
//! `specs/Events.antt` and `specs/Bodies.antt` have the words of each event and of each body. `Lines`,
//! `Words` and `call_of` are what a reader of another kind of script is made of.
#![tactic(auto)]

mod arguments;
mod body;
mod event;
pub mod laws;
mod lines;
mod schedule;
mod verb;
mod words;

pub use body::{CallLine, PAD_BYTES_MAX, call_of};
pub use event::Event;
pub use lines::Lines;
pub use octets::{Memory, Octets};
pub use schedule::{Events, Placed, SchedFault, read};
pub use words::Words;
