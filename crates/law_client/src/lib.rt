//! What holds of a client of the definitions after every list of events.
//!
//! It keeps at most 1,024 unique numbers and 64 packets (`specs/Bounds.antt`), and its salt is that of a message that came to it
//! (`specs/Salts.antt`). It stands in a world of the law on moves (`StandsAs`), and each of its events is a list of lawful moves,
//! after which the client behind the event stands there.
#![tactic(auto)]

pub mod bounds;
pub mod laws;
