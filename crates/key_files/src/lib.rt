//! The key file of a command: it is read whole, once, by its name, and its text is a ring of keys, or has its first fault on a
//! line. What these words mean is `specs/Files.antt`.
#![tactic(auto)]

mod reading;

pub use reading::{KeysFault, read_ring, refused_line, unread_line};
