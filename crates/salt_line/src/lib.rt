//! Server salts over time: which salt a server session has, which are valid, and which come next
//! (core.telegram.org/mtproto/description, "Server Salt").
//!
//! A line of salts draws the word of a period when it is first needed. Contracts stand on `Line`, which has all rows
//! that were ever drawn (`specs/Line.antt`); a `SaltLine` keeps those that have not ended, and stands for such a line.
#![tactic(auto)]

pub mod laws;
mod rows;
mod salt_line;

pub use salt_line::{SaltLine, SaltRow};
