//! What holds of a world of servers and clients over every schedule, by the law on moves.
//!
//! A world stands in a world of that law (`WorldStands`) that lawful moves lead to, and so does the world behind each
//! event, which is shown by lists of lawful moves. Beside that stand laws that need no moves: which bytes open, which words
//! are new, and what the service replied.
#![tactic(auto)]

pub mod laws;
