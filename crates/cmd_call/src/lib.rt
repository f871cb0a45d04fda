//! The command `call`: a script's calls as one batch over connections of a net, and a table of what became of them. What is
//! owed to what was read, in the order of the checks, is `specs/Owed.antt`, and what a run promises `specs/Runs.antt`. Its parts
//! are for a command that gives a client the calls of a script in the same way.
#![tactic(auto)]

mod asking;
mod batching;
mod checking;
mod keys;
pub mod laws;
mod running;
mod telling;

pub use asking::{Untaken, opening, submit_all};
pub use batching::batch_answer;
pub use checking::{key_file_refused, key_file_unread, no_such_key, refused_call};
pub use keys::{Acting, keys_in_ring};
pub use running::run_call;
