//! How a run of the program ends: its status, the text that is due for it, and the words in which contracts speak of what
//! the run reads and writes (`specs/Outside.antt`).
#![tactic(auto)]

mod answer;
pub mod laws;
mod status;

pub use answer::{Answer, INPUT_BYTES_MAX, Stop, bad_line, refusal, tell, too_long};
pub use status::Status;
