//! Scripts as text: one call a line, in the words of a schedule's `call` behind the client. The lines and
//! the words are those of `sched_text`; `specs/Scripts.antt` has what a text spells.
#![tactic(auto)]

pub mod laws;
mod script;

pub use octets::{Memory, Octets};
pub use script::{Script, ScriptCall, ScriptFault, read_script};
