//! The words of the program's command line, without the program's own name: one simple command of `clap` for each
//! first word. `specs/Simple.antt` has the options of each, `specs/Values.antt` what their values say and
//! `specs/Says.antt` what the words say as a whole. Words that say no command are refused.
#![tactic(auto)]

mod command;
pub mod laws;
mod page;
mod reading;
mod simple;
mod values;

pub use command::{
    CallOptions, Command, FileName, PairOptions, RelayOptions, Secret, ServeOptions, WordsFault,
};
pub use page::{Page, version};
pub use reading::read;
pub use transport::Form;
