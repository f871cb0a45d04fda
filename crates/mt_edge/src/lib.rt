//! The outside as traits: what a program reads from and writes to, told or not, with a count of faults.
//!
//! Each trait has a form in memory for tests, whose pieces and failures are chosen, and an adapter over
//! std. The adapters are the trusted edge: a source and a sink tell what their reader and writer tell, the others nothing of what
//! they carry.
#![tactic(auto)]

mod act;
mod answers;
mod child_kids;
mod clock;
mod disk_files;
mod faults;
mod key_files;
mod kid_call;
mod lines;
mod link;
mod link_read;
mod list_clock;
mod mem;
mod mem_files;
mod mem_kids;
mod mem_link;
mod mem_net;
mod net;
mod net_call;
mod sink;
mod source;
mod spawner;
mod standard;
mod system_clock;
mod tcp;
mod told;
mod whole;
mod words;

pub use act::Act;
pub use child_kids::ChildKids;
pub use clock::Clock;
pub use disk_files::DiskFiles;
pub use draws::{ChaChaDraw, Draw, Seeded, StepDraw, draw_bytes};
pub use faults::raised;
pub use key_files::{FileGot, KeyFiles, NamedFile};
pub use kid_call::KidCall;
pub use link::Link;
pub use link_read::LinkRead;
pub use list_clock::ListClock;
pub use mem::{MemSink, MemSource};
pub use mem_files::MemFiles;
pub use mem_kids::{MemKid, MemKids};
pub use mem_link::MemLink;
pub use mem_net::MemNet;
pub use net::{Linked, Net};
pub use net_call::{NetCall, Outcome};
pub use sink::{Put, Sink};
pub use source::{Got, Source};
pub use spawner::{Line, Spawner};
pub use standard::{ReadSource, WriteSink};
pub use system_clock::SystemClock;
pub use tcp::{TcpLink, TcpNet, act_of, after_act};
pub use told::LinkTold;
pub use whole::{ReadFault, WriteFault, read_all, write_all};
pub use words::Words;
