//! TL values as bytes, both ways (core.telegram.org/mtproto/serialize): numbers, strings, lists of
//! numbers and constructors. `Reader` lends what it reads from the text; `Writer` writes at the end of
//! octets, and `fill` into room that was taken before. Contracts stand on `Spells` (what a writer gives)
//! and `Reads` (what a reader takes) of `specs/Spelling.antt`.
#![tactic(auto)]

mod fault;
pub mod fill;
pub mod laws;
mod padding;
mod reader;
mod tags;
mod writer;

pub use fault::{FrameFault, TlFault};
pub use octets::{IdList, Memory, Octets};
pub use reader::Reader;
pub use tags::{BOOL_FALSE, BOOL_TRUE, BYTES_MAX, LONGS_MAX, VECTOR};
pub use writer::Writer;
