//! A client's calls over the connections of a net (core.telegram.org/mtproto/mtproto-transports): `run_batch` connects until
//! each call is decided or too many connections are lost (`specs/Connects.antt`). What each event of a connection makes of the
//! client is `specs/Course.antt`, what is said and heard over a connection `specs/Talks.antt`, and all connections, one after
//! another, are `specs/Trace.antt`.
#![tactic(auto)]

mod batch;
mod calls;
mod connection;
mod end;
mod flushing;
mod hearing;
mod holding;
mod plan;
mod sending;
mod talk;

pub use batch::run_batch;
pub use plan::{Batch, Plan};
