//! A connection to a server (core.telegram.org/mtproto/mtproto-transports): `serve_one` hands what one connection brings to a
//! desk, and writes what comes of it, until the connection ends.
#![tactic(auto)]

mod conn;
mod heard;
mod line;
mod sending;
mod serve;
mod taking;
mod working;

pub use conn::{Conn, ConnEnd};
pub use serve::serve_one;
