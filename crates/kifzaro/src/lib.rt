//! Both ends of a session, for a program that imports this crate alone: a `Client` and a `Server` with their own ring of keys,
//! seal and draw, and the `Wire` that makes packets of a stream of bytes. None of them does input or output, or asks a clock:
//! bytes and moments come in, bytes go out. What each is, is a client, a server or a wire of the definitions
//! (`specs/Clients.antt`, `specs/Servers.antt`), so that whatever is proved of those holds of it.
#![tactic(auto)]

mod client;
mod error;
mod fitting;
mod given;
mod holding;
pub mod laws;
mod queue;
mod rings;
mod server;
mod telling;
mod words;

pub use auth_keys::KeyFault;
pub use client::Client;
pub use client_core::{CallNo as CallId, CallState, Cause, SubmitFault};
pub use draws::{ChaChaDraw, Draw, Seeded};
pub use envelope::Refusal;
pub use error::Error;
pub use fitting::fits;
pub use msg_ids::Moment;
pub use octets::{Memory, Octets};
pub use server::Server;
pub use server_core::SessionName;
pub use server_output::Out;
pub use transport::{Form, FrameFault, Framed, Next, Raw, RawStep, Wire};
