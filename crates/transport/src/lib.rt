//! One wire over all framings, obfuscated or not (core.telegram.org/mtproto/mtproto-transports). A `Wire<Raw>` is a
//! server's end that awaits the first bytes; a `Wire<Framed>` takes pieces, lends packets and writes them. Contracts
//! stand on `Starts` (specs/Starts.antt), and on `Hears` and `Tells` (specs/Wires.antt).
#![tactic(auto)]

mod direction;
mod form;
mod framed;
pub mod laws;
mod raw;
mod start;
mod wire;

pub use form::Form;
pub use framed::Framed;
pub use framing::{FrameFault, Next};
pub use raw::Raw;
pub use start::{form_of_tag, start_of};
pub use wire::{RawStep, Wire};
