//! What is told of a body, or of the content of a result, by its constructor alone.

ghost use Rattle.std.specs.Prelude.{◌≡◌};
ghost use Rattle.service_tl.specs.Results.{constructor_of, is_good, is_good_beginning};

use crate::numbers::{RPC_ANSWER_DROPPED_RUNNING, RPC_ERROR};
use byteorder::{ByteOrder, LittleEndian};

/// The bytes of a constructor.
const CONSTRUCTOR_BYTES: usize = 4;

/// The constructor that begins a body; none where it has fewer than 4 bytes.
pub fn constructor_of(body: &[u8]) -> Option<u32>
    ensures { result ≡ constructor_of body.now }
{
    if body.len() < CONSTRUCTOR_BYTES {
        return None;
    }
    Some(LittleEndian::read_u32(body))
}

/// Whether a call that is answered so is answered well: the content begins with neither `rpc_error` nor
/// `rpc_answer_dropped_running`.
pub fn is_good(content: &[u8]) -> bool
    ensures { result ≡ is_good content.now }
{
    match constructor_of(content) {
        Some(number) => number != RPC_ERROR && number != RPC_ANSWER_DROPPED_RUNNING,
        None => true,
    }
}
