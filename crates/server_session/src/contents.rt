//! Results, which answer calls (core.telegram.org/mtproto/service_messages, "Response to an RPC query").

ghost use Rattle.std.specs.Prelude.{◌≡◌, ◌++◌, ℕ, List};
ghost use Rattle.service_tl.specs.declared.item.Item.TheVariants.{RpcResult};
ghost use Rattle.service_tl.specs.Items.{spelling_of};

use byteorder::{ByteOrder, LittleEndian};
use outbox::HEAD_BYTES;
use service_tl::RPC_RESULT;

/// The bytes of a constructor.
const CONSTRUCTOR_BYTES: usize = 4;

/// What stands before the content in the result of this call.
pub(crate) fn result_head(call: u64) -> [u8; HEAD_BYTES]
    ensures { (content : List ℕ) → result ++ content ≡ spelling_of (RpcResult call content) }
{
    let mut head = [0; HEAD_BYTES];
    LittleEndian::write_u32(&mut head, RPC_RESULT);
    LittleEndian::write_u64(&mut head[CONSTRUCTOR_BYTES..], call);
    head
}
