//! Writing a reply.

ghost use Rattle.std.specs.Prelude.{◌≡◌, IfOk};
ghost use Rattle.tl_codec.specs.Spelling.{spelling};
ghost use Rattle.regs_service.specs.Replies as replies;
ghost use Rattle.regs_service.specs.Served.{IsReply};

use octets::{Buffer, Memory, Octets};
use service_tl::{Item, write};
use std::alloc::Global;
use tl_codec::fill;

/// The constructor of a reply with a value, which is behind it.
pub const VALUE: u32 = 0x0a1b_2c03;

/// The code of each error.
const ERROR_CODE: u32 = 400;

/// How many bytes a reply with a value has.
const VALUE_BYTES: usize = 12;

/// Why a request is refused.
#[derive(Clone, Copy)]
pub(crate) enum Refusal {
    /// The bytes aren't a request.
    BadRequest,
    /// The sum would pass 2^64 - 1.
    TooLarge,
    /// There are as many names as there may be.
    TooMany,
}

/// The reply with a value.
#[tactic(auto, unfolding(tl_codec::specs::Spelling::spelling))]
pub(crate) fn value_reply(alloc: Global, value: u64) -> Result<Octets, Memory>
    ensures reply { IfOk result (λ reply. reply ≡ replies.value_reply value) }
    ensures sized { IfOk result IsReply }
{
    let mut buffer = Buffer::new(alloc, VALUE_BYTES)?;
    fill::tag(&mut buffer, VALUE);
    fill::long(&mut buffer, value);
    Ok(buffer.into_octets())
}

/// The reply with an error.
#[tactic(auto, unfolding(tl_codec::specs::Spelling::spelling))]
pub(crate) fn error_reply(alloc: Global, refusal: Refusal) -> Result<Octets, Memory>
    ensures reply { IfOk result (λ reply. reply ≡ replies.refused refusal) }
    ensures sized { IfOk result IsReply }
{
    let text: &[u8] = match refusal {
        Refusal::BadRequest => b"BAD_REQUEST",
        Refusal::TooLarge => b"TOO_LARGE",
        Refusal::TooMany => b"TOO_MANY",
    };
    let item = Item::RpcError {
        error_code: ERROR_CODE,
        error_message: Octets::copy(alloc, text)?,
    };
    let mut reply = Octets::new(alloc);
    write(alloc, &item, &mut reply)?;
    Ok(reply)
}
