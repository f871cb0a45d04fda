//! Reading a request.

ghost use Rattle.std.specs.Prelude.{◌≡◌};
ghost use Rattle.std.specs.Option.{option_map};
ghost use Rattle.regs_service.specs.Requests.{is_name, name_of, request_at, request_of};
ghost use Rattle.regs_service.specs.Kept.{asked, Tells};

use tl_codec::{Reader, TlFault};

/// The constructor of a request that adds: a name and an amount are behind it.
pub const ADD: u32 = 0x0a1b_2c01;

/// The constructor of a request that gets: a name is behind it.
pub const GET: u32 = 0x0a1b_2c02;

/// The most bytes of a register's name.
pub const NAME_BYTES_MAX: usize = 32;

/// A request, whose name is lent from its bytes.
#[derive(Clone, Copy)]
pub(crate) enum Request<'a> {
    /// Adds to the sum of a name, which is made where it isn't there.
    Add {
        /// The name.
        name: &'a [u8],
        /// What is added.
        amount: u64,
    },
    /// Asks for the sum of a name.
    Get {
        /// The name.
        name: &'a [u8],
    },
}

/// The request that these bytes are, or none.
pub(crate) fn read<'a>(bytes: &'a [u8]) -> Option<Request<'a>>
    ensures { option_map asked result ≡ request_of bytes.now }
{
    let mut reader = Reader::new(bytes);
    let Ok(request) = front(&mut reader) else {
        return None;
    };
    if reader.end().is_ok() && is_register_name(name(&request)) {
        Some(request)
    } else {
        None
    }
}

// The request at the front of a text.
fn front<'a>(reader: &mut Reader<'a>) -> Result<Request<'a>, TlFault>
    ensures { Tells result reader.new (request_at reader.old) }
{
    let number = reader.int()?;
    let name = reader.bytes()?;
    match number {
        ADD => Ok(Request::Add {
            name,
            amount: reader.long()?,
        }),
        GET => Ok(Request::Get { name }),
        found => Err(TlFault::BadTag { found }),
    }
}

fn name<'a>(request: &Request<'a>) -> &'a [u8]
    ensures { result.now ≡ name_of (asked request.now) }
{
    match request {
        Request::Add { name, amount: _ } => name,
        Request::Get { name } => name,
    }
}

/// Whether the bytes are a register's name: 1 to 32 of `a` to `z` and `0` to `9`.
pub fn is_register_name(bytes: &[u8]) -> bool
    ensures { result ≡ is_name bytes.now }
{
    !bytes.is_empty()
        && bytes.len() <= NAME_BYTES_MAX
        && bytes
            .iter()
            .all(|byte| byte.is_ascii_lowercase() || byte.is_ascii_digit())
}
