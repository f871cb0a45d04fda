//! Bytes that go into room which the caller lends.

ghost use Rattle.std.specs.Prelude.{◌≡◌, length};
ghost use Rattle.kifzaro.specs.Rooms.{TellsRoom};

use crate::error::Error;

/// Puts bytes at the front of the room, all of them or none, and tells how many there are.
///
/// # Errors
///
/// `TooShort`: the room has fewer bytes, and stays as it was.
pub(crate) fn put(bytes: &[u8], room: &mut [u8]) -> Result<usize, Error>
    ensures told { TellsRoom bytes.now room.old room.new result }
{
    let needed = bytes.len();
    if needed > room.len() {
        return Err(Error::TooShort { needed });
    }
    room[..needed].copy_from_slice(bytes);
    Ok(needed)
}
