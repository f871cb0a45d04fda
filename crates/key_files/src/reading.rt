//! A key file as a ring, and why there is none.

ghost use Rattle.std.specs.Prelude.{◌≡◌, ◌≢◌, ◌<◌, Err, IfOk, IfSome, IsSome, IsSomeAnd, MatchOption};
ghost use Rattle.key_files.specs.Files.{AsksOnce, CountsBy, GivesBy, line_of, not_read, refused_at};

use auth_keys::{KeyFault, Ring};
use itoa::Buffer;
use mt_edge::{FileGot, KeyFiles};
use octets::{Memory, Octets};
use std::alloc::Global;
use thiserror::Error;

/// Why there is no ring.
#[derive(Clone, Copy, Debug, PartialEq, Eq, Error)]
pub enum KeysFault {
    /// The key file can't be read.
    #[error("key file not read")]
    Unread,
    /// Its text is no ring: the first fault is on this line, counted from 1.
    #[error("key file refused at line {line}")]
    Refused {
        /// The line's number.
        line: u32,
    },
    /// Memory ran out.
    #[error("out of memory")]
    Memory,
}

/// The ring of the key file of this name, which is asked for once, as no other is.
///
/// # Errors
///
/// `Unread`, and then one more fault of the files was counted; `Refused`; `Memory`.
pub fn read_ring<F: KeyFiles>(alloc: Global, name: &str, files: &mut F) -> Result<Ring, KeysFault>
    ensures gives { GivesBy (F.told files.old) name.now result }
    ensures asked { IfSome (F.told files.new) (λ after. IsSomeAnd (F.told files.old) (λ before. AsksOnce name.now before after)) }
    ensures still_tells { IsSome (F.told files.old) → result ≢ Err KeysFault.Memory → 0 < F.room files.old → IsSome (F.told files.new) }
    ensures counted { CountsBy result (F.faults files.old) (F.faults files.new) }
{
    match files.read(alloc, name) {
        FileGot::Contents(text) => match Ring::read(alloc, text.as_slice()) {
            Ok(ring) => Ok(ring),
            Err(fault) => Err(keys_fault(fault)),
        },
        FileGot::Failed => Err(KeysFault::Unread),
        FileGot::Memory => Err(KeysFault::Memory),
    }
}

/// The fault of a key file whose text has this fault.
fn keys_fault(fault: KeyFault) -> KeysFault
    ensures { MatchOption (line_of fault) (result ≡ KeysFault.Memory) (λ line. result ≡ KeysFault.Refused line) }
{
    match fault {
        KeyFault::BadLine { line } => KeysFault::Refused { line },
        KeyFault::TooMany { line } => KeysFault::Refused { line },
        KeyFault::SameId { line, .. } => KeysFault::Refused { line },
        KeyFault::Memory => KeysFault::Memory,
    }
}

/// The line that tells that a key file can't be read.
pub fn unread_line() -> &'static [u8]
    ensures { result.now ≡ not_read }
{
    b"key file not read\n"
}

/// The line that tells at which of its lines a key file is refused.
///
/// # Errors
///
/// `Memory`.
pub fn refused_line(alloc: Global, line: u32) -> Result<Octets, Memory>
    ensures { IfOk result (λ text. text ≡ refused_at line) }
{
    let mut text = Octets::copy(alloc, b"key file refused at line ")?;
    let mut buffer = Buffer::new();
    text.push_all(alloc, buffer.format(line).as_bytes())?;
    text.push_all(alloc, b"\n")?;
    Ok(text)
}
