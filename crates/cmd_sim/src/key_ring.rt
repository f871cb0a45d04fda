//! The keys of the world of `sim`.

ghost use Rattle.std.specs.Prelude.{◌≡◌, IfOk};
ghost use Rattle.cmd_sim.specs.KeysOfSim.{ascending, descending, file_of, key_file, sim_ring};

use auth_keys::laws::one_reading;
use auth_keys::{KeyFault, Ring};
use octets::{Memory, Octets};
use std::alloc::Global;

/// The bytes of a key.
const KEY_BYTES: usize = 256;

/// The permanent key of the bytes 0 to 255, and the temporary key of the bytes 255 to 0, which expires at 7,200.
pub(crate) fn sim_keys(alloc: Global) -> Result<Ring, Memory>
    ensures { IfOk result (λ ring. ring ≡ sim_ring) }
{
    one_reading();
    let text = key_text(alloc)?;
    match Ring::read(alloc, text.as_slice()) {
        Ok(ring) => Ok(ring),
        Err(fault) => {
            // The text is that of a ring, so no other fault comes.
            prove!(matches!(fault, KeyFault::Memory));
            Err(Memory)
        }
    }
}

/// The key file of these two.
fn key_text(alloc: Global) -> Result<Octets, Memory>
    ensures { IfOk result (λ text. text ≡ key_file) }
{
    let permanent = hex::encode(alloc, ascending_bytes().as_slice())?;
    let temporary = hex::encode(alloc, descending_bytes().as_slice())?;
    text_of(alloc, permanent.as_str(), temporary.as_str())
}

/// The key file of keys of these digits.
fn text_of(alloc: Global, permanent: &str, temporary: &str) -> Result<Octets, Memory>
    ensures { IfOk result (λ text. text ≡ file_of permanent.now temporary.now) }
{
    let mut text = Octets::new(alloc);
    text.push_all(alloc, b"perm ")?;
    text.push_all(alloc, permanent.as_bytes())?;
    text.push_all(alloc, b"\ntemp 7200 ")?;
    text.push_all(alloc, temporary.as_bytes())?;
    text.push_all(alloc, b"\n")?;
    Ok(text)
}

/// The bytes 0 to 255.
fn ascending_bytes() -> [u8; KEY_BYTES]
    ensures { result ≡ ascending }
{
    let mut bytes = [0; KEY_BYTES];
    for place in 0..KEY_BYTES {
        bytes[place] = place as u8;
    }
    bytes
}

/// The bytes 255 to 0.
fn descending_bytes() -> [u8; KEY_BYTES]
    ensures { result ≡ descending }
{
    let mut bytes = ascending_bytes();
    bytes.reverse();
    bytes
}
