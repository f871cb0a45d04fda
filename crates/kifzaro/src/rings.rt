//! Rings of keys, read from the text of a key file.

ghost use Rattle.std.specs.Prelude.{◌≡◌, IfErr, IfOk, IsSome, MatchResult, None, OnOk, Some};
ghost use Rattle.auth_keys.specs.KeyFile.{IsRingOf};
ghost use Rattle.auth_keys.specs.Rings.{entry_of, kind_in};
ghost use Rattle.kifzaro.specs.Clients.{IsNoClient, fault_as_temp, perm_fault, temp_fault};
ghost use Rattle.kifzaro.specs.Errors.{IsKeysError};

use crate::error::Error;
use auth_keys::{KeyKind, Ring};
use envelope::{MtSeal, Seal};
use std::alloc::Global;

/// A key file's text has fewer bytes.
const TEXT_BYTES_LIMIT: usize = 1 << 32;

/// The seal of the ring of a key file's text.
///
/// # Errors
///
/// `LongKeys`, it has 2^32 bytes or more; `Keys`, why it isn't a key file; `Memory`.
pub(crate) fn seal_of(alloc: Global, keys: &[u8]) -> Result<MtSeal, Error>
    ensures ring { IfOk result (IsRingOf keys.now) }
    ensures fault { IfErr result (IsKeysError keys.now) }
{
    let len = keys.len();
    if len >= TEXT_BYTES_LIMIT {
        return Err(Error::LongKeys { len });
    }
    Ok(MtSeal::new(Ring::read(alloc, keys)?))
}

/// The same for a client under a permanent key, which has to be there.
///
/// # Errors
///
/// As of [`seal_of`]; `NoKey` or `NotPermanent`.
pub(crate) fn seal_with_perm(alloc: Global, keys: &[u8], key: u64) -> Result<MtSeal, Error>
    ensures ring { IfOk result (IsRingOf keys.now) }
    ensures kind { IfOk result (λ seal. perm_fault key seal ≡ None) }
    ensures there { IfOk result (λ seal. IsSome (entry_of key seal)) }
    ensures fault { IfErr result (IsNoClient keys.now (perm_fault key)) }
{
    let seal = seal_of(alloc, keys)?;
    look_at_perm(&seal, key)?;
    Ok(seal)
}

/// The same for a client under a temporary key, which is to be bound to a permanent one: both have to be there.
///
/// # Errors
///
/// As of [`seal_of`]; `NoKey` or `NotTemporary` of the temporary key; `NoKey` or `NotPermanent` of the permanent one.
pub(crate) fn seal_with_temp(
    alloc: Global,
    keys: &[u8],
    temp: u64,
    perm: u64,
) -> Result<MtSeal, Error>
    ensures ring { IfOk result (IsRingOf keys.now) }
    ensures kinds { IfOk result (λ seal. temp_fault temp perm seal ≡ None) }
    ensures there { IfOk result (λ seal. IsSome (entry_of temp seal) × IsSome (entry_of perm seal)) }
    ensures fault { IfErr result (IsNoClient keys.now (temp_fault temp perm)) }
{
    let seal = seal_of(alloc, keys)?;
    look_at_temp(&seal, temp)?;
    look_at_perm(&seal, perm)?;
    Ok(seal)
}

// A key has to be there, and permanent.
fn look_at_perm(seal: &MtSeal, key: u64) -> Result<(), Error>
    ensures fault { MatchResult result (λ _. perm_fault key seal.now ≡ None) (λ error. perm_fault key seal.now ≡ Some error) }
    ensures there { OnOk result (IsSome (entry_of key seal.now)) }
{
    match seal.ring().kind(key) {
        Some(KeyKind::Perm) => Ok(()),
        Some(KeyKind::Temp { .. }) => Err(Error::NotPermanent { key }),
        None => Err(Error::NoKey { key }),
    }
}

// A key has to be there, and temporary.
fn look_at_temp(seal: &MtSeal, key: u64) -> Result<(), Error>
    ensures fault { MatchResult result (λ _. fault_as_temp key (kind_in (entry_of key seal.now)) ≡ None) (λ error. fault_as_temp key (kind_in (entry_of key seal.now)) ≡ Some error) }
    ensures there { OnOk result (IsSome (entry_of key seal.now)) }
{
    match seal.ring().kind(key) {
        Some(KeyKind::Temp { .. }) => Ok(()),
        Some(KeyKind::Perm) => Err(Error::NotTemporary { key }),
        None => Err(Error::NoKey { key }),
    }
}
