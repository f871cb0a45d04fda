//! The header of a file.

ghost use Rattle.std.specs.Prelude.{◌≡◌, ◌≢◌, ◌≤◌, ◌<◌, ◌+◌, ◌^◌, ◌++◌, ℕ, List, length, take, IfOk, IfErr, OnOk, IfSome, IsSomeAnd, IsTrue, ◌↔◌, MatchOption, is_some};
ghost use Rattle.sess_records.specs.Crashes.{Leaves};
ghost use Rattle.sess_records.specs.Format.{HasHeader, magic};
ghost use Rattle.sess_records.specs.Calls.{HasCause, IfNotJournal};
ghost use Rattle.sess_records.specs.Steps.{Finds, header_of};

use crate::fault::JournalFault;
use crate::writes::{CLOSED, settle};
use disks::{Disk, DiskLen};
use mt_edge::Act;

/// How many bytes a header has, with its gate.
pub(crate) const HEADER_BYTES: usize = 41;

/// What a header begins with.
const MAGIC: [u8; 8] = *b"mtpsess1";

/// A header of this seed, with a closed gate.
pub(crate) fn header_of(seed: &[u8; 32]) -> [u8; HEADER_BYTES]
    ensures { result ≡ header_of seed.now }
{
    let mut header = [CLOSED; HEADER_BYTES];
    header[..8].copy_from_slice(&MAGIC);
    header[8..40].copy_from_slice(seed);
    header
}

/// What stands at the front of a file.
#[derive(Clone, Copy)]
pub(crate) struct Front {
    pub(crate) len: u64,
    pub(crate) seed: [u8; 32],
    pub(crate) gate: u8,
}

/// Whether these are the first letters of a journal.
#[tactic(auto, unfolding(crate::specs::Format::magic))]
fn is_magic(front: &[u8]) -> bool
    ensures { IsTrue result ↔ (front.now ≡ magic) }
{
    front == MAGIC.as_slice()
}

/// The seed behind the first letters, where these begin a journal.
fn seed_in(header: &[u8; HEADER_BYTES]) -> Option<[u8; 32]>
    ensures { MatchOption result (take 8 header.now ≢ magic) (λ seed. take 40 header.now ≡ magic ++ seed) }
{
    if !is_magic(&header[..8]) {
        return None;
    }
    let mut seed = [0; 32];
    seed.copy_from_slice(&header[8..40]);
    Some(seed)
}

/// Makes sure of a disk as it stands, and reads its header.
pub(crate) fn look<K: Disk>(disk: &mut K) -> Result<Front, JournalFault>
    ensures found { IfOk result (λ front. IfSome (K.told disk.old) (λ before. IsSomeAnd (K.told disk.new) (λ after. Finds front before after))) }
    ensures inside { IfOk result (λ front. (41 ≤ front.len) × (front.len < 2 ^ 63)) }
    ensures tells { is_some (K.told disk.new) ≡ is_some (K.told disk.old) }
    ensures refused { IfErr result (λ fault. IfNotJournal fault (λ at. (at ≡ 0) × IfSome (K.told disk.old) (λ before. HasHeader before.contents → ⊥))) }
    ensures unchanged { IfErr result (λ fault. IfNotJournal fault (λ _. IfSome (K.told disk.old) (λ before. IsSomeAnd (K.told disk.new) (λ after. after.contents ≡ before.contents)))) }
    ensures not_memory { IfErr result (λ fault. fault ≢ JournalFault.Memory) }
    ensures cause { IfErr result (λ fault. HasCause fault (K.faults disk.old) (K.faults disk.new)) }
    ensures counted { OnOk result (K.faults disk.new ≡ K.faults disk.old) }
    ensures same_place { K.place disk.new ≡ K.place disk.old }
    ensures any_moment { IfSome (K.told disk.old) (λ before. IsSomeAnd (K.told disk.new) (λ after. Leaves before after (λ left. left ≡ before.contents))) }
{
    let Act::Ready = settle(disk) else {
        return Err(JournalFault::Disk);
    };
    let DiskLen::Len(len) = disk.len() else {
        return Err(JournalFault::Disk);
    };
    if len < HEADER_BYTES as u64 {
        return Err(JournalFault::NotJournal { at: 0 });
    }
    let mut header = [0; HEADER_BYTES];
    let Act::Ready = disk.read(0, &mut header) else {
        return Err(JournalFault::Disk);
    };
    let Some(seed) = seed_in(&header) else {
        return Err(JournalFault::NotJournal { at: 0 });
    };
    let gate = header[40];
    Ok(Front { len, seed, gate })
}
