//! What stands at a place of a file.

ghost use Rattle.std.specs.Prelude.{◌≡◌, ◌<◌, ◌≤◌, ◌+◌, ◌-◌, ◌^◌, ◌++◌, ◌∷◌, [], length, take, drop, IfOk, IfErr, OnOk, IfSome, IfNone};
ghost use Rattle.sess_records.specs.Format.{HasRecord, IsRecord, size_of};
ghost use Rattle.sess_records.specs.Calls.{HasCause, IfNotJournal};
ghost use Rattle.sess_records.specs.Steps.{IsAt, IsNotRefused, MayHave, head_bytes};

use crate::fault::JournalFault;
use crate::heads::{COUNTED_BYTES, HEAD_BYTES, Head, event_of, head_of, may_have, zeros};
use crate::records::Record;
use disks::Disk;
use mt_edge::Act;
use octets::Octets;
use std::alloc::Global;

/// A record that was found.
#[derive(Drop)]
pub(crate) struct Found {
    /// The record.
    pub(crate) entry: Record,
    /// The gate behind it.
    pub(crate) gate: u8,
    /// The place behind that gate.
    pub(crate) next: u64,
}

/// The front of the record at a place of a file of this length, where it may be one: no record has fewer bytes, or more
/// than are left, or others than its kind has.
fn head_at<K: Disk>(disk: &mut K, at: u64, len: u64) -> Result<Option<Head>, JournalFault>
    requires inside { at ≤ len }
    requires whole { IfSome (K.told disk.old) (λ file. len ≡ length file.contents) }
    ensures head { IfOk result (λ found. IfSome found (λ head. IfSome (K.told disk.old) (λ file. take 21 (drop at file.contents) ≡ head_bytes head))) }
    ensures fits { IfOk result (λ found. IfSome found (λ head. (17 ≤ head.size) × (at + (head.size + 4) < len))) }
    ensures kind { IfOk result (λ found. IfSome found (λ head. MayHave head.kind (head.size - 17))) }
    ensures ranges { IfOk result (λ found. IfSome found (λ head. (head.size < 2 ^ 32) × (head.moment < 2 ^ 64) × (head.place < 2 ^ 64))) }
    ensures none { IfOk result (λ found. IfNone found (IfSome (K.told disk.old) (λ file. HasRecord (drop at file.contents) → ⊥))) }
    ensures cause { IfErr result (λ fault. (fault ≡ JournalFault.Disk) × HasCause fault (K.faults disk.old) (K.faults disk.new)) }
    ensures counted { OnOk result (K.faults disk.new ≡ K.faults disk.old) }
    ensures told { K.told disk.new ≡ K.told disk.old }
    ensures same_place { K.place disk.new ≡ K.place disk.old }
{
    let left = len - at;
    if left <= HEAD_BYTES as u64 {
        return Ok(None);
    }
    let mut bytes = [0; HEAD_BYTES];
    let Act::Ready = disk.read(at, &mut bytes) else {
        return Err(JournalFault::Disk);
    };
    let head = head_of(&bytes);
    if head.size < COUNTED_BYTES {
        return Ok(None);
    }
    if left <= head.size as u64 + 4 {
        return Ok(None);
    }
    if !may_have(head.kind, (head.size - COUNTED_BYTES) as usize) {
        return Ok(None);
    }
    Ok(Some(head))
}

/// The rest of the record at a place, so many bytes behind its front, and the gate behind it.
fn rest_at<K: Disk>(
    alloc: Global,
    disk: &mut K,
    at: u64,
    count: usize,
    len: u64,
) -> Result<(Octets, u8), JournalFault>
    requires inside { at + (count + 21) < len }
    requires whole { IfSome (K.told disk.old) (λ file. len ≡ length file.contents) }
    ensures rest { IfOk result (λ found. IfSome (K.told disk.old) (λ file. take (count + 1) (drop (at + 21) file.contents) ≡ found.0 ++ found.1 ∷ [])) }
    ensures count { IfOk result (λ found. length found.0 ≡ count) }
    ensures cause { IfErr result (λ fault. IsNotRefused fault × HasCause fault (K.faults disk.old) (K.faults disk.new)) }
    ensures counted { OnOk result (K.faults disk.new ≡ K.faults disk.old) }
    ensures told { K.told disk.new ≡ K.told disk.old }
    ensures same_place { K.place disk.new ≡ K.place disk.old }
{
    let mut bytes = zeros(alloc, count + 1)?;
    let Act::Ready = disk.read(at + HEAD_BYTES as u64, &mut bytes) else {
        return Err(JournalFault::Disk);
    };
    let gate = bytes[count];
    bytes.truncate(count);
    Ok((Octets::from(bytes), gate))
}

/// The record at a place of a file of this length, and the gate behind it. It is read in two pieces, and takes memory for
/// its own bytes alone, once it is known that an event of its kind may have them.
pub(crate) fn record_at<K: Disk>(
    alloc: Global,
    disk: &mut K,
    at: u64,
    len: u64,
) -> Result<Found, JournalFault>
    requires inside { at ≤ len }
    requires whole { IfSome (K.told disk.old) (λ file. len ≡ length file.contents) }
    ensures found { IfOk result (λ found. IfSome (K.told disk.old) (λ file. IsAt found.entry found.gate at file.contents)) }
    ensures lawful { IfOk result (λ found. IsRecord found.entry) }
    ensures next { IfOk result (λ found. found.next ≡ at + size_of found.entry.event) }
    ensures inside { IfOk result (λ found. (at < found.next) × (found.next ≤ len)) }
    ensures refused { IfErr result (λ fault. IfNotJournal fault (λ place. (place ≡ at) × IfSome (K.told disk.old) (λ file. HasRecord (drop at file.contents) → ⊥))) }
    ensures cause { IfErr result (λ fault. HasCause fault (K.faults disk.old) (K.faults disk.new)) }
    ensures counted { OnOk result (K.faults disk.new ≡ K.faults disk.old) }
    ensures told { K.told disk.new ≡ K.told disk.old }
    ensures same_place { K.place disk.new ≡ K.place disk.old }
{
    let Some(head) = head_at(disk, at, len)? else {
        return Err(JournalFault::NotJournal { at });
    };
    let count = (head.size - COUNTED_BYTES) as usize;
    let (rest, gate) = rest_at(alloc, disk, at, count, len)?;
    let event = event_of(head.kind, rest);
    Ok(Found {
        entry: Record {
            moment: head.moment,
            place: head.place,
            event,
        },
        gate,
        next: at + (count + HEAD_BYTES) as u64 + 1,
    })
}
