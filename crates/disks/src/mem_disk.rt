//! A file in memory, for tests.

ghost use Rattle.std.specs.Prelude.{◌≡◌, ◌<◌, ◌≤◌, ◌+◌, [], ◌∷◌, ◌++◌, Some, length, take, max, fold, vec_len, vec_capacity, IfOk, IfSome, IsSomeAnd, is_some};
ghost use Rattle.disks.specs.Crash.{MayLeave, after_acts, overwritten, synced_after, synced_at};
ghost use Rattle.disks.specs.Told.{Changes, Syncs, moment, now};
ghost use Rattle.mt_edge.specs.Acts.{Counts as CountsAct};
ghost use Rattle.mt_edge.specs.Faults.{one_more};

use crate::disk::Disk;
use crate::disk_act::DiskAct;
use crate::disk_call::DiskCall;
use crate::disk_len::DiskLen;
use mt_edge::{Act, raised};
use octets::{Buffer, Memory, Octets};
use std::alloc::Global;
use std::fmt;

/// A file in memory. The calls of the given numbers fail, counted together from 1, and so does each one that passes a room
/// or an end. It keeps a record of all calls that it has room for. A write or a cut that fails by its number is an act too,
/// as one that may have been done in part, and changes nothing that a read gives. Its text by `Debug` has no byte of it.
#[derive(Drop)]
pub struct MemDisk {
    first: Octets,
    contents: Vec<u8>,
    bytes_room: usize,
    acts: Vec<DiskAct>,
    recorded: Vec<DiskCall>,
    calls_room: usize,
    spare: Vec<Buffer>,
    failing: Vec<u64>,
    faults: u64,
    place: usize,
    ghost in_room: { vec_len contents ≤ bytes_room },
    ghost bytes_taken: { bytes_room ≤ vec_capacity contents },
    ghost acts_recorded: { vec_len acts ≤ vec_len recorded },
    ghost acts_taken: { calls_room ≤ vec_capacity acts },
    ghost calls_in_room: { vec_len recorded ≤ calls_room },
    ghost calls_taken: { calls_room ≤ vec_capacity recorded },
    ghost possible: { MayLeave (after_acts (synced_at first) acts.items) contents.items },
}

impl fmt::Debug for MemDisk {
    /// The length alone: a journal has its seed among its bytes.
    fn fmt<W: fmt::Write>(&self, f: &mut fmt::Formatter<W>) -> fmt::Result {
        f.debug_struct("MemDisk")
            .field("len", &self.contents.len())
            .finish_non_exhaustive()
    }
}

impl MemDisk {
    /// A file with these bytes, as it is after a sync. It has room for `bytes_room` bytes, or for these where they are more,
    /// and for `calls_room` calls, the room for the bytes at each sync among it; all room is taken now.
    ///
    /// # Errors
    ///
    /// `Memory`.
    pub fn new(
        alloc: Global,
        contents: &[u8],
        failing: &[u64],
        bytes_room: usize,
        calls_room: usize,
    ) -> Result<MemDisk, Memory>
        ensures told { IfOk result (λ disk. ⟦<MemDisk as Disk>⟧.told disk ≡ Some (record { contents = contents.now; first = synced_at contents.now; acts = [] })) }
        ensures faults { IfOk result (λ disk. ⟦<MemDisk as Disk>⟧.faults disk ≡ 0) }
    {
        let bytes_room = bytes_room.max(contents.len());
        let mut held = Vec::with_capacity(alloc, bytes_room)?;
        held.extend_from_slice(contents)?;
        Ok(MemDisk {
            first: Octets::copy(alloc, contents)?,
            contents: held,
            bytes_room,
            acts: Vec::with_capacity(alloc, calls_room)?,
            recorded: Vec::with_capacity(alloc, calls_room)?,
            calls_room,
            spare: rooms(alloc, calls_room, bytes_room)?,
            failing: Vec::from_slice(alloc, failing)?,
            faults: 0,
            place: 0,
        })
    }

    /// How many calls have failed.
    pub fn faults(&self) -> u64
        ensures { result ≡ ⟦<MemDisk as Disk>⟧.faults self.now }
    {
        self.faults
    }

    /// The file as it is, with no fault, opened at a place of the list that it stood in.
    pub(crate) fn opened_at(self, place: usize) -> MemDisk
        ensures told { ⟦<MemDisk as Disk>⟧.told result ≡ ⟦<MemDisk as Disk>⟧.told self }
        ensures contents { result.contents ≡ self.contents }
        ensures place { ⟦<MemDisk as Disk>⟧.place result ≡ place }
        ensures faults { ⟦<MemDisk as Disk>⟧.faults result ≡ 0 }
    {
        let mut disk = self;
        disk.place = place;
        disk.faults = 0;
        disk
    }

    /// The place that the file has in the list that it was taken out of.
    pub(crate) fn place(&self) -> usize
        ensures { result ≡ ⟦<MemDisk as Disk>⟧.place self.now }
    {
        self.place
    }

    /// What a stop after the first so many acts may leave: what a read gave at the last sync among them, or at the start where
    /// none is; all since then is lost.
    ///
    /// # Errors
    ///
    /// `Memory`.
    #[tactic(auto, using(crate::proofs::LostLemmas::lost_possible, crate::proofs::LostLemmas::synced_by_acts))]
    pub fn lost(&self, alloc: Global, acts: usize) -> Result<Octets, Memory>
        requires { IfSome (⟦<MemDisk as Disk>⟧.told self.now) (λ told. acts ≤ length told.acts) }
        ensures synced { IfOk result (λ image. IfSome (⟦<MemDisk as Disk>⟧.told self.now) (λ told. image ≡ (moment told acts).synced)) }
        ensures possible { IfOk result (λ image. IfSome (⟦<MemDisk as Disk>⟧.told self.now) (λ told. MayLeave (moment told acts) image)) }
    {
        let image = last_synced(self.first.as_slice(), &self.acts[..acts]);
        Octets::copy(alloc, image)
    }

    /// The acts so far. Takes no memory.
    pub fn acts(&self) -> &[DiskAct]
        ensures { IfSome (⟦<MemDisk as Disk>⟧.told self.now) (λ told. result.now ≡ told.acts) }
    {
        self.acts.as_slice()
    }

    /// The calls so far, in order, whatever they came to: all but those that found no room in this record. A failing number
    /// is a place in it, from 1. Takes no memory.
    pub fn calls(&self) -> &[DiskCall]
        ensures { IfSome (⟦<MemDisk as Disk>⟧.told self.now) (λ told. length told.acts ≤ length result.now) }
    {
        self.recorded.as_slice()
    }

    /// What a read gives. Takes no memory.
    pub fn contents(&self) -> &[u8]
        ensures value { IfSome (⟦<MemDisk as Disk>⟧.told self.now) (λ told. result.now ≡ told.contents) }
        ensures possible { IfSome (⟦<MemDisk as Disk>⟧.told self.now) (λ told. MayLeave (now told) result.now) }
    {
        self.contents.as_slice()
    }

    /// Records a call, where there is room for it: whether its number is one that may go.
    fn may_go(&mut self, call: DiskCall) -> bool
        ensures recorded { vec_len self.old.recorded < self.old.calls_room → self.new.recorded.items ≡ self.old.recorded.items ++ call ∷ [] }
        ensures longer { vec_len self.old.recorded < self.old.calls_room → vec_len self.new.recorded ≡ vec_len self.old.recorded + 1 }
        ensures first { self.new.first ≡ self.old.first }
        ensures contents { self.new.contents ≡ self.old.contents }
        ensures bytes_room { self.new.bytes_room ≡ self.old.bytes_room }
        ensures acts { self.new.acts ≡ self.old.acts }
        ensures faults { self.new.faults ≡ self.old.faults }
        ensures place { self.new.place ≡ self.old.place }
    {
        if self.recorded.len() >= self.calls_room {
            return false;
        }
        self.recorded.push(call).unwrap();
        !self.failing.contains(&(self.recorded.len() as u64))
    }

    /// Counts a fault, and no more.
    fn fails(&mut self) -> Act
        ensures failed { result ≡ Act.Failed }
        ensures told { ⟦<MemDisk as Disk>⟧.told self.new ≡ ⟦<MemDisk as Disk>⟧.told self.old }
        ensures contents { self.new.contents ≡ self.old.contents }
        ensures place { self.new.place ≡ self.old.place }
        ensures faults { self.new.faults ≡ one_more self.old.faults }
        ensures never_falls { self.old.faults ≤ self.new.faults }
    {
        self.faults = raised(self.faults);
        Act::Failed
    }

    /// Writes, and notes it.
    #[tactic(auto, using(crate::proofs::Moments::written_over, crate::proofs::Moments::write_told))]
    fn writes(&mut self, at: u64, bytes: &[u8])
        requires inside { at ≤ vec_len self.old.contents }
        requires room { at + length bytes.now ≤ self.old.bytes_room }
        requires recorded { vec_len self.old.acts < vec_len self.old.recorded }
        ensures told { IfSome (⟦<MemDisk as Disk>⟧.told self.old) (λ before. IsSomeAnd (⟦<MemDisk as Disk>⟧.told self.new) (λ after.
            Changes Act.Ready (DiskAct.Write at (length bytes.now)) (overwritten at bytes.now before.contents) before after)) }
        ensures place { self.new.place ≡ self.old.place }
        ensures faults { self.new.faults ≡ self.old.faults }
    {
        let count = bytes.len();
        self.acts.push(DiskAct::Write { at, count }).unwrap();
        overwrite(&mut self.contents, at as usize, bytes);
    }

    /// Notes a write that failed.
    #[tactic(auto, using(crate::proofs::Moments::written_maybe, crate::proofs::Moments::maybe_told))]
    fn may_have_written(&mut self, at: u64, bytes: &[u8])
        requires recorded { vec_len self.old.acts < vec_len self.old.recorded }
        ensures told { IfSome (⟦<MemDisk as Disk>⟧.told self.old) (λ before. IsSomeAnd (⟦<MemDisk as Disk>⟧.told self.new) (λ after.
            Changes Act.Failed (DiskAct.Write at (length bytes.now)) (overwritten at bytes.now before.contents) before after)) }
        ensures contents { self.new.contents ≡ self.old.contents }
        ensures place { self.new.place ≡ self.old.place }
        ensures faults { self.new.faults ≡ one_more self.old.faults }
        ensures never_falls { self.old.faults ≤ self.new.faults }
    {
        self.faults = raised(self.faults);
        let count = bytes.len();
        self.acts.push(DiskAct::Write { at, count }).unwrap();
    }

    /// Cuts, and notes it.
    #[tactic(auto, using(crate::proofs::Moments::cut_off, crate::proofs::Moments::cut_told))]
    fn cuts(&mut self, len: u64)
        requires inside { len ≤ vec_len self.old.contents }
        requires recorded { vec_len self.old.acts < vec_len self.old.recorded }
        ensures told { IfSome (⟦<MemDisk as Disk>⟧.told self.old) (λ before. IsSomeAnd (⟦<MemDisk as Disk>⟧.told self.new) (λ after.
            Changes Act.Ready (DiskAct.Cut len) (take len before.contents) before after)) }
        ensures place { self.new.place ≡ self.old.place }
        ensures faults { self.new.faults ≡ self.old.faults }
    {
        self.acts.push(DiskAct::Cut { len }).unwrap();
        self.contents.truncate(len as usize);
    }

    /// Notes a cut that failed.
    #[tactic(auto, using(crate::proofs::Moments::cut_maybe, crate::proofs::Moments::maybe_told))]
    fn may_have_cut(&mut self, len: u64)
        requires recorded { vec_len self.old.acts < vec_len self.old.recorded }
        ensures told { IfSome (⟦<MemDisk as Disk>⟧.told self.old) (λ before. IsSomeAnd (⟦<MemDisk as Disk>⟧.told self.new) (λ after.
            Changes Act.Failed (DiskAct.Cut len) (take len before.contents) before after)) }
        ensures contents { self.new.contents ≡ self.old.contents }
        ensures place { self.new.place ≡ self.old.place }
        ensures faults { self.new.faults ≡ one_more self.old.faults }
        ensures never_falls { self.old.faults ≤ self.new.faults }
    {
        self.faults = raised(self.faults);
        self.acts.push(DiskAct::Cut { len }).unwrap();
    }

    /// Notes a sync, of which this is a copy.
    #[tactic(auto, using(crate::proofs::Moments::synced_now, crate::proofs::Moments::sync_told))]
    fn syncs(&mut self, contents: Octets)
        requires copy { contents ≡ self.old.contents.items }
        requires recorded { vec_len self.old.acts < vec_len self.old.recorded }
        ensures told { IfSome (⟦<MemDisk as Disk>⟧.told self.old) (λ before. IsSomeAnd (⟦<MemDisk as Disk>⟧.told self.new) (λ after. Syncs Act.Ready before after)) }
        ensures contents { self.new.contents ≡ self.old.contents }
        ensures place { self.new.place ≡ self.old.place }
        ensures faults { self.new.faults ≡ self.old.faults }
    {
        self.acts.push(DiskAct::Sync { contents }).unwrap();
    }
}

/// The bytes of the last sync, after these acts, by those of the sync before them.
fn last_synced<'a>(first: &'a [u8], acts: &'a [DiskAct]) -> &'a [u8]
    ensures { result.now ≡ fold synced_after first.now acts.now }
{
    let mut image = first;
    for act in acts {
        image = synced_by(act, image);
    }
    image
}

/// The bytes of the last sync after an act, by those before it.
fn synced_by<'a>(act: &'a DiskAct, before: &'a [u8]) -> &'a [u8]
    ensures { result.now ≡ synced_after before.now act.now }
{
    match act {
        DiskAct::Sync { contents } => contents.as_slice(),
        DiskAct::Write { .. } | DiskAct::Cut { .. } => before,
    }
}

/// Room for as many texts of so many bytes.
pub(crate) fn rooms(alloc: Global, count: usize, bytes: usize) -> Result<Vec<Buffer>, Memory> {
    let mut rooms = Vec::with_capacity(alloc, count)?;
    for _ in 0..count {
        rooms.push(Buffer::new(alloc, bytes)?)?;
    }
    Ok(rooms)
}

/// These bytes in a room, where there is one and they fit. Takes no memory.
pub(crate) fn fill(room: Option<Buffer>, bytes: &[u8]) -> Option<Octets>
    ensures { IfSome result (λ text. text ≡ bytes.now) }
{
    let mut text = room?;
    if !text.as_slice().is_empty() || text.room() < bytes.len() {
        return None;
    }
    text.push_all(bytes);
    Some(text.into_octets())
}

/// Writes over a part of a text, past its end where it reaches it. Takes no memory.
fn overwrite(text: &mut Vec<u8>, at: usize, bytes: &[u8])
    requires inside { at ≤ vec_len text.old }
    requires room { at + length bytes.now ≤ vec_capacity text.old }
    ensures written { text.new.items ≡ overwritten at bytes.now text.old.items }
    ensures room { vec_capacity text.old ≤ vec_capacity text.new }
    ensures length { vec_len text.new ≡ max (vec_len text.old) (at + length bytes.now) }
{
    let end = at + bytes.len();
    if end <= text.len() {
        text[at..end].copy_from_slice(bytes);
    } else {
        text.truncate(at);
        text.extend_from_slice(bytes).unwrap();
    }
}

impl Disk for MemDisk {
    ghost told = { λ disk. Some (record { contents = disk.contents.items; first = synced_at disk.first; acts = disk.acts.items }) };

    ghost place = { λ disk. disk.place };

    ghost faults = { λ disk. disk.faults };

    fn len(&mut self) -> DiskLen {
        if self.may_go(DiskCall::Len) {
            DiskLen::Len(self.contents.len() as u64)
        } else {
            self.faults = raised(self.faults);
            DiskLen::Failed
        }
    }

    fn read(&mut self, at: u64, into: &mut [u8]) -> Act {
        let count = into.len();
        let may_go = self.may_go(DiskCall::Read { at, count });
        let begin = at as usize;
        if !may_go || begin > self.contents.len() || count > self.contents.len() - begin {
            self.faults = raised(self.faults);
            return Act::Failed;
        }
        let end = begin + count;
        into.copy_from_slice(&self.contents.as_slice()[begin..end]);
        Act::Ready
    }

    #[tactic(auto, using(crate::proofs::Moments::none_told))]
    fn write(&mut self, at: u64, bytes: &[u8]) -> Act
        ensures told { IfSome (⟦<MemDisk as Disk>⟧.told self.old) (λ before. IsSomeAnd (⟦<MemDisk as Disk>⟧.told self.new) (λ after.
            Changes result (DiskAct.Write at (length bytes.now)) (overwritten at bytes.now before.contents) before after)) }
        // A failed one leaves what a read gives as it was.
        ensures unchanged { result ≡ Act.Failed → IfSome (⟦<MemDisk as Disk>⟧.told self.old) (λ before. IsSomeAnd (⟦<MemDisk as Disk>⟧.told self.new) (λ after. after.contents ≡ before.contents)) }
        ensures tells { is_some (⟦<MemDisk as Disk>⟧.told self.new) ≡ is_some (⟦<MemDisk as Disk>⟧.told self.old) }
        ensures same_place { ⟦<MemDisk as Disk>⟧.place self.new ≡ ⟦<MemDisk as Disk>⟧.place self.old }
        ensures never_falls { ⟦<MemDisk as Disk>⟧.faults self.old ≤ ⟦<MemDisk as Disk>⟧.faults self.new }
        ensures counted { CountsAct result (⟦<MemDisk as Disk>⟧.faults self.old) (⟦<MemDisk as Disk>⟧.faults self.new) }
    {
        if self.recorded.len() >= self.calls_room {
            return self.fails();
        }
        let count = bytes.len();
        let may_go = self.may_go(DiskCall::Write { at, count });
        let begin = at as usize;
        if begin > self.contents.len() || count > self.bytes_room - begin {
            return self.fails();
        }
        if may_go {
            self.writes(at, bytes);
            Act::Ready
        } else {
            self.may_have_written(at, bytes);
            Act::Failed
        }
    }

    #[tactic(auto, using(crate::proofs::Moments::none_told))]
    fn cut(&mut self, len: u64) -> Act
        ensures told { IfSome (⟦<MemDisk as Disk>⟧.told self.old) (λ before. IsSomeAnd (⟦<MemDisk as Disk>⟧.told self.new) (λ after.
            Changes result (DiskAct.Cut len) (take len before.contents) before after)) }
        // A failed one leaves what a read gives as it was.
        ensures unchanged { result ≡ Act.Failed → IfSome (⟦<MemDisk as Disk>⟧.told self.old) (λ before. IsSomeAnd (⟦<MemDisk as Disk>⟧.told self.new) (λ after. after.contents ≡ before.contents)) }
        ensures tells { is_some (⟦<MemDisk as Disk>⟧.told self.new) ≡ is_some (⟦<MemDisk as Disk>⟧.told self.old) }
        ensures same_place { ⟦<MemDisk as Disk>⟧.place self.new ≡ ⟦<MemDisk as Disk>⟧.place self.old }
        ensures never_falls { ⟦<MemDisk as Disk>⟧.faults self.old ≤ ⟦<MemDisk as Disk>⟧.faults self.new }
        ensures counted { CountsAct result (⟦<MemDisk as Disk>⟧.faults self.old) (⟦<MemDisk as Disk>⟧.faults self.new) }
    {
        if self.recorded.len() >= self.calls_room {
            return self.fails();
        }
        let may_go = self.may_go(DiskCall::Cut { len });
        if len as usize > self.contents.len() {
            return self.fails();
        }
        if may_go {
            self.cuts(len);
            Act::Ready
        } else {
            self.may_have_cut(len);
            Act::Failed
        }
    }

    #[tactic(auto, using(crate::proofs::Moments::no_sync_told))]
    fn sync(&mut self) -> Act
        ensures told { IfSome (⟦<MemDisk as Disk>⟧.told self.old) (λ before. IsSomeAnd (⟦<MemDisk as Disk>⟧.told self.new) (λ after.
            Syncs result before after)) }
        // It leaves what a read gives as it was.
        ensures unchanged { IfSome (⟦<MemDisk as Disk>⟧.told self.old) (λ before. IsSomeAnd (⟦<MemDisk as Disk>⟧.told self.new) (λ after. after.contents ≡ before.contents)) }
        ensures tells { is_some (⟦<MemDisk as Disk>⟧.told self.new) ≡ is_some (⟦<MemDisk as Disk>⟧.told self.old) }
        ensures same_place { ⟦<MemDisk as Disk>⟧.place self.new ≡ ⟦<MemDisk as Disk>⟧.place self.old }
        ensures never_falls { ⟦<MemDisk as Disk>⟧.faults self.old ≤ ⟦<MemDisk as Disk>⟧.faults self.new }
        ensures counted { CountsAct result (⟦<MemDisk as Disk>⟧.faults self.old) (⟦<MemDisk as Disk>⟧.faults self.new) }
    {
        if self.recorded.len() >= self.calls_room {
            return self.fails();
        }
        let may_go = self.may_go(DiskCall::Sync);
        let copy = fill(self.spare.pop(), self.contents.as_slice());
        match copy {
            Some(contents) if may_go => {
                self.syncs(contents);
                Act::Ready
            }
            _ => self.fails(),
        }
    }
}
