//! A link in memory, for tests.

ghost use Rattle.std.specs.Prelude.{◌≡◌, ◌≢◌, ◌<◌, ◌≤◌, ◌+◌, ◌-◌, [], None, Some, length, take, drop, min, vec_len, vec_capacity, false, if◌then◌else◌, IfOk, IfSome, IsSome, IsSomeAnd, MatchOption};
ghost use Rattle.mt_edge.specs.Faults.{one_more};
ghost use Rattle.mt_edge.specs.Got.{IsWithin};
ghost use Rattle.mt_edge.specs.Links.{IsFresh, ReadsOver};

use crate::faults::raised;
use crate::link::Link;
use crate::link_read::LinkRead;
use crate::sink::Put;
use crate::source::Got;
use crate::told::LinkTold;
use octets::{Memory, Octets};
use std::alloc::Global;

/// One end of a connection whose peer sends given bytes and takes what is written. Reads and writes are cut to one
/// length. The calls of the given numbers fail, counted from 1 over reads and writes, and so does each call past the
/// room for what is noted, and each call after `close`.
#[derive(Debug, Drop)]
pub struct MemLink {
    contents: Octets,
    came_bytes: usize,
    written: Vec<u8>,
    written_room: usize,
    reads: Vec<LinkRead>,
    reads_room: usize,
    piece_bytes: usize,
    failing: Vec<u64>,
    calls: u64,
    faults: u64,
    place: usize,
    is_closed: bool,
    is_untold: bool,
    ghost inside: { came_bytes ≤ length contents },
    ghost in_room: { vec_len written ≤ written_room },
    ghost written_taken: { written_room ≤ vec_capacity written },
    ghost reads_in_room: { vec_len reads ≤ reads_room },
    ghost reads_taken: { reads_room ≤ vec_capacity reads },
    ghost last_is_fault: { vec_len reads < reads_room + faults },
    ghost some_piece: { 0 < piece_bytes },
    ghost some_read: { 0 < reads_room },
}

impl MemLink {
    /// A link whose peer sends these bytes, and which hands over and takes at most `piece_bytes` bytes at a time. It has
    /// room for `written_room` bytes that are written and for `reads_room` reads, all taken now; the last place of these
    /// is for a read that fails.
    ///
    /// # Errors
    ///
    /// `Memory`.
    pub fn new(
        alloc: Global,
        contents: &[u8],
        piece_bytes: usize,
        failing: &[u64],
        written_room: usize,
        reads_room: usize,
    ) -> Result<MemLink, Memory>
        requires piece { 0 < piece_bytes }
        requires room { 0 < reads_room }
        ensures told { IfOk result (λ link. ⟦<MemLink as Link>⟧.told link
            ≡ Some (record { came = []; left = contents.now; written = []; reads = [] })) }
        ensures faults { IfOk result (λ link. ⟦<MemLink as Link>⟧.faults link ≡ 0) }
        ensures open { IfOk result (λ link. (⟦<MemLink as Link>⟧.standing link).closed ≡ false) }
    {
        Ok(MemLink {
            contents: Octets::copy(alloc, contents)?,
            came_bytes: 0,
            written: Vec::with_capacity(alloc, written_room)?,
            written_room,
            reads: Vec::with_capacity(alloc, reads_room)?,
            reads_room,
            piece_bytes,
            failing: Vec::from_slice(alloc, failing)?,
            calls: 0,
            faults: 0,
            place: 0,
            is_closed: false,
            is_untold: false,
        })
    }

    /// How many reads and writes have failed.
    pub fn faults(&self) -> u64
        ensures { result ≡ ⟦<MemLink as Link>⟧.faults self.now }
    {
        self.faults
    }

    /// The link as it stood when it was made, handed out by the call of its net at this place.
    pub(crate) fn handed_out(self, place: usize) -> MemLink
        ensures no_fault_yet { ⟦<MemLink as Link>⟧.faults result ≡ 0 }
        ensures place { (⟦<MemLink as Link>⟧.standing result).place ≡ place }
        ensures open { (⟦<MemLink as Link>⟧.standing result).closed ≡ false }
        ensures fresh { IsSomeAnd (⟦<MemLink as Link>⟧.told result) IsFresh }
    {
        let mut link = self;
        link.came_bytes = 0;
        link.written.clear();
        link.reads.clear();
        link.calls = 0;
        link.faults = 0;
        link.place = place;
        link.is_closed = false;
        link.is_untold = false;
        link
    }

    /// The link's place, what it tells, and its count of faults, where it tells.
    pub(crate) fn into_told(self) -> Option<(usize, LinkTold, u64)>
        ensures told { MatchOption result (⟦<MemLink as Link>⟧.told self ≡ None) (λ is. ⟦<MemLink as Link>⟧.told self ≡ Some is.1) }
        ensures place { IfSome result (λ is. is.0 ≡ (⟦<MemLink as Link>⟧.standing self).place) }
        ensures faults { IfSome result (λ is. is.2 ≡ ⟦<MemLink as Link>⟧.faults self) }
    {
        if self.is_untold {
            return None;
        }
        let MemLink {
            contents,
            came_bytes,
            written,
            reads,
            place,
            faults,
            ..
        } = self;
        let written = Octets::from(written);
        let told = LinkTold {
            contents,
            came_bytes,
            written,
            reads,
        };
        Some((place, told, faults))
    }

    /// A read that fails.
    fn failed_read(&mut self, into: &[u8]) -> Got
        ensures failed { result ≡ Got.Failed }
        ensures told { IfSome (⟦<MemLink as Link>⟧.told self.new) (λ after. IsSomeAnd (⟦<MemLink as Link>⟧.told self.old) (λ before.
            ReadsOver Got.Failed into.now before after)) }
        ensures first_fault { IsSome (⟦<MemLink as Link>⟧.told self.old) → self.old.faults ≡ 0 → IsSome (⟦<MemLink as Link>⟧.told self.new) }
        ensures still_tells { IsSome (⟦<MemLink as Link>⟧.told self.old) → vec_len self.old.reads < self.old.reads_room → IsSome (⟦<MemLink as Link>⟧.told self.new) }
        ensures one_place { vec_len self.new.reads ≤ vec_len self.old.reads + 1 }
        ensures same_room { self.new.reads_room ≡ self.old.reads_room }
        ensures same_standing { ⟦<MemLink as Link>⟧.standing self.new ≡ ⟦<MemLink as Link>⟧.standing self.old }
        ensures never_falls { self.old.faults ≤ self.new.faults }
        ensures counted { self.new.faults ≡ one_more self.old.faults }
    {
        self.faults = raised(self.faults);
        let (room, answer) = (into.len(), Got::Failed);
        if self.reads.len() < self.reads_room {
            self.reads.push(LinkRead { room, answer }).unwrap();
        } else {
            self.is_untold = true;
        }
        answer
    }

    /// A read that hands over what is next.
    fn next_read(&mut self, into: &mut [u8]) -> Got
        requires buffer { 0 < length into.old }
        requires room { vec_len self.old.reads + 1 < self.old.reads_room }
        ensures within { IsWithin result (length into.new) }
        ensures not_failed { result ≢ Got.Failed }
        ensures told { IfSome (⟦<MemLink as Link>⟧.told self.new) (λ after. IsSomeAnd (⟦<MemLink as Link>⟧.told self.old) (λ before.
            ReadsOver result into.new before after)) }
        ensures goes_on { IsSome (⟦<MemLink as Link>⟧.told self.old) → IsSome (⟦<MemLink as Link>⟧.told self.new) }
        ensures one_place { vec_len self.new.reads ≤ vec_len self.old.reads + 1 }
        ensures same_room { self.new.reads_room ≡ self.old.reads_room }
        ensures same_standing { ⟦<MemLink as Link>⟧.standing self.new ≡ ⟦<MemLink as Link>⟧.standing self.old }
        ensures counted { self.new.faults ≡ self.old.faults }
    {
        let left = &self.contents.as_slice()[self.came_bytes..];
        let count = copy_front(left, into, self.piece_bytes);
        let room = into.len();
        if count == 0 {
            let answer = Got::End;
            self.reads.push(LinkRead { room, answer }).unwrap();
            return answer;
        }
        self.came_bytes += count;
        let answer = Got::Bytes(count);
        self.reads.push(LinkRead { room, answer }).unwrap();
        answer
    }
}

/// Copies as many bytes as there are and as fit, at most `most`, to the front of the buffer.
fn copy_front(from: &[u8], into: &mut [u8], most: usize) -> usize
    ensures count { result ≡ min (min (length from.now) most) (length into.old) }
    ensures copied { take result into.new ≡ take result from.now }
    ensures length { length into.new ≡ length into.old }
{
    let count = from.len().min(most).min(into.len());
    into[..count].copy_from_slice(&from[..count]);
    count
}

impl Link for MemLink {
    ghost told = { λ link. if link.is_untold then None else Some (record {
      came = take link.came_bytes link.contents;
      left = drop link.came_bytes link.contents;
      written = link.written.items;
      reads = link.reads.items;
    }) };

    ghost standing = { λ link. record { place = link.place; closed = link.is_closed } };

    ghost room = { λ link. link.reads_room - vec_len link.reads };

    ghost faults = { λ link. link.faults };

    fn read(&mut self, into: &mut [u8]) -> Got {
        self.calls = self.calls.saturating_add(1);
        let has_room = self.reads_room - self.reads.len() > 1;
        if self.is_closed || !has_room || self.failing.contains(&self.calls) {
            self.failed_read(into)
        } else {
            self.next_read(into)
        }
    }

    fn write(&mut self, piece: &[u8]) -> Put {
        self.calls = self.calls.saturating_add(1);
        let count = piece.len().min(self.piece_bytes);
        let has_room = self.written_room - self.written.len() >= count;
        if self.is_closed || !has_room || self.failing.contains(&self.calls) {
            self.faults = raised(self.faults);
            return Put::Failed;
        }
        self.written.extend_from_slice(&piece[..count]).unwrap();
        Put::Took(count)
    }

    fn close(&mut self) {
        self.is_closed = true;
    }
}
