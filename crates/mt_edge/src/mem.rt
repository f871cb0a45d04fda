//! A source and a sink in memory, for tests.

ghost use Rattle.std.specs.Prelude.{◌≡◌, ◌<◌, ◌≤◌, [], Some, length, vec_len, drop, IfOk};
ghost use Rattle.octets.specs.Bytes.{IsBytes};

use crate::faults::raised;
use crate::sink::{Put, Sink};
use crate::source::{Got, Source};
use octets::{Memory, Octets};
use std::alloc::Global;

/// Bytes in memory that are read in pieces of one length. The reads of the given numbers, from 1, fail.
#[derive(Debug, Drop)]
pub struct MemSource {
    contents: Octets,
    place: usize,
    piece_bytes: usize,
    failing: Vec<u64>,
    calls: u64,
    faults: u64,
    ghost inside: { place ≤ length contents },
    ghost some_piece: { 0 < piece_bytes },
}

impl MemSource {
    /// A source of these bytes that hands over at most `piece_bytes` at a time.
    ///
    /// # Errors
    ///
    /// `Memory`.
    pub fn new(
        alloc: Global,
        contents: &[u8],
        piece_bytes: usize,
        failing: &[u64],
    ) -> Result<MemSource, Memory>
        requires { 0 < piece_bytes }
        ensures left { IfOk result (λ source. ⟦<MemSource as Source>⟧.left source ≡ Some contents.now) }
        ensures faults { IfOk result (λ source. ⟦<MemSource as Source>⟧.faults source ≡ 0) }
    {
        Ok(MemSource {
            contents: Octets::copy(alloc, contents)?,
            place: 0,
            piece_bytes,
            failing: Vec::from_slice(alloc, failing)?,
            calls: 0,
            faults: 0,
        })
    }

    /// How many reads have failed.
    pub fn faults(&self) -> u64
        ensures { result ≡ ⟦<MemSource as Source>⟧.faults self.now }
    {
        self.faults
    }
}

impl Source for MemSource {
    ghost left = { λ source. Some (drop source.place source.contents) };

    ghost faults = { λ source. source.faults };

    fn read(&mut self, into: &mut [u8]) -> Got {
        self.calls = self.calls.saturating_add(1);
        if self.failing.contains(&self.calls) {
            self.faults = raised(self.faults);
            return Got::Failed;
        }
        let left = &self.contents.as_slice()[self.place..];
        if left.is_empty() {
            return Got::End;
        }
        let count = left.len().min(self.piece_bytes).min(into.len());
        into[..count].copy_from_slice(&left[..count]);
        self.place += count;
        Got::Bytes(count)
    }
}

/// Bytes in memory that are written in pieces of one length, up to a room. The writes of the given numbers, from 1,
/// fail, and so does one that finds no room.
#[derive(Debug, Drop)]
pub struct MemSink {
    written: Vec<u8>,
    room: usize,
    piece_bytes: usize,
    failing: Vec<u64>,
    calls: u64,
    faults: u64,
    ghost in_room: { vec_len written ≤ room },
    ghost some_piece: { 0 < piece_bytes },
}

impl MemSink {
    /// A sink with room for `room` bytes, all taken now, that takes at most `piece_bytes` at a time.
    ///
    /// # Errors
    ///
    /// `Memory`.
    pub fn new(
        alloc: Global,
        room: usize,
        piece_bytes: usize,
        failing: &[u64],
    ) -> Result<MemSink, Memory>
        requires { 0 < piece_bytes }
        ensures written { IfOk result (λ sink. ⟦<MemSink as Sink>⟧.written sink ≡ Some []) }
        ensures faults { IfOk result (λ sink. ⟦<MemSink as Sink>⟧.faults sink ≡ 0) }
    {
        Ok(MemSink {
            written: Vec::with_capacity(alloc, room)?,
            room,
            piece_bytes,
            failing: Vec::from_slice(alloc, failing)?,
            calls: 0,
            faults: 0,
        })
    }

    /// The bytes written.
    pub fn written(&self) -> &[u8]
        ensures { ⟦<MemSink as Sink>⟧.written self.now ≡ Some result.now }
    {
        self.written.as_slice()
    }

    /// How many writes have failed.
    pub fn faults(&self) -> u64
        ensures { result ≡ ⟦<MemSink as Sink>⟧.faults self.now }
    {
        self.faults
    }
}

impl Sink for MemSink {
    ghost written = { λ sink. Some sink.written.items };

    ghost faults = { λ sink. sink.faults };

    fn write(&mut self, piece: &[u8]) -> Put {
        self.calls = self.calls.saturating_add(1);
        let count = piece.len().min(self.piece_bytes);
        if self.failing.contains(&self.calls) || self.room - self.written.len() < count {
            self.faults = raised(self.faults);
            return Put::Failed;
        }
        match self.written.extend_from_slice(&piece[..count]) {
            Ok(()) => Put::Took(count),
            Err(_) => {
                self.faults = raised(self.faults);
                Put::Failed
            }
        }
    }
}
