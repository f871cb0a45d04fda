//! Whole texts, through a source or a sink.

ghost use Rattle.std.specs.Prelude.{◌≡◌, ◌≢◌, ◌<◌, ◌≤◌, ◌^◌, ◌++◌, [], List, ℕ, length, IfOk, IfSome, IsSomeAnd, OnErr, OnOk, Ok, Err, Some, ⊤};
ghost use Rattle.mt_edge.specs.Faults.{Rose};
ghost use Rattle.mt_edge.specs.Reads.{ReadBy};
ghost use Rattle.mt_edge.specs.declared.whole.ReadFault.TheVariants.{Memory as OutOfMemory};

use crate::sink::{Put, Sink};
use crate::source::{Got, Source};
use octets::{Memory, Octets};
use std::alloc::Global;
use thiserror::Error;

/// Room for one read, in bytes.
const PIECE_BYTES: usize = 4096;

/// Why a source wasn't read to its end.
#[derive(Clone, Copy, Debug, PartialEq, Eq, Error)]
pub enum ReadFault {
    /// A read failed.
    #[error("a read failed")]
    Failed,
    /// More bytes came than were allowed.
    #[error("more bytes came than were allowed")]
    TooLong,
    /// Memory ran out.
    #[error("out of memory")]
    Memory,
}

impl From<Memory> for ReadFault {
    ghost from_gives = { λ _ fault. fault ≡ OutOfMemory };

    fn from(_memory: Memory) -> ReadFault {
        ReadFault::Memory
    }
}

/// A write failed.
#[derive(Clone, Copy, Debug, PartialEq, Eq, Error)]
#[error("a write failed")]
pub struct WriteFault;

/// Reads a source to its end, where it has at most `max_bytes` bytes.
///
/// # Errors
///
/// `Failed` where a read failed, and `TooLong` where more bytes came. `Memory`. The bytes read are lost.
#[tactic(auto, using(crate::proofs::ReadLemmas::no_pieces, crate::proofs::ReadLemmas::last_read))]
pub fn read_all<S: Source>(
    alloc: Global,
    source: &mut S,
    max_bytes: usize,
) -> Result<Octets, ReadFault>
    requires { max_bytes < 2 ^ 32 }
    ensures short { IfOk result (λ text. length text ≤ max_bytes) }
    ensures whole { IfOk result (λ text. IfSome (S.left source.old) (λ left. text ≡ left)) }
    ensures to_the_end { IfOk result (λ _. IfSome (S.left source.old) (λ _. S.left source.new ≡ Some [])) }
    ensures too_long { result ≡ Err ReadFault.TooLong → IfSome (S.left source.old) (λ left. max_bytes < length left) }
    // A read that failed isn't made up for by another one.
    ensures no_fault { IfOk result (λ _. S.faults source.new ≡ S.faults source.old) }
    // Each read but the last gave bytes, so none was made behind the end or behind one that failed.
    ensures reads { IfSome (S.reads source.new) (λ after. IsSomeAnd (S.reads source.old) (λ before. ReadBy result before after)) }
    ensures failed { result ≡ Err ReadFault.Failed → Rose (S.faults source.old) (S.faults source.new) }
    ensures never_falls { S.faults source.old ≤ S.faults source.new }
{
    let mut text = Octets::new(alloc);
    let mut piece = [0u8; PIECE_BYTES];
    let mut room = max_bytes;
    loop {
        match source.read(&mut piece) {
            Got::Bytes(count) if count <= room => {
                text.push_all(alloc, &piece[..count])?;
                room -= count;
            }
            Got::Bytes(_) => return Err(ReadFault::TooLong),
            Got::End => return Ok(text),
            Got::Failed => return Err(ReadFault::Failed),
        }
    }
}

/// Writes a whole text.
///
/// # Errors
///
/// `WriteFault` where a write failed, and then what is written is a front of the text that lacks at least its last byte.
pub fn write_all<O: Sink>(sink: &mut O, text: &[u8]) -> Result<(), WriteFault>
    ensures whole { OnOk result (IfSome (O.written sink.old) (λ before. O.written sink.new ≡ Some (before ++ text.now))) }
    ensures front { IfSome (O.written sink.old) (λ before. IsSomeAnd (O.written sink.new) (λ after.
        (front : List ℕ) × (rest : List ℕ) × (text.now ≡ front ++ rest) × (after ≡ before ++ front))) }
    ensures cut { OnErr result (IfSome (O.written sink.old) (λ before. IsSomeAnd (O.written sink.new) (λ after.
        (front : List ℕ) × (rest : List ℕ) × (text.now ≡ front ++ rest) × (rest ≢ []) × (after ≡ before ++ front)))) }
    // A write that failed isn't made up for by another one.
    ensures no_fault { OnOk result (O.faults sink.new ≡ O.faults sink.old) }
    ensures failed { result ≡ Err (record {}) → Rose (O.faults sink.old) (O.faults sink.new) }
    ensures never_falls { O.faults sink.old ≤ O.faults sink.new }
{
    let mut rest = text;
    while !rest.is_empty() {
        match sink.write(rest) {
            Put::Took(count) => rest = &rest[count..],
            Put::Failed => return Err(WriteFault),
        }
    }
    Ok(())
}
