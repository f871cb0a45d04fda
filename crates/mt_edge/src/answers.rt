//! What std answers, as what an adapter answers.

ghost use Rattle.std.specs.Prelude.{◌≡◌, ◌<◌, ◌≤◌, length, take, IfOk, IfErr, IfSome, IsSomeAnd, OnOk, ⊤};
ghost use Rattle.std.specs.Io.KnownBytes.{Appends};
ghost use Rattle.mt_edge.specs.Got.{IsWithin, HandsOver, Counts};
ghost use Rattle.mt_edge.specs.Put.{IsWithin as IsPutWithin, TakesFrom, Counts as CountsPut};

use crate::faults::raised;
use crate::sink::Put;
use crate::source::Got;
use std::io::{self, Read, Write};

/// The answer of a read, by what std answered to a read with room.
fn got_of(answer: io::Result<usize>) -> Got
    ensures end { IfOk answer (λ n. n ≡ 0 → result ≡ Got.End) }
    ensures bytes { IfOk answer (λ n. 0 < n → result ≡ Got.Bytes n) }
    ensures failed { IfErr answer (λ _. result ≡ Got.Failed) }
{
    match answer {
        Ok(0) => Got::End,
        Ok(count) => Got::Bytes(count),
        Err(_) => Got::Failed,
    }
}

/// The answer of a write, by what std answered to a write of a piece that isn't empty, and then to a flush.
fn put_of(answer: io::Result<usize>, flushed: io::Result<()>) -> Put
    ensures took { OnOk flushed (IfOk answer (λ n. 0 < n → result ≡ Put.Took n)) }
    ensures took_nothing { IfOk answer (λ n. n ≡ 0 → result ≡ Put.Failed) }
    ensures failed { IfErr answer (λ _. result ≡ Put.Failed) }
    ensures not_flushed { IfErr flushed (λ _. result ≡ Put.Failed) }
{
    match (answer, flushed) {
        (Ok(0), _) | (Err(_), _) | (_, Err(_)) => Put::Failed,
        (Ok(count), Ok(())) => Put::Took(count),
    }
}

/// Reads from a reader of std into a buffer that isn't empty.
pub(crate) fn read_from<R: Read>(reader: &mut R, into: &mut [u8]) -> Got
    requires { 0 < length into.old }
    ensures within { IsWithin result (length into.new) }
    ensures told { IfSome (R.remaining reader.old) (λ before. IsSomeAnd (R.remaining reader.new) (λ after. HandsOver result into.new before after)) }
{
    got_of(reader.read(into))
}

/// How many bytes a writer of std took without a flush that went well.
fn unflushed_of(answer: &io::Result<usize>, flushed: &io::Result<()>) -> usize
    ensures flushed { OnOk flushed.now (result ≡ 0) }
    ensures not_flushed { IfErr flushed.now (λ _. IfOk answer.now (λ n. result ≡ n)) }
    ensures none { IfErr answer.now (λ _. result ≡ 0) }
{
    match (answer, flushed) {
        (Ok(count), Err(_)) => *count,
        _ => 0,
    }
}

/// What came of a write to a writer of std.
#[derive(Clone, Copy)]
pub(crate) struct Written {
    /// The answer.
    pub(crate) put: Put,
    /// How many bytes the writer took without a flush that went well, where the answer is `Failed`.
    pub(crate) unflushed: usize,
}

/// Writes from a piece that isn't empty to a writer of std, and flushes it.
#[tactic(auto, using(crate::proofs::PutLemmas::takes_from))]
pub(crate) fn write_to<W: Write>(writer: &mut W, piece: &[u8]) -> Written
    requires { 0 < length piece.now }
    ensures within { IsPutWithin result.put (length piece.now) }
    ensures unflushed { result.unflushed ≤ length piece.now }
    ensures told { TakesFrom result.put result.unflushed piece.now (W.contents writer.old) (W.contents writer.new) }
{
    let answer = writer.write(piece);
    let flushed = writer.flush();
    let unflushed = unflushed_of(&answer, &flushed);
    Written {
        put: put_of(answer, flushed),
        unflushed,
    }
}

/// The count after a read.
pub(crate) fn after_read(got: Got, faults: u64) -> u64
    ensures counted { Counts got faults result }
    ensures never_falls { faults ≤ result }
{
    match got {
        Got::Failed => raised(faults),
        Got::Bytes(_) | Got::End => faults,
    }
}

/// The count after a write.
pub(crate) fn after_write(put: Put, faults: u64) -> u64
    ensures counted { CountsPut put faults result }
    ensures never_falls { faults ≤ result }
{
    match put {
        Put::Failed => raised(faults),
        Put::Took(_) => faults,
    }
}
