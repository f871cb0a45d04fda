//! A run of the program, and what it is told to do.

use crate::runs::outside::{
    Faults, Pieces, Stream, disks_of, files_of, kids_of, net_of, sent_over,
};
use disks::MemDisks;
use msg_ids::Moment;
use mt_edge::{
    ChaChaDraw, KidCall, ListClock, MemFiles, MemKids, MemNet, MemSink, MemSource, Seeded,
};
use mtp_app::run;
use octets::Octets;
use std::alloc::Global;
use std::test::Fail;

/// Room for what a run writes, in bytes.
const OUT_BYTES: usize = 1_048_576;

/// What a run is given: its words, its input, its key file and the file of its journal, the most bytes of a read of its input and of a write, which of
/// these calls fail, counted from 1, and which others do; the most bytes of a read and of a write over a link, and its room.
#[derive(Drop)]
pub(crate) struct Given {
    pub(crate) words: Vec<String>,
    pub(crate) input: Octets,
    pub(crate) keys: Octets,
    pub(crate) journal: Option<Octets>,
    pub(crate) reads: (usize, u64),
    pub(crate) writes: (usize, u64),
    pub(crate) faults: Faults,
    pub(crate) pieces: Pieces,
}

/// How a run ended, what it wrote, and what it wrote over each link; the calls of its net and its spawner, and the files of
/// journals.
#[derive(Drop)]
pub(crate) struct Ended {
    pub(crate) status: u8,
    pub(crate) out: Octets,
    pub(crate) sent: Stream,
    pub(crate) net_calls: usize,
    pub(crate) kids: MemKids,
    pub(crate) disks: MemDisks,
}

// What a run reads and writes, but for its input and its output.
#[derive(Drop)]
struct Outside {
    files: MemFiles,
    net: MemNet,
    kids: MemKids,
    disks: MemDisks,
}

// The status of these words over these, at moment 0, with words drawn from this seed.
fn status_of(
    alloc: Global,
    words: &[String],
    input: &mut MemSource,
    out: &mut MemSink,
    outside: &mut Outside,
    seed: u8,
) -> Result<u8, Fail> {
    let mut clock = ListClock::new(alloc, &[Moment::new(0)])?;
    let mut draw = ChaChaDraw::at(&[seed; 32], 0);
    Ok(run(
        alloc,
        words,
        input,
        out,
        &mut outside.files,
        &mut outside.net,
        &mut outside.kids,
        &mut clock,
        &mut draw,
        &mut outside.disks,
    ))
}

// The input and the output of a run.
fn streams(alloc: Global, given: &Given) -> Result<(MemSource, MemSink), Fail> {
    let (read_bytes, failing_read) = given.reads;
    let (write_bytes, failing_write) = given.writes;
    let input = given.input.as_slice();
    let input = MemSource::new(alloc, input, read_bytes.max(1), &[failing_read])?;
    let out = MemSink::new(alloc, OUT_BYTES, write_bytes.max(1), &[failing_write])?;
    Ok((input, out))
}

// The rest of its outside, where these bytes come over its links.
fn outside_of(alloc: Global, given: &Given, come: &Stream) -> Result<Outside, Fail> {
    Ok(Outside {
        files: files_of(alloc, given.keys.as_slice(), given.faults.files)?,
        net: net_of(alloc, come, given.pieces, given.faults)?,
        kids: kids_of(alloc, given.faults.kids)?,
        disks: disks_of(alloc, given.journal.as_ref(), given.faults)?,
    })
}

/// A run over links over which these bytes come, with words drawn from this seed.
pub(crate) fn ran(
    alloc: Global,
    given: &Given,
    words: &[String],
    come: &Stream,
    seed: u8,
) -> Result<Ended, Fail> {
    let (mut input, mut out) = streams(alloc, given)?;
    let done = match outside_of(alloc, given, come) {
        Ok(outside) => finished(alloc, words, &mut input, &mut out, outside, seed),
        Err(fail) => Err(fail),
    };
    drop(input);
    drop(out);
    done
}

// Such a run over its input, its output and the rest of its outside, each part of which is let go of at one place.
fn finished(
    alloc: Global,
    words: &[String],
    input: &mut MemSource,
    out: &mut MemSink,
    mut outside: Outside,
    seed: u8,
) -> Result<Ended, Fail> {
    let told = told_of(alloc, words, input, out, &mut outside, seed);
    let net_calls = outside.net.calls().len();
    let Outside {
        files,
        net,
        kids,
        disks,
    } = outside;
    drop(files);
    drop(net);
    match told {
        Ok((status, out, sent)) => Ok(Ended {
            status,
            out,
            sent,
            net_calls,
            kids,
            disks,
        }),
        Err(fail) => {
            drop(kids);
            drop(disks);
            Err(fail)
        }
    }
}

// The status of such a run, what it wrote, and what it wrote over each link.
fn told_of(
    alloc: Global,
    words: &[String],
    input: &mut MemSource,
    out: &mut MemSink,
    outside: &mut Outside,
    seed: u8,
) -> Result<(u8, Octets, Stream), Fail> {
    let status = status_of(alloc, words, input, out, outside, seed)?;
    let written = Octets::copy(alloc, out.written())?;
    Ok((status, written, sent_over(alloc, &outside.net)?))
}

/// The starts of a spawner, a line for each: its words.
pub(crate) fn starts(alloc: Global, kids: &MemKids) -> Result<String, Fail> {
    let mut text = String::new(alloc);
    for call in kids.calls() {
        if let KidCall::Start { words, .. } = call {
            text.push_str("start")?;
            for word in words.words() {
                text.push_str(" ")?;
                text.push_str(str::from_utf8(word.as_slice()).unwrap_or("?"))?;
            }
            text.push_str("\n")?;
        }
    }
    Ok(text)
}
