//! Readers and writers of std, standard input and output among them, as a source and a sink. The source tells what its
//! reader tells, and the sink what its writer tells, but for bytes behind which a flush failed.

ghost use Rattle.std.specs.Prelude.{◌≡◌};
ghost use Rattle.mt_edge.specs.Put.{flushed};

use crate::answers::{after_read, after_write, read_from, write_to};
use crate::faults::raised;
use crate::sink::{Put, Sink};
use crate::source::{Got, Source};
use std::io::{Read, Write};

/// A reader of std as a source.
#[derive(Debug, Drop)]
pub struct ReadSource<R> {
    reader: R,
    faults: u64,
}

impl<R: Read + Drop> ReadSource<R> {
    /// A source over the reader, with no fault yet.
    pub fn new(reader: R) -> ReadSource<R>
        ensures faults { ⟦<ReadSource<R> as Source>⟧.faults result ≡ 0 }
        ensures left { ⟦<ReadSource<R> as Source>⟧.left result ≡ R.remaining reader }
    {
        ReadSource { reader, faults: 0 }
    }

    /// How many reads have failed.
    pub fn faults(&self) -> u64
        ensures { result ≡ ⟦<ReadSource<R> as Source>⟧.faults self.now }
    {
        self.faults
    }
}

impl<R: Read + Drop> Source for ReadSource<R> {
    ghost left = { λ source. R.remaining source.reader };

    ghost faults = { λ source. source.faults };

    fn read(&mut self, into: &mut [u8]) -> Got {
        let got = read_from(&mut self.reader, into);
        self.faults = after_read(got, self.faults);
        got
    }
}

/// A writer of std as a sink. Each piece is flushed as it is written. Once a flush failed behind bytes that the writer took, each
/// write fails, and the writer isn't asked again: those bytes aren't told as written.
#[derive(Debug, Drop)]
pub struct WriteSink<W> {
    writer: W,
    unflushed: usize,
    faults: u64,
}

impl<W: Write + Drop> WriteSink<W> {
    /// A sink over the writer, with no fault yet.
    pub fn new(writer: W) -> WriteSink<W>
        ensures faults { ⟦<WriteSink<W> as Sink>⟧.faults result ≡ 0 }
        ensures written { ⟦<WriteSink<W> as Sink>⟧.written result ≡ W.contents writer }
        ensures writer { result.writer ≡ writer }
    {
        WriteSink {
            writer,
            unflushed: 0,
            faults: 0,
        }
    }

    /// How many writes have failed.
    pub fn faults(&self) -> u64
        ensures { result ≡ ⟦<WriteSink<W> as Sink>⟧.faults self.now }
    {
        self.faults
    }

    /// The writer.
    pub fn into_inner(self) -> W
        ensures { result ≡ self.writer }
    {
        let WriteSink { writer, .. } = self;
        writer
    }
}

impl<W: Write + Drop> Sink for WriteSink<W> {
    ghost written = { λ sink. flushed sink.unflushed (W.contents sink.writer) };

    ghost faults = { λ sink. sink.faults };

    #[tactic(auto, using(crate::proofs::PutLemmas::flushed_as_told, crate::proofs::PutLemmas::flushed_stays))]
    fn write(&mut self, piece: &[u8]) -> Put {
        if self.unflushed > 0 {
            self.faults = raised(self.faults);
            return Put::Failed;
        }
        let written = write_to(&mut self.writer, piece);
        self.unflushed = written.unflushed;
        self.faults = after_write(written.put, self.faults);
        written.put
    }
}
