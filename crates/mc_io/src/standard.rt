// The readers and writers of std as a source and a sink. They tell the bytes that those tell: of a file or a
// terminal, none.
ghost use Rattle.std.specs.Prelude.{◌≡◌, None};

use crate::count::next_count;
use crate::{Failed, Sink, Source};
use std::io::{Error, Read, Write};

/// A reader as a source. It counts the reads that answered an error, and keeps what the last of them said.
#[derive(Drop)]
pub struct StdSource<R: Read> {
    reader: R,
    failed: u64,
    last_error: Option<Error>,
}

impl<R: Read> StdSource<R> {
    /// Has not failed yet.
    pub fn new(reader: R) -> StdSource<R>
        ensures left { ⟦<StdSource<R> as Source>⟧.left result ≡ R.remaining reader }
        ensures faults { ⟦<StdSource<R> as Source>⟧.faults result ≡ 0 }
        ensures last_error { result.last_error ≡ None }
    {
        StdSource {
            reader,
            failed: 0,
            last_error: None,
        }
    }

    /// What the reader said at the last read that answered an error; none before the first.
    pub fn last_error(&self) -> Option<Error>
        ensures { result ≡ self.now.last_error }
    {
        self.last_error
    }
}

impl<R: Read> Source for StdSource<R> {
    ghost left = { λ s. R.remaining s.reader };

    ghost faults = { λ s. s.failed };

    fn read(&mut self, buf: &mut [u8]) -> Result<usize, Failed> {
        match self.reader.read(buf) {
            Ok(count) => Ok(count),
            Err(error) => {
                self.failed = next_count(self.failed);
                self.last_error = Some(error);
                Err(Failed)
            }
        }
    }
}

/// A writer as a sink. It counts the writes that answered an error, or took nothing of a piece that isn't empty, and
/// keeps what the last error said.
#[derive(Drop)]
pub struct StdSink<W: Write> {
    writer: W,
    failed: u64,
    last_error: Option<Error>,
}

impl<W: Write> StdSink<W> {
    /// Has not failed yet.
    pub fn new(writer: W) -> StdSink<W>
        ensures written { ⟦<StdSink<W> as Sink>⟧.written result ≡ W.contents writer }
        ensures faults { ⟦<StdSink<W> as Sink>⟧.faults result ≡ 0 }
        ensures last_error { result.last_error ≡ None }
    {
        StdSink {
            writer,
            failed: 0,
            last_error: None,
        }
    }

    /// What the writer said at the last write that answered an error; none before the first, and none of a write that
    /// took nothing.
    pub fn last_error(&self) -> Option<Error>
        ensures { result ≡ self.now.last_error }
    {
        self.last_error
    }
}

impl<W: Write> Sink for StdSink<W> {
    ghost written = { λ s. W.contents s.writer };

    ghost faults = { λ s. s.failed };

    fn write(&mut self, piece: &[u8]) -> Result<usize, Failed> {
        match self.writer.write(piece) {
            Ok(count) => {
                if count == 0 && !piece.is_empty() {
                    self.failed = next_count(self.failed);
                }
                Ok(count)
            }
            Err(error) => {
                self.failed = next_count(self.failed);
                self.last_error = Some(error);
                Err(Failed)
            }
        }
    }
}
