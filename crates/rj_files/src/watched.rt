//! A reader and a writer that report how many bytes went through them.

ghost use Rattle.std.specs.Prelude.{◌≡◌};

use crate::progress::Progress;
use rj_line::fault::Side;
use std::io::{self, Read, Write};
use std::time::Clock;

/// A reader of a side's table that does what another one does. It tells the bytes that the other
/// one tells.
#[derive(Drop)]
pub(crate) struct WatchedReader<'a, R, S> {
    progress: &'a Progress<'a, R>,
    reader: S,
    side: Side,
    // About how many bytes it gives, or 0 if that isn't known.
    size: u64,
    read: u64,
}

impl<'a, R, S> WatchedReader<'a, R, S> {
    /// The reader, before anything of the side's table was read.
    pub(crate) fn new(
        progress: &'a Progress<'a, R>,
        reader: S,
        side: Side,
        size: u64,
    ) -> WatchedReader<'a, R, S>
        ensures { result.reader ≡ reader }
    {
        WatchedReader {
            progress,
            reader,
            side,
            size,
            read: 0,
        }
    }
}

impl<R: Clock + Eprint, S: Read> Read for WatchedReader<'_, R, S> {
    ghost remaining = { λ w. S.remaining w.reader };

    fn read(&mut self, buffer: &mut [u8]) -> io::Result<usize> {
        let read = self.reader.read(buffer)?;
        self.read = self.read.saturating_add(read as u64);
        self.progress.read(self.side, self.read, self.size);
        Ok(read)
    }
}

/// A writer of the result that does what another one does. It tells the bytes that the other one
/// tells.
#[derive(Drop)]
pub(crate) struct WatchedWriter<'a, R, W> {
    progress: &'a Progress<'a, R>,
    writer: W,
    written: u64,
}

impl<'a, R, W> WatchedWriter<'a, R, W> {
    /// The writer, before anything was written.
    pub(crate) fn new(progress: &'a Progress<'a, R>, writer: W) -> WatchedWriter<'a, R, W>
        ensures { result.writer ≡ writer }
    {
        WatchedWriter {
            progress,
            writer,
            written: 0,
        }
    }

    /// The writer alone.
    pub(crate) fn into_inner(self) -> W
        ensures { result ≡ self.entry.writer }
    {
        let WatchedWriter {
            progress: _,
            writer,
            written: _,
        } = self;
        writer
    }
}

impl<R: Clock + Eprint, W: Write> Write for WatchedWriter<'_, R, W> {
    ghost contents = { λ w. W.contents w.writer };

    fn write(&mut self, bytes: &[u8]) -> io::Result<usize> {
        self.progress.before_output();
        let written = self.writer.write(bytes)?;
        self.written = self.written.saturating_add(written as u64);
        self.progress.wrote(self.written);
        Ok(written)
    }

    fn flush(&mut self) -> io::Result<()> {
        self.writer.flush()
    }
}
