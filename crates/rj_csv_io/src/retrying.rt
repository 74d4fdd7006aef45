//! Readers that repeat interrupted reads.

ghost use Rattle.std.specs.Prelude.{◌≡◌};
ghost use Rattle.std.specs.Io.{ReadsAtMost};
ghost use Rattle.std.specs.Io.KnownBytes.{ReadConsumes};
ghost use Rattle.rj_csv_io.specs.Devices.{reader_retried};

use std::io::{self, ErrorKind, Read};

/// Reads the next bytes of a reader, and repeats a read that a signal interrupted.
pub(crate) fn read_again<R: Read>(reader: &mut R, buffer: &mut [u8]) -> io::Result<usize>
    ensures bound { ReadsAtMost result buffer.new }
    ensures bytes { ReadConsumes (R.remaining reader.old) (R.remaining reader.new) result buffer.new }
{
    for _turn in 0..u64::MAX {
        match reader.read(buffer) {
            Ok(k) => return Ok(k),
            Err(e) => {
                if e.kind() != ErrorKind::Interrupted {
                    return Err(e);
                }
            }
        }
    }
    reader.read(buffer)
}

/// A reader that repeats a read that a signal interrupted. It tells the bytes that the reader under
/// it tells.
#[derive(Drop)]
pub struct RetryingReader<R: Read + Drop> {
    reader: R,
}

impl<R: Read + Drop> RetryingReader<R> {
    /// The reader, which repeats interrupted reads.
    pub fn new(reader: R) -> RetryingReader<R>
        ensures { reader_retried result ≡ reader }
    {
        RetryingReader { reader }
    }
}

impl<R: Read + Drop> Read for RetryingReader<R> {
    ghost remaining = { λ p. R.remaining (reader_retried p) };

    fn read(&mut self, buffer: &mut [u8]) -> io::Result<usize> {
        read_again(&mut self.reader, buffer)
    }
}
