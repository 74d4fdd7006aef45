//! Devices that give bytes.

ghost use Rattle.std.specs.Prelude.{◌≡◌, ◌<◌, ◌≤◌, ℕ, List, Option, None, take, length, IfOk, OnOk, OnErr};
ghost use Rattle.std.specs.Io.KnownBytes.{Consumes, IsAtEnd};
ghost use Rattle.rj_csv_io.specs.Devices.{after_failure, likely_size_of, read_failures_of, reader_of};

use crate::output::Failed;
use crate::retrying::read_again;
use std::io::Read;

/// A device that gives bytes and counts its failures.
pub trait Input {
    // The bytes that it gives from here on, if it tells them.
    ghost tells: { Self → Option (List ℕ) } = { λ _. None };

    // How often it failed.
    ghost count: { Self → ℕ };

    /// Fills the buffer from its start with the next bytes, and returns how many they are. There
    /// are none only if the buffer is empty or the device is at its end.
    ///
    /// # Errors
    ///
    /// `Failed` if the device failed. This adds one to the count of failures, as far as 64 bits count.
    fn get(&mut self, buffer: &mut [u8]) -> Result<usize, Failed>
        ensures bound { IfOk result (λ k. k ≤ length buffer.new) }
        ensures bytes { IfOk result (λ k. Consumes (tells self.old) (tells self.new) (take k buffer.new)) }
        ensures end { IfOk result (λ k. k ≡ 0 → 0 < length buffer.new → IsAtEnd (tells self.new)) }
        ensures kept { OnOk result (count self.new ≡ count self.old) }
        ensures failed { OnErr result (count self.new ≡ after_failure (count self.old)) };

    /// How often it has failed so far.
    fn failures(&self) -> u64
        ensures { result ≡ count self.now };

    /// About how many bytes it will give, or 0 if that isn't known. This is only a hint: it may
    /// give more bytes or fewer.
    fn likely_size(&self) -> u64 {
        0
    }
}

/// A reader of std with a count of its failures. It tells the bytes that the reader tells. It
/// repeats a read that a signal interrupted.
#[derive(Drop)]
pub struct CountedReader<R: Read> {
    reader: R,
    failures: u64,
    likely_size: u64,
}

impl<R: Read> CountedReader<R> {
    /// The reader, with no failure so far. How many bytes it will give isn't known.
    pub fn new(reader: R) -> CountedReader<R>
        ensures reader { reader_of result ≡ reader }
        ensures failures { read_failures_of result ≡ 0 }
        ensures size { likely_size_of result ≡ 0 }
    {
        CountedReader::with_likely_size(reader, 0)
    }

    /// The reader, with no failure so far, and about how many bytes it will give, so that
    /// [`read_all`] reserves their room at once. The number changes nothing of what is read.
    ///
    /// [`read_all`]: crate::read_all
    pub fn with_likely_size(reader: R, likely_size: u64) -> CountedReader<R>
        ensures reader { reader_of result ≡ reader }
        ensures failures { read_failures_of result ≡ 0 }
        ensures size { likely_size_of result ≡ likely_size }
    {
        CountedReader {
            reader,
            failures: 0,
            likely_size,
        }
    }
}

impl<R: Read> Input for CountedReader<R> {
    ghost tells = { λ c. R.remaining c.reader };

    ghost count = { λ c. c.failures };

    fn get(&mut self, buffer: &mut [u8]) -> Result<usize, Failed> {
        match read_again(&mut self.reader, buffer) {
            Ok(k) => Ok(k),
            Err(_) => {
                self.failures = self.failures.saturating_add(1);
                Err(Failed)
            }
        }
    }

    fn failures(&self) -> u64 {
        self.failures
    }

    fn likely_size(&self) -> u64
        ensures { result ≡ likely_size_of self.now }
    {
        self.likely_size
    }
}
