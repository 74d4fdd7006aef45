//! Devices that take bytes.

ghost use Rattle.std.specs.Prelude.{◌≡◌, ℕ, List, Option, None, OnOk, OnErr};
ghost use Rattle.std.specs.Io.KnownBytes.{Appends, Keeps};
ghost use Rattle.rj_csv_io.specs.Devices.{after_failure, write_failures_of, writer_of};

use std::io::{ErrorKind, Write};

/// The device failed in this call.
#[derive(Clone, Copy, Debug, PartialEq, Eq)]
pub struct Failed;

/// A device that takes bytes and counts its failures.
pub trait Output {
    // The bytes that it got, if it tells them.
    ghost told: { Self → Option (List ℕ) } = { λ _. None };

    // How often it failed.
    ghost count: { Self → ℕ };

    /// Puts all of these bytes after those that it got before.
    ///
    /// # Errors
    ///
    /// `Failed` if the device failed. This adds one to the count of failures, as far as 64 bits count. How many of the bytes
    /// it took is unknown then.
    fn put(&mut self, bytes: &[u8]) -> Result<(), Failed>
        ensures ok { OnOk result (Appends (told self.old) (told self.new) bytes.now) }
        ensures kept { OnOk result (count self.new ≡ count self.old) }
        ensures failed { OnErr result (count self.new ≡ after_failure (count self.old)) };

    /// How often it has failed so far.
    fn failures(&self) -> u64
        ensures { result ≡ count self.now };
}

/// A writer of std with a count of its failures. It tells the bytes that the writer tells. It
/// repeats a write that a signal interrupted.
#[derive(Drop)]
pub struct CountedWriter<W: Write> {
    writer: W,
    failures: u64,
}

impl<W: Write> CountedWriter<W> {
    /// The writer, with no failure so far.
    pub fn new(writer: W) -> CountedWriter<W>
        ensures writer { writer_of result ≡ writer }
        ensures failures { write_failures_of result ≡ 0 }
    {
        CountedWriter {
            writer,
            failures: 0,
        }
    }

    /// The writer, without the count.
    pub fn into_inner(self) -> W
        ensures { result ≡ writer_of self }
    {
        let CountedWriter {
            writer,
            failures: _,
        } = self;
        writer
    }
}

// Writes all of the bytes. Writes that a signal interrupts are repeated.
fn write_whole<W: Write>(writer: &mut W, bytes: &[u8]) -> Result<(), Failed>
    ensures { OnOk result (Appends (W.contents writer.old) (W.contents writer.new) bytes.now) }
{
    let mut rest = bytes;
    for _turn in 0..u64::MAX {
        if rest.is_empty() {
            return Ok(());
        }
        match writer.write(rest) {
            Ok(0) => return Err(Failed),
            Ok(n) => rest = &rest[n..],
            Err(e) => {
                if e.kind() != ErrorKind::Interrupted {
                    return Err(Failed);
                }
            }
        }
    }
    Err(Failed)
}

// Flushes the writer. Flushes that a signal interrupts are repeated.
fn flush_whole<W: Write>(writer: &mut W) -> Result<(), Failed>
    ensures { OnOk result (Keeps (W.contents writer.old) (W.contents writer.new)) }
{
    for _turn in 0..u64::MAX {
        match writer.flush() {
            Ok(()) => return Ok(()),
            Err(e) => {
                if e.kind() != ErrorKind::Interrupted {
                    return Err(Failed);
                }
            }
        }
    }
    Err(Failed)
}

// Writes all of the bytes, and flushes the writer.
fn write_through<W: Write>(writer: &mut W, bytes: &[u8]) -> Result<(), Failed>
    ensures { OnOk result (Appends (W.contents writer.old) (W.contents writer.new) bytes.now) }
{
    write_whole(writer, bytes)?;
    flush_whole(writer)?;
    Ok(())
}

impl<W: Write> Output for CountedWriter<W> {
    ghost told = { λ c. W.contents c.writer };

    ghost count = { λ c. c.failures };

    fn put(&mut self, bytes: &[u8]) -> Result<(), Failed> {
        match write_through(&mut self.writer, bytes) {
            Ok(()) => Ok(()),
            Err(Failed) => {
                self.failures = self.failures.saturating_add(1);
                Err(Failed)
            }
        }
    }

    fn failures(&self) -> u64 {
        self.failures
    }
}
