//! The bytes of a table, from a stream that is opened only when they are needed.

ghost use Rattle.std.specs.Prelude.{◌≡◌, ◌≢◌, ◌⊎◌, ℕ, List, Option, None, IfOk, IfErr, string_bytes, ⊤};
ghost use Rattle.std.specs.Io.KnownBytes.{Keeps};
ghost use Rattle.std.specs.IoError.{error_kind};
ghost use Rattle.rj_files.specs.Labels.{IsUnreadOf, unread_fault};
ghost use Rattle.rj_files.specs.Streams.{AreBytesOf, IsUnread};
ghost use Rattle.rj_files.specs.Texts.{IsIndented};

use crate::progress::Progress;
use crate::watched::WatchedReader;
use rj_csv_io::{CountedReader, ReadRefused, read_all};
use rj_line::fault::{Fault, Side};
use std::alloc::{AllocError, Global};
use std::io::{self, ErrorKind, Read};
use std::time::Clock;

/// A source of the bytes of a table.
pub trait Stream {
    /// From what they are read.
    type Reader: Read + Drop;

    // The bytes, if they are known before it is opened.
    ghost tells: { Self → Option (List ℕ) } = { λ _. None };

    // Which line may explain why it can't be opened or read.
    ghost explains: { Self → List ℕ → Type 0 } = { λ _ _. ⊤ };

    /// Opens it, before anything is read from it.
    ///
    /// # Errors
    ///
    /// The system's error if it can't be opened.
    fn open(&self) -> io::Result<OpenStream<Self::Reader>>
        ensures { IfOk result (λ opened. Keeps (tells self.now) (Self.Reader.remaining opened.reader)) };

    /// A line, with two blanks in front, that explains why it can't be opened or read.
    ///
    /// # Errors
    ///
    /// It fails only when memory runs out.
    fn explain_unread(&self, alloc: Global) -> Result<String, AllocError>
        ensures { IfOk result (λ s. IsIndented (string_bytes s) × explains self.now (string_bytes s)) };
}

/// A stream that was just opened.
#[derive(Drop)]
pub struct OpenStream<F> {
    /// From what it is read.
    pub reader: F,
    /// About how many bytes it has, or 0 if that isn't known. This is only a hint.
    pub likely_size: u64,
}

/// Whose file is read, as its errors tell: a table's, or the one that lists types of both.
#[derive(Clone, Copy)]
pub(crate) enum FileLabel {
    One(Side),
    Both,
}

// The error of such a file that the system doesn't give.
fn device_fault(label: FileLabel) -> Fault
    ensures { result ≡ unread_fault label }
{
    match label {
        FileLabel::One(side) => Fault::ReadDevice(side),
        FileLabel::Both => Fault::SharedReadDevice,
    }
}

/// The error of a file that can't be opened.
pub(crate) fn unopened(error: &io::Error, label: FileLabel) -> Fault
    ensures memory { error_kind error.now ≡ ErrorKind.OutOfMemory → result ≡ Fault.Memory }
    ensures device { error_kind error.now ≢ ErrorKind.OutOfMemory → result ≡ unread_fault label }
    ensures unread { IsUnreadOf label result }
{
    if error.kind() == ErrorKind::OutOfMemory {
        Fault::Memory
    } else {
        device_fault(label)
    }
}

// The error of a file that can't be read to its end.
fn unread(refused: ReadRefused, label: FileLabel) -> Fault
    ensures memory { refused ≡ ReadRefused.Memory → result ≡ Fault.Memory }
    ensures device { refused ≢ ReadRefused.Memory → result ≡ unread_fault label }
    ensures unread { IsUnreadOf label result }
{
    match refused {
        ReadRefused::Memory => Fault::Memory,
        _ => device_fault(label),
    }
}

/// The bytes of a reader, to its end. There are about `likely_size` bytes.
pub(crate) fn read_bytes<F: Read + Drop>(
    alloc: Global,
    reader: F,
    likely_size: u64,
    label: FileLabel,
) -> Result<Vec<u8>, Fault>
    ensures bytes { IfOk result (λ v. AreBytesOf (F.remaining reader) v.items) }
    ensures fault { IfErr result (IsUnreadOf label) }
{
    let mut reader = CountedReader::with_likely_size(reader, likely_size);
    match read_all(alloc, &mut reader) {
        Ok(bytes) => Ok(bytes),
        Err(refused) => Err(unread(refused, label)),
    }
}

/// The bytes of a side's table, to their end. Meanwhile the progress shows how many were read.
pub(crate) fn read_stream<R: Eprint + Clock, S: Stream>(
    alloc: Global,
    stream: &S,
    side: Side,
    progress: &Progress<'_, R>,
) -> Result<Vec<u8>, Fault>
    ensures bytes { IfOk result (λ v. AreBytesOf (S.tells stream.now) v.items) }
    ensures fault { IfErr result (IsUnread side) }
{
    let OpenStream {
        reader,
        likely_size,
    } = match stream.open() {
        Ok(opened) => opened,
        Err(error) => return Err(unopened(&error, FileLabel::One(side))),
    };
    progress.begin_file(side, likely_size);
    let reader = WatchedReader::new(progress, reader, side, likely_size);
    read_bytes(alloc, reader, likely_size, FileLabel::One(side))
}
