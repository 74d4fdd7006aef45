//! A writer that records the system's error.

ghost use Rattle.std.specs.Prelude.{◌≡◌, None, Some};
ghost use Rattle.std.specs.IoError.{error_kind};

use std::io::{self, Write};

/// A writer that does what another one does, and records its last error. It tells the bytes that
/// the other one tells.
#[derive(Drop)]
pub(crate) struct ErrorRecordingWriter<W: Write> {
    writer: W,
    error: Option<io::Error>,
}

impl<W: Write> ErrorRecordingWriter<W> {
    pub(crate) fn new(writer: W) -> ErrorRecordingWriter<W>
        ensures writer { result.writer ≡ writer }
        ensures error { result.error ≡ None }
    {
        ErrorRecordingWriter {
            writer,
            error: None,
        }
    }

    /// The writer, and its last error.
    pub(crate) fn into_parts(self) -> (W, Option<io::Error>)
        ensures writer { result.0 ≡ self.writer }
        ensures error { result.1 ≡ self.error }
    {
        let ErrorRecordingWriter { writer, error } = self;
        (writer, error)
    }

    // Records an error, and returns one of its kind.
    fn note(&mut self, error: io::Error) -> io::Error
        ensures writer { self.new.writer ≡ self.old.writer }
        ensures recorded { self.new.error ≡ Some error }
        ensures kind { error_kind result ≡ error_kind error }
    {
        let kind = error.kind();
        self.error = Some(error);
        io::Error::from(kind)
    }
}

impl<W: Write> Write for ErrorRecordingWriter<W> {
    ghost contents = { λ n. W.contents n.writer };

    fn write(&mut self, bytes: &[u8]) -> io::Result<usize> {
        match self.writer.write(bytes) {
            Ok(written) => Ok(written),
            Err(error) => Err(self.note(error)),
        }
    }

    fn flush(&mut self) -> io::Result<()> {
        match self.writer.flush() {
            Ok(()) => Ok(()),
            Err(error) => Err(self.note(error)),
        }
    }
}
