//! Streams by their names: files, and standard input.

ghost use Rattle.std.specs.Prelude.{◌≡◌, codes, IfOk, List, MatchOption, None, Some, string_bytes, ℕ};
ghost use Rattle.std.specs.Str.{bytes_eq};
ghost use Rattle.rj_files.specs.Readers.{remaining_of};
ghost use Rattle.rj_files.specs.FaultFiles.{table_name};
ghost use Rattle.rj_files.specs.Texts.{IsSystemLine, system_line};

use crate::reading::{OpenStream, Stream};
use std::alloc::{AllocError, Global};
use std::fs::{self, Files, OpenFile};
use std::io::{self, Read};

/// Whether a name means standard input (of an input) or standard output (of an output).
pub(crate) fn is_standard_stream(name: &str) -> bool
    ensures { result ≡ bytes_eq name.now (codes "-") }
{
    name == "-"
}

/// The stream of a name: the file of this name, or standard input if it is `-`.
#[derive(Drop)]
pub struct NamedStream<'a, R> {
    rt: &'a R,
    name: &'a str,
}

impl<'a, R> NamedStream<'a, R> {
    /// The stream of this name.
    pub fn new(rt: &'a R, name: &'a str) -> NamedStream<'a, R>
        ensures runtime { result.rt ≡ rt.entry }
        ensures name { result.name ≡ name.entry }
    {
        NamedStream { rt, name }
    }
}

/// The reader of such a stream.
#[derive(Drop)]
pub enum StreamReader<F, I> {
    /// That of a file.
    File(F),
    /// That of standard input.
    Input(I),
}

impl<F: Read, I: Read> Read for StreamReader<F, I> {
    ghost remaining = { λ r. remaining_of F.remaining I.remaining r };

    fn read(&mut self, buffer: &mut [u8]) -> io::Result<usize> {
        match self {
            StreamReader::File(file) => file.read(buffer),
            StreamReader::Input(input) => input.read(buffer),
        }
    }
}

/// A file, and about how many bytes it has, or 0 if that isn't known.
pub(crate) fn open_file<R: Files>(rt: &R, name: &str) -> io::Result<OpenStream<R::File>> {
    let reader = fs::open(rt, name)?;
    let likely_size = match reader.metadata() {
        Ok(metadata) => metadata.len(),
        Err(_) => 0,
    };
    Ok(OpenStream {
        reader,
        likely_size,
    })
}

/// The system's words for why a file can't be opened or read, if it says so again.
pub(crate) fn why_unread<R: Files>(rt: &R, name: &str) -> Option<io::Error> {
    match fs::open(rt, name) {
        Ok(mut file) => match file.read(&mut [0u8; 1]) {
            Ok(_) => None,
            Err(error) => Some(error),
        },
        Err(error) => Some(error),
    }
}

/// The name of a file and the system's words, without the number that it has for them, or only the
/// name if there are none.
pub(crate) fn told_by_system(
    alloc: Global,
    name: &str,
    error: &Option<io::Error>,
) -> Result<String, AllocError>
    ensures line { IfOk result (λ s. IsSystemLine name.now (string_bytes s)) }
    ensures words { IfOk result (λ s. MatchOption error.now (string_bytes s ≡ system_line name.now None)
        (λ _. (words : List ℕ) × (string_bytes s ≡ system_line name.now (Some words)))) }
{
    let Some(error) = error else {
        return format!(in alloc; "  {name}\n");
    };
    let words = format!(in alloc; "{error}")?;
    match words.as_str().split_once(" (os error") {
        Some((words, _)) => format!(in alloc; "  {name}: {words}\n"),
        None => format!(in alloc; "  {name}: {words}\n"),
    }
}

impl<R: Files + Input> Stream for NamedStream<'_, R> {
    type Reader = StreamReader<R::File, R::Reader>;

    ghost explains = { λ s line. IsSystemLine (table_name s.name.now) line };

    fn open(&self) -> io::Result<OpenStream<StreamReader<R::File, R::Reader>>> {
        if is_standard_stream(self.name) {
            let reader = StreamReader::Input(self.rt.reader());
            return Ok(OpenStream {
                reader,
                likely_size: 0,
            });
        }
        let OpenStream {
            reader,
            likely_size,
        } = open_file(self.rt, self.name)?;
        Ok(OpenStream {
            reader: StreamReader::File(reader),
            likely_size,
        })
    }

    fn explain_unread(&self, alloc: Global) -> Result<String, AllocError> {
        if is_standard_stream(self.name) {
            return format!(in alloc; "  standard input\n");
        }
        told_by_system(alloc, self.name, &why_unread(self.rt, self.name))
    }
}
