//! From a stream of bytes to the types that its cells suggest.

ghost use Rattle.std.specs.Prelude.{◌≡◌, ◌≢◌, ◌⊎◌, ℕ, List, IfOk, IfErr, None, Ok, OnOk, false, string_bytes, true};
ghost use Rattle.rj_csv_io.specs.Typed.{null_texts};
ghost use Rattle.rj_explain.specs.Explained.{header_names};
ghost use Rattle.rj_explain.specs.Hints.{separator_line};
ghost use Rattle.rj_files.specs.Alone.{AreLinesAlone};
ghost use Rattle.rj_files.specs.FaultFiles.{output_name};
ghost use Rattle.rj_files.specs.Streams.{AreBytesOf, IsStrictlyUnsuggested, IsSuggestedBy, IsUnsuggested, IsUnsuggestedBy, WritesSuggested, fault_of_refused};
ghost use Rattle.rj_files.specs.Texts.{IsSystemLine};
ghost use Rattle.rj_files.specs.Told.{IsThere};
ghost use Rattle.rj_line.specs.StrictListings.{IsStrictListing};

use crate::alone::{Suggesting, explained_alone, unread_alone};
use crate::explained::ExplainedFault;
use crate::explaining::unwritten;
use crate::progress::Progress;
use crate::reading::{Stream, read_stream};
use crate::recording::ErrorRecordingWriter;
use rj_command::fault_of_text;
use rj_csv_io::{CountedWriter, InputFormat, Output};
use rj_explain::explain_separator;
use rj_line::Strictness;
use rj_line::fault::{Fault, Side};
use rj_line::shown::Shown;
use rj_line::suggest::{
    ListedColumns, Misfit, StrictlyRefused, Suggestion, suggest_listed, suggest_listed_strictly,
};
use std::alloc::{AllocError, Global};
use std::io::Write;
use std::time::Clock;

// The error of a file that is read strictly.
fn fault_of_refused(refused: StrictlyRefused) -> Fault
    ensures { result ≡ fault_of_refused refused }
{
    match refused {
        StrictlyRefused::Records(fault) => fault,
        StrictlyRefused::Text(fault) => fault_of_text(Side::Left, fault),
    }
}

// What the cells of a file suggest of these columns. Its text has to be of RFC 4180's grammar.
fn suggested_strictly(
    alloc: Global,
    bytes: &[u8],
    format: &InputFormat<'_>,
    full: bool,
    listed: ListedColumns,
) -> Result<Suggestion, Fault>
    ensures suggestion { IfOk result (IsStrictListing listed full format.now.delimiter bytes.now (null_texts format.now.nulls.now)) }
    ensures fault { IfErr result (λ f. f ≢ Fault.Memory → IsStrictlyUnsuggested full format.now.delimiter bytes.now (null_texts format.now.nulls.now) f) }
{
    match suggest_listed_strictly(alloc, bytes, format, full, listed) {
        Ok(suggestion) => Ok(suggestion),
        Err(refused) => Err(fault_of_refused(refused)),
    }
}

// What the cells of a file suggest of these columns, read as strictly as this.
fn suggested_by(
    alloc: Global,
    bytes: &[u8],
    format: &InputFormat<'_>,
    strict: Strictness,
    listed: ListedColumns,
) -> Result<Suggestion, Fault>
    ensures suggestion { IfOk result (IsSuggestedBy listed strict format.now.delimiter bytes.now (null_texts format.now.nulls.now)) }
    ensures fault { IfErr result (λ f. f ≢ Fault.Memory → IsUnsuggestedBy strict format.now.delimiter bytes.now (null_texts format.now.nulls.now) f) }
{
    match strict {
        Strictness::Off => suggest_listed(alloc, bytes, format, listed),
        Strictness::On => suggested_strictly(alloc, bytes, format, false, listed),
        Strictness::Full => suggested_strictly(alloc, bytes, format, true, listed),
    }
}

// What the cells of a file suggest, and the line for the sign that separates its fields in place of
// its delimiter, or that memory ran out for it.
#[derive(Drop)]
struct Found {
    suggestion: Suggestion,
    separator: Result<String, AllocError>,
}

// What the cells of a stream suggest of the columns that are asked for.
fn suggested<R: AllocGlobal + Eprint + Clock, S: Stream>(
    rt: &R,
    stream: &S,
    format: &InputFormat<'_>,
    asked: Suggesting,
) -> Result<Found, ExplainedFault>
    ensures suggestion { IfOk result (λ found. (bytes : List ℕ) × AreBytesOf (S.tells stream.now) bytes
        × IsSuggestedBy asked.listed asked.strict format.now.delimiter bytes (null_texts format.now.nulls.now) found.suggestion
        × IfOk found.separator (λ s. string_bytes s ≡ separator_line None format.now.delimiter (header_names format.now.delimiter bytes))) }
    ensures fault { IfErr result (λ e. IsUnsuggested asked.strict format.now.delimiter (null_texts format.now.nulls.now) (S.tells stream.now) e.fault) }
    ensures unasked { asked.explain ≡ false → IfErr result (λ e. e.lines ≡ Ok None) }
    ensures asked { asked.explain ≡ true → IfErr result (λ e. AreLinesAlone asked.strict format.now.delimiter (S.tells stream.now) (S.explains stream.now) e.fault e.lines) }
    ensures told { IfErr result (λ e. e.is_told ≡ true) }
{
    let alloc = rt.alloc();
    let bytes = match read_stream(alloc, stream, Side::Left, &Progress::hidden(rt)) {
        Ok(bytes) => bytes,
        Err(fault) => return Err(unread_alone(alloc, stream, asked.explain, fault)),
    };
    let bytes = bytes.as_slice();
    match suggested_by(alloc, bytes, format, asked.strict, asked.listed) {
        Ok(suggestion) => Ok(Found {
            suggestion,
            separator: explain_separator(alloc, bytes, format.delimiter),
        }),
        Err(fault) => Err(explained_alone(alloc, bytes, format.delimiter, asked, fault)),
    }
}

// Whether a name has only letters, digits and underscores.
fn is_plain(name: &str) -> bool {
    name.as_bytes()
        .iter()
        .all(|b| b.is_ascii_alphanumeric() || *b == b'_')
}

// Prints on standard error which cell keeps a column from being one of numbers.
fn tell_misfit<R: Eprint>(rt: &R, misfit: &Misfit) {
    let (name, row) = (misfit.column.as_str(), misfit.row);
    let text = Shown {
        bytes: misfit.text.as_bytes(),
    };
    if is_plain(name) {
        let _ = eprintln!(rt; "radixjoin: {name} is text: row {row} has {text}");
        return;
    }
    let name = Shown {
        bytes: name.as_bytes(),
    };
    let _ = eprintln!(rt; "radixjoin: {name} is text: row {row} has {text}");
}

// The same of each column that has such a cell.
fn tell_misfits<R: Eprint>(rt: &R, misfits: &[Option<Misfit>]) {
    for misfit in misfits {
        if let Some(misfit) = misfit {
            tell_misfit(rt, misfit);
        }
    }
}

// Prints on standard error what is to be told beside a list: the cells that keep its columns from
// being of numbers, or that no column can be a key; and which delimiter may be meant.
fn tell_beside<R: Eprint>(rt: &R, found: &Found, listed: ListedColumns) {
    tell_misfits(rt, found.suggestion.misfits.as_slice());
    if matches!(listed, ListedColumns::Keys) && found.suggestion.list.is_empty() {
        let _ = eprintln!(rt; "radixjoin: no column is a key: each has a NULL or a repeated cell");
    }
    if let Ok(line) = &found.separator {
        let _ = eprint!(rt; "{line}");
    }
}

/// Reads the table that a stream gives in this format, to its end, and writes a list of the types
/// that the cells of the columns suggest that are asked for after what the writer already has, as
/// [`suggest_listed`] makes it, or, if it is to be read strictly, [`suggest_listed_strictly`]. Then
/// it prints on standard error, for each listed column that one cell or more keep from being one of
/// numbers, the first of these cells; or that no column can be a key, if only such columns are
/// listed and there is none; and which delimiter may be meant, if the only name has another one. It
/// returns the writer.
///
/// # Errors
///
/// `ReadDevice` of the left side if the stream can't be opened or read, and else the error of the
/// two on its bytes, as that of a left table, with the lines that explain it if that is asked for.
/// The writer stays as it was, except after `WriteDevice`, which isn't told if whoever reads the list
/// has gone. `Memory` comes only when memory ran out.
pub fn write_suggested<R, S, W>(
    rt: &R,
    stream: &S,
    format: &InputFormat<'_>,
    asked: Suggesting,
    writer: W,
) -> (Result<(), ExplainedFault>, W)
where
    R: AllocGlobal + Eprint + Clock,
    S: Stream,
    W: Write,
    ensures written { OnOk result.0 (WritesSuggested asked.listed asked.strict format.now.delimiter (null_texts format.now.nulls.now) (S.tells stream.now) (W.contents writer) (W.contents result.1)) }
    ensures fault { IfErr result.0 (λ e. e.fault ≢ Fault.WriteDevice → IsUnsuggested asked.strict format.now.delimiter (null_texts format.now.nulls.now) (S.tells stream.now) e.fault) }
    ensures unchanged { IfErr result.0 (λ e. e.fault ≢ Fault.WriteDevice → result.1 ≡ writer) }
    ensures unasked { asked.explain ≡ false → IfErr result.0 (λ e. e.lines ≡ Ok None) }
    ensures asked { asked.explain ≡ true → IfErr result.0 (λ e. e.fault ≢ Fault.WriteDevice
        → AreLinesAlone asked.strict format.now.delimiter (S.tells stream.now) (S.explains stream.now) e.fault e.lines) }
    ensures unwritten { asked.explain ≡ true → IfErr result.0 (λ e. e.fault ≡ Fault.WriteDevice → e.is_told ≡ true
        → IsThere e.lines (IsSystemLine (output_name None))) }
    ensures told { IfErr result.0 (λ e. e.fault ≢ Fault.WriteDevice → e.is_told ≡ true) }
{
    let found = match suggested(rt, stream, format, asked) {
        Ok(found) => found,
        Err(e) => return (Err(e), writer),
    };
    let mut writer = CountedWriter::new(ErrorRecordingWriter::new(writer));
    let written = writer.put(found.suggestion.list.as_slice());
    let (writer, error) = writer.into_inner().into_parts();
    match written {
        Ok(()) => {
            tell_beside(rt, &found, asked.listed);
            (Ok(()), writer)
        }
        Err(_) => {
            let fault = Fault::WriteDevice;
            (
                Err(unwritten(rt.alloc(), None, asked.explain, fault, &error)),
                writer,
            )
        }
    }
}
