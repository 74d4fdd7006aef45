//! Places where a text stops being of RFC 4180's grammar.

ghost use Rattle.std.specs.Prelude.{◌≡◌, ◌+◌, ◌==◌, IfNone, IfOk, IfSome, IsSome, List, None, string_bytes};
ghost use Rattle.std.specs.List.{count_by};
ghost use Rattle.std.specs.Option.{option_copied};
ghost use Rattle.rj_csv_io.specs.StrictFaults.{AreAbove, HasFault, row_at};
ghost use Rattle.rj_csv_io.specs.Grammar.{Derives, File, Line, lines_text};
ghost use Rattle.rj_csv_io.specs.StrictReading.{body_of};
ghost use Rattle.rj_csv_io.specs.declared.strict.fault.StrictFault.{StrictFault};
ghost use Rattle.rj_csv_io.specs.declared.strict.header.HeaderPlace.TheVariants.{First};
ghost use Rattle.rj_explain.specs.Explained.{IsGrammarTold, IsStrictTold, column_name, file_read, names_of};
ghost use Rattle.rj_explain.specs.Lines as lines;
ghost use Rattle.rj_explain.specs.Strict.{IsFaultLine};

use crate::inputs::TableFile;
use crate::places::line_feeds;
use crate::row::field_at;
use rj_csv_io::strict::{Delimiter, HeaderPlace, above_fault, check};
use rj_csv_io::{Header as Names, without_bom};
use rj_line::shown::Shown;
use std::alloc::{AllocError, Global};

/// The line, counted from 1, on which the row begins in which a text stops being of the grammar
/// with this delimiter. `None` exactly if the text is of the grammar.
pub fn line_of_fault(text: &[u8], delimiter: Delimiter, full: bool) -> Option<u64>
    // Each answer is right.
    ensures none { IfNone result ((file : File) × Derives delimiter First full (body_of First text.now) file) }
    ensures line { IfSome result (IsFaultLine delimiter full text.now) }
    // Each right answer is given.
    ensures each_file { (file : File) → Derives delimiter First full (body_of First text.now) file → result ≡ None }
    ensures each_fault { (fault : StrictFault) → HasFault delimiter First full (body_of First text.now) fault → IsSome result }
{
    match check(text, delimiter, HeaderPlace::First, full) {
        Ok(()) => None,
        Err(fault) => {
            let above = without_bom(above_fault(text, delimiter, HeaderPlace::First, fault));
            Some(line_feeds(above) as u64 + 1)
        }
    }
}

// The name of a column of a row. A row is under the header unless its number is 0.
fn name_in_row<'h>(
    alloc: Global,
    header: &'h Option<Names>,
    row: u64,
    column: u64,
) -> Result<Option<&'h [u8]>, AllocError>
    ensures { IfOk result (λ o. option_copied o ≡ column_name (names_of header.now) row column) }
{
    match header {
        Some(header) if row > 0 => field_at(alloc, header, column),
        _ => Ok(None),
    }
}

// The line that shows such a place, and the reason.
fn grammar_line(
    alloc: Global,
    line: u64,
    name: Option<&[u8]>,
    why: &str,
) -> Result<String, AllocError>
    ensures { IfOk result (λ s. string_bytes s ≡ lines.grammar_line line (option_copied name.entry) why.now) }
{
    match name {
        Some(bytes) => {
            let name = Shown { bytes };
            format!(in alloc; "  line {line} of the file, column {name}: {why}\n")
        }
        None => format!(in alloc; "  line {line} of the file: {why}\n"),
    }
}

// The lines for a text, by the name of the column where it stops being of the grammar.
fn lines_of_place(
    alloc: Global,
    text: &[u8],
    delimiter: Delimiter,
    full: bool,
    name: Option<&[u8]>,
    why: &str,
) -> Result<String, AllocError>
    ensures { IfOk result (λ s. IsGrammarTold delimiter full text.now (option_copied name.entry) why.now (string_bytes s)) }
{
    match line_of_fault(text, delimiter, full) {
        Some(line) => grammar_line(alloc, line, name, why),
        None => Ok(String::new(alloc)),
    }
}

/// The lines for the place where a file stops being of the grammar, and the reason. The
/// column counts from 1; 0 means no column.
///
/// # Errors
///
/// It fails only when memory runs out.
pub(crate) fn grammar_lines(
    alloc: Global,
    file: &TableFile<'_>,
    row: u64,
    column: u64,
    why: &str,
) -> Result<String, AllocError>
    ensures { IfOk result (λ s. IsStrictTold (file_read file.now) row column why.now (string_bytes s)) }
{
    let header = file.header(alloc)?;
    let name = name_in_row(alloc, &header, row, column)?;
    lines_of_place(alloc, file.bytes, file.delimiter, file.is_full(), name, why)
}
