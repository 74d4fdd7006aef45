//! What is said of a whole file that isn't CSV in UTF-8 with its delimiter.

ghost use Rattle.std.specs.Prelude.{◌≡◌, IfOk, None, Some, map, not, string_bytes};
ghost use Rattle.std.specs.List.{list_any};
ghost use Rattle.rj_explain.specs.Explained.{delimiter_of, file_read, header_names, separators_told, table_told};
ghost use Rattle.rj_explain.specs.Hints as hints;
ghost use Rattle.rj_line.specs.Shown as spec;

use crate::inputs::{Inputs, TableFile, header_of};
use rj_columns::Table;
use rj_csv_io::strict::Delimiter;
use rj_line::fault::{Fault, Side};
use rj_line::shown::text_in;
use std::alloc::{AllocError, Global};

const GZIP: &str = "is compressed: gzip -dc FILE > table.csv unpacks it";

const XZ: &str = "is compressed: xz -dc FILE > table.csv unpacks it";

const ZIP: &str = "is a zip archive or a spreadsheet: unzip it, or save the sheet as CSV in UTF-8";

const UTF_16: &str = "is UTF-16: iconv -f UTF-16 -t UTF-8 FILE > table.csv converts it";

const NO_UTF_8: &str =
    "isn't UTF-8: iconv -f WINDOWS-1252 -t UTF-8 FILE > table.csv, if it is Latin-1";

// What another kind of file is, by its first bytes, and what makes a table of it.
#[tactic(auto, unfolding(crate::specs::Hints::kind_words))]
fn kind_words(file: &[u8]) -> &'static str
    ensures { result.now ≡ hints.kind_words file.now }
{
    if file.starts_with(&[0x1F, 0x8B]) {
        return GZIP;
    }
    if file.starts_with(&[0xFD, b'7', b'z', b'X', b'Z']) {
        return XZ;
    }
    if file.starts_with(&[b'P', b'K', 3, 4]) {
        return ZIP;
    }
    if file.starts_with(&[0xFF, 0xFE]) || file.starts_with(&[0xFE, 0xFF]) {
        return UTF_16;
    }
    ""
}

// Whether bytes are UTF-8.
fn is_text(bytes: &[u8]) -> bool
    ensures { result ≡ spec.is_text bytes.now }
{
    text_in(bytes).is_some()
}

// Whether one of these names isn't UTF-8.
fn has_foreign(names: &[&[u8]]) -> bool
    ensures { result ≡ list_any (λ n. not (spec.is_text n.now)) names.now }
{
    names.iter().any(|name| !is_text(*name))
}

// Whether a cell is refused and the file isn't UTF-8, or a name is and one of the header isn't.
fn is_foreign(fault: &Fault, file: &[u8], names: &[&[u8]]) -> bool
    ensures { result ≡ hints.is_foreign fault.now file.now (map (λ n. n.now) names.now) }
{
    match fault {
        Fault::BadText(_, _, _) => !is_text(file),
        Fault::BadName(_, _) => has_foreign(names),
        _ => false,
    }
}

// What is said of a file with these names in its header that is of another kind, or isn't UTF-8.
fn foreign_words(fault: &Fault, file: &[u8], names: &[&[u8]]) -> &'static str
    ensures { result.now ≡ hints.first_words (hints.kind_words file.now) (hints.foreign_words fault.now file.now (map (λ n. n.now) names.now)) }
{
    let kind = kind_words(file);
    if !kind.is_empty() {
        return kind;
    }
    if is_foreign(fault, file, names) {
        return NO_UTF_8;
    }
    ""
}

// A sign that may separate the fields of a file.
#[derive(Clone, Copy)]
enum Separator {
    Semicolon,
    Tab,
    Bar,
    Comma,
}

impl Separator {
    // What several are called.
    fn plural(self) -> &'static str
        ensures { result.now ≡ hints.plural self }
    {
        match self {
            Separator::Semicolon => "semicolons",
            Separator::Tab => "tabs",
            Separator::Bar => "bars",
            Separator::Comma => "commas",
        }
    }

    // The sign as a shell's word after an option.
    fn shell_word(self) -> &'static str
        ensures { result.now ≡ hints.shell_word self }
    {
        match self {
            Separator::Semicolon => "';'",
            Separator::Tab => "tab",
            Separator::Bar => "'|'",
            Separator::Comma => "','",
        }
    }
}

// Whether a sign that isn't the delimiter is in a name.
fn stands_in(delimiter: u8, sign: u8, name: &[u8]) -> bool
    ensures { result ≡ hints.stands_in delimiter sign name.now }
{
    delimiter != sign && name.contains(&sign)
}

// The sign that separates the fields of a file in place of its delimiter, if it is in this name.
fn separator_in(delimiter: u8, name: &[u8]) -> Option<Separator>
    ensures { result ≡ hints.separator_in delimiter name.now }
{
    if stands_in(delimiter, b';', name) {
        return Some(Separator::Semicolon);
    }
    if stands_in(delimiter, b'\t', name) {
        return Some(Separator::Tab);
    }
    if stands_in(delimiter, b'|', name) {
        return Some(Separator::Bar);
    }
    if stands_in(delimiter, b',', name) {
        return Some(Separator::Comma);
    }
    None
}

// The same of the one name of a header.
fn separator_of(delimiter: u8, names: &[&[u8]]) -> Option<Separator>
    ensures { result ≡ hints.separator_of delimiter (map (λ n. n.now) names.now) }
{
    match names {
        [name] => separator_in(delimiter, *name),
        _ => None,
    }
}

// The same of the one column of a table.
fn separator_of_table(delimiter: u8, table: &Table) -> Option<Separator>
    ensures { result ≡ hints.separator_of delimiter table.now.names }
{
    if table.columns() != 1 {
        return None;
    }
    separator_in(delimiter, table.name(0).as_bytes())
}

// What stands before the word for a file: which side's it is, unless it is the only one.
fn before_file(label: Option<Side>) -> &'static str
    ensures { result.now ≡ hints.before_file label }
{
    match label {
        Some(Side::Left) => "left ",
        Some(Side::Right) => "right ",
        None => "",
    }
}

// The same before the name of an option.
fn before_option(label: Option<Side>) -> &'static str
    ensures { result.now ≡ hints.before_option label }
{
    match label {
        Some(Side::Left) => "left-",
        Some(Side::Right) => "right-",
        None => "",
    }
}

// What is said of a file that a sign separates.
fn separator_words(
    alloc: Global,
    label: Option<Side>,
    separator: Option<Separator>,
) -> Result<String, AllocError>
    ensures { IfOk result (λ s. string_bytes s ≡ hints.separator_words label separator) }
{
    match separator {
        Some(separator) => {
            let (signs, word) = (separator.plural(), separator.shell_word());
            let before = before_option(label);
            format!(in alloc;
                "seems to be separated by {signs}: is --{before}delimiter {word} meant?"
            )
        }
        None => Ok(String::new(alloc)),
    }
}

// What is said of a file with these names in its header.
fn file_words(
    alloc: Global,
    fault: &Fault,
    file: &TableFile<'_>,
    label: Option<Side>,
    names: &[&[u8]],
) -> Result<String, AllocError>
    ensures { IfOk result (λ s. string_bytes s
        ≡ hints.file_words label file.now.delimiter fault.now file.now.bytes.now (map (λ n. n.now) names.now)) }
{
    let words = foreign_words(fault, file.bytes, names);
    if !words.is_empty() {
        return String::from_str(alloc, words);
    }
    let delimiter = file.delimiter.byte();
    separator_words(alloc, label, separator_of(delimiter, names))
}

// A line for what is said of a file, if anything is.
fn file_line(alloc: Global, label: Option<Side>, words: &str) -> Result<String, AllocError>
    ensures { IfOk result (λ s. string_bytes s ≡ hints.file_line label words.now) }
{
    if words.is_empty() {
        return Ok(String::new(alloc));
    }
    let before = before_file(label);
    format!(in alloc; "  the {before}file {words}\n")
}

// The line for a file with these names in its header.
fn line_of_file(
    alloc: Global,
    fault: &Fault,
    file: &TableFile<'_>,
    label: Option<Side>,
    names: &[&[u8]],
) -> Result<String, AllocError>
    ensures { IfOk result (λ s. string_bytes s ≡ hints.file_line label
        (hints.file_words label file.now.delimiter fault.now file.now.bytes.now (map (λ n. n.now) names.now))) }
{
    let words = file_words(alloc, fault, file, label, names)?;
    file_line(alloc, label, words.as_str())
}

/// The side in whose file an error is, if more is to be said of the whole file.
pub(crate) fn file_side(fault: &Fault) -> Option<Side>
    ensures { result ≡ hints.file_side fault.now }
{
    match *fault {
        Fault::BadName(side, _)
        | Fault::RepeatedName(side, _)
        | Fault::TypeCount(side)
        | Fault::RaggedRow(side, _)
        | Fault::BadInteger(side, _, _)
        | Fault::BadText(side, _, _)
        | Fault::TooManyColumns(side)
        | Fault::OpenQuote(side, _, _)
        | Fault::AfterQuote(side, _, _)
        | Fault::BareQuote(side, _, _)
        | Fault::BareReturn(side, _, _)
        | Fault::EmptyLine(side, _)
        | Fault::TypeName(side, _) => Some(side),
        _ => None,
    }
}

/// The line for the file in which an error is, by the file's label, if it isn't CSV in UTF-8 with
/// its delimiter.
///
/// # Errors
///
/// It fails only when memory runs out.
pub(crate) fn table_line(
    alloc: Global,
    fault: &Fault,
    file: &TableFile<'_>,
    label: Option<Side>,
) -> Result<String, AllocError>
    ensures { IfOk result (λ s. string_bytes s ≡ table_told label fault.now (file_read file.now)) }
{
    let Some(header) = file.header(alloc)? else {
        return line_of_file(alloc, fault, file, label, &[]);
    };
    let names = header.names(alloc)?;
    line_of_file(alloc, fault, file, label, names.as_slice())
}

// The sign that separates the fields of a text in place of its delimiter, by its header.
fn separator_of_text(
    alloc: Global,
    bytes: &[u8],
    delimiter: Delimiter,
) -> Result<Option<Separator>, AllocError>
    ensures { IfOk result (λ o. o ≡ hints.separator_of delimiter (header_names delimiter bytes.now)) }
{
    let Some(header) = header_of(alloc, bytes, delimiter)? else {
        return Ok(None);
    };
    let names = header.names(alloc)?;
    Ok(separator_of(delimiter.byte(), names.as_slice()))
}

/// The line for the sign that separates the fields of the only file in place of its delimiter, by
/// the names of its header; it is empty if there is no such sign.
///
/// # Errors
///
/// It fails only when memory runs out.
pub fn explain_separator(
    alloc: Global,
    bytes: &[u8],
    delimiter: Delimiter,
) -> Result<String, AllocError>
    ensures { IfOk result (λ s. string_bytes s ≡ hints.separator_line None delimiter (header_names delimiter bytes.now)) }
{
    let words = separator_words(alloc, None, separator_of_text(alloc, bytes, delimiter)?)?;
    file_line(alloc, None, words.as_str())
}

// The line for the sign that separates the fields of a side's file, by its table.
fn separator_line(
    alloc: Global,
    inputs: &Inputs<'_, '_>,
    side: Side,
    table: &Table,
) -> Result<String, AllocError>
    ensures { IfOk result (λ s. string_bytes s ≡ hints.separator_line (Some side) (delimiter_of side inputs.now) table.now.names) }
{
    let delimiter = inputs.table(side).delimiter.byte();
    let words = separator_words(alloc, Some(side), separator_of_table(delimiter, table))?;
    file_line(alloc, Some(side), words.as_str())
}

/// The lines for the signs that separate the fields of the two files, by their tables.
///
/// # Errors
///
/// It fails only when memory runs out.
pub(crate) fn separator_lines(
    alloc: Global,
    inputs: &Inputs<'_, '_>,
    left: &Table,
    right: &Table,
) -> Result<String, AllocError>
    ensures { IfOk result (λ s. string_bytes s ≡ separators_told inputs.now left.now right.now) }
{
    let mut lines = separator_line(alloc, inputs, Side::Left, left)?;
    let more = separator_line(alloc, inputs, Side::Right, right)?;
    lines.push_str(more.as_str())?;
    Ok(lines)
}
