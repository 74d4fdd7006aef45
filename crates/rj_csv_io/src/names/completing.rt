//! A text whose header is completed.

ghost use Rattle.std.specs.Prelude.{◌≡◌, ◌++◌, ◌⊎◌, IfOk, MatchOption, false, length, map, true};
ghost use Rattle.csv.specs.Reading.{strip_bom};
ghost use Rattle.csv.specs.Writing.{row_text};
ghost use Rattle.rj_csv_io.specs.Shown.{writer_of};
ghost use Rattle.rj_csv_io.specs.Internal.NameColumns.{columns_in, told_of};
ghost use Rattle.rj_csv_io.specs.Completed.{HasStrictHeader, IsCompleted, IsKept, IsNamed, header_of, is_left, mark, names_text};
ghost use Rattle.rj_csv_io.specs.StrictFaults.{HasFault};
ghost use Rattle.rj_csv_io.specs.Grammar.{Derives, File};
ghost use Rattle.rj_csv_io.specs.declared.strict.fault.StrictFault.{StrictFault};
ghost use Rattle.rj_csv_io.specs.declared.strict.header.HeaderPlace.TheVariants.{Above};
ghost use Rattle.rj_csv_io.specs.Named.{columns_of as columns_of_fields, completed_names, given_from, names_of};

use crate::names::column::{GivenName, NamedColumn};
use crate::names::line_end::first_end;
use crate::names::naming::{columns_of, given_names, have_names};
use crate::strict::{Delimiter, HeaderPlace as Place, check};
use crate::{Header, without_bom};
use csv::WriterBuilder;
use std::alloc::{AllocError, Global};

// The most columns of a table.
const MOST_COLUMNS: usize = 256;

/// A text whose header was completed.
#[derive(Drop)]
pub struct Completed {
    /// The text.
    pub bytes: Vec<u8>,
    /// The names that were given, from left to right.
    pub given: Vec<GivenName>,
}

// The record of these names.
fn record_of(alloc: Global, names: &[&[u8]], delimiter: Delimiter) -> Result<Vec<u8>, AllocError>
    ensures { IfOk result (λ v. v.items ≡ row_text (writer_of delimiter) (map (λ n. n.now) names.now)) }
{
    let mut writer = WriterBuilder::new()
        .delimiter(delimiter.byte())
        .from_writer(Vec::new(alloc));
    if writer.write_fields(names).is_err() {
        return Err(AllocError);
    }
    match writer.into_inner() {
        Ok(text) => Ok(text),
        Err(_) => Err(AllocError),
    }
}

// The names of columns.
fn names_of<'c>(alloc: Global, columns: &'c [NamedColumn<'_>]) -> Result<Vec<&'c [u8]>, AllocError>
    ensures { IfOk result (λ v. map (λ n. n.now) v.items ≡ names_of (columns_in columns.now)) }
{
    let mut names = Vec::new(alloc);
    for i in 0..columns.len() {
        names.push(columns[i].name())?;
    }
    Ok(names)
}

// A text under a header of these names, where this is left of the text from its header's line end
// on.
fn text_under(
    alloc: Global,
    names: &[&[u8]],
    rest: &[u8],
    delimiter: Delimiter,
) -> Result<Vec<u8>, AllocError>
    ensures { IfOk result (λ v. v.items ≡ mark ++ (names_text delimiter (map (λ n. n.now) names.now) ++ rest.now)) }
{
    let record = record_of(alloc, names, delimiter)?;
    let size = record.len().saturating_add(rest.len()).saturating_add(2);
    let mut text = Vec::with_capacity(alloc, size)?;
    text.extend_from_slice(&[0xEF, 0xBB, 0xBF])?;
    text.extend_from_slice(&record[..record.len().saturating_sub(1)])?;
    text.extend_from_slice(rest)?;
    Ok(text)
}

// A text under its completed header, of these fields, where this is left of the text from its
// header's line end on.
fn named(
    alloc: Global,
    fields: &[&[u8]],
    rest: &[u8],
    delimiter: Delimiter,
) -> Result<Completed, AllocError>
    ensures text { IfOk result (λ c. c.bytes.items ≡ mark ++ (names_text delimiter (completed_names (map (λ f. f.now) fields.now)) ++ rest.now)) }
    ensures given { IfOk result (λ c. told_of c.given.items ≡ given_from 1 (columns_of_fields (map (λ f. f.now) fields.now))) }
{
    let columns = columns_of(alloc, fields)?;
    let names = names_of(alloc, columns.as_slice())?;
    let bytes = text_under(alloc, names.as_slice(), rest, delimiter)?;
    let given = given_names(alloc, columns.as_slice())?;
    Ok(Completed { bytes, given })
}

// Whether nothing is given to a header of these fields.
fn is_left(fields: &[&[u8]]) -> bool
    ensures { result ≡ is_left (map (λ f. f.now) fields.now) }
{
    have_names(fields) || fields.len() > MOST_COLUMNS
}

// Whether the text of a header has to be of RFC 4180's grammar, without empty lines, and isn't.
fn is_refused(first: &[u8], delimiter: Delimiter, strict: bool) -> bool
    ensures broken { result ≡ true → (strict ≡ true) × ((f : StrictFault) × HasFault delimiter (Above 2) false first.now f) }
    ensures whole { result ≡ false → strict ≡ true → (file : File) × Derives delimiter (Above 2) false first.now file }
{
    if !strict {
        return false;
    }
    match check(first, delimiter, Place::Above(2), false) {
        Ok(()) => false,
        Err(_) => true,
    }
}

// A text under its completed header. None if it stays as it is.
fn completion(
    alloc: Global,
    bytes: &[u8],
    delimiter: Delimiter,
    strict: bool,
) -> Result<Option<Completed>, AllocError>
    ensures { IfOk result (λ o. MatchOption o (IsKept strict delimiter bytes.now)
        (λ c. (is_left (header_of delimiter bytes.now) ≡ false) × (strict ≡ true → HasStrictHeader delimiter bytes.now)
        × IsNamed delimiter bytes.now c.bytes.items (told_of c.given.items))) }
{
    let text = without_bom(bytes);
    let header = match Header::of(alloc, text, delimiter)? {
        Some(header) => header,
        None => return Ok(None),
    };
    let fields = header.names(alloc)?;
    if is_left(fields.as_slice()) {
        return Ok(None);
    }
    let end = first_end(text, delimiter);
    if is_refused(&text[..end], delimiter, strict) {
        return Ok(None);
    }
    let completed = named(alloc, fields.as_slice(), &text[end..], delimiter)?;
    Ok(Some(completed))
}

/// A text under its completed header: each field without a name, or with one that is further left
/// in another or the same case, is given one. A field without a name in column 4 is given
/// `column_4`, and a second `name` is given `name_2`. If that is another field's name, or was given
/// already, the next number is taken, from `column_4_2` and from `name_3` on. No other field
/// changes, and nothing does from the header's line end on. A byte order mark is then in front.
///
/// The text is returned as it is if each field has a name of its own, or if there are more than 256
/// fields. If `strict` is set, this is so also if what is before the header's line end isn't of RFC
/// 4180's grammar or has an empty line, so that a check of the text still finds that.
///
/// # Errors
///
/// It fails only when memory runs out.
pub fn complete_header(
    alloc: Global,
    bytes: Vec<u8>,
    delimiter: Delimiter,
    strict: bool,
) -> Result<Completed, AllocError>
    ensures { IfOk result (λ c. IsCompleted strict delimiter bytes.items c.bytes.items (told_of c.given.items)) }
{
    match completion(alloc, bytes.as_slice(), delimiter, strict)? {
        Some(completed) => Ok(completed),
        None => Ok(Completed {
            bytes,
            given: Vec::new(alloc),
        }),
    }
}
