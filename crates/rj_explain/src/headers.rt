//! Names of a header, and type lists that don't fit it.

ghost use Rattle.std.specs.Prelude.{◌≡◌, ◌<◌, IfOk, IfSome, false, is_none, length, map, string_bytes};
ghost use Rattle.std.specs.List.{find, list_all, position_from};
ghost use Rattle.std.specs.Option.{option_copied};
ghost use Rattle.std.specs.Str.{str_eq_ignore_ascii_case};
ghost use Rattle.rj_csv_io.specs.Pieces.{names_in};
ghost use Rattle.rj_settings.specs.Columns.{kind_of};
ghost use Rattle.rj_settings.specs.Lists.{is_place};
ghost use Rattle.rj_explain.specs.Explained.{IsTypeCountTold, IsTypeNameTold, count_told, file_read, first_untyped, header_names};
ghost use Rattle.rj_explain.specs.Lines as lines;
ghost use Rattle.rj_explain.specs.Lines.{repeated_at, repeated_told};
ghost use Rattle.rj_explain.specs.Places.{at_column};

use crate::inputs::TableFile;
use crate::names::before_name;
use crate::row::field_at;
use rj_csv_io::Header;
use rj_line::shown::Shown;
use rj_settings::types::{Label, TypeEntry, types_under};
use std::alloc::{AllocError, Global};

// The line that shows an invalid name, and its length in bytes.
fn name_line(alloc: Global, name: Option<&[u8]>) -> Result<String, AllocError>
    ensures { IfOk result (λ s. string_bytes s ≡ lines.name_line (option_copied name.entry)) }
{
    match name {
        Some(bytes) => {
            let (name, size) = (Shown { bytes }, bytes.len());
            format!(in alloc; "  the name is {name}, of {size} bytes\n")
        }
        None => Ok(String::new(alloc)),
    }
}

/// The lines for an invalid name: the name and its length.
///
/// # Errors
///
/// It fails only when memory runs out.
pub(crate) fn bad_name_lines(
    alloc: Global,
    file: &TableFile<'_>,
    column: u64,
) -> Result<String, AllocError>
    ensures { IfOk result (λ s. string_bytes s ≡ lines.name_line (at_column column (header_names file.now.delimiter file.now.bytes.now))) }
{
    match file.header(alloc)? {
        Some(header) => name_line(alloc, field_at(alloc, &header, column)?),
        None => Ok(String::new(alloc)),
    }
}

// The first of these names that is the same as this one.
fn first_named(names: &[&[u8]], name: &[u8]) -> Option<usize>
    ensures place { result ≡ position_from (str_eq_ignore_ascii_case name.now) 0 (map (λ n. n.now) names.now) }
    ensures within { IfSome result (λ i. i < length names.now) }
{
    names
        .iter()
        .position(|other| name.eq_ignore_ascii_case(other))
}

// The line that shows a name that occurs twice, the column of the first one and its spelling.
fn repeated_line(alloc: Global, names: &[&[u8]], name: &[u8]) -> Result<String, AllocError>
    ensures { IfOk result (λ s. string_bytes s ≡ repeated_at (map (λ n. n.now) names.now) name.now
        (position_from (str_eq_ignore_ascii_case name.now) 0 (map (λ n. n.now) names.now))) }
{
    let Some(i) = first_named(names, name) else {
        return Ok(String::new(alloc));
    };
    let (name, first, other) = (Shown { bytes: name }, i + 1, Shown { bytes: names[i] });
    format!(in alloc; "  {name} is the name of column {first} too, {other}\n")
}

// The line for the name at a column, if there is one.
fn lines_of_repeated(alloc: Global, header: &Header, column: u64) -> Result<String, AllocError>
    ensures { IfOk result (λ s. string_bytes s ≡ repeated_told (names_in header.now) (at_column column (names_in header.now))) }
{
    let Some(name) = field_at(alloc, header, column)? else {
        return Ok(String::new(alloc));
    };
    let names = header.names(alloc)?;
    repeated_line(alloc, names.as_slice(), name)
}

/// The lines for a name that occurs twice: both spellings, and the column of the first.
///
/// # Errors
///
/// It fails only when memory runs out.
pub(crate) fn repeated_name_lines(
    alloc: Global,
    file: &TableFile<'_>,
    column: u64,
) -> Result<String, AllocError>
    ensures { IfOk result (λ s. string_bytes s ≡ repeated_told (header_names file.now.delimiter file.now.bytes.now) (at_column column (header_names file.now.delimiter file.now.bytes.now))) }
{
    match file.header(alloc)? {
        Some(header) => lines_of_repeated(alloc, &header, column),
        None => Ok(String::new(alloc)),
    }
}

fn are_places(entries: &[TypeEntry]) -> bool
    ensures { result ≡ list_all (λ e. is_place e.label) entries.now }
{
    entries.iter().all(|entry| match entry.label {
        Label::Place => true,
        _ => false,
    })
}

// Whether no entry of a list by name gives a column of this name a type.
fn is_untyped(alloc: Global, entries: &[TypeEntry], name: &[u8]) -> Result<bool, AllocError>
    requires { list_all (λ e. is_place e.label) entries.now ≡ false }
    ensures { IfOk result (λ b. b ≡ is_none (kind_of entries.now name.now)) }
{
    Ok(types_under(alloc, entries, &[name])?.is_empty())
}

// The first name to which a list by name gives no type.
fn first_unnamed<'h>(
    alloc: Global,
    entries: &[TypeEntry],
    names: &[&'h [u8]],
) -> Result<Option<&'h [u8]>, AllocError>
    requires { list_all (λ e. is_place e.label) entries.now ≡ false }
    ensures { IfOk result (λ o. option_copied o ≡ find (λ name. is_none (kind_of entries.now name)) (map (λ n. n.now) names.now)) }
{
    for i in 0..names.len() {
        if is_untyped(alloc, entries, names[i])? {
            return Ok(Some(names[i]));
        }
    }
    Ok(None)
}

// The first name without a type in a list.
fn first_untyped<'h>(
    alloc: Global,
    entries: &[TypeEntry],
    names: &[&'h [u8]],
) -> Result<Option<&'h [u8]>, AllocError>
    ensures { IfOk result (λ o. option_copied o ≡ first_untyped entries.now (map (λ n. n.now) names.now)) }
{
    if are_places(entries) {
        return Ok(names.get(entries.len()).copied());
    }
    first_unnamed(alloc, entries, names)
}

// The line with the numbers of names and types, and the first name without a type.
fn count_line(
    alloc: Global,
    names: usize,
    types: usize,
    untyped: Option<&[u8]>,
) -> Result<String, AllocError>
    ensures { IfOk result (λ s. string_bytes s ≡ lines.count_line names types (option_copied untyped.entry)) }
{
    match untyped {
        Some(bytes) => {
            let name = Shown { bytes };
            format!(in alloc;
                "  {names} names, {types} types; the first without a type is {name}\n"
            )
        }
        None => format!(in alloc; "  {names} names, {types} types\n"),
    }
}

// The lines for these names and these entries of a list.
fn lines_of_count(
    alloc: Global,
    entries: &[TypeEntry],
    names: &[&[u8]],
) -> Result<String, AllocError>
    ensures { IfOk result (λ s. string_bytes s ≡ count_told entries.now (map (λ n. n.now) names.now)) }
{
    let types = types_under(alloc, entries, names)?.len();
    let untyped = first_untyped(alloc, entries, names)?;
    count_line(alloc, names.len(), types, untyped)
}

/// The lines for a header that has more or fewer names than there are types: both counts, and the
/// first name without a type.
///
/// # Errors
///
/// It fails only when memory runs out.
pub(crate) fn type_count_lines(alloc: Global, file: &TableFile<'_>) -> Result<String, AllocError>
    ensures { IfOk result (λ s. IsTypeCountTold (file_read file.now) (string_bytes s)) }
{
    let Some(header) = file.header(alloc)? else {
        return Ok(String::new(alloc));
    };
    let names = header.names(alloc)?;
    lines_of_count(alloc, file.types, names.as_slice())
}

// The line with the number of names of a header, and the most that there may be.
fn columns_line(alloc: Global, names: usize) -> Result<String, AllocError>
    ensures { IfOk result (λ s. string_bytes s ≡ lines.columns_line names) }
{
    format!(in alloc; "  the header has {names} names, and a table has at most 256 columns\n")
}

/// The line for a header that has too many names: their number.
///
/// # Errors
///
/// It fails only when memory runs out.
pub(crate) fn too_many_lines(alloc: Global, file: &TableFile<'_>) -> Result<String, AllocError>
    ensures { IfOk result (λ s. string_bytes s ≡ lines.columns_line (length (header_names file.now.delimiter file.now.bytes.now))) }
{
    match file.header(alloc)? {
        Some(header) => columns_line(alloc, header.columns()),
        None => columns_line(alloc, 0),
    }
}

// The line that lists names.
fn names_line(alloc: Global, names: &[&[u8]]) -> Result<String, AllocError>
    ensures { IfOk result (λ s. string_bytes s ≡ lines.names_line (map (λ n. n.now) names.now)) }
{
    let mut list = String::from_str(alloc, "  the header has ")?;
    for i in 0..names.len() {
        let (before, name) = (before_name(i), Shown { bytes: names[i] });
        let more = format!(in alloc; "{before}{name}")?;
        list.push_str(more.as_str())?;
    }
    list.push_str("\n")?;
    Ok(list)
}

/// The lines for a name in a type list that means no column of the header: the names that the
/// header has.
///
/// # Errors
///
/// It fails only when memory runs out.
pub(crate) fn type_name_lines(alloc: Global, file: &TableFile<'_>) -> Result<String, AllocError>
    ensures { IfOk result (λ s. IsTypeNameTold (file_read file.now) (string_bytes s)) }
{
    let Some(header) = file.header(alloc)? else {
        return Ok(String::new(alloc));
    };
    let names = header.names(alloc)?;
    names_line(alloc, names.as_slice())
}
