//! The names of a header's columns.

ghost use Rattle.std.specs.Prelude.{◌≡◌, ◌+◌, ◌++◌, ◌∷◌, ◌<◌, ◌^◌, IfNone, IfOk, IfSome, OnOk, false, length, map, slice_index_or, string_bytes, true, []};
ghost use Rattle.rj_csv_io.specs.Internal.NameColumns.{column_in, columns_in, told_of};
ghost use Rattle.rj_csv_io.specs.Named as names;

use crate::names::column::{GivenName, NamedColumn};
use std::alloc::{AllocError, Global};
use std::str;

// The longest field that may stand before a number.
const MOST_STEM: usize = 100;

// Whether a name is among these, ignoring ASCII case.
fn is_taken(taken: &[&[u8]], name: &[u8]) -> bool
    ensures { result ≡ names.is_taken (map (λ t. t.now) taken.now) name.now }
{
    for i in 0..taken.len() {
        if name.eq_ignore_ascii_case(taken[i]) {
            return true;
        }
    }
    false
}

// Whether a name is that of one of these columns, ignoring ASCII case.
fn is_given(columns: &[NamedColumn<'_>], name: &[u8]) -> bool
    ensures { result ≡ names.is_taken (names.names_of (columns_in columns.now)) name.now }
{
    for i in 0..columns.len() {
        if name.eq_ignore_ascii_case(columns[i].name()) {
            return true;
        }
    }
    false
}

// Whether a field has no name, or one of those to its left.
fn needs_name(left: &[&[u8]], field: &[u8]) -> bool
    ensures { result ≡ names.needs_name (map (λ f. f.now) left.now) field.now }
{
    field.is_empty() || is_taken(left, field)
}

/// Whether each field has a name of its own.
pub(crate) fn have_names(fields: &[&[u8]]) -> bool
    ensures { result ≡ names.have_names [] (map (λ f. f.now) fields.now) }
{
    for i in 0..fields.len() {
        if needs_name(&fields[..i], fields[i]) {
            return false;
        }
    }
    true
}

// The field as text, if a number may stand behind it.
fn stem_in(field: &[u8]) -> Option<&str>
    ensures some { IfSome result (λ s. (names.is_stem field.now ≡ true) × (s.now ≡ field.now)) }
    ensures none { IfNone result (names.is_stem field.now ≡ false) }
{
    if field.is_empty() || field.len() > MOST_STEM {
        return None;
    }
    match str::from_utf8(field) {
        Ok(text) => Some(text),
        Err(_) => None,
    }
}

// What a column's name begins with.
fn stem_of(alloc: Global, column: u64, field: &[u8]) -> Result<String, AllocError>
    ensures { IfOk result (λ s. string_bytes s ≡ names.stem_of column field.now) }
{
    match stem_in(field) {
        Some(text) => String::from_str(alloc, text),
        None => format!(in alloc; "column_{column}"),
    }
}

// A stem with a number behind it, if that is more than 1.
fn numbered(alloc: Global, stem: &str, number: u64) -> Result<String, AllocError>
    ensures { IfOk result (λ s. string_bytes s ≡ names.numbered stem.now number) }
{
    if number <= 1 {
        return String::from_str(alloc, stem);
    }
    format!(in alloc; "{stem}_{number}")
}

// The stem with the first number that makes it none of the fields and none of the columns' names.
fn free_name(
    alloc: Global,
    fields: &[&[u8]],
    columns: &[NamedColumn<'_>],
    stem: &str,
) -> Result<String, AllocError>
    ensures { IfOk result (λ s. string_bytes s ≡ names.free_name (map (λ f. f.now) fields.now ++ names.names_of (columns_in columns.now)) stem.now) }
{
    let most = fields.len() as u64 + columns.len() as u64;
    for tried in 0..most {
        let number = tried + 1;
        let name = numbered(alloc, stem, number)?;
        if !is_taken(fields, name.as_bytes()) && !is_given(columns, name.as_bytes()) {
            return Ok(name);
        }
    }
    numbered(alloc, stem, most + 1)
}

// The column of the next field, behind these columns.
fn next_column<'a>(
    alloc: Global,
    fields: &[&'a [u8]],
    columns: &[NamedColumn<'a>],
) -> Result<NamedColumn<'a>, AllocError>
    requires { length columns.now < length fields.now }
    ensures { IfOk result (λ c. column_in c ≡ names.column_of (map (λ f. f.now) fields.now) (columns_in columns.now)
        (slice_index_or (map (λ f. f.now) fields.now) (length columns.now) [])) }
{
    let at = columns.len();
    let field = fields[at];
    if !needs_name(&fields[..at], field) {
        return Ok(NamedColumn::Written(field));
    }
    let stem = stem_of(alloc, at as u64 + 1, field)?;
    let name = free_name(alloc, fields, columns, stem.as_str())?;
    Ok(NamedColumn::Given(name))
}

/// The columns of a header.
pub(crate) fn columns_of<'a>(
    alloc: Global,
    fields: &[&'a [u8]],
) -> Result<Vec<NamedColumn<'a>>, AllocError>
    ensures { IfOk result (λ v. columns_in v.items ≡ names.columns_of (map (λ f. f.now) fields.now)) }
{
    let mut columns = Vec::new(alloc);
    for _field in 0..fields.len() {
        let column = next_column(alloc, fields, columns.as_slice())?;
        columns.push(column)?;
    }
    Ok(columns)
}

// Adds the name of a column, if it was given to it.
fn add_given(
    given: &mut Vec<GivenName>,
    column: u64,
    named: &NamedColumn<'_>,
) -> Result<(), AllocError>
    ensures { OnOk result (told_of given.new.items ≡ told_of given.old.items ++ names.given_from column (column_in named.now ∷ [])) }
{
    let name = match named {
        NamedColumn::Given(name) => name.clone()?,
        NamedColumn::Written(_) => return Ok(()),
    };
    given.push(GivenName { column, name })?;
    Ok(())
}

/// The names that were given to columns.
pub(crate) fn given_names(
    alloc: Global,
    columns: &[NamedColumn<'_>],
) -> Result<Vec<GivenName>, AllocError>
    ensures { IfOk result (λ v. told_of v.items ≡ names.given_from 1 (columns_in columns.now)) }
{
    let mut given = Vec::new(alloc);
    for i in 0..columns.len() {
        add_given(&mut given, i as u64 + 1, &columns[i])?;
    }
    Ok(given)
}
