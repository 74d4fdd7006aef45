//! The types that a type list gives the columns of a header.

ghost use Rattle.std.specs.Prelude.{◌≡◌, ◌&&◌, ◌||◌, not, IfOk, IfSome, List, ℕ, map};
ghost use Rattle.std.specs.Option.{option_copied};
ghost use Rattle.std.specs.List.{filter_map, list_all, list_any};
ghost use Rattle.rj_condition.specs.Names.{matches};
ghost use Rattle.rj_settings.specs.Columns as columns;
ghost use Rattle.rj_settings.specs.Columns.{first_kind, label_fault, names};
ghost use Rattle.rj_settings.specs.Lists.{is_place, is_rest};

use crate::types::entry::{Label, TypeEntry};
use crate::types::list::{of_place, of_rest};
use rj_columns::ColumnType;
use rj_condition::{Name, Word};
use std::alloc::{AllocError, Global};

// Whether the label of an entry names a column of this name.
fn is_named(entry: &TypeEntry, called: &[u8]) -> bool
    ensures { result ≡ names called.now entry.now.label }
{
    match &entry.label {
        Label::Name(name) => name.means(called),
        Label::Shared(name) => name.means(called),
        _ => false,
    }
}

// The type of the first entry that names a column of this name.
fn kind_named(entries: &[TypeEntry], called: &[u8]) -> Option<ColumnType>
    ensures { result ≡ first_kind (names called.now) entries.now }
{
    for named in entries {
        if is_named(named, called) {
            return Some(named.kind);
        }
    }
    None
}

// The type of the first entry of the rest.
fn kind_of_rest(entries: &[TypeEntry]) -> Option<ColumnType>
    ensures { result ≡ first_kind is_rest entries.now }
{
    for entry in entries {
        if of_rest(entry) {
            return Some(entry.kind);
        }
    }
    None
}

fn kind_of(entries: &[TypeEntry], called: &[u8]) -> Option<ColumnType>
    ensures { result ≡ columns.kind_of entries.now called.now }
{
    match kind_named(entries, called) {
        Some(kind) => Some(kind),
        None => kind_of_rest(entries),
    }
}

fn are_places(entries: &[TypeEntry]) -> bool
    ensures { result ≡ list_all (λ e. is_place e.label) entries.now }
{
    entries.iter().all(|entry| of_place(entry))
}

fn kinds(alloc: Global, entries: &[TypeEntry]) -> Result<Vec<ColumnType>, AllocError>
    ensures { IfOk result (λ v. v.items ≡ map (λ e. e.kind) entries.now) }
{
    entries.iter().map(|entry| entry.kind).collect(alloc)
}

fn kinds_by_name(
    alloc: Global,
    entries: &[TypeEntry],
    header: &[&[u8]],
) -> Result<Vec<ColumnType>, AllocError>
    ensures { IfOk result (λ v. v.items ≡ filter_map (columns.kind_of entries.now) (map (λ c. c.now) header.now)) }
{
    let mut all = Vec::new(alloc);
    for called in header {
        if let Some(kind) = kind_of(entries, *called) {
            all.push(kind)?;
        }
    }
    Ok(all)
}

/// The types that a list gives the columns of a header. A list by position gives all its types. A
/// list by name gives those of the columns that have one, from left to right.
///
/// # Errors
///
/// It fails only when memory runs out.
pub fn types_under(
    alloc: Global,
    entries: &[TypeEntry],
    header: &[&[u8]],
) -> Result<Vec<ColumnType>, AllocError>
    ensures { IfOk result (λ v. v.items ≡ columns.types_under entries.now (map (λ c. c.now) header.now)) }
{
    if are_places(entries) {
        return kinds(alloc, entries);
    }
    kinds_by_name(alloc, entries, header)
}

/// Whether one of the entries names a column of this name. `*` names none.
pub fn is_named_in(entries: &[TypeEntry], called: &[u8]) -> bool
    ensures { result ≡ list_any (λ e. names called.now e.label) entries.now }
{
    entries.iter().any(|entry| is_named(entry, called))
}

// Whether a name means a column of the header that none of the entries names.
fn is_new(name: &Name, entries: &[TypeEntry], header: &[&[u8]]) -> bool
    ensures { result ≡ list_any (λ called. matches name.now called && not (list_any (λ e. names called e.label) entries.now)) (map (λ c. c.now) header.now) }
{
    for called in header {
        if name.means(*called) && !is_named_in(entries, *called) {
            return true;
        }
    }
    false
}

// The name in an entry's label that means no column, or one that an earlier entry names.
fn fault_in<'t>(entry: &'t TypeEntry, seen: &[TypeEntry], header: &[&[u8]]) -> Option<&'t Word>
    ensures { option_copied result ≡ label_fault seen.now (map (λ c. c.now) header.now) entry.now.label }
{
    match &entry.label {
        Label::Name(name) if !is_new(name, seen, header) => Some(&name.text),
        _ => None,
    }
}

/// The first name in a list that means no column of the header, or one that an earlier entry names.
pub fn name_fault<'t>(entries: &'t [TypeEntry], header: &[&[u8]]) -> Option<&'t Word>
    ensures { option_copied result ≡ columns.name_fault entries.now (map (λ c. c.now) header.now) }
{
    for i in 0..entries.len() {
        if let Some(name) = fault_in(&entries[i], &entries[..i], header) {
            return Some(name);
        }
    }
    None
}

// Whether an entry is by position, or of the rest.
fn is_of_all(entry: &TypeEntry) -> bool
    ensures { result ≡ (is_place entry.now.label || is_rest entry.now.label) }
{
    of_place(entry) || of_rest(entry)
}

// Whether one of the entries is.
fn speak_of_all(entries: &[TypeEntry]) -> bool
    ensures { result ≡ list_any (λ e. is_place e.label || is_rest e.label) entries.now }
{
    entries.iter().any(|entry| is_of_all(entry))
}

/// Whether a list says nothing of some columns: it isn't by position, and has no `*`. A list without
/// entries says nothing.
pub fn is_open(entries: &[TypeEntry]) -> bool
    ensures { result ≡ columns.is_open entries.now }
{
    !speak_of_all(entries)
}

/// The same list, with `*=text` behind it if it says nothing of some columns.
///
/// # Errors
///
/// It fails only when memory runs out.
pub fn with_texts(entries: Vec<TypeEntry>) -> Result<Vec<TypeEntry>, AllocError>
    ensures { IfOk result (λ v. v.items ≡ columns.with_texts entries.items) }
{
    if !is_open(entries.as_slice()) {
        return Ok(entries);
    }
    let mut entries = entries;
    entries.push(TypeEntry {
        label: Label::Rest,
        kind: ColumnType::Text,
    })?;
    Ok(entries)
}

// A copy of a name.
fn copy_of(alloc: Global, name: &Name) -> Result<Name, AllocError>
    ensures { IfOk result (λ n. n ≡ name.now) }
{
    Ok(Name {
        text: Word::new(alloc, name.text.as_str())?,
        delimited: name.delimited,
    })
}

// The label of an entry for both tables, as it is in the list of one of them.
fn shared_label(alloc: Global, label: &Label) -> Result<Label, AllocError>
    ensures { IfOk result (λ l. l ≡ columns.shared_label label.now) }
{
    match label {
        Label::Name(name) => Ok(Label::Shared(copy_of(alloc, name)?)),
        Label::Shared(name) => Ok(Label::Shared(copy_of(alloc, name)?)),
        Label::Place => Ok(Label::Place),
        Label::Rest => Ok(Label::Rest),
    }
}

fn shared_entry(alloc: Global, entry: &TypeEntry) -> Result<TypeEntry, AllocError>
    ensures { IfOk result (λ e. e ≡ columns.shared_entry entry.now) }
{
    Ok(TypeEntry {
        label: shared_label(alloc, &entry.label)?,
        kind: entry.kind,
    })
}

// Whether one of the entries is by position.
fn has_places(entries: &[TypeEntry]) -> bool
    ensures { result ≡ list_any (λ e. is_place e.label) entries.now }
{
    entries.iter().any(|entry| of_place(entry))
}

/// A table's list with copies of the entries of a list for both tables behind its own. A list by
/// position stays as it is: it has the types of all columns.
///
/// # Errors
///
/// It fails only when memory runs out.
pub fn with_shared(
    alloc: Global,
    entries: Vec<TypeEntry>,
    shared: &[TypeEntry],
) -> Result<Vec<TypeEntry>, AllocError>
    ensures { IfOk result (λ v. v.items ≡ columns.with_shared entries.items shared.now) }
{
    if has_places(entries.as_slice()) {
        return Ok(entries);
    }
    let mut entries = entries;
    for entry in shared {
        entries.push(shared_entry(alloc, entry)?)?;
    }
    Ok(entries)
}
