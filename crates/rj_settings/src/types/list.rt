//! Reading a type list.

ghost use Rattle.std.specs.Prelude.{◌≡◌, ◌&&◌, true, IfOk, List, ℕ, Option, MatchOption, Some};
ghost use Rattle.std.specs.List.{count_by, list_all};
ghost use Rattle.rj_settings.specs.Lists as lists;
ghost use Rattle.rj_settings.specs.Lists.{AreEntries, BeginsEntry, IsSharedList, IsTypeList, is_name, is_place, is_rest};
ghost use Rattle.rj_settings.specs.Words.{text_of};
ghost use Rattle.rj_settings.specs.declared.types.entry.TypeEntry.{TypeEntry};

use crate::types::entry::{Label, TypeEntry};
use crate::types::label::label_at;
use crate::types::word::type_at;
use std::alloc::{AllocError, Global};

// The entry that the text begins with, and what is left after its comma.
fn entry_at(alloc: Global, text: &str) -> Result<Option<(TypeEntry, Option<&str>)>, AllocError>
    ensures { IfOk result (λ o. MatchOption o ((e : TypeEntry) (rest : Option (List ℕ)) → BeginsEntry e text.now rest → ⊥)
        (λ p. BeginsEntry p.0 text.now (text_of p.1))) }
{
    let (label, after) = label_at(alloc, text)?;
    match type_at(after) {
        Some((kind, rest)) => Ok(Some((TypeEntry { label, kind }, rest))),
        None => Ok(None),
    }
}

// The entries of the whole text.
fn read_entries(alloc: Global, text: &str) -> Result<Option<Vec<TypeEntry>>, AllocError>
    ensures { IfOk result (λ o. MatchOption o ((all : List TypeEntry) → AreEntries all (Some text.now) → ⊥) (λ v. AreEntries v.items (Some text.now))) }
{
    let mut entries = Vec::new(alloc);
    let mut left = text;
    loop {
        match entry_at(alloc, left)? {
            Some((entry, rest)) => {
                entries.push(entry)?;
                match rest {
                    Some(more) => left = more,
                    None => return Ok(Some(entries)),
                }
            }
            None => return Ok(None),
        }
    }
}

pub(crate) fn of_place(entry: &TypeEntry) -> bool
    ensures { result ≡ is_place entry.now.label }
{
    match entry.label {
        Label::Place => true,
        _ => false,
    }
}

pub(crate) fn of_rest(entry: &TypeEntry) -> bool
    ensures { result ≡ is_rest entry.now.label }
{
    match entry.label {
        Label::Rest => true,
        _ => false,
    }
}

fn places(entries: &[TypeEntry]) -> usize
    ensures { result ≡ count_by (λ e. is_place e.label) entries.now }
{
    entries.iter().filter(|entry| of_place(*entry)).count()
}

fn rests(entries: &[TypeEntry]) -> usize
    ensures { result ≡ count_by (λ e. is_rest e.label) entries.now }
{
    entries.iter().filter(|entry| of_rest(*entry)).count()
}

fn are_alike(entries: &[TypeEntry]) -> bool
    ensures { result ≡ lists.are_alike entries.now }
{
    let count = places(entries);
    count == entries.len() || (count == 0 && rests(entries) <= 1)
}

/// The entries of a type list, or none if the text isn't such a list.
///
/// # Errors
///
/// It fails only when memory runs out.
pub fn read_list(alloc: Global, text: &str) -> Result<Option<Vec<TypeEntry>>, AllocError>
    ensures { IfOk result (λ o. MatchOption o ((entries : List TypeEntry) → IsTypeList text.now entries → ⊥) (λ v. IsTypeList text.now v.items)) }
{
    match read_entries(alloc, text)? {
        Some(entries) => {
            if are_alike(entries.as_slice()) {
                Ok(Some(entries))
            } else {
                Ok(None)
            }
        }
        None => Ok(None),
    }
}

fn of_name(entry: &TypeEntry) -> bool
    ensures { result ≡ is_name entry.now.label }
{
    match entry.label {
        Label::Name(_) => true,
        _ => false,
    }
}

fn are_names(entries: &[TypeEntry]) -> bool
    ensures { result ≡ list_all (λ e. is_name e.label) entries.now }
{
    entries.iter().all(|entry| of_name(entry))
}

/// The entries of a type list for both tables, each by name, or none if the text isn't such a list.
///
/// # Errors
///
/// It fails only when memory runs out.
pub fn read_shared_list(alloc: Global, text: &str) -> Result<Option<Vec<TypeEntry>>, AllocError>
    ensures { IfOk result (λ o. MatchOption o ((entries : List TypeEntry) → IsSharedList text.now entries → ⊥) (λ v. IsSharedList text.now v.items)) }
{
    match read_list(alloc, text)? {
        Some(entries) => {
            if are_names(entries.as_slice()) {
                Ok(Some(entries))
            } else {
                Ok(None)
            }
        }
        None => Ok(None),
    }
}
