//! The text of entries of a list of types by name.

ghost use Rattle.std.specs.Prelude.{◌≡◌, ◌++◌, IfNone, IfOk, IfSome, OnOk, false, string_bytes};
ghost use Rattle.std.specs.Str.{is_utf8};
ghost use Rattle.rj_line.specs.Listed.{list_in};
ghost use Rattle.rj_line.specs.Entries.{entry_line, entry_lines};

use crate::suggest::listed::list_of_lines;
use crate::suggest::writing::push_line;
use rj_settings::types::{Label, TypeEntry};
use std::alloc::{AllocError, Global};

// Adds the line of an entry, if it has a name.
fn push_entry(alloc: Global, out: &mut Vec<u8>, entry: &TypeEntry) -> Result<(), AllocError>
    ensures { OnOk result (out.new.items ≡ out.old.items ++ entry_line entry.now) }
{
    match &entry.label {
        Label::Name(name) => push_line(alloc, out, name.text.as_str(), entry.kind),
        Label::Shared(name) => push_line(alloc, out, name.text.as_str(), entry.kind),
        Label::Place | Label::Rest => Ok(()),
    }
}

// The lines of the entries that have a name.
fn lines_of_entries(alloc: Global, entries: &[TypeEntry]) -> Result<Vec<u8>, AllocError>
    ensures { IfOk result (λ lines. lines.items ≡ entry_lines entries.now) }
{
    let mut lines = Vec::new(alloc);
    for entry in entries {
        push_entry(alloc, &mut lines, entry)?;
    }
    Ok(lines)
}

/// The entries that have a name, as the text of a list by name: each name as `--suggest-types`
/// writes it, with commas between the entries. There is none if that isn't UTF-8.
///
/// # Errors
///
/// It fails only when memory runs out.
pub fn list_of_entries(alloc: Global, entries: &[TypeEntry]) -> Result<Option<String>, AllocError>
    ensures list { IfOk result (λ list. IfSome list (λ text. string_bytes text ≡ list_in (entry_lines entries.now))) }
    ensures none { IfOk result (λ list. IfNone list (is_utf8 (list_in (entry_lines entries.now)) ≡ false)) }
{
    let lines = lines_of_entries(alloc, entries)?;
    list_of_lines(alloc, lines.as_slice())
}
