//! Reading a list of columns, such as `L.id,name,R.city=town`.

ghost use Rattle.std.specs.Prelude.{◌≡◌, IfOk, List, ℕ, Option, MatchOption, Some};
ghost use Rattle.rj_columns.specs.Names.{is_name};
ghost use Rattle.rj_condition.specs.Internal.Scanning.{view};
ghost use Rattle.rj_settings.specs.declared.choice.SelectedColumn.{SelectedColumn};
ghost use Rattle.rj_settings.specs.Internal.Scanning as scanning;
ghost use Rattle.rj_settings.specs.Selected.{BeginsSelected, AreSelected, IsSelectList};
ghost use Rattle.rj_settings.specs.Selected as selected;
ghost use Rattle.rj_settings.specs.Words.{text_of};

use crate::types::name::{behind, name_at};
use crate::{SelectedColumn, Source};
use rj_condition::Name;
use std::alloc::{AllocError, Global};

// The most entries of a list, and the most bytes of a new name.
const MOST_ENTRIES: usize = 256;

const LONGEST_NAME: usize = 128;

// The table that a name before a point means.
fn source_of(name: &Name) -> Option<Source>
    ensures { result ≡ selected.source_of name.now }
{
    if name.means(b"L") {
        Some(Source::Left)
    } else if name.means(b"R") {
        Some(Source::Right)
    } else {
        None
    }
}

// Whether a column may be written under this name.
fn is_lawful(name: &Name) -> bool
    ensures { result ≡ is_name name.now.text }
{
    let text = name.text.as_str();
    !text.is_empty() && text.len() <= LONGEST_NAME
}

// The column in front of a text: its table, and its name there.
fn column_at<'t>(
    alloc: Global,
    text: &'t str,
) -> Result<Option<((Source, Name), &'t str)>, AllocError>
    ensures { IfOk result (λ o. view o ≡ scanning.column_in text.now) }
{
    let Some((first, after)) = name_at(alloc, text)? else {
        return Ok(None);
    };
    let Some(rest) = behind(b'.', after) else {
        return Ok(Some(((Source::Joined, first), after)));
    };
    let Some(source) = source_of(&first) else {
        return Ok(None);
    };
    match name_at(alloc, rest)? {
        Some((name, after)) => Ok(Some(((source, name), after))),
        None => Ok(None),
    }
}

// The new name in front of a text that begins with `=`. A text that doesn't gives no new name.
fn written_at<'t>(
    alloc: Global,
    text: &'t str,
) -> Result<Option<(Option<Name>, &'t str)>, AllocError>
    ensures { IfOk result (λ o. view o ≡ scanning.written_in text.now) }
{
    let Some(rest) = behind(b'=', text) else {
        return Ok(Some((None, text)));
    };
    let Some((name, after)) = name_at(alloc, rest)? else {
        return Ok(None);
    };
    if is_lawful(&name) {
        Ok(Some((Some(name), after)))
    } else {
        Ok(None)
    }
}

// The entry in front of a text, and what comes after it.
fn selected_at<'t>(
    alloc: Global,
    text: &'t str,
) -> Result<Option<(SelectedColumn, &'t str)>, AllocError>
    ensures { IfOk result (λ o. view o ≡ scanning.selected_in text.now) }
{
    let Some(((source, name), after)) = column_at(alloc, text)? else {
        return Ok(None);
    };
    match written_at(alloc, after)? {
        Some((written, rest)) => Ok(Some((
            SelectedColumn {
                source,
                name,
                written,
            },
            rest,
        ))),
        None => Ok(None),
    }
}

// The entry that the text begins with, and what is left after its comma.
fn entry_at(alloc: Global, text: &str) -> Result<Option<(SelectedColumn, Option<&str>)>, AllocError>
    ensures { IfOk result (λ o. MatchOption o ((e : SelectedColumn) (rest : Option (List ℕ)) → BeginsSelected e text.now rest → ⊥)
        (λ p. BeginsSelected p.0 text.now (text_of p.1))) }
{
    let Some((entry, after)) = selected_at(alloc, text)? else {
        return Ok(None);
    };
    if after.is_empty() {
        return Ok(Some((entry, None)));
    }
    match behind(b',', after) {
        Some(rest) => Ok(Some((entry, Some(rest)))),
        None => Ok(None),
    }
}

// The entries of the whole text.
fn read_entries(alloc: Global, text: &str) -> Result<Option<Vec<SelectedColumn>>, AllocError>
    ensures { IfOk result (λ o. MatchOption o ((all : List SelectedColumn) → AreSelected all (Some text.now) → ⊥)
        (λ v. AreSelected v.items (Some text.now))) }
{
    let mut entries = Vec::new(alloc);
    let mut left = text;
    loop {
        match entry_at(alloc, left)? {
            Some((entry, rest)) => {
                entries.push(entry)?;
                match rest {
                    Some(more) => left = more,
                    None => return Ok(Some(entries)),
                }
            }
            None => return Ok(None),
        }
    }
}

/// The entries of a list of columns, or none if the text isn't such a list.
///
/// # Errors
///
/// It fails only when memory runs out.
pub fn read_selected(alloc: Global, text: &str) -> Result<Option<Vec<SelectedColumn>>, AllocError>
    ensures { IfOk result (λ o. MatchOption o ((entries : List SelectedColumn) → IsSelectList text.now entries → ⊥) (λ v. IsSelectList text.now v.items)) }
{
    match read_entries(alloc, text)? {
        Some(entries) => {
            if entries.len() <= MOST_ENTRIES {
                Ok(Some(entries))
            } else {
                Ok(None)
            }
        }
        None => Ok(None),
    }
}
