//! Entries of a list of columns that are refused.

ghost use Rattle.std.specs.Prelude.{◌≡◌, ◌++◌, [], ℕ, IfOk, List, filter, length, map, option_map, slice_index_or, string_bytes, true};
ghost use Rattle.std.specs.List.{range_with_len};
ghost use Rattle.std.specs.Option.{option_copied};
ghost use Rattle.rj_condition.specs.Fits.{fits};
ghost use Rattle.rj_condition.specs.Names.{matches};
ghost use Rattle.rj_engine.specs.Cells.{name_of};
ghost use Rattle.rj_engine.specs.Naming.{name_of_entry};
ghost use Rattle.rj_engine.specs.Selected.{columns_from};
ghost use Rattle.rj_explain.specs.Explained.{IsEntryTold, IsRefusedEntry, IsSelectedTold, IsToldOfEntries, separators_told};
ghost use Rattle.rj_explain.specs.Lines.{selected_line, twice_words};
ghost use Rattle.rj_explain.specs.Selected as selected;
ghost use Rattle.rj_explain.specs.Selected.{is_alike, meant_by, name_among, number_under, repeated_words};
ghost use Rattle.rj_explain.specs.Unknown.{IsEntryUnknown, IsTableTold, both_names};

use crate::clause::{BothColumns, columns_of_both};
use crate::hints::separator_lines;
use crate::inputs::Inputs;
use crate::joined::join_of;
use crate::unknown::{IN_BOTH, side_of_case, words_of_case, words_of_neither, words_of_table};
use rj_columns::Table;
use rj_condition::{BoundJoin, Name};
use rj_engine::header;
use rj_line::fault::Side;
use rj_line::shown::Shown;
use rj_settings::{ColumnChoice, SelectedColumn, Source};
use std::alloc::{AllocError, Global};

// The entries of a list of columns, if there is one.
fn entries_of(columns: &ColumnChoice) -> Option<&[SelectedColumn]>
    ensures { option_map (λ entries. entries.now) result ≡ selected.entries_of columns.now }
{
    match columns {
        ColumnChoice::Selected(entries) => Some(entries.as_slice()),
        _ => None,
    }
}

// The names of a table's columns.
fn names_of(alloc: Global, table: &Table) -> Result<Vec<&str>, AllocError>
    ensures { IfOk result (λ v. map (λ n. n.now) v.items ≡ map (λ i. slice_index_or table.now.names i []) (range_with_len 0 (length table.now.types))) }
{
    (0..table.columns())
        .map(|column| table.name(column))
        .collect(alloc)
}

// The names of the columns among which that of an entry is looked for.
fn names_from<'c>(
    alloc: Global,
    source: Source,
    columns: &'c BothColumns,
    join: &BoundJoin,
) -> Result<Vec<&'c str>, AllocError>
    requires { fits join.now columns.now.left.types columns.now.right.types ≡ true }
    ensures { IfOk result (λ v. map (λ n. n.now) v.items
        ≡ map (name_of columns.now.left columns.now.right) (columns_from source join.now columns.now.left columns.now.right)) }
{
    match source {
        Source::Joined => header(alloc, &columns.left, &columns.right, join),
        Source::Left => names_of(alloc, &columns.left),
        Source::Right => names_of(alloc, &columns.right),
    }
}

// The names of the columns that an entry means.
fn meant_by<'c>(
    alloc: Global,
    entry: &SelectedColumn,
    columns: &'c BothColumns,
    join: &BoundJoin,
) -> Result<Vec<&'c str>, AllocError>
    requires { fits join.now columns.now.left.types columns.now.right.types ≡ true }
    ensures { IfOk result (λ v. map (λ n. n.now) v.items ≡ meant_by join.now columns.now.left columns.now.right entry.now) }
{
    let mut names = names_from(alloc, entry.source, columns, join)?;
    names.retain(|name| entry.name.means(name.as_bytes()));
    Ok(names)
}

// The name under which an entry is written that means columns of these names, if that is one.
fn name_among<'s>(entry: &'s SelectedColumn, meant: &[&'s str]) -> Option<&'s str>
    ensures { option_copied result ≡ name_among entry.now.written (map (λ n. n.now) meant.now) }
{
    match (meant, &entry.written) {
        ([_], Some(new)) => Some(new.text.as_str()),
        ([own], None) => Some(*own),
        _ => None,
    }
}

// The same of an entry by itself.
fn name_of_entry<'c>(
    alloc: Global,
    entry: &'c SelectedColumn,
    columns: &'c BothColumns,
    join: &BoundJoin,
) -> Result<Option<&'c str>, AllocError>
    requires { fits join.now columns.now.left.types columns.now.right.types ≡ true }
    ensures { IfOk result (λ o. option_copied o ≡ name_of_entry join.now columns.now.left columns.now.right entry.now) }
{
    let meant = meant_by(alloc, entry, columns, join)?;
    Ok(name_among(entry, meant.as_slice()))
}

// Whether there is a name, and it is this one, ignoring ASCII case.
fn is_alike(name: &str, other: Option<&str>) -> bool
    ensures { result ≡ is_alike name.now (option_copied other.entry) }
{
    match other {
        Some(other) => name.eq_ignore_ascii_case(other),
        None => false,
    }
}

// The number of the first entry that is written under a name, counted from 1.
fn number_under(
    alloc: Global,
    entries: &[SelectedColumn],
    columns: &BothColumns,
    join: &BoundJoin,
    name: &str,
) -> Result<Option<usize>, AllocError>
    requires { fits join.now columns.now.left.types columns.now.right.types ≡ true }
    ensures { IfOk result (λ o. o ≡ number_under join.now columns.now.left columns.now.right entries.now name.now) }
{
    for i in 0..entries.len() {
        if is_alike(name, name_of_entry(alloc, &entries[i], columns, join)?) {
            return Ok(Some(i + 1));
        }
    }
    Ok(None)
}

// The words for an entry that is written under this name, as one of this number is.
fn words_of_twice(alloc: Global, name: &str, number: Option<usize>) -> Result<String, AllocError>
    ensures { IfOk result (λ s. string_bytes s ≡ twice_words name.now number) }
{
    match number {
        Some(number) => {
            let name = Shown {
                bytes: name.as_bytes(),
            };
            format!(in alloc;
                "; {name} is the name of entry {number} too: give one of them another name by =\n"
            )
        }
        None => String::from_str(alloc, "\n"),
    }
}

// The words for an entry that is written under the name of one of these.
fn words_of_repeated(
    alloc: Global,
    columns: &BothColumns,
    join: &BoundJoin,
    entry: &SelectedColumn,
    earlier: &[SelectedColumn],
) -> Result<String, AllocError>
    requires { fits join.now columns.now.left.types columns.now.right.types ≡ true }
    ensures { IfOk result (λ s. string_bytes s ≡ repeated_words join.now columns.now.left columns.now.right earlier.now
        (name_of_entry join.now columns.now.left columns.now.right entry.now)) }
{
    let Some(name) = name_of_entry(alloc, entry, columns, join)? else {
        return String::from_str(alloc, "\n");
    };
    let number = number_under(alloc, earlier, columns, join, name)?;
    words_of_twice(alloc, name, number)
}

// The words for a name that no column of the joined table has.
fn words_of_joined(alloc: Global, columns: &BothColumns, name: &Name) -> Result<String, AllocError>
    ensures { IfOk result (λ s. IsEntryUnknown Source.Joined name.now (both_names columns.now.left columns.now.right) (string_bytes s)) }
{
    let wanted = name.text.as_str();
    if name.delimited {
        if let Some((side, called)) = side_of_case(columns, None, wanted) {
            return words_of_case(alloc, side, called);
        }
    }
    words_of_neither(alloc, columns, wanted)
}

// The words for a name that a side's table doesn't have.
fn words_of_source(
    alloc: Global,
    columns: &BothColumns,
    side: Side,
    name: &Name,
) -> Result<String, AllocError>
    ensures { IfOk result (λ s. IsTableTold side (both_names columns.now.left columns.now.right) name.now.text name.now.delimited (string_bytes s)) }
{
    words_of_table(alloc, columns, side, name.text.as_str(), name.delimited)
}

// The words for an entry that means no column.
fn words_of_unknown(
    alloc: Global,
    columns: &BothColumns,
    entry: &SelectedColumn,
) -> Result<String, AllocError>
    ensures { IfOk result (λ s. IsEntryUnknown entry.now.source entry.now.name (both_names columns.now.left columns.now.right) (string_bytes s)) }
{
    let name = &entry.name;
    match entry.source {
        Source::Joined => words_of_joined(alloc, columns, name),
        Source::Left => words_of_source(alloc, columns, Side::Left, name),
        Source::Right => words_of_source(alloc, columns, Side::Right, name),
    }
}

// The same, and what is said of the files.
fn words_with_files(
    alloc: Global,
    inputs: &Inputs<'_, '_>,
    columns: &BothColumns,
    entry: &SelectedColumn,
) -> Result<String, AllocError>
    ensures { IfOk result (λ s. (words : List ℕ) × IsEntryUnknown entry.now.source entry.now.name (both_names columns.now.left columns.now.right) words
        × (string_bytes s ≡ words ++ separators_told inputs.now columns.now.left columns.now.right)) }
{
    let mut words = words_of_unknown(alloc, columns, entry)?;
    let more = separator_lines(alloc, inputs, &columns.left, &columns.right)?;
    words.push_str(more.as_str())?;
    Ok(words)
}

// The words for an entry that is refused: why it is. These entries come before it.
fn words_of_entry(
    alloc: Global,
    inputs: &Inputs<'_, '_>,
    columns: &BothColumns,
    join: &BoundJoin,
    entry: &SelectedColumn,
    earlier: &[SelectedColumn],
) -> Result<String, AllocError>
    requires { fits join.now columns.now.left.types columns.now.right.types ≡ true }
    ensures { IfOk result (λ s. IsRefusedEntry inputs.now join.now columns.now.left columns.now.right earlier.now entry.now (string_bytes s)) }
{
    let meant = meant_by(alloc, entry, columns, join)?;
    match meant.as_slice() {
        [] => words_with_files(alloc, inputs, columns, entry),
        [_] => words_of_repeated(alloc, columns, join, entry, earlier),
        _ => String::from_str(alloc, IN_BOTH),
    }
}

// The line for an entry: its name and its number, and these words.
fn entry_line(
    alloc: Global,
    entry: &SelectedColumn,
    number: u64,
    words: &str,
) -> Result<String, AllocError>
    ensures { IfOk result (λ s. string_bytes s ≡ selected_line entry.now.name.text number words.now) }
{
    let name = Shown {
        bytes: entry.name.text.as_str().as_bytes(),
    };
    format!(in alloc; "  {name} in entry {number} of --select{words}")
}

// The line for the entry with this number, if there is one.
fn line_of_entry(
    alloc: Global,
    inputs: &Inputs<'_, '_>,
    columns: &BothColumns,
    join: &BoundJoin,
    entries: &[SelectedColumn],
    number: u64,
) -> Result<String, AllocError>
    requires { fits join.now columns.now.left.types columns.now.right.types ≡ true }
    ensures { IfOk result (λ s. IsEntryTold inputs.now join.now columns.now.left columns.now.right entries.now number (string_bytes s)) }
{
    let at = (number as usize).saturating_sub(1);
    let Some(entry) = entries.get(at) else {
        return Ok(String::new(alloc));
    };
    let words = words_of_entry(alloc, inputs, columns, join, entry, &entries[..at])?;
    entry_line(alloc, entry, number, words.as_str())
}

// The lines for that entry, by the columns of both tables.
fn lines_of_columns(
    alloc: Global,
    inputs: &Inputs<'_, '_>,
    columns: &BothColumns,
    entries: &[SelectedColumn],
    number: u64,
) -> Result<String, AllocError>
    ensures { IfOk result (λ s. IsToldOfEntries inputs.now entries.now number (string_bytes s) columns.now.left columns.now.right) }
{
    match join_of(alloc, inputs.request.clause, &columns.left, &columns.right)? {
        Some(join) => line_of_entry(alloc, inputs, columns, &join, entries, number),
        None => Ok(String::new(alloc)),
    }
}

/// The lines for an entry of the list of columns that is refused, counted from 1: its name, and
/// that no column has it, that both tables have it, or which entry is written under its name too.
///
/// # Errors
///
/// It fails only when memory runs out.
pub(crate) fn selected_lines(
    alloc: Global,
    inputs: &Inputs<'_, '_>,
    number: u64,
) -> Result<String, AllocError>
    ensures { IfOk result (λ s. IsSelectedTold number inputs.now (string_bytes s)) }
{
    let Some(entries) = entries_of(&inputs.request.choice.columns) else {
        return Ok(String::new(alloc));
    };
    match columns_of_both(alloc, inputs)? {
        Some(columns) => lines_of_columns(alloc, inputs, &columns, entries, number),
        None => Ok(String::new(alloc)),
    }
}
