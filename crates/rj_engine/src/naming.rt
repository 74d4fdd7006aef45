//! The names under which the columns of a joined table are written.

ghost use Rattle.std.specs.Prelude.{◌≡◌, ◌≢◌, ◌<◌, ◌++◌, [], ◌∷◌, IfErr, IfOk, OnOk, Err, Ok};
ghost use Rattle.std.specs.Prelude.{length, map, option_map, slice_index_or, string_bytes, true};
ghost use Rattle.std.specs.Str.{str_eq_ignore_ascii_case};
ghost use Rattle.rj_columns.specs.Names.{is_name};
ghost use Rattle.rj_condition.specs.Fits.{fits};
ghost use Rattle.rj_engine.specs.Cells.{IsColumnOf, name_of};
ghost use Rattle.rj_engine.specs.Naming.{free_name, is_among, is_free, next_name, renamed, with_mark, written_names};
ghost use Rattle.rj_engine.specs.Naming.{chosen_names, if_free, name_of_entry, new_or_own, selected_names};

use crate::chosen_columns::column_of_entry;
use crate::origin::{Origin, name_at};
use crate::view::chosen_header;
use rj_columns::Table;
use rj_condition::BoundJoin;
use rj_settings::{Choice, ColumnChoice, Repeated, SelectedColumn};
use std::alloc::{AllocError, Global};

const MAX_NAME: usize = 128;

const MAX_MARKS: usize = 128;

/// Why no names can be written for a header.
#[derive(Clone, Copy, Debug, PartialEq, Eq)]
pub enum NamingRefused {
    /// The name of this column, counted from 1, repeats an earlier one, and with any number of
    /// marks it is longer than 128 bytes or the same as another name.
    NoFreeName(u64),
    /// This entry of a list of columns, counted from 1, means no column, or its name can't be
    /// written: it has no byte or more than 128, or it repeats the name of an earlier entry.
    SelectedName(u64),
    /// Out of memory.
    Memory,
}

impl From<AllocError> for NamingRefused {
    ghost use Rattle.rj_engine.specs.declared.naming.NamingRefused.TheVariants.{Memory};

    ghost from_gives = { λ _ e. e ≡ Memory };

    fn from(_error: AllocError) -> NamingRefused {
        NamingRefused::Memory
    }
}

// Whether two names are the same, ignoring ASCII case.
fn are_alike(name: &str, other: &str) -> bool
    ensures { result ≡ str_eq_ignore_ascii_case name.now other.now }
{
    name.eq_ignore_ascii_case(other)
}

// Whether a name of the header is this one, ignoring ASCII case.
fn is_among(names: &[&str], name: &str) -> bool
    ensures { result ≡ is_among (map (λ n. n.now) names.now) name.now }
{
    for other in names {
        if are_alike(name, other) {
            return true;
        }
    }
    false
}

// Whether a name that was written is this one, ignoring ASCII case.
fn is_written(names: &[String], name: &str) -> bool
    ensures { result ≡ is_among (map string_bytes names.now) name.now }
{
    for other in names {
        if are_alike(name, other.as_str()) {
            return true;
        }
    }
    false
}

// Whether a text can be the name of a column.
fn is_name(text: &str) -> bool
    ensures { result ≡ is_name text.now }
{
    !text.is_empty() && text.len() <= MAX_NAME
}

// Whether this is a name that can still be written.
fn is_free(header: &[&str], written: &[String], name: &str) -> bool
    ensures { result ≡ is_free (map (λ n. n.now) header.now) (map string_bytes written.now) name.now }
{
    is_name(name) && !is_among(header, name) && !is_written(written, name)
}

// The name with one mark more.
fn with_mark(alloc: Global, name: &str, repeated: Repeated<'_>) -> Result<String, AllocError>
    ensures { IfOk result (λ s. string_bytes s ≡ with_mark repeated.entry name.now) }
{
    match repeated {
        Repeated::Kept => String::from_str(alloc, name),
        Repeated::Qualified => joined_texts(alloc, "R.", name),
        Repeated::Suffixed(suffix) => joined_texts(alloc, name, suffix),
    }
}

// One text after another.
fn joined_texts(alloc: Global, first: &str, second: &str) -> Result<String, AllocError>
    ensures { IfOk result (λ s. string_bytes s ≡ first.now ++ second.now) }
{
    let mut text = String::from_str(alloc, first)?;
    text.push_str(second)?;
    Ok(text)
}

// The first free one of the name with one mark, with two, and so on.
fn free_name(
    alloc: Global,
    header: &[&str],
    written: &[String],
    name: &str,
    repeated: Repeated<'_>,
) -> Result<Option<String>, AllocError>
    ensures { IfOk result (λ o. option_map string_bytes o ≡ free_name repeated.entry (map (λ n. n.now) header.now) (map string_bytes written.now) name.now) }
{
    let mut marked = String::from_str(alloc, name)?;
    for _marks in 0..MAX_MARKS {
        marked = with_mark(alloc, marked.as_str(), repeated)?;
        if is_free(header, written, marked.as_str()) {
            return Ok(Some(marked));
        }
    }
    Ok(None)
}

// The name that is written after those that were: the header's own one, or a free one if it repeats
// an earlier one.
fn next_name(
    alloc: Global,
    header: &[&str],
    written: &[String],
    repeated: Repeated<'_>,
) -> Result<Option<String>, AllocError>
    requires { length written.now < length header.now }
    ensures { IfOk result (λ o. option_map string_bytes o ≡ next_name repeated.entry (map (λ n. n.now) header.now) (map string_bytes written.now)
        (slice_index_or (map (λ n. n.now) header.now) (length written.now) [])) }
{
    let column = written.len();
    let name = header[column];
    if is_among(&header[..column], name) {
        return free_name(alloc, header, written, name, repeated);
    }
    Ok(Some(String::from_str(alloc, name)?))
}

// Adds a name after those that were written.
fn add_name(written: &mut Vec<String>, name: String) -> Result<(), AllocError>
    ensures { OnOk result (written.new.items ≡ written.old.items ++ name ∷ []) }
{
    written.push(name)?;
    Ok(())
}

// The header's names, each repeated one under a free name.
fn renamed(
    alloc: Global,
    header: &[&str],
    repeated: Repeated<'_>,
) -> Result<Vec<String>, NamingRefused>
    ensures names { IfOk result (λ v. renamed repeated.entry (map (λ n. n.now) header.now) ≡ Ok (map string_bytes v.items)) }
    ensures fault { IfErr result (λ e. e ≢ NamingRefused.Memory → renamed repeated.entry (map (λ n. n.now) header.now) ≡ Err e) }
{
    let mut written = Vec::with_capacity(alloc, header.len())?;
    for column in 0..header.len() {
        match next_name(alloc, header, written.as_slice(), repeated)? {
            Some(name) => add_name(&mut written, name)?,
            None => return Err(NamingRefused::NoFreeName(column as u64 + 1)),
        }
    }
    Ok(written)
}

// The header's names as they are.
fn own_names(alloc: Global, header: &[&str]) -> Result<Vec<String>, AllocError>
    ensures { IfOk result (λ v. map string_bytes v.items ≡ map (λ n. n.now) header.now) }
{
    let mut names = Vec::with_capacity(alloc, header.len())?;
    for name in header {
        names.push(String::from_str(alloc, name)?)?;
    }
    Ok(names)
}

/// The names under which the columns of a header are written, from left to right. A name that
/// repeats an earlier one, ignoring ASCII case, is written unchanged or with marks: its table's
/// letter and a point before it, or a suffix after it. The mark is put once or as often as it takes
/// until no other name is the same. A header's names have 1 to 128 bytes, and so have the written
/// ones.
///
/// # Errors
///
/// `NoFreeName` with the first column whose name is repeated and has no free name of at most 128
/// bytes. `Memory` only when memory ran out.
pub fn written_names(
    alloc: Global,
    header: &[&str],
    repeated: Repeated<'_>,
) -> Result<Vec<String>, NamingRefused>
    ensures names { IfOk result (λ v. written_names repeated.entry (map (λ n. n.now) header.now) ≡ Ok (map string_bytes v.items)) }
    ensures fault { IfErr result (λ e. e ≢ NamingRefused.Memory → written_names repeated.entry (map (λ n. n.now) header.now) ≡ Err e) }
{
    match repeated {
        Repeated::Kept => Ok(own_names(alloc, header)?),
        Repeated::Qualified | Repeated::Suffixed(_) => renamed(alloc, header, repeated),
    }
}

// The name under which an entry's column is written: its new one, or else the column's own.
fn new_or_own<'a>(
    left: &'a Table,
    right: &'a Table,
    origin: Origin,
    entry: &'a SelectedColumn,
) -> &'a str
    requires { IsColumnOf left.now right.now origin }
    ensures { result.now ≡ new_or_own entry.now.written (name_of left.now right.now origin) }
{
    match &entry.written {
        Some(name) => name.text.as_str(),
        None => name_at(left, right, origin),
    }
}

// The name of an entry's column. None if the entry means no column, or if the name can't be written
// after those that were.
fn next_selected(
    alloc: Global,
    left: &Table,
    right: &Table,
    join: &BoundJoin,
    written: &[String],
    entry: &SelectedColumn,
) -> Result<Option<String>, AllocError>
    requires { fits join.now left.now.types right.now.types ≡ true }
    ensures { IfOk result (λ o. option_map string_bytes o
        ≡ if_free (map string_bytes written.now) (name_of_entry join.now left.now right.now entry.now)) }
{
    let Some(origin) = column_of_entry(alloc, left, right, join, entry)? else {
        return Ok(None);
    };
    let name = new_or_own(left, right, origin, entry);
    if is_free(&[], written, name) {
        Ok(Some(String::from_str(alloc, name)?))
    } else {
        Ok(None)
    }
}

// The names that a list writes, in its order.
fn selected_names(
    alloc: Global,
    left: &Table,
    right: &Table,
    join: &BoundJoin,
    entries: &[SelectedColumn],
) -> Result<Vec<String>, NamingRefused>
    requires { fits join.now left.now.types right.now.types ≡ true }
    ensures names { IfOk result (λ v. selected_names join.now left.now right.now entries.now ≡ Ok (map string_bytes v.items)) }
    ensures fault { IfErr result (λ e. e ≢ NamingRefused.Memory → selected_names join.now left.now right.now entries.now ≡ Err e) }
{
    let mut written = Vec::with_capacity(alloc, entries.len())?;
    for number in 0..entries.len() {
        let entry = &entries[number];
        match next_selected(alloc, left, right, join, written.as_slice(), entry)? {
            Some(name) => add_name(&mut written, name)?,
            None => return Err(NamingRefused::SelectedName(number as u64 + 1)),
        }
    }
    Ok(written)
}

/// The names under which the chosen columns of the joined table of these tables are written. The
/// join was bound to them. A list of columns has the names of its entries: new ones, or else the
/// columns' own. All other columns have the names that `written_names` gives to those of
/// `chosen_header`.
///
/// # Errors
///
/// Of a list `SelectedName` with its first entry that means no column, or whose name has no byte,
/// more than 128, or repeats the name of an earlier entry, ignoring ASCII case. Else `NoFreeName`,
/// as `written_names`. `Memory` only when memory ran out.
pub fn chosen_names(
    alloc: Global,
    left: &Table,
    right: &Table,
    join: &BoundJoin,
    choice: &Choice<'_>,
) -> Result<Vec<String>, NamingRefused>
    requires { fits join.now left.now.types right.now.types ≡ true }
    ensures names { IfOk result (λ v. chosen_names choice.now join.now left.now right.now ≡ Ok (map string_bytes v.items)) }
    ensures fault { IfErr result (λ e. e ≢ NamingRefused.Memory → chosen_names choice.now join.now left.now right.now ≡ Err e) }
{
    match &choice.columns {
        ColumnChoice::Selected(entries) => {
            selected_names(alloc, left, right, join, entries.as_slice())
        }
        ColumnChoice::All | ColumnChoice::Left | ColumnChoice::Right => {
            let own = chosen_header(alloc, left, right, join, choice)?;
            written_names(alloc, own.as_slice(), choice.repeated)
        }
    }
}
