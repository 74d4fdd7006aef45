//! Names of columns: those that a header has, and the one that may have been meant.

ghost use Rattle.std.specs.Prelude.{◌≡◌, ◌≤◌, ◌==◌, [], if◌then◌else◌, codes, IfOk, Some, length, take};
ghost use Rattle.std.specs.Fmt.{WritesOnOk};
ghost use Rattle.std.specs.Option.{option_copied};
ghost use Rattle.rj_explain.specs.Names.{AreEdits, IsMeant, lowered};
ghost use Rattle.rj_explain.specs.Shown.{listed, meant_text, names_text};

use rj_columns::Table;
use rj_line::shown::Shown;
use std::alloc::{AllocError, Global};
use std::fmt;
use strsim::damerau_levenshtein;

// How many names are listed.
const MOST: usize = 20;

/// What stands before a name in a list.
pub(crate) fn before_name(column: usize) -> &'static str
    ensures { result.now ≡ (if column == 0 then [] else codes ", ") }
{
    if column == 0 { "" } else { ", " }
}

// Writes the first names of a table's columns, with commas between.
fn write_names<W: fmt::Write>(f: &mut fmt::Formatter<W>, table: &Table, count: usize) -> fmt::Result
    requires { count ≤ length table.now.types }
    ensures { WritesOnOk W.write_str_gives f.old result (listed (take count table.now.names)) f.new }
{
    for column in 0..count {
        let (before, name) = (before_name(column), table.name(column));
        write!(f, "{before}{name}")?;
    }
    Ok(())
}

/// The names of a table's columns, with commas between. If there are more than 20, it is the first
/// ones, and how many more there are.
#[derive(Clone, Copy)]
pub(crate) struct NamesOf<'t> {
    pub(crate) table: &'t Table,
}

impl fmt::Display for NamesOf<'_> {
    ghost output = { λ n. Some (names_text n.table.now.names) };

    fn fmt<W: fmt::Write>(&self, f: &mut fmt::Formatter<W>) -> fmt::Result {
        let columns = self.table.columns();
        if columns <= MOST {
            return write_names(f, self.table, columns);
        }
        let more = columns - MOST;
        write_names(f, self.table, MOST)?;
        write!(f, " and {more} more")
    }
}

// How many edits lead from one name to another, ignoring case.
fn distance(alloc: Global, from: &str, to: &str) -> Result<usize, AllocError>
    ensures { IfOk result (λ count. AreEdits (lowered from.now) (lowered to.now) count) }
{
    let from = from.to_ascii_lowercase(alloc)?;
    let to = to.to_ascii_lowercase(alloc)?;
    let count = damerau_levenshtein(alloc, from.as_str(), to.as_str())?;
    Ok(count)
}

/// The name of a table that is nearest to another one: at most two edits away, and at most half as
/// many as the other one has bytes. Of several it is the first one.
///
/// # Errors
///
/// It fails only when memory runs out.
pub(crate) fn nearest<'t>(
    alloc: Global,
    wanted: &str,
    table: &'t Table,
) -> Result<Option<&'t str>, AllocError>
    ensures { IfOk result (λ o. IsMeant wanted.now table.now.names (option_copied o)) }
{
    let mut found = None;
    let mut least = (wanted.len() / 2).min(2) + 1;
    for column in 0..table.columns() {
        let edits = distance(alloc, wanted, table.name(column))?;
        if edits < least {
            (found, least) = (Some(table.name(column)), edits);
        }
    }
    Ok(found)
}

/// A question at the end of a line: whether this name was meant, if there is one.
#[derive(Clone, Copy)]
pub(crate) struct Meant<'t> {
    pub(crate) name: Option<&'t str>,
}

impl fmt::Display for Meant<'_> {
    ghost output = { λ m. Some (meant_text (option_copied m.name)) };

    fn fmt<W: fmt::Write>(&self, f: &mut fmt::Formatter<W>) -> fmt::Result {
        match self.name {
            Some(name) => {
                let name = Shown {
                    bytes: name.as_bytes(),
                };
                write!(f, "; did you mean {name}?")
            }
            None => f.write_str(""),
        }
    }
}
