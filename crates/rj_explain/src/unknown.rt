//! The words for a name that means no column: the names that there are, and the one that may have
//! been meant.

ghost use Rattle.std.specs.Prelude.{◌≡◌, IfOk, option_map, string_bytes};
ghost use Rattle.std.specs.Option.{option_copied};
ghost use Rattle.rj_explain.specs.Unknown.{IsMeantOfBoth, IsNeitherTold, IsSideTold, IsTableTold, alike_at, alike_in, alike_of, both_names, case_words, neither_words, side_words};

use crate::clause::BothColumns;
use crate::names::{Meant, NamesOf, nearest};
use rj_columns::Table;
use rj_line::fault::Side;
use rj_line::shown::Shown;
use std::alloc::{AllocError, Global};

/// What is said of a name that both tables have.
pub(crate) const IN_BOTH: &str = "; both tables have it: write L. or R. before it\n";

// The words for a name that neither table has.
fn words_of_both(
    alloc: Global,
    columns: &BothColumns,
    meant: Option<&str>,
) -> Result<String, AllocError>
    ensures { IfOk result (λ s. string_bytes s ≡ neither_words (both_names columns.now.left columns.now.right) (option_copied meant.entry)) }
{
    let (left, right, meant) = (
        NamesOf {
            table: &columns.left,
        },
        NamesOf {
            table: &columns.right,
        },
        Meant { name: meant },
    );
    format!(in alloc; "; left has {left}; right has {right}{meant}\n")
}

// The words for a name that a side's table doesn't have: the names that it has.
fn words_of_side(
    alloc: Global,
    side: Side,
    has: &str,
    table: &Table,
    meant: Option<&str>,
) -> Result<String, AllocError>
    ensures { IfOk result (λ s. string_bytes s ≡ side_words side has.now table.now.names (option_copied meant.entry)) }
{
    let (names, meant) = (NamesOf { table }, Meant { name: meant });
    format!(in alloc; "; {side} {has} {names}{meant}\n")
}

// The name of a table's column that differs from this one by ASCII case alone.
fn other_case<'t>(table: &'t Table, name: &str) -> Option<&'t str>
    ensures { option_copied result ≡ alike_in table.now.names name.now }
{
    for column in 0..table.columns() {
        let other = table.name(column);
        if other.eq_ignore_ascii_case(name) {
            return Some(other);
        }
    }
    None
}

/// The words for a delimited name that differs from one of a side's table by ASCII case alone.
pub(crate) fn words_of_case(alloc: Global, side: Side, name: &str) -> Result<String, AllocError>
    ensures { IfOk result (λ s. string_bytes s ≡ case_words side name.now) }
{
    let name = Shown {
        bytes: name.as_bytes(),
    };
    format!(in alloc; "; {side} has {name}: between double quotes a name matches exactly\n")
}

// The name of a side's table that differs from this one by ASCII case alone, with the side.
fn case_of_side<'c>(columns: &'c BothColumns, side: Side, name: &str) -> Option<(Side, &'c str)>
    ensures { option_map (λ found. (found.0, found.1.now)) result ≡ alike_at side (both_names columns.now.left columns.now.right) name.now }
{
    match other_case(columns.of(side), name) {
        Some(called) => Some((side, called)),
        None => None,
    }
}

/// The side that has a name which differs from a delimited one by ASCII case alone: the side that
/// lacks the name, if one does, and else any.
pub(crate) fn side_of_case<'c>(
    columns: &'c BothColumns,
    lacking: Option<Side>,
    name: &str,
) -> Option<(Side, &'c str)>
    ensures { option_map (λ found. (found.0, found.1.now)) result ≡ alike_of lacking (both_names columns.now.left columns.now.right) name.now }
{
    if let Some(side) = lacking {
        return case_of_side(columns, side, name);
    }
    match case_of_side(columns, Side::Left, name) {
        Some(found) => Some(found),
        None => case_of_side(columns, Side::Right, name),
    }
}

/// The words for a name that a side's table doesn't have, with the one that may have been meant.
///
/// # Errors
///
/// It fails only when memory runs out.
pub(crate) fn words_of_lacking(
    alloc: Global,
    columns: &BothColumns,
    side: Side,
    has: &str,
    wanted: &str,
) -> Result<String, AllocError>
    ensures { IfOk result (λ s. IsSideTold side has.now (both_names columns.now.left columns.now.right) wanted.now (string_bytes s)) }
{
    let table = columns.of(side);
    let meant = nearest(alloc, wanted, table)?;
    words_of_side(alloc, side, has, table, meant)
}

/// The words for a name that a side's table doesn't have. A delimited one may differ from one of
/// its names by ASCII case alone.
///
/// # Errors
///
/// It fails only when memory runs out.
pub(crate) fn words_of_table(
    alloc: Global,
    columns: &BothColumns,
    side: Side,
    wanted: &str,
    delimited: bool,
) -> Result<String, AllocError>
    ensures { IfOk result (λ s. IsTableTold side (both_names columns.now.left columns.now.right) wanted.now delimited (string_bytes s)) }
{
    if delimited {
        if let Some(name) = other_case(columns.of(side), wanted) {
            return words_of_case(alloc, side, name);
        }
    }
    words_of_lacking(alloc, columns, side, "has", wanted)
}

// The name of either table that may have been meant, of the left one if it has one.
fn nearest_of_both<'c>(
    alloc: Global,
    columns: &'c BothColumns,
    wanted: &str,
) -> Result<Option<&'c str>, AllocError>
    ensures { IfOk result (λ o. IsMeantOfBoth (both_names columns.now.left columns.now.right) wanted.now (option_copied o)) }
{
    match nearest(alloc, wanted, &columns.left)? {
        Some(name) => Ok(Some(name)),
        None => nearest(alloc, wanted, &columns.right),
    }
}

/// The words for a name that neither table has.
///
/// # Errors
///
/// It fails only when memory runs out.
pub(crate) fn words_of_neither(
    alloc: Global,
    columns: &BothColumns,
    wanted: &str,
) -> Result<String, AllocError>
    ensures { IfOk result (λ s. IsNeitherTold (both_names columns.now.left columns.now.right) wanted.now (string_bytes s)) }
{
    let meant = nearest_of_both(alloc, columns, wanted)?;
    words_of_both(alloc, columns, meant)
}
