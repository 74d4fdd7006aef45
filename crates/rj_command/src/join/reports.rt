//! The lines of a report.

ghost use Rattle.std.specs.Prelude.{◌≡◌, ◌<◌, ◌++◌, ◌^◌, [], All, IfOk, OnOk, codes, length, map, string_bytes, true, unsigned_abs};
ghost use Rattle.std.specs.List.{flat_map};
ghost use Rattle.std.specs.Option.{ForSome};
ghost use Rattle.rj_columns.specs.Contents.{content_of, IsInLimits};
ghost use Rattle.rj_condition.specs.Fits.{fits};
ghost use Rattle.rj_condition.specs.Splits.{keys_of};
ghost use Rattle.rj_csv_io.specs.Shown.{shown};
ghost use Rattle.rj_columns.specs.NumbersWritten.{text_of};
ghost use Rattle.rj_engine.specs.Reports.{AreKeysOf};
ghost use Rattle.rj_engine.specs.Results.{joined_of};
ghost use Rattle.rj_command.specs.Reported.{IsReported, cell_part, counts_text, kept_note, keys_text, largest_text, report_text, spread_text};
ghost use Rattle.rj_line.specs.Shown as texts;

use crate::join::operands::Operands;
use crate::join::shown::shown_text;
use rj_columns::decimal::DecimalBuffer;
use rj_columns::{Cell, Table};
use rj_condition::{BoundJoin, JoinKind, split};
use rj_engine::{Group, JoinReport, Joined, KeyReport, report};
use rj_line::Request;
use std::alloc::{AllocError, Global};
use std::str;

// The lines of the rows and the matches.
fn counts_text(alloc: Global, told: &JoinReport) -> Result<String, AllocError>
    ensures { IfOk result (λ s. string_bytes s ≡ counts_text told.now) }
{
    let (left, right, pairs) = (told.left_rows, told.right_rows, told.pairs);
    let (lone_left, lone_right) = (told.lone_left, told.lone_right);
    format!(in alloc;
        "rows left {left} right {right}\npairs {pairs} lone-left {lone_left} lone-right {lone_right}"
    )
}

// What the short form says behind the matches of the unmatched rows that a join of this type doesn't
// keep.
fn kept_note(short: bool, kind: JoinKind) -> &'static str
    ensures { result.now ≡ kept_note short kind }
{
    if !short {
        return "";
    }
    match kind {
        JoinKind::Inner => " (lone rows not kept)",
        JoinKind::Left => " (lone-right not kept)",
        JoinKind::Right => " (lone-left not kept)",
        JoinKind::Full => "",
    }
}

// The lines of NULL and of repeated keys.
fn spread_text(alloc: Global, keys: &KeyReport) -> Result<String, AllocError>
    ensures { IfOk result (λ s. string_bytes s ≡ spread_text keys.now) }
{
    let (left, right) = (keys.left_nulls, keys.right_nulls);
    let (left_repeated, right_repeated) = (keys.left_repeated, keys.right_repeated);
    format!(in alloc;
        "\nnull-keys left {left} right {right}\nrepeated-keys left {left_repeated} right {right_repeated}"
    )
}

// The text of a number.
fn number_text(alloc: Global, units: i128, scale: u8) -> Result<String, AllocError>
    requires { unsigned_abs units < 10 ^ 18 }
    ensures { IfOk result (λ s. string_bytes s ≡ text_of scale units) }
{
    let mut buffer = DecimalBuffer::new();
    match str::from_utf8(buffer.format(units, scale)) {
        Ok(text) => String::from_str(alloc, text),
        Err(_) => unreachable!(),
    }
}

// The text of a cell, as it is written; NULL has an empty text.
fn cell_text(alloc: Global, cell: Cell<'_>) -> Result<String, AllocError>
    requires { IsInLimits (content_of cell) }
    ensures { IfOk result (λ s. string_bytes s ≡ shown [] (content_of cell.entry)) }
{
    match cell {
        Cell::Null => Ok(String::new(alloc)),
        Cell::Int(number) => format!(in alloc; "{number}"),
        Cell::Num { units, scale } => number_text(alloc, units, scale),
        Cell::Text(text) => String::from_str(alloc, text),
    }
}

// A name and a cell, as they are shown.
fn part_text(alloc: Global, name: &str, cell: &str) -> Result<String, AllocError>
    ensures { IfOk result (λ s. string_bytes s ≡ codes ", " ++ (texts.shown name.now ++ (codes " = " ++ texts.shown cell.now))) }
{
    let name = shown_text(alloc, name)?;
    let value = shown_text(alloc, cell)?;
    format!(in alloc; ", {name} = {value}")
}

// The name of a column and its cell at a row, as they are shown.
fn cell_part(alloc: Global, table: &Table, column: usize, row: u32) -> Result<String, AllocError>
    requires row { row < length table.now.rows }
    requires column { column < length table.now.types }
    ensures { IfOk result (λ s. string_bytes s ≡ cell_part table.now row column) }
{
    let cell = cell_text(alloc, table.cell(u64::from(row), column))?;
    part_text(alloc, table.name(column), &cell)
}

// Adds the names of these columns and their cells at a row.
fn add_cells(
    text: &mut String,
    alloc: Global,
    table: &Table,
    columns: &[usize],
    row: u32,
) -> Result<(), AllocError>
    requires row { row < length table.now.rows }
    requires columns { All (λ c. c < length table.now.types) columns.now }
    ensures { OnOk result (string_bytes text.new ≡ string_bytes text.old ++ flat_map (λ c. cell_part table.now row c) columns.now) }
{
    for column in columns {
        let part = cell_part(alloc, table, *column, row)?;
        text.push_str(&part)?;
    }
    Ok(())
}

// The line of the largest group.
fn largest_text(
    alloc: Global,
    left: &Table,
    join: &BoundJoin,
    columns: &[usize],
    largest: Option<Group>,
) -> Result<String, AllocError>
    requires columns { columns.now ≡ map (λ k. k.0) (keys_of join.now) }
    requires within { All (λ c. c < length left.now.types) columns.now }
    requires row { ForSome largest (λ g. g.row < length left.now.rows) }
    ensures { IfOk result (λ s. string_bytes s ≡ largest_text join.now left.now largest) }
{
    let Some(group) = largest else {
        return format!(in alloc; "\nlargest-key none");
    };
    let _join = join;
    let (lefts, rights) = (group.left, group.right);
    let mut text = format!(in alloc; "\nlargest-key left {lefts} right {rights}")?;
    add_cells(&mut text, alloc, left, columns, group.row)?;
    Ok(text)
}

// The lines of keys, if there are keys.
fn keys_text(
    alloc: Global,
    left: &Table,
    right: &Table,
    join: &BoundJoin,
    keys: Option<KeyReport>,
) -> Result<String, AllocError>
    requires fits { fits join.now left.now.types right.now.types ≡ true }
    requires keys { AreKeysOf join.now left.now right.now keys }
    ensures { IfOk result (λ s. string_bytes s ≡ keys_text join.now left.now keys) }
{
    let Some(keys) = keys else {
        return Ok(String::new(alloc));
    };
    let _right = right;
    let split = split(alloc, join)?;
    let columns = split.left_columns(alloc)?;
    let mut text = spread_text(alloc, &keys)?;
    let largest = largest_text(alloc, left, join, &columns, keys.largest)?;
    text.push_str(&largest)?;
    Ok(text)
}

/// The text of a report on the operands' join, or none if none is asked for.
///
/// # Errors
///
/// It fails only when memory runs out.
pub(crate) fn report_of(
    alloc: Global,
    operands: &Operands,
    joined: &Joined,
    request: &Request<'_>,
) -> Result<Option<String>, AllocError>
    requires fits { fits operands.now.join operands.now.left.types operands.now.right.types ≡ true }
    requires joined { joined.now.members ≡ joined_of operands.now.join operands.now.left operands.now.right }
    ensures { IfOk result (IsReported request.now operands.now.join operands.now.left operands.now.right) }
{
    if !request.report {
        return Ok(None);
    }
    let (left, right, join) = (&operands.left, &operands.right, &operands.join);
    let told = report(alloc, left, right, join, joined)?;
    let mut text = counts_text(alloc, &told)?;
    text.push_str(kept_note(request.short, join.kind()))?;
    let keys = keys_text(alloc, left, right, join, told.keys)?;
    text.push_str(&keys)?;
    Ok(Some(text))
}
