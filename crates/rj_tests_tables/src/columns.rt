//! That tables are built, copied and taken apart with ample memory, and how many rows a segment has.

ghost use Rattle.std.specs.Prelude.{◌≡◌, ◌∷◌, []};

use crate::csv_io::{by_comma, repeated};
use rj_columns::{Cell, ColumnType, RowSource, Table, TableBuilder};
use rj_csv_io::read_table_in_parts;
use std::alloc::{AllocError, Global};
use std::test::Fail;
use std::thread::Threads;

const TYPES: [ColumnType; 2] = [ColumnType::Int, ColumnType::Text];

// Adds a row with a number and a text, a row of NULLs, and a cell of a row that is not ended.
#[tactic(auto, unfolding(rj_columns::specs::Tables::FitsTypes, rj_columns::specs::Tables::FitsAt))]
fn push(builder: &mut TableBuilder) -> Result<(), AllocError>
    requires types { builder.old.table.types ≡ ColumnType.Int ∷ ColumnType.Text ∷ [] }
    requires rows { builder.old.table.rows ≡ [] }
    requires hand { builder.old.row ≡ [] }
{
    builder.reserve(2);
    builder.push_row([Cell::Int(-7), Cell::Text("\u{e4},")].as_slice())?;
    builder.push_cell(Cell::Null)?;
    builder.push_cell(Cell::Null)?;
    builder.end_row();
    builder.push_cell(Cell::Int(5))
}

fn sample(alloc: Global) -> Result<Table, Fail> {
    let names = [b"id".as_slice(), b"Word".as_slice()];
    let mut builder = TableBuilder::new(alloc, names.as_slice(), TYPES.as_slice())?;
    push(&mut builder)?;
    Ok(builder.finish())
}

// Whether the rows of a table are copied, if it has two rows and two columns. Each answer is as the
// contracts say, unless memory runs out.
fn is_copied(alloc: Global, table: &Table) -> bool {
    if table.rows() != 2 || table.columns() != 2 {
        return false;
    }
    let mut cells = Vec::new(alloc);
    RowSource::cells(table, &mut cells, 1, 0, 2).is_ok()
        && table
            .select(alloc, [1, 0].as_slice(), [1].as_slice())
            .is_ok()
}

#[test]
fn tables_are_built_and_copied(rt: HostRuntime) -> Result<(), Fail> {
    let table = sample(rt.alloc())?;
    assert!(rt; is_copied(rt.alloc(), &table));
    Ok(())
}

// The segments of the table of a text that is read in this many parts.
fn segments_of<R: Threads + Sync>(
    rt: &R,
    alloc: Global,
    text: &[u8],
    parts: usize,
) -> Option<Vec<Table>> {
    let Ok(table) = read_table_in_parts(rt, alloc, text, &TYPES, &by_comma(&[""]), parts) else {
        return None;
    };
    match table.into_segments(alloc) {
        Ok(segments) => Some(segments),
        Err(_) => None,
    }
}

// How many rows the longest of these tables has.
fn most_rows(tables: &[Table]) -> u64 {
    let mut most = 0;
    for table in tables {
        most = table.rows().max(most);
    }
    most
}

// The rows of a table, the parts in which it is read, its segments, and the rows of the longest of
// these.
type SegmentsCase = (usize, usize, usize, u64);

fn has_segments<R: Threads + Sync>(rt: &R, alloc: Global, text: &[u8], case: SegmentsCase) -> bool {
    let (_, parts, count, most) = case;
    match segments_of(rt, alloc, text, parts) {
        Some(segments) => segments.len() == count && most_rows(&segments) == most,
        None => false,
    }
}

// The first of these tables, counted from 0, that has other segments.
fn wrong_segments<R: Threads + Sync>(
    rt: &R,
    alloc: Global,
    cases: &[SegmentsCase],
) -> Result<Option<usize>, AllocError> {
    for (place, case) in cases.iter().enumerate() {
        let text = repeated(alloc, b"k,v\n", b"7,seven\n", case.0, b"")?;
        if !has_segments(rt, alloc, &text, *case) {
            return Ok(Some(place));
        }
    }
    Ok(None)
}

// Each of two parts has 70,000 rows, so that a segment that isn't full is among others.
const SEGMENTS: [SegmentsCase; 3] = [
    (0, 1, 1, 0),
    (140_000, 1, 3, 65_536),
    (140_000, 2, 4, 65_536),
];

#[test]
fn segments_of_a_table(rt: HostRuntime) -> Result<(), Fail> {
    assert_eq!(rt; wrong_segments(&rt, rt.alloc(), SEGMENTS.as_slice())?, None);
    Ok(())
}
