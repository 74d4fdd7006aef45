//! The texts of the ends of the rows that are shown, where their last columns come from the right
//! table alone.

ghost use Rattle.std.specs.Prelude.{IfOk, IfSome};
ghost use Rattle.rj_command.specs.Internal.Ends.{AreEndsOf};

use rj_columns::Table;
use rj_csv_io::{EndColumns, OutputFormat, RowTexts, null_end, row_texts};
use rj_engine::{Joined, Shown};
use std::alloc::{AllocError, Global};

// The fewest matches for each right row for which the ends' texts are made. These texts stand beside
// both tables and the result, and take a quarter at most of what comes from the right table there.
const LEAST_MATCHES: u64 = 4;

// The fewest columns of an end whose text is made once: one is written as quickly as copied.
const LEAST_COLUMNS: usize = 2;

/// The text of the end of each right row, and then that of an end of NULLs. So many columns are
/// before the ends.
#[derive(Drop)]
pub(crate) struct Ends {
    pub(crate) texts: RowTexts,
    pub(crate) front: usize,
}

/// The texts of the ends of the rows that are shown, if they are `wanted`, the last columns, two at
/// least, come from the right table alone, two at least are before them, and each right row is in
/// four matches on average. It fails only when memory runs out.
pub(crate) fn ends_of(
    alloc: Global,
    wanted: bool,
    right: &Table,
    joined: &Joined,
    shown: &Shown,
    format: &OutputFormat<'_>,
) -> Result<Option<Ends>, AllocError>
    ensures { IfOk result (λ o. IfSome o (AreEndsOf format.now.delimiter format.now.null.now shown.now right.now)) }
{
    let front = shown.front();
    if !wanted || front < 2 || joined.pairs() as u64 / LEAST_MATCHES < right.rows() {
        return Ok(None);
    }
    let columns = shown.right_columns(alloc, front)?;
    if columns.len() < LEAST_COLUMNS {
        return Ok(None);
    }
    let ends = EndColumns {
        table: right,
        columns: columns.as_slice(),
    };
    let mut texts = row_texts(alloc, &ends, format)?;
    let nulls = null_end(alloc, columns.len(), format)?;
    texts.push(nulls.as_slice())?;
    Ok(Some(Ends { texts, front }))
}
