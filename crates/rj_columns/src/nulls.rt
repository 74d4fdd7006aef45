//! Marks of NULLs, which reach no further than the last NULL.

ghost use Rattle.std.specs.Prelude.{◌≡◌, ◌≤◌, ◌+◌, length, false, slice_index_or, OnOk, OnErr};
ghost use Rattle.rj_columns.specs.Internal.Nulls.{marked_at};

use std::alloc::AllocError;

// Whether a row is marked.
#[inline]
pub(crate) fn is_marked(nulls: &Vec<bool>, row: usize) -> bool
    ensures { result ≡ slice_index_or nulls.now.items row false }
{
    if row < nulls.len() {
        return nulls[row];
    }
    false
}

// Marks a row after all that are marked. If memory runs out, the marks stay as they were.
pub(crate) fn mark(nulls: &mut Vec<bool>, row: usize) -> Result<(), AllocError>
    requires { length nulls.old.items ≤ row }
    ensures ok { OnOk result (nulls.new.items ≡ marked_at nulls.old.items row) }
    ensures err { OnErr result (nulls.new.items ≡ nulls.old.items) }
{
    let marks = nulls.len();
    nulls.resize(row, false)?;
    if nulls.push(true).is_err() {
        nulls.truncate(marks);
        return Err(AllocError);
    }
    Ok(())
}
