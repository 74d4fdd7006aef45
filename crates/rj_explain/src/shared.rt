//! Names of a type list for both tables that neither has.

ghost use Rattle.std.specs.Prelude.{◌≡◌, IfOk, string_bytes};
ghost use Rattle.rj_explain.specs.Explained.{IsSharedNameTold, shared_told};
ghost use Rattle.rj_explain.specs.Lines.{both_names_line};

use crate::clause::{BothColumns, columns_of_both};
use crate::hints::separator_lines;
use crate::inputs::Inputs;
use crate::names::NamesOf;
use std::alloc::{AllocError, Global};

// The line that lists the names of both tables.
fn names_line(alloc: Global, columns: &BothColumns) -> Result<String, AllocError>
    ensures { IfOk result (λ s. string_bytes s ≡ both_names_line columns.now.left.names columns.now.right.names) }
{
    let (left, right) = (
        NamesOf {
            table: &columns.left,
        },
        NamesOf {
            table: &columns.right,
        },
    );
    format!(in alloc; "  left has {left}; right has {right}\n")
}

// The lines for these columns of both tables.
fn lines_of_columns(
    alloc: Global,
    inputs: &Inputs<'_, '_>,
    columns: &BothColumns,
) -> Result<String, AllocError>
    ensures { IfOk result (λ s. string_bytes s ≡ shared_told inputs.now columns.now.left columns.now.right) }
{
    let mut lines = names_line(alloc, columns)?;
    let more = separator_lines(alloc, inputs, &columns.left, &columns.right)?;
    lines.push_str(more.as_str())?;
    Ok(lines)
}

/// The lines for a name in a type list for both tables that neither has: the names that they have,
/// and the signs that seem to separate their fields.
///
/// # Errors
///
/// It fails only when memory runs out.
pub(crate) fn shared_name_lines(
    alloc: Global,
    inputs: &Inputs<'_, '_>,
) -> Result<String, AllocError>
    ensures { IfOk result (λ s. IsSharedNameTold inputs.now (string_bytes s)) }
{
    match columns_of_both(alloc, inputs)? {
        Some(columns) => lines_of_columns(alloc, inputs, &columns),
        None => Ok(String::new(alloc)),
    }
}
