//! The cells that keep a column from being one of numbers.

ghost use Rattle.std.specs.Prelude.{◌≡◌, ◌<◌, length, true, false, IfOk};
ghost use Rattle.rj_line.specs.Misfits.{AreMisfits, IsMisfit, IsMisfitOf};
ghost use Rattle.rj_line.specs.Suggested.{EachText, IsFirstNotOf, SomeText, is_of};
ghost use Rattle.rj_line.specs.declared.suggest.number.Form.TheVariants as form;

use crate::suggest::columns::{first_not_of, text_at};
use crate::suggest::number::{Form, is_of};
use crate::suggest::suggestion::Misfit;
use rj_columns::Table;
use std::alloc::{AllocError, Global};

// Whether a text of a column is of this form.
fn has_one_of(form: Form, table: &Table, col: usize) -> bool
    requires { col < length table.now.types }
    ensures some { result ≡ true → SomeText table.now col (λ s. is_of form s ≡ true) }
    ensures none { result ≡ false → EachText table.now col (λ s. is_of form s ≡ false) }
{
    for row in 0..table.rows() {
        if let Some(text) = text_at(table, row, col) {
            if is_of(form, text) {
                return true;
            }
        }
    }
    false
}

// The cell in this row, the first one of its column that isn't a number.
fn misfit_at(alloc: Global, table: &Table, row: u64, col: usize) -> Result<Misfit, AllocError>
    requires col { col < length table.now.types }
    requires row { IsFirstNotOf form.Number table.now col row }
    requires others { SomeText table.now col (λ s. is_of form.Number s ≡ true) }
    ensures { IfOk result (IsMisfit table.now col) }
{
    let _rows = table.rows();
    let text = text_at(table, row, col).unwrap_or("");
    Ok(Misfit {
        column: String::from_str(alloc, table.name(col))?,
        row: row + 1,
        text: String::from_str(alloc, text)?,
    })
}

// The first cell of a column that isn't a number, if another one is.
pub(crate) fn misfit_of(
    alloc: Global,
    table: &Table,
    col: usize,
) -> Result<Option<Misfit>, AllocError>
    requires { col < length table.now.types }
    ensures { IfOk result (IsMisfitOf table.now col) }
{
    let Some(row) = first_not_of(Form::Number, table, col) else {
        return Ok(None);
    };
    if !has_one_of(Form::Number, table, col) {
        return Ok(None);
    }
    Ok(Some(misfit_at(alloc, table, row, col)?))
}

/// That cell of each column of a table, in order.
pub(crate) fn misfits_of(alloc: Global, table: &Table) -> Result<Vec<Option<Misfit>>, AllocError>
    ensures { IfOk result (λ misfits. AreMisfits table.now misfits.items) }
{
    let mut misfits = Vec::new(alloc);
    for col in 0..table.columns() {
        let misfit = misfit_of(alloc, table, col)?;
        misfits.push(misfit)?;
    }
    Ok(misfits)
}
