//! Tables of one column of keys, and the join of two of them.
ghost use Rattle.std.specs.Prelude.{◌≡◌, ◌∷◌, [], true, IfOk, IfSome, OnOk};
ghost use Rattle.rj_columns.specs.declared.cell.ColumnType.TheVariants as kind;
ghost use Rattle.rj_condition.specs.Fits.{fits};

use rj_columns::{Cell, ColumnType, Table, TableBuilder};
use rj_condition::{BoundJoin, bind, parse};
use std::alloc::{AllocError, Global};
use std::test::Fail;

/// A table of one column. It has a drop of its own, so that its table's isn't written out at each
/// place where it is dropped.
pub struct Column {
    pub table: Table,
}

impl Drop for Column {
    fn drop(self) {
        let Column { table: _ } = self;
    }
}

/// The join of two tables by their keys; none when memory runs out.
pub fn join_by_keys(alloc: Global, left: &Table, right: &Table) -> Option<BoundJoin>
    ensures { IfSome result (λ join. fits join left.now.types right.now.types ≡ true) }
{
    let Ok(clause) = parse(alloc, "JOIN USING (k)") else {
        return None;
    };
    match bind(alloc, &clause, left, right) {
        Ok(join) => Some(join),
        Err(_) => None,
    }
}

// Adds a row with this key, if there are fewer than 10,000.
#[tactic(auto, unfolding(rj_columns::specs::Tables::FitsTypes, rj_columns::specs::Tables::FitsAt))]
fn push_key(builder: &mut TableBuilder, key: i64) -> Result<(), AllocError>
    requires { builder.old.table.types ≡ kind.Int ∷ [] }
    ensures { OnOk result (builder.new.table.types ≡ builder.old.table.types) }
{
    if builder.rows() < 10_000 {
        builder.push_row([Cell::Int(key)].as_slice())?;
    }
    Ok(())
}

/// The column `k` with these keys.
pub fn keys(alloc: Global, keys: &[i64]) -> Result<Column, Fail>
    ensures { IfOk result (λ c. c.table.types ≡ kind.Int ∷ []) }
{
    let names = [b"k".as_slice()];
    let mut builder = TableBuilder::new(alloc, names.as_slice(), [ColumnType::Int].as_slice())?;
    for key in keys {
        push_key(&mut builder, *key)?;
    }
    Ok(Column {
        table: builder.finish(),
    })
}

/// The column `k` with this many keys, which count from 0.
pub fn first_keys(alloc: Global, count: i64) -> Result<Column, Fail> {
    let mut numbers = Vec::new(alloc);
    for number in 0..count {
        numbers.push(number)?;
    }
    keys(alloc, &numbers)
}
