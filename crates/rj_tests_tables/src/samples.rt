//! Small tables, and joins that are bound to them.

ghost use Rattle.std.specs.Prelude.{◌≡◌, ◌≤◌, IfSome, length, true};
ghost use Rattle.rj_condition.specs.Fits.{fits};

use rj_columns::{Cell, ColumnType, Table, TableBuilder};
use rj_condition::{BoundJoin, bind, parse};
use std::alloc::Global;

const INT: ColumnType = ColumnType::Int;

/// A table of whole numbers in one column, `k`.
#[tactic(auto, unfolding(rj_columns::specs::Tables::FitsTypes, rj_columns::specs::Tables::FitsAt))]
pub fn keyed(alloc: Global, keys: &[i64]) -> Option<Table>
    requires { length keys.now ≤ 1000 }
    ensures { IfSome result (λ t. (length t.types ≡ 1) × (length t.rows ≡ length keys.now)) }
{
    let Ok(mut builder) = TableBuilder::new(alloc, [b"k".as_slice()].as_slice(), [INT].as_slice())
    else {
        return None;
    };
    for row in 0..keys.len() {
        if builder.push_row([Cell::Int(keys[row])].as_slice()).is_err() {
            return None;
        }
    }
    Some(builder.finish())
}

/// A table without rows whose columns, `a` and `b`, are of whole numbers.
pub fn empty(alloc: Global) -> Option<Table> {
    let names = [b"a".as_slice(), b"b".as_slice()];
    match TableBuilder::new(alloc, names.as_slice(), [INT, INT].as_slice()) {
        Ok(builder) => Some(builder.finish()),
        Err(_) => None,
    }
}

/// The join of a text, bound to a table and itself.
pub fn join_of(alloc: Global, text: &str, table: &Table) -> Option<BoundJoin>
    ensures { IfSome result (λ join. fits join table.now.types table.now.types ≡ true) }
{
    let Ok(clause) = parse(alloc, text) else {
        return None;
    };
    match bind(alloc, &clause, table, table) {
        Ok(join) => Some(join),
        Err(_) => None,
    }
}
