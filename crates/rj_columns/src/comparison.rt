//! How two cells compare.

ghost use Rattle.std.specs.Prelude.{◌≡◌, ◌↔◌, ◌||◌, Some, IsNone, IsTrue};
ghost use Rattle.rj_columns.specs.Contents.{content_of, IsInLimits};
ghost use Rattle.rj_columns.specs.Compare.{compared, are_equal, comparand_of, is_null, order_of, seen, AreComparable, AreOneKind};

use crate::cell::{Cell, narrow};
use crate::decimal::Decimal;
use std::cmp::Ordering;

// A cell as a comparison sees it.
#[derive(Clone, Copy)]
pub(crate) enum Value<'a> {
    Null,
    Number(Decimal),
    Text(&'a str),
}

// What a cell is in a comparison.
#[inline]
fn value_of(cell: Cell<'_>) -> Value<'_>
    requires { IsInLimits (content_of cell) }
    ensures { comparand_of result ≡ seen (content_of cell.entry) }
{
    match cell {
        Cell::Null => Value::Null,
        Cell::Int(n) => Value::Number(Decimal::whole(n)),
        Cell::Num { units, scale } => Value::Number(Decimal {
            units: narrow(units),
            scale,
        }),
        Cell::Text(text) => Value::Text(text),
    }
}

/// How two cells compare (SQL-92 8.2). Numbers compare by their exact values, whatever their types
/// and scales, and texts by their UTF-8 bytes without padding. `None` if either is NULL. Cells that
/// are not NULL have to be both numbers or both texts. A decimal has a scale of at most 18 and
/// units below 10^18 in size.
#[inline]
pub fn compare(left: Cell<'_>, right: Cell<'_>) -> Option<Ordering>
    requires { AreComparable (content_of left) (content_of right) }
    ensures order { result ≡ compared (content_of left.entry) (content_of right.entry) }
    ensures none { IsNone result ↔ IsTrue (is_null (content_of left.entry) || is_null (content_of right.entry)) }
    ensures equal { (result ≡ Some Ordering.Equal) ↔ IsTrue (are_equal (content_of left.entry) (content_of right.entry)) }
{
    match value_of(left) {
        Value::Null => None,
        Value::Number(m) => match value_of(right) {
            Value::Null => None,
            Value::Number(n) => Some(crate::decimal::compare(m, n)),
            Value::Text(_) => unreachable!(),
        },
        Value::Text(s) => match value_of(right) {
            Value::Null => None,
            Value::Number(_) => unreachable!(),
            Value::Text(t) => Some(s.cmp(&t)),
        },
    }
}

/// Whether two cells are equal: neither is NULL, and both are numbers of one value, whatever their
/// types and scales, or texts of the same bytes. A decimal has a scale of at most 18 and units
/// below 10^18 in size.
#[inline]
pub fn are_equal_cells(left: Cell<'_>, right: Cell<'_>) -> bool
    requires left { IsInLimits (content_of left) }
    requires right { IsInLimits (content_of right) }
    ensures { result ≡ are_equal (content_of left.entry) (content_of right.entry) }
{
    match value_of(left) {
        Value::Null => false,
        Value::Number(m) => match value_of(right) {
            Value::Number(n) => crate::decimal::compare(m, n) == Ordering::Equal,
            Value::Null | Value::Text(_) => false,
        },
        Value::Text(s) => match value_of(right) {
            Value::Text(t) => s == t,
            Value::Null | Value::Number(_) => false,
        },
    }
}
