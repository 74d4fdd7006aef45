//! Cells in a scale, and the first of two that is not NULL.

ghost use Rattle.std.specs.Prelude.{◌≡◌, ◌≤◌};
ghost use Rattle.rj_columns.specs.Contents.{content_of, IsInLimits};
ghost use Rattle.rj_columns.specs.Scales.{coalesced, in_scale, HasScaleWithin};

use crate::cell::{Cell, narrow};
use crate::decimal::{Decimal, rescale};

/// A cell's number with this many digits after the point, at most 18 and no fewer than its own. The
/// value stays the same. If the scale is 0, a whole number stays a whole number. A text and a NULL
/// stay unchanged. A decimal has units below 10^18 in size.
#[inline(always)]
pub fn in_scale(cell: Cell<'_>, scale: u8) -> Cell<'_>
    requires limits { IsInLimits (content_of cell) }
    requires scale { scale ≤ 18 }
    requires own { HasScaleWithin scale (content_of cell) }
    ensures { content_of result ≡ in_scale scale (content_of cell.entry) }
{
    match cell {
        Cell::Null => Cell::Null,
        Cell::Int(n) => {
            if scale == 0 {
                return Cell::Int(n);
            }
            Cell::Num {
                units: rescale(Decimal::whole(n), scale),
                scale,
            }
        }
        Cell::Num { units, scale: own } => {
            let number = Decimal {
                units: narrow(units),
                scale: own,
            };
            Cell::Num {
                units: rescale(number, scale),
                scale,
            }
        }
        Cell::Text(text) => Cell::Text(text),
    }
}

/// The first cell, or the second if the first is NULL (SQL-92 6.9, COALESCE).
pub fn coalesce<'a>(first: Cell<'a>, second: Cell<'a>) -> Cell<'a>
    ensures { content_of result ≡ coalesced (content_of first.entry) (content_of second.entry) }
{
    if first.is_null() { second } else { first }
}
