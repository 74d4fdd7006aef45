//! Whether the values of two columns are equal, as their stores keep them.

ghost use Rattle.std.specs.Prelude.{◌≡◌, ◌<◌, ◌≤◌, length, map, slice_index_or};
ghost use Rattle.std.specs.Option.{option_copied};
ghost use Rattle.rj_columns.specs.Compare.{are_equal};
ghost use Rattle.rj_columns.specs.Contents.{nothing};
ghost use Rattle.rj_columns.specs.Internal.Stores.{decimal_content, number_content, text_content};

use crate::decimal::{Decimal, compare};
use crate::ints::Ints;
use std::cmp::Ordering;

// Whether the whole numbers at two rows are the same one, and neither is NULL.
#[inline]
pub(crate) fn are_same_ints(left: &Ints, i: usize, right: &Ints, j: usize) -> bool
    requires left { i < length left.now }
    requires right { j < length right.now }
    ensures { result ≡ are_equal (slice_index_or (map number_content left.now) i nothing) (slice_index_or (map number_content right.now) j nothing) }
{
    match left.get(i) {
        None => false,
        Some(m) => match right.get(j) {
            None => false,
            Some(n) => m == n,
        },
    }
}

// Whether both are units, and of the same number, each in its scale.
#[inline]
pub(crate) fn are_same_decimals(left: Option<i64>, scale: u8, right: Option<i64>, other: u8) -> bool
    requires left { scale ≤ 18 }
    requires right { other ≤ 18 }
    ensures { result ≡ are_equal (decimal_content scale left) (decimal_content other right) }
{
    match left {
        None => false,
        Some(units) => match right {
            None => false,
            Some(others) => {
                let m = Decimal { units, scale };
                let n = Decimal {
                    units: others,
                    scale: other,
                };
                compare(m, n) == Ordering::Equal
            }
        },
    }
}

// Whether both are texts, and of the same bytes.
#[inline]
pub(crate) fn are_same_texts(left: Option<&str>, right: Option<&str>) -> bool
    ensures { result ≡ are_equal (text_content (option_copied left.entry)) (text_content (option_copied right.entry)) }
{
    match left {
        None => false,
        Some(s) => match right {
            None => false,
            Some(t) => s == t,
        },
    }
}
