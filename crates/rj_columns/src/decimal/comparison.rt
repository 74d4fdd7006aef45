//! How two decimals compare.

ghost use Rattle.std.specs.Prelude.{◌≡◌, ◌↔◌, ◌≤◌, ◌-◌, true, ◌*ℤ◌};
ghost use Rattle.rj_columns.specs.Numbers.{finer, number_of};
ghost use Rattle.rj_columns.specs.NumberOrder.{ordered, are_same};

use crate::decimal::Decimal;
use crate::decimal::powers::power_of_ten;
use std::cmp::Ordering;

// Units with more digits after the point.
#[inline]
fn finer_units(units: i64, digits: u8) -> i128
    requires { digits ≤ 18 }
    ensures { result ≡ finer units digits }
{
    i128::from(units) * i128::from(power_of_ten(digits))
}

/// The units of a decimal in another scale. The scale is at least its own and at most 18. The value
/// stays the same.
#[inline]
#[tactic(auto, using(crate::proofs::NumberOrders::same_as_finer))]
pub fn rescale(decimal: Decimal, scale: u8) -> i128
    requires finer { decimal.scale ≤ scale }
    requires limit { scale ≤ 18 }
    ensures units { result ≡ finer decimal.units (scale - decimal.scale) }
    ensures value { are_same (number_of decimal) (record { units = result; scale = scale }) ≡ true }
{
    finer_units(decimal.units, scale - decimal.scale)
}

/// How two decimals compare (SQL-92 8.2): exactly, by their values, whatever their scales.
#[inline]
pub fn compare(left: Decimal, right: Decimal) -> Ordering
    ensures order { result ≡ ordered (number_of left) (number_of right) }
    ensures equal { (result ≡ Ordering.Equal) ↔ (are_same (number_of left) (number_of right) ≡ true) }
{
    if left.scale == right.scale {
        return left.units.cmp(&right.units);
    }
    let scale = left.scale.max(right.scale);
    rescale(left, scale).cmp(&rescale(right, scale))
}
