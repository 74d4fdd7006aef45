//! The least form of a decimal, and its hash.

ghost use Rattle.std.specs.Prelude.{◌≡◌, ◌↔◌, true, pos};
ghost use Rattle.std.specs.Int.RustNames.{int_div};
ghost use Rattle.rj_columns.specs.Numbers.{Number, number_of};
ghost use Rattle.rj_columns.specs.NumberOrder.{are_same};
ghost use Rattle.rj_columns.specs.LeastNumbers.{ends_with_zero, hash_of, IsLeast, least_of};

use crate::decimal::Decimal;

// Whether the units end with a zero.
#[inline]
fn has_last_zero(units: i64) -> bool
    ensures { result ≡ ends_with_zero units }
{
    units % 10 == 0
}

// The units without their last digit.
#[inline]
fn tenth(units: i64) -> i64
    ensures { result ≡ int_div units (pos 10) }
{
    units / 10
}

// Drops the trailing zeros after the point.
fn drop_zeros(decimal: Decimal) -> Decimal
    ensures { number_of result ≡ least_of (number_of decimal) }
{
    let mut units = decimal.units;
    let mut scale = decimal.scale;
    while scale > 0 && has_last_zero(units) {
        units = tenth(units);
        scale -= 1;
    }
    Decimal { units, scale }
}

/// The same value in its least scale, without trailing zeros after the point. Equal values have one
/// least form, and values with one least form are equal.
pub fn least(decimal: Decimal) -> Decimal
    ensures form { number_of result ≡ least_of (number_of decimal) }
    ensures value { are_same (number_of decimal) (number_of result) ≡ true }
    ensures least { IsLeast (number_of result) }
    ensures one { (x : Number) → (are_same (number_of decimal) x ≡ true) ↔ (number_of result ≡ least_of x) }
{
    drop_zeros(decimal)
}

/// The hash of a decimal. Let u and t be the units and the scale of its least form. The hash is u
/// modulo 2^64 if t is 0, else u * 31 + t modulo 2^64. Equal values have one hash, whatever their
/// scales.
#[inline]
pub fn hash(decimal: Decimal) -> u64
    ensures value { result ≡ hash_of (number_of decimal) }
    ensures lawful { (x : Number) → are_same (number_of decimal) x ≡ true → hash_of x ≡ result }
{
    let form = least(decimal);
    let units = form.units.cast_unsigned();
    if form.scale == 0 {
        units
    } else {
        units.wrapping_mul(31).wrapping_add(u64::from(form.scale))
    }
}
