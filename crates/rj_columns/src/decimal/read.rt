//! The reading of a text as a value of a numeric type.

ghost use Rattle.std.specs.Prelude.{◌≡◌, ◌≢◌, ◌<◌, ◌≤◌, ◌^◌, ◌-◌, ◌++◌, ◌∷◌, true, false, SomeIff, IfSome, option_map, length, take, drop, nat_lt, unsigned_abs, ◌+◌, ◌*◌, slice_index};
ghost use Rattle.std.specs.Str.{all_ascii_digits};
ghost use Rattle.std.specs.Str.Parse.{digits_value, digits_value_after, without_leading_sign};
ghost use Rattle.rj_columns.specs.Numbers.{number_of};
ghost use Rattle.rj_columns.specs.NumberOrder.{are_same};
ghost use Rattle.rj_columns.specs.NumbersRead.{AreSmallDigits, IsSize, IsUnsigned, after_point, are_zeros, before_point, fits, has_point, is_unsigned_text, number_in, numeric_of, size_at};

use crate::decimal::Decimal;
use crate::decimal::numeric::NumericType;
use crate::decimal::powers::power_of_ten;

// The most digits of a value, whatever its type.
const MOST_DIGITS: usize = 18;

// A text without its sign.
fn without_sign(text: &[u8]) -> &[u8]
    ensures { result.now ≡ without_leading_sign text.now }
{
    if !text.is_empty() && (text[0] == b'-' || text[0] == b'+') {
        &text[1..]
    } else {
        text
    }
}

// The place of the first point, or the text's length if there is none.
fn point_of(text: &[u8]) -> usize
    ensures inside { result ≤ length text.now }
    ensures before { before_point text.now ≡ take result text.now }
    ensures after { after_point text.now ≡ drop (result + 1) text.now }
    ensures point { has_point text.now ≡ nat_lt result (length text.now) }
{
    for i in 0..text.len() {
        if text[i] == b'.' {
            return i;
        }
    }
    text.len()
}

// Whether a text is zeros alone.
fn is_zeros(text: &[u8]) -> bool
    ensures { result ≡ are_zeros text.now }
{
    for i in 0..text.len() {
        if text[i] != b'0' {
            return false;
        }
    }
    true
}

// A text without its leading zeros.
fn without_zeros(text: &[u8]) -> &[u8]
    ensures digits { all_ascii_digits text.now ≡ all_ascii_digits result.now }
    ensures value { digits_value 10 text.now ≡ digits_value 10 result.now }
    ensures first { 0 < length result.now → slice_index result.now 0 ≢ 48 }
    ensures len { length result.now ≤ length text.now }
{
    for i in 0..text.len() {
        if text[i] != b'0' {
            return &text[i..];
        }
    }
    &text[text.len()..]
}

// The number that a text's digits write when they follow those of another number, where there is
// room for them below 10^18.
fn digits_after(number: u64, text: &[u8]) -> Option<u64>
    requires { (number + 1) * 10 ^ length text.now ≤ 10 ^ 18 }
    ensures { SomeIff result (all_ascii_digits text.now ≡ true) (digits_value_after 10 number text.now) }
{
    let mut value = number;
    for i in 0..text.len() {
        let byte = text[i];
        if !byte.is_ascii_digit() {
            return None;
        }
        value = value * 10 + u64::from(byte - b'0');
    }
    Some(value)
}

// The number that two texts of digits write one after the other, if it is below 10^18: if it has at
// most 18 digits without its leading zeros. The second text has at most 18.
fn digits_together(before: &[u8], after: &[u8]) -> Option<u64>
    requires { length after.now ≤ 18 }
    ensures { SomeIff result (AreSmallDigits (before.now ++ after.now)) (digits_value 10 (before.now ++ after.now)) }
{
    let first = without_zeros(before);
    if first.len() > MOST_DIGITS - after.len() {
        return None;
    }
    let Some(value) = digits_after(0, first) else {
        return None;
    };
    digits_after(value, after)
}

// A number with more zeros at its end, if it is below a power of ten.
fn with_zeros(value: u64, zeros: u8, precision: u8) -> Option<u64>
    requires value { value < 10 ^ 18 }
    requires zeros { zeros ≤ 18 }
    requires precision { precision ≤ 18 }
    ensures { SomeIff result (value * 10 ^ zeros < 10 ^ precision) (value * 10 ^ zeros) }
{
    let size = u128::from(value) * u128::from(power_of_ten(zeros));
    if size < u128::from(power_of_ten(precision)) {
        Some(size as u64)
    } else {
        None
    }
}

// The size that digits before and after the point write, if it fits.
fn size_of(before: &[u8], after: &[u8], kind: NumericType) -> Option<u64>
    ensures size { SomeIff result (IsSize kind.precision kind.scale before.now after.now) (size_at kind.scale before.now after.now) }
    ensures small { IfSome result (λ n. n < 10 ^ 18) }
{
    let kept = after.len().min(usize::from(kind.scale));
    if !is_zeros(&after[kept..]) {
        return None;
    }
    let Some(value) = digits_together(before, &after[..kept]) else {
        return None;
    };
    with_zeros(value, kind.scale - kept as u8, kind.precision)
}

// The size that a text without a sign writes, if it is one and fits.
fn size_in(text: &[u8], kind: NumericType) -> Option<u64>
    ensures size { SomeIff result (IsUnsigned kind.precision kind.scale text.now) (size_at kind.scale (before_point text.now) (after_point text.now)) }
    ensures small { IfSome result (λ n. n < 10 ^ 18) }
{
    let point = point_of(text);
    if point == 0 || point + 1 == text.len() {
        return None;
    }
    let after = if point < text.len() {
        &text[point + 1..]
    } else {
        &text[point..]
    };
    size_of(&text[..point], after, kind)
}

// The units that a text writes in the scale of a numeric type, if it is a value of the type.
fn units_in_type(text: &[u8], kind: NumericType) -> Option<i64>
    ensures { result ≡ numeric_of kind.precision kind.scale text.now }
{
    let Some(size) = size_in(without_sign(text), kind) else {
        return None;
    };
    if !text.is_empty() && text[0] == b'-' {
        Some(-(size as i64))
    } else {
        Some(size as i64)
    }
}

/// The value that a text writes, in the scale of a numeric type, if it is a value of the type. The
/// text is an optional sign, one or more digits, and perhaps a point and one or more digits.
/// Leading zeros are allowed. The digits past the type's scale are zeros, and the value times
/// 10^scale is below 10^precision in size. `None` exactly if the text is no such value.
pub fn read_numeric(text: &[u8], kind: NumericType) -> Option<Decimal>
    ensures units { option_map (λ d. d.units) result ≡ numeric_of kind.precision kind.scale text.now }
    ensures scale { IfSome result (λ d. d.scale ≡ kind.scale) }
    ensures small { IfSome result (λ d. unsigned_abs d.units < 10 ^ kind.precision) }
    ensures value { IfSome result (λ d. are_same (number_in text.now) (number_of d) ≡ true) }
{
    match units_in_type(text, kind) {
        Some(units) => Some(Decimal {
            units,
            scale: kind.scale,
        }),
        None => None,
    }
}
