//! The place in the fields of a record.

ghost use Rattle.std.specs.Prelude.{◌≡◌, ◌<◌, ◌≤◌, ◌+◌, ◌*◌, ◌^◌, [], None, Some, IfSome, true, if◌then◌else◌, slice_index_or};
ghost use Rattle.std.specs.Str.{all_ascii_digits};
ghost use Rattle.std.specs.Str.Parse.{digits_value};
ghost use Rattle.csv.specs.Records.{fields_of};
ghost use Rattle.rj_shards.specs.Places.{lone_left_place};
ghost use Rattle.rj_shards.specs.MergeTexts.{is_above, is_number, number_of, place_in, place_of};

use crate::merge::columns::Columns;
use crate::merge::options::MergeOptions;
use crate::merge::place::Place;
use crate::merge::refused::MergeRefused;
use csv::ByteRecord;
use rj_settings::RowOrder;
use std::str;

// One more digit fits behind each number up to this one.
const SAFE: u64 = 1_000_000_000_000_000_000;

// A number with one more digit, if it fits 64 bits.
#[inline(always)]
fn with_digit(value: u64, digit: u64) -> Option<u64>
    requires { digit < 10 }
    ensures some { IfSome result (λ n. n ≡ value * 10 + digit) }
    ensures none { result ≡ None → 2 ^ 64 ≤ value * 10 + digit }
{
    if value <= SAFE {
        return Some(value * 10 + digit);
    }
    value.checked_mul(10)?.checked_add(digit)
}

// The number that a field of digits writes, if it fits 64 bits.
fn whole_number(field: &[u8]) -> Option<u64>
    ensures { result ≡ (if is_number field.now then Some (digits_value 10 field.now) else None) }
{
    if field.is_empty() {
        return None;
    }
    let mut value = 0u64;
    for i in 0..field.len() {
        let byte = field[i];
        if !byte.is_ascii_digit() {
            return None;
        }
        value = with_digit(value, u64::from(byte - b'0'))?;
    }
    Some(value)
}

// The content of a field of a place: no number if it is NULL, or a number; or nothing if it is
// neither.
fn told_number(field: &[u8], null: &[u8]) -> Option<Option<u64>>
    ensures { result ≡ number_of null.now field.now }
{
    if field == null {
        return Some(None);
    }
    match whole_number(field) {
        Some(n) => Some(Some(n)),
        None => None,
    }
}

// The place of an unmatched left row.
fn lone_left(order: RowOrder, left: u64) -> Place
    ensures { result ≡ lone_left_place order left }
{
    match order {
        RowOrder::PairsFirst => Place::LoneLeft(left),
        RowOrder::LeftFirst => Place::LoneAmongPairs(left),
    }
}

// The place that two numbers give.
fn place_at(
    order: RowOrder,
    input: u32,
    row: u64,
    left: Option<Option<u64>>,
    right: Option<Option<u64>>,
) -> Result<Place, MergeRefused>
    ensures { result ≡ place_of order input row left right }
{
    match (left, right) {
        (Some(Some(left)), Some(Some(right))) => Ok(Place::Pair(left, right)),
        (Some(Some(left)), Some(None)) => Ok(lone_left(order, left)),
        (Some(None), Some(Some(right))) => Ok(Place::LoneRight(right)),
        (Some(None), Some(None)) => Err(MergeRefused::NoPlace(input, row)),
        (None, _) => Err(MergeRefused::BadPlace(input, row)),
        (Some(_), None) => Err(MergeRefused::BadPlace(input, row)),
    }
}

// The content of the field at this place of a record. A place past its end is empty.
fn number_at(fields: &ByteRecord, at: usize, null: &[u8]) -> Option<Option<u64>>
    ensures { result ≡ number_of null.now (slice_index_or (fields_of fields.now) at []) }
{
    match fields.get(at) {
        Some(field) => told_number(field, null),
        None => told_number(&[], null),
    }
}

/// The place in a record.
pub(crate) fn read_place(
    input: u32,
    row: u64,
    fields: &ByteRecord,
    columns: Columns,
    how: &MergeOptions<'_>,
) -> Result<Place, MergeRefused>
    ensures { result ≡ place_in how.now columns input row (fields_of fields.now) }
{
    let left = number_at(fields, columns.left, how.null);
    let right = number_at(fields, columns.right, how.null);
    place_at(how.order, input, row, left, right)
}

/// Whether a place is above another one, if there is that one.
pub(crate) fn stands_above(before: Option<Place>, place: Place) -> bool
    ensures { result ≡ is_above before place }
{
    match before {
        Some(before) => before < place,
        None => true,
    }
}
