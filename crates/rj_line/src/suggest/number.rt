//! The forms of numbers that a cell may have.

ghost use Rattle.std.specs.Prelude.{◌≡◌, length};
ghost use Rattle.rj_csv_io.specs.Typed.{is_int_text};
ghost use Rattle.rj_line.specs.Suggested.{digits_of, has_no_leading_zero, is_of};

use crate::suggest::numeral::{is_unsigned_text, place_of_point, without_sign};

// A form of numbers.
#[derive(Clone, Copy)]
pub(crate) enum Form {
    // A whole number of 64 bits.
    Int,
    // A number with any digits before and after its point.
    Number,
}

// A part of a number.
#[derive(Clone, Copy)]
pub(crate) enum Part {
    // The digits before the point.
    Before,
    // Those after it.
    After,
}

// Whether a text is an optional sign and digits, of a number of 64 bits.
fn is_int(text: &str) -> bool
    ensures { result ≡ is_int_text text.now }
{
    match text.parse::<i64>() {
        Ok(_) => true,
        Err(_) => false,
    }
}

// Whether no zero comes before another digit.
fn has_no_leading_zero(digits: &[u8]) -> bool
    ensures { result ≡ has_no_leading_zero digits.now }
{
    digits.len() <= 1 || digits[0] != b'0'
}

// The digits of a part of a number, as a text has them.
fn digits_of(part: Part, text: &[u8]) -> &[u8]
    ensures { result.now ≡ digits_of part text.now }
{
    let text = without_sign(text);
    let point = place_of_point(text);
    match part {
        Part::Before => &text[..point],
        Part::After => if point < text.len() {
            &text[point + 1..]
        } else {
            &text[point..]
        },
    }
}

// How many digits that part has.
pub(crate) fn count_digits(part: Part, text: &str) -> usize
    ensures { result ≡ length (digits_of part text.now) }
{
    digits_of(part, text.as_bytes()).len()
}

// Whether a text is a number of this form, with no zero before its other digits.
pub(crate) fn is_of(form: Form, text: &str) -> bool
    ensures { result ≡ is_of form text.now }
{
    let is_number = match form {
        Form::Int => is_int(text),
        Form::Number => is_unsigned_text(without_sign(text.as_bytes())),
    };
    is_number && has_no_leading_zero(digits_of(Part::Before, text.as_bytes()))
}
