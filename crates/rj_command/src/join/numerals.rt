//! How a text writes a number.

ghost use Rattle.std.specs.Prelude.{◌≡◌};
ghost use Rattle.rj_command.specs.Alike.{has_leading_zero, has_trailing_zero, is_minus_zero, is_numeral, is_of, is_plain, starts_with_plus};

use rj_line::suggest::{are_digits, is_unsigned_text, place_of_point, without_sign};

/// What a text may be.
#[derive(Clone, Copy)]
pub(crate) enum Spelling {
    /// An optional sign, digits, and perhaps a point and digits.
    Numeral,
    /// The same without a plus and without zeros that could be left out.
    Plain,
    /// Digits alone, so many.
    Code(usize),
}

fn is_numeral(text: &[u8]) -> bool
    ensures { result ≡ is_numeral text.now }
{
    is_unsigned_text(without_sign(text))
}

fn starts_with_plus(text: &[u8]) -> bool
    ensures { result ≡ starts_with_plus text.now }
{
    !text.is_empty() && text[0] == b'+'
}

// Whether a zero comes before another digit.
fn has_leading_zero(size: &[u8]) -> bool
    ensures { result ≡ has_leading_zero size.now }
{
    size.len() > 1 && size[0] == b'0' && size[1].is_ascii_digit()
}

// Whether a zero is at the end, behind a point.
fn has_trailing_zero(size: &[u8]) -> bool
    ensures { result ≡ has_trailing_zero size.now }
{
    !size.is_empty() && size[size.len() - 1] == b'0' && place_of_point(size) < size.len()
}

fn is_minus_zero(text: &[u8]) -> bool
    ensures { result ≡ is_minus_zero text.now }
{
    text.len() == 2 && text[0] == b'-' && text[1] == b'0'
}

// Whether a text is a numeral without a plus and without zeros that could be left out.
fn is_plain(text: &[u8]) -> bool
    ensures { result ≡ is_plain text.now }
{
    let size = without_sign(text);
    is_numeral(text)
        && !starts_with_plus(text)
        && !has_leading_zero(size)
        && !has_trailing_zero(size)
        && !is_minus_zero(text)
}

/// Whether a text is of this spelling.
pub(crate) fn is_of(spelling: Spelling, text: &[u8]) -> bool
    ensures { result ≡ is_of spelling text.now }
{
    match spelling {
        Spelling::Numeral => is_numeral(text),
        Spelling::Plain => is_plain(text),
        Spelling::Code(digits) => are_digits(text) && text.len() == digits,
    }
}
