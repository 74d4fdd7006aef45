//! The parts of a text that writes a number: its sign, its digits and its point.

ghost use Rattle.std.specs.Prelude.{◌≡◌, ◌≤◌, ◌+◌, length, take, drop, nat_lt};
ghost use Rattle.std.specs.Str.Parse.{without_leading_sign};
ghost use Rattle.rj_columns.specs.NumbersRead.{after_point, are_digits, before_point, has_point, is_unsigned_text};

/// A text without its sign, a minus or a plus at its beginning. A text without a sign is itself.
pub fn without_sign(text: &[u8]) -> &[u8]
    ensures { result.now ≡ without_leading_sign text.now }
{
    if !text.is_empty() && (text[0] == b'-' || text[0] == b'+') {
        &text[1..]
    } else {
        text
    }
}

/// The place of a text's first point, counted from 0, or the text's length if it has none.
pub fn place_of_point(text: &[u8]) -> usize
    ensures inside { result ≤ length text.now }
    ensures before { before_point text.now ≡ take result text.now }
    ensures after { after_point text.now ≡ drop (result + 1) text.now }
    ensures point { has_point text.now ≡ nat_lt result (length text.now) }
{
    for i in 0..text.len() {
        if text[i] == b'.' {
            return i;
        }
    }
    text.len()
}

/// Whether a text is digits alone, one or more.
pub fn are_digits(text: &[u8]) -> bool
    ensures { result ≡ are_digits text.now }
{
    for i in 0..text.len() {
        if !text[i].is_ascii_digit() {
            return false;
        }
    }
    !text.is_empty()
}

/// Whether a text is digits, and perhaps a point and digits: a number without a sign.
pub fn is_unsigned_text(text: &[u8]) -> bool
    ensures { result ≡ is_unsigned_text text.now }
{
    let point = place_of_point(text);
    if point == text.len() {
        return are_digits(text);
    }
    are_digits(&text[..point]) && are_digits(&text[point + 1..])
}
