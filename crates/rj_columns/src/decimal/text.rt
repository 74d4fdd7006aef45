//! The text of a number in a scale.

ghost use Rattle.std.specs.Prelude.{◌≡◌, ◌<◌, ◌≤◌, ◌^◌, ◌+◌, ◌-◌, ◌/◌, ◌%◌, ◌++◌, ◌∷◌, ℕ, unsigned_abs, length, drop};
ghost use Rattle.std.specs.Fmt.{decimal};
ghost use Rattle.rj_columns.specs.NumbersRead.{numeric_of};
ghost use Rattle.rj_columns.specs.NumbersWritten.{fraction_text, last_digits, text_of};

// A sign, a digit, a point and the 255 digits of the largest scale: no text is longer.
const LONGEST: usize = 258;

/// A buffer for the text of one number, reused for the next.
#[derive(Drop)]
pub struct DecimalBuffer {
    bytes: [u8; LONGEST],
}

// A number without its last digit, and the text of that digit.
#[inline]
fn split_digit(number: u128) -> (u128, u8)
    ensures rest { result.0 ≡ number / 10 }
    ensures digit { result.1 ≡ 48 + number % 10 }
{
    match u64::try_from(number) {
        Ok(small) => (u128::from(small / 10), b'0' + (small % 10) as u8),
        Err(_) => (number / 10, b'0' + (number % 10) as u8),
    }
}

// Writes the last digits of a number before a place, and returns the number without them.
fn put_digits(bytes: &mut [u8], end: usize, count: usize, number: u128) -> u128
    requires room { count ≤ end }
    requires end { end ≤ length bytes.old }
    ensures rest { result ≡ number / 10 ^ count }
    ensures text { drop (end - count) bytes.new ≡ last_digits count number ++ drop end bytes.old }
{
    let mut rest = number;
    for i in 0..count {
        let (tenth, digit) = split_digit(rest);
        bytes[end - 1 - i] = digit;
        rest = tenth;
    }
    rest
}

// Writes the digits of a number before a place, and returns where they begin.
fn put_number(bytes: &mut [u8], end: usize, number: u64) -> usize
    requires some { 2 ≤ end }
    requires end { end ≤ length bytes.old }
    requires room { number < 10 ^ (end - 1) }
    ensures inside { result ≤ end }
    ensures some { 0 < result }
    ensures text { drop result bytes.new ≡ decimal number ++ drop end bytes.old }
{
    let mut at = end - 1;
    bytes[at] = b'0' + (number % 10) as u8;
    let mut rest = number / 10;
    while rest > 0 {
        at -= 1;
        bytes[at] = b'0' + (rest % 10) as u8;
        rest /= 10;
    }
    at
}

// The same for a number of 128 bits.
fn put_wide(bytes: &mut [u8], end: usize, number: u128) -> usize
    requires some { 2 ≤ end }
    requires end { end ≤ length bytes.old }
    requires room { number < 10 ^ (end - 1) }
    ensures inside { result ≤ end }
    ensures some { 0 < result }
    ensures text { drop result bytes.new ≡ decimal number ++ drop end bytes.old }
{
    let mut at = end;
    let mut rest = number;
    while rest >= 1 << 64 {
        at -= 1;
        bytes[at] = b'0' + (rest % 10) as u8;
        rest /= 10;
    }
    put_number(bytes, at, rest as u64)
}

// Writes the point and the digits after it to the end of the bytes, and returns where they begin
// and the whole part.
fn put_fraction(bytes: &mut [u8; LONGEST], scale: u8, size: u128) -> (usize, u128)
    ensures inside { result.0 ≤ 258 }
    ensures room { 257 ≤ result.0 + scale }
    ensures text { drop result.0 bytes.new ≡ fraction_text scale (size % 10 ^ scale) }
    ensures whole { result.1 ≡ size / 10 ^ scale }
{
    if scale == 0 {
        return (LONGEST, size);
    }
    let digits = usize::from(scale);
    let whole = put_digits(bytes, LONGEST, digits, size);
    let point = LONGEST - 1 - digits;
    bytes[point] = b'.';
    (point, whole)
}

// Writes the text of a number to the end of the bytes, and returns where it begins.
fn put_text(bytes: &mut [u8; LONGEST], units: i128, scale: u8) -> usize
    ensures inside { result ≤ 258 }
    ensures text { drop result bytes.new ≡ text_of scale units }
{
    let (point, whole) = put_fraction(bytes, scale, units.unsigned_abs());
    let start = put_wide(bytes, point, whole);
    if units >= 0 {
        return start;
    }
    bytes[start - 1] = b'-';
    start - 1
}

impl DecimalBuffer {
    /// An empty buffer.
    pub fn new() -> DecimalBuffer {
        DecimalBuffer {
            bytes: [0; LONGEST],
        }
    }

    /// The text of the number units / 10^scale: `-` if it is below zero, no leading zeros but for
    /// one before the point, and exactly `scale` digits after it. Scale 0 has no point. A numeric
    /// type of this scale that has room for the value reads it back.
    pub fn format(&mut self, units: i128, scale: u8) -> &[u8]
        ensures text { result.now ≡ text_of scale units }
        ensures back { (p : ℕ) → p ≤ 18 → unsigned_abs units < 10 ^ p → numeric_of p scale result.now ≡ Some units }
    {
        let start = put_text(&mut self.bytes, units, scale);
        &self.bytes[start..]
    }
}
