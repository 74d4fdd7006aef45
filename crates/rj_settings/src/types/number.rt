//! Numbers of one or two digits.

ghost use Rattle.std.specs.Prelude.{◌≡◌, ◌≢◌, ◌<◌, ◌≤◌, ◌-◌, ◌+◌, ◌*◌, ℕ, IfSome, IfNone, SomeIff};
ghost use Rattle.std.specs.Fmt.{decimal};

// The value of a digit.
fn digit(byte: u8) -> Option<u8>
    ensures { SomeIff result ((48 ≤ byte) × (byte ≤ 57)) (byte - 48) }
{
    if byte.is_ascii_digit() {
        Some(byte - b'0')
    } else {
        None
    }
}

// The number that two digits write, the first of which isn't zero.
fn two_digits(tens: u8, ones: u8) -> Option<u8>
    ensures { SomeIff result ((49 ≤ tens) × (tens ≤ 57) × (48 ≤ ones) × (ones ≤ 57)) ((tens - 48) * 10 + (ones - 48)) }
{
    if tens != b'0' && tens.is_ascii_digit() && ones.is_ascii_digit() {
        Some((tens - b'0') * 10 + (ones - b'0'))
    } else {
        None
    }
}

/// The number that one or two digits without a leading zero write.
pub(crate) fn small_number(digits: &[u8]) -> Option<u8>
    ensures found { IfSome result (λ n. digits.now ≡ decimal n) }
    ensures missing { IfNone result ((n : ℕ) → n < 100 → digits.now ≢ decimal n) }
{
    match digits {
        [ones] => digit(*ones),
        [tens, ones] => two_digits(*tens, *ones),
        _ => None,
    }
}
