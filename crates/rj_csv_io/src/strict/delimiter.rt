//! The byte between the fields of a record.

ghost use Rattle.std.specs.Prelude.{◌≡◌, true, false, MatchOption};
ghost use Rattle.rj_csv_io.specs.Grammar.{comma, may_delimit};

use std::marker::Model;

/// The byte between the fields of a record: one byte of ASCII that is no letter, no digit, no
/// double quote, no CR and no LF.
#[derive(Clone, Copy, Debug, PartialEq, Eq)]
pub struct Delimiter {
    byte: u8,
}

impl Model for Delimiter {
    ghost use Rattle.std.specs.Prelude.{◌≡◌, ℕ, true};
    ghost use Rattle.rj_csv_io.specs.Grammar.{may_delimit};

    ghost Value = { ℕ };

    ghost view = { λ d. d.byte };

    ghost invariant = { λ d. may_delimit d.byte ≡ true };

    ghost inverse = { λ n. record { byte = n } };
}

impl Delimiter {
    /// This byte as a delimiter, if it may be one.
    pub fn of(byte: u8) -> Option<Delimiter>
        ensures { MatchOption result (may_delimit byte ≡ false) (λ d. (d ≡ byte) × (may_delimit byte ≡ true)) }
    {
        if may_separate(byte) {
            return Some(Delimiter { byte });
        }
        None
    }

    /// A comma, as RFC 4180 has it.
    pub fn comma() -> Delimiter
        ensures { result ≡ comma }
    {
        Delimiter { byte: b',' }
    }

    /// The delimiter's byte.
    pub fn byte(self) -> u8
        ensures value { result ≡ self }
        ensures lawful { may_delimit result ≡ true }
    {
        self.byte
    }
}

// Whether a byte may be a delimiter.
fn may_separate(byte: u8) -> bool
    ensures { result ≡ may_delimit byte }
{
    byte.is_ascii()
        & !byte.is_ascii_alphanumeric()
        & (byte != b'"')
        & (byte != b'\r')
        & (byte != b'\n')
}
