//! Which texts may stand for NULL.

ghost use Rattle.std.specs.Prelude.{◌≡◌};
ghost use Rattle.std.specs.List.{list_all};
ghost use Rattle.rj_csv_io.specs.Tables.{are_null_texts, is_null_text, may_stand_in_null};
ghost use Rattle.rj_csv_io.specs.Typed.{null_texts};

// The longest NULL text, in bytes.
const MAX_NULL: usize = 16;

fn is_null_byte(byte: u8) -> bool
    ensures { result ≡ may_stand_in_null byte }
{
    byte > b' ' && byte < 127 && !byte.is_ascii_digit() && byte != b',' && byte != b'"'
}

fn all_null_bytes(bytes: &[u8]) -> bool
    ensures { result ≡ list_all may_stand_in_null bytes.now }
{
    bytes.iter().all(|b| is_null_byte(*b))
}

/// Whether a text may stand for NULL: it has at most 16 bytes, all printable ASCII, and no digit, comma,
/// double quote or space.
pub fn is_lawful_null(null: &str) -> bool
    ensures { result ≡ is_null_text null.now }
{
    null.len() <= MAX_NULL && all_null_bytes(null.as_bytes())
}

// The same, text by text.
fn all_lawful(nulls: &[&str]) -> bool
    ensures { result ≡ list_all (λ n. is_null_text n.now) nulls.now }
{
    nulls.iter().all(|null| is_lawful_null(null))
}

/// Whether each of these texts may stand for NULL.
pub fn are_lawful_nulls(nulls: &[&str]) -> bool
    ensures { result ≡ are_null_texts (null_texts nulls.now) }
{
    all_lawful(nulls)
}
